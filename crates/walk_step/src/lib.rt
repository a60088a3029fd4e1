// A step of a rung walk: the ceiling's climb, a rung a step, under the one of two tables that was in force as the walk began. A public call.
// It uses codes, occupancy, station, entry, rungs, ceiling and walk; its definitions use table and decision, its laws scan and part97.
#![tactic(auto)]

ghost use Rattle.std.specs.Prelude.{◌/◌, ◌<◌, ◌≡◌, length};
ghost use Rattle.ceiling.specs.Ladder.{judge_on, bursts_on};
ghost use Rattle.walk_step.specs.Step.{envelope_so_far, rung_so_far, ended_of, goes_on, refused_step, step_none, step_by, step_under, step_of};

use ceiling::{CeilingAnswer, Ladder};
use codes::Refusal;
use occupancy::Edges;
use rungs::{Call, Rungs};
use station::StationRecord;
use walk::WalkState;

// The answer of a step: the ceiling of the rungs judged so far, and whether the walk is over.
#[derive(Clone, Copy)]
pub struct StepAnswer {
    pub state: WalkState,
    pub over: bool,
    pub ceiling: CeilingAnswer,
}

// The envelope and the rung of those judged so far.
fn envelope_so_far(w: WalkState) -> Option<Edges>
    ensures { result ≡ envelope_so_far w }
{
    if w.place == 0 {
        None
    } else {
        Some(entry::edges_read(w.occupied))
    }
}

fn rung_so_far(place: u32) -> Option<usize>
    ensures { result ≡ rung_so_far place }
{
    (place as usize).checked_sub(1)
}

// A walk's end. A swap that waited takes force.
#[tactic(auto, unfolding(crate::specs::Step::ended_of))]
fn ended(w: WalkState) -> WalkState
    ensures { result ≡ ended_of w }
{
    if w.waiting == 1 {
        walk::resting(walk::other_image(w.image))
    } else {
        walk::resting(w.image)
    }
}

// A walk that goes on from its place, with what is occupied by then.
#[tactic(auto, unfolding(crate::specs::Step::goes_on))]
fn goes_on(w: WalkState, occupied: Edges) -> WalkState
    requires { w.place < 256 }
    ensures { result ≡ goes_on w occupied }
{
    WalkState {
        occupied,
        place: w.place + 1,
        walking: 1,
        ..w
    }
}

// A refused step: the state as it came, and the ceiling's refusal.
#[tactic(auto, unfolding(crate::specs::Step::refused_step))]
fn refused_step(w: WalkState, n: Refusal) -> StepAnswer
    ensures { result ≡ refused_step w n }
{
    StepAnswer {
        state: w,
        over: false,
        ceiling: CeilingAnswer {
            refusal: Err(n),
            rung: None,
            limit: None,
        },
    }
}

// A step lent no rung at its place.
#[tactic(auto, unfolding(crate::specs::Step::step_none))]
fn step_none(w: WalkState) -> StepAnswer
    ensures { result ≡ step_none w }
{
    StepAnswer {
        state: ended(w),
        over: true,
        ceiling: CeilingAnswer {
            refusal: Ok(()),
            rung: rung_so_far(w.place),
            limit: None,
        },
    }
}

// A step of what is not refused: the rung at its place, judged once.
fn step_by(w: WalkState, ladder: &Ladder) -> StepAnswer
    ensures { result ≡ step_by (judge_on ladder.now.sender) (bursts_on ladder.now.rungs) (length ladder.now.rungs.figures.now / 4) w }
{
    let count = ladder.count();
    let place = w.place as usize;
    if count <= place {
        return step_none(w);
    }
    let more = ladder.rungs.burst(place);
    match ladder.sender.rung_step(envelope_so_far(w), more) {
        Err((reached, f)) => StepAnswer {
            state: ended(w),
            over: true,
            ceiling: CeilingAnswer {
                refusal: Ok(()),
                rung: rung_so_far(w.place),
                limit: Some(ladder.sender.rung_decision(reached, f)),
            },
        },
        Ok(reached) => {
            let over = count <= place + 1;
            StepAnswer {
                state: if over { ended(w) } else { goes_on(w, reached) },
                over,
                ceiling: CeilingAnswer {
                    refusal: Ok(()),
                    rung: Some(place),
                    limit: None,
                },
            }
        }
    }
}

// A step under the walk's image.
#[tactic(auto, unfolding(crate::specs::Step::step_under))]
fn step_under(w: WalkState, q: &Call) -> StepAnswer
    ensures { result ≡ step_under w q.now.record q.now.direction q.now.rungs.ordinary q.now.rungs.floor q.now.image.now
        q.now.rungs.figures.now q.now.rungs.floors.now }
{
    match rungs::ceiling_refusals(q) {
        Err(n) => refused_step(w, n),
        Ok(()) => step_by(w, &Ladder::of(q)),
    }
}

// Judges the rung at the walk's place.
#[tactic(auto, unfolding(crate::specs::Step::step_of))]
pub fn step(
    w: WalkState,
    r: StationRecord,
    direction: u8,
    ordinary: Edges,
    floor: Edges,
    image_0: &[u8],
    image_1: &[u8],
    rungs: &[f64],
    floors: &[u8],
) -> StepAnswer
    ensures { result ≡ step_of w r direction ordinary floor image_0.now image_1.now rungs.now floors.now }
{
    if let Err(n) = walk::state_refusal(w, w.walking == 0, Refusal::Walk) {
        return refused_step(w, n);
    }
    let q = Call {
        record: r,
        direction,
        image: if w.image == 0 { image_0 } else { image_1 },
        rungs: Rungs {
            ordinary,
            floor,
            figures: rungs,
            floors,
        },
    };
    step_under(w, &q)
}

// The ceiling: the fastest rung that may be sent, and the verdict on the first that may not. A public call. It uses codes,
// occupancy, station, transmission, entry, decision, part97, barred and rungs; its definitions use table and verdict, its laws scan.
#![tactic(auto)]

ghost use Rattle.std.specs.Prelude.{◌/◌, ◌≡◌, ◌≤◌, length, IfErr, IsSome, Ok};
ghost use Rattle.codes.specs.Read.{direction_of};
ghost use Rattle.codes.specs.Refusal.{refusal_of};
ghost use Rattle.station.specs.Station.{situation_of};
ghost use Rattle.table.specs.Table.{table_of};
ghost use Rattle.entry.specs.Entry.{edges_read};
ghost use Rattle.rungs.specs.Rungs.{burst_of, ceiling_tests};
ghost use Rattle.ceiling.specs.Ceiling.{joined_of, judge_by, Stepped, climbed, limit_of, ceiling_of};

use codes::{Checked, Direction, EmissionKind};
use decision::Decision;
use occupancy::Edges;
use part97::Finding;
use rungs::{Call, Rungs};
use station::StationRecord;
use transmission::{Station, Transmission};

// A climb: the rungs judged so far, and the decision on the first that is blocked.
#[derive(Clone, Copy)]
pub struct Climb {
    pub envelope: Option<Edges>,
    pub rung: Option<usize>,
    pub limit: Option<Decision>,
}

#[derive(Clone, Copy)]
pub struct CeilingAnswer {
    // Beside the rest: an answer whose refusal nobody looks at must still read Blocked.
    pub refusal: Checked,
    pub rung: Option<usize>,
    // Where a rung is blocked, the whole decision on its envelope.
    pub limit: Option<Decision>,
}

impl CeilingAnswer {
    // The limit; where there is none an absent decision, with the answer's refusal. It is Blocked in every answer.
    pub fn limit_or_absent(self) -> Decision
        ensures { result ≡ limit_of self }
    {
        match self.limit {
            Some(limit) => limit,
            None => decision::absent(self.refusal),
        }
    }
}

// A station that sends data, and in which direction.
#[derive(Drop)]
pub struct Sender<'a> {
    pub station: Station<'a>,
    pub direction: Direction,
}

// A call for a ceiling that is not refused, as it is read.
#[derive(Drop)]
pub struct Ladder<'a> {
    pub sender: Sender<'a>,
    pub rungs: Rungs<'a>,
    pub ghost marked: { length rungs.floors.now ≡ length rungs.figures.now / 4 },
    pub ghost few: { length rungs.figures.now / 4 ≤ 256 },
}

// An envelope, with one burst more.
fn joined(envelope: Option<Edges>, more: Edges) -> Edges
    ensures { result ≡ joined_of envelope more }
{
    match envelope {
        Some(e) => e.union(more),
        None => more,
    }
}

impl<'a> Sender<'a> {
    ghost use Rattle.barred.specs.Barring.{led_on};
    ghost use Rattle.verdict.specs.Verdict.{decision_on};
    ghost use Rattle.ceiling.specs.Ladder.{judge_on, lead_on};

    // The transmission of an envelope: data.
    #[tactic(auto, unfolding(crate::specs::Ceiling::judge_by, crate::specs::Ceiling::lead_by))]
    fn sent(&self, envelope: Edges) -> Transmission<'_>
        ensures judged { decision_on result ≡ judge_on self.now envelope }
        ensures led { led_on result ≡ lead_on self.now envelope }
    {
        Transmission {
            station: &self.station,
            dial: self.station.situation.dial,
            kind: EmissionKind::Data,
            direction: self.direction,
            edges: envelope,
        }
    }

    // One rung judged, with what it adds to the envelope.
    #[tactic(auto, using(crate::specs::Laws::stopped_by, crate::specs::Laws::passed_by))]
    pub fn rung_step(&self, envelope: Option<Edges>, more: Edges) -> Result<Edges, (Edges, Finding)>
        ensures stepped { Stepped (judge_on self.now) (lead_on self.now) envelope more result }
        ensures coded { IfErr result (λ x. IsSome x.1.code) }
    {
        let reached = joined(envelope, more);
        match barred::barring(&self.sent(reached)) {
            Some(f) => Err((reached, f)),
            None => Ok(reached),
        }
    }

    // The decision on an envelope that a step stopped at. Nothing is judged again.
    pub fn rung_decision(&self, envelope: Edges, f: Finding) -> Decision
        ensures { result ≡ lead_on self.now envelope f }
    {
        barred::answer(&self.sent(envelope), f)
    }
}

impl<'a> Ladder<'a> {
    ghost use Rattle.ceiling.specs.Ladder.{judge_on, bursts_on};

    // The call, read.
    #[tactic(auto, using(rungs::specs::Laws::rungs_marked, rungs::specs::Laws::rungs_few))]
    pub fn of(q: &Call<'a>) -> Self
        requires { refusal_of (ceiling_tests q.now.record q.now.direction q.now.rungs.ordinary q.now.rungs.floor q.now.image.now
            q.now.rungs.figures.now q.now.rungs.floors.now) ≡ Ok tt }
        ensures judges { judge_on result.sender ≡ judge_by (table_of q.now.image.now) (situation_of q.now.record) (direction_of q.now.direction) }
        ensures bursts { bursts_on result.rungs ≡ burst_of (edges_read q.now.rungs.ordinary) (edges_read q.now.rungs.floor)
            q.now.rungs.figures.now q.now.rungs.floors.now }
        ensures counts { length result.rungs.figures.now ≡ length q.now.rungs.figures.now }
    {
        Ladder {
            sender: Sender {
                station: Station::of(station::situation_of(q.record), q.image),
                direction: q.direction.into(),
            },
            rungs: Rungs {
                ordinary: entry::edges_read(q.rungs.ordinary),
                floor: entry::edges_read(q.rungs.floor),
                ..q.rungs
            },
        }
    }

    // How many rungs there are.
    pub fn count(&self) -> usize
        ensures { result ≡ length self.now.rungs.figures.now / 4 }
    {
        self.rungs.figures.len() / 4
    }

    // The climb over all rungs. It ends at the first that is blocked.
    #[tactic(auto, using(crate::specs::Laws::climb_done))]
    fn climb(&self) -> Climb
        ensures { result ≡ climbed (judge_on self.now.sender) (bursts_on self.now.rungs) (length self.now.rungs.figures.now / 4) }
    {
        let count = self.count();
        let mut envelope = None;
        let mut rung = None;
        for i in 0..count {
            let more = self.rungs.burst(i);
            match self.sender.rung_step(envelope, more) {
                Err((reached, f)) => {
                    let limit = self.sender.rung_decision(reached, f);
                    return Climb {
                        envelope: Some(reached),
                        rung,
                        limit: Some(limit),
                    };
                }
                Ok(reached) => {
                    envelope = Some(reached);
                    rung = Some(i);
                }
            }
        }
        Climb {
            envelope,
            rung,
            limit: None,
        }
    }
}

// The fastest rung that may be sent, every slower one with it, and the verdict on the first that may not.
#[tactic(auto, unfolding(crate::specs::Ceiling::ceiling_of))]
pub fn ceiling(
    r: StationRecord,
    direction: u8,
    ordinary: Edges,
    floor: Edges,
    image: &[u8],
    rungs: &[f64],
    floors: &[u8],
) -> CeilingAnswer
    ensures { result ≡ ceiling_of r direction ordinary floor image.now rungs.now floors.now }
{
    let q = Call {
        record: r,
        direction,
        image,
        rungs: Rungs {
            ordinary,
            floor,
            figures: rungs,
            floors,
        },
    };
    match rungs::ceiling_refusals(&q) {
        Err(n) => CeilingAnswer {
            refusal: Err(n),
            rung: None,
            limit: None,
        },
        Ok(()) => {
            let c = Ladder::of(&q).climb();
            CeilingAnswer {
                refusal: Ok(()),
                rung: c.rung,
                limit: c.limit,
            }
        }
    }
}

// What an operator is told of a lawful data transmission: power limits (97.313) and the voluntary band plan. It uses
// profile, layout, whole, table, find, decision, part97 and findings.
#![tactic(auto)]

ghost use Rattle.std.specs.Prelude.{◌≡◌};
ghost use Rattle.layout.specs.Layout.{count_of, power};
ghost use Rattle.table.specs.Table.{Table, table_of};
ghost use Rattle.part97.specs.Part97.{exceeds, noted, note_at, notes_up_to, any_note, wants_plan, plan_says, guidance_of, plan_warns, advised};

use decision::{Advice, Code, Decision, Draft, Guidance};
use find::Question;
use layout::General;
use part97::Case;
use profile::Range;
use table::PowerLimit;
use whole::Image;

// Whether a known power is above a limit.
pub fn above(watts: Option<f64>, most: f64) -> bool
    ensures { result ≡ exceeds watts most }
{
    watts.is_some_and(|w| most < w)
}

// Whether a power record has a note.
#[tactic(auto, unfolding(part97::specs::Part97::noted))]
fn is_noted(c: Case, r: Range, limit: PowerLimit) -> bool
    ensures { result ≡ noted c r limit }
{
    limit.range.overlaps(r)
        && (profile::meant_for(limit.classes, c.class) && above(c.power, limit.max_w))
}

// A mark for each power record that has a note, and whether one has, which saves a second pass. The marks are the answer's.
#[derive(Clone, Copy)]
pub struct Notes {
    pub marks: [u8; 256],
    pub any: bool,
}

#[tactic(auto, using(layout::specs::Laws::table_within, table::specs::Laws::read_in, part97::specs::Laws::notes_more, part97::specs::Laws::any_more), unfolding(part97::specs::Part97::notes_up_to, part97::specs::Part97::any_note))]
fn notes_of(s: &Image, c: Case, r: Range) -> Notes
    ensures { (result.marks ≡ notes_up_to (note_at (table_of s.now) c r) (count_of s.now power))
        × (result.any ≡ any_note (note_at (table_of s.now) c r) (count_of s.now power)) }
{
    let start = s.start_of(layout::POWER);
    let count = s.count_of(layout::POWER) as usize;
    let mut marks = [0u8; 256];
    let mut any = false;
    for i in 0..count {
        let limit = table::power_limit_of(s.record_at(start + layout::RECORD_SIZE * i));
        if is_noted(c, r, limit) {
            marks[i] = 1;
            any = true;
        }
    }
    Notes { marks, any }
}

// Whether the plan is asked, and there is one.
#[tactic(auto, unfolding(part97::specs::Part97::wants_plan))]
fn wants_plan(g: General, c: Case) -> bool
    ensures { (table : Table) → g ≡ table.general → result ≡ wants_plan table c }
{
    c.band_plan && table::has_plan(g)
}

// What the plan says of a range.
#[tactic(auto, unfolding(part97::specs::Part97::plan_says))]
fn plan_says(s: &Image, r: Range) -> Guidance
    ensures { result ≡ plan_says (table_of s.now) r }
{
    match find::find_in(s, layout::PLAN_AVOID, Question::Overlaps(r)) {
        Some(i) => Guidance::Avoid(i),
        None => match find::find_in(s, layout::PLAN_DATA, Question::Holds(r)) {
            Some(k) => Guidance::Inside(k),
            None => Guidance::Outside,
        },
    }
}

// The voluntary plan, where it is asked.
#[tactic(auto, unfolding(part97::specs::Part97::guidance_of))]
fn guidance_of(s: &Image, c: Case, r: Range) -> Option<Guidance>
    ensures { result ≡ guidance_of (table_of s.now) c r }
{
    if wants_plan(s.general, c) {
        Some(plan_says(s, r))
    } else {
        None
    }
}

fn plan_warns(g: Option<Guidance>) -> bool
    ensures { result ≡ plan_warns g }
{
    matches!(g, Some(Guidance::Avoid(_) | Guidance::Outside))
}

// A lawful data transmission over a range, with what the operator should know.
#[tactic(auto, unfolding(part97::specs::Part97::advised, part97::specs::Part97::advice_warns, part97::specs::Part97::advice_of))]
pub fn advise(s: &Image, c: Case, r: Range, draft: Draft, code: Option<Code>, rule: u16) -> Decision
    ensures { result ≡ advised (table_of s.now) c r draft code rule }
{
    let notes = notes_of(s, c, r);
    let marks = notes.marks;
    let guidance = guidance_of(s, c, r);
    let warn = notes.any || plan_warns(guidance);
    decision::finish(
        draft,
        findings::warned_if(warn),
        code,
        rule,
        None,
        Advice {
            guidance,
            notes: marks,
            sixty: decision::no_marks(),
        },
    )
}

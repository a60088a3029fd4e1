// What judging can find, one function for each way: on a band, against a segment, outside the nearest one, lawful data, allowed
// on 60 m. It uses profile, decision and part97.
#![tactic(auto)]

ghost use Rattle.std.specs.Prelude.{◌≡◌};
ghost use Rattle.part97.specs.Part97.{warned};
ghost use Rattle.part97.specs.Finding.{on_band, in_segment, beyond_segment, lawful_in, on_sixty};

use decision::{Code, Overshoot, SixtyNotes, Verdict};
use part97::Finding;
use profile::Range;

// On a band or on none, against no segment.
#[tactic(auto, unfolding(part97::specs::Finding::on_band))]
pub fn on_band(band: Option<u8>, verdict: Verdict, code: Option<Code>, rule: u16) -> Finding
    ensures { result ≡ on_band band verdict code rule }
{
    Finding {
        band,
        segment: None,
        automatic_segment: None,
        verdict,
        code,
        rule,
        overshoot: None,
        sixty: decision::no_marks(),
        over: None,
    }
}

// A place in a band that has a rule of its own: a segment, or a channel.
#[derive(Clone, Copy)]
pub struct Place {
    pub band: u8,
    pub segment: Range,
    pub own: u16,
}

// Blocked, against a place.
#[tactic(auto, unfolding(part97::specs::Finding::on_band, part97::specs::Finding::in_segment))]
pub fn in_segment(p: Place, code: Option<Code>, rule: u16) -> Finding
    ensures { result ≡ in_segment p.band p.segment p.own code rule }
{
    Finding {
        segment: Some((p.segment, p.own)),
        ..on_band(Some(p.band), Verdict::Blocked, code, rule)
    }
}

// Outside the nearest segment.
#[tactic(auto, unfolding(part97::specs::Finding::in_segment, part97::specs::Finding::beyond_segment))]
pub fn beyond_segment(p: Place, overshoot: Option<Overshoot>) -> Finding
    ensures { result ≡ beyond_segment p.band p.segment p.own overshoot }
{
    Finding {
        overshoot,
        ..in_segment(p, Some(Code::OutsideDataSegment), p.own)
    }
}

// Lawful data in a segment, and perhaps in one for automatic control: power limits and the plan are asked over a range.
#[tactic(auto, unfolding(part97::specs::Finding::in_segment, part97::specs::Finding::lawful_in))]
pub fn lawful_in(
    p: Place,
    inside: Option<Range>,
    r: Range,
    code: Option<Code>,
    rule: u16,
) -> Finding
    ensures { result ≡ lawful_in p.band p.segment p.own inside r code rule }
{
    Finding {
        automatic_segment: inside,
        verdict: Verdict::Legal,
        over: Some(r),
        ..in_segment(p, code, rule)
    }
}

// A warning, or legal.
pub fn warned_if(b: bool) -> Verdict
    ensures { result ≡ warned b }
{
    if b { Verdict::Warning } else { Verdict::Legal }
}

// Allowed on 60 m, with its notes.
#[tactic(auto, unfolding(part97::specs::Finding::in_segment, part97::specs::Finding::on_sixty))]
pub fn on_sixty(p: Place, warn: bool, code: Option<Code>, marks: SixtyNotes) -> Finding
    ensures { result ≡ on_sixty p.band p.segment warn code p.own marks }
{
    Finding {
        verdict: warned_if(warn),
        sixty: marks,
        ..in_segment(p, code, p.own)
    }
}

// The answer of the gate: its parts as enums and a struct by value, each part with its "absent". It uses codes and profile.
#![tactic(auto)]

ghost use Rattle.std.specs.Prelude.{◌≡◌};
ghost use Rattle.decision.specs.Number.{verdict_number, number_of_code, edge_number};
ghost use Rattle.decision.specs.Decision.{finish_of, simple_of, absent_of, refused_of, no_marks, no_advice};

use codes::{Checked, Refusal};
use profile::Range;

// The rules that document 01 numbers.
pub const NO_RULE: u16 = 0;

pub const RULE_97_301: u16 = 1;

pub const RULE_97_109: u16 = 2;

pub const RULE_97_305A: u16 = 3;

pub const RULE_97_305B: u16 = 4;

pub const RULE_97_305C: u16 = 5;

pub const RULE_97_307F9: u16 = 6;

#[derive(Clone, Copy, PartialEq, Eq)]
pub enum Verdict {
    // Permitted.
    Legal,
    // Permitted, with something the operator should know.
    Warning,
    // Not permitted: nothing is sent.
    Blocked,
}

// The reason, for a program, with its number.
#[derive(Clone, Copy, PartialEq, Eq)]
pub enum Code {
    NoProfile = 1,
    ProfileBroken,
    NoRules,
    Unmeasured,
    Region,
    NoControl,
    NoLicense,
    NoSideband,
    NoDial,
    OutOfBand,
    AutomaticExcluded,
    TooWide,
    OutsideDataSegment,
    NoDataHere,
    Privilege,
    Permitted,
    AutomaticSegment,
    AutomaticOutside,
    AutomaticBandwidth,
    AutomaticOriginate,
    AutomaticResponse,
    SixtyEmission,
    SixtyOffChannel,
    SixtyChannel,
    SixtySegment,
}

#[derive(Clone, Copy, PartialEq, Eq)]
pub enum Edge {
    Lower,
    Upper,
}

// The numbers of verdicts, codes and edges.
impl From<Verdict> for u8 {
    ghost from_gives = { λ v n. n ≡ verdict_number v };

    fn from(v: Verdict) -> u8 {
        v as u8
    }
}

impl From<Code> for u8 {
    ghost from_gives = { λ c n. n ≡ number_of_code c };

    fn from(c: Code) -> u8 {
        c as u8
    }
}

impl From<Edge> for u8 {
    ghost from_gives = { λ e n. n ≡ edge_number e };

    fn from(e: Edge) -> u8 {
        e as u8
    }
}

// How data lies outside a segment: beyond an edge by a distance, or merely too close to an edge.
#[derive(Clone, Copy)]
pub enum Overshoot {
    Beyond(f64, Edge),
    TooClose(Edge),
}

// What the voluntary band plan says, with the index of the plan record.
#[derive(Clone, Copy)]
pub enum Guidance {
    Avoid(usize),
    Inside(usize),
    Outside,
}

// The notes on 60 m: above the channels' watts, shared with government stations, above the segment's watts.
#[derive(Clone, Copy)]
pub struct SixtyNotes {
    pub channel_power: bool,
    pub shared: bool,
    pub segment_power: bool,
}

// A decision being made: the facts, before the verdict.
#[derive(Clone, Copy)]
pub struct Draft {
    pub audio: Range,
    pub width: f64,
    pub air: Option<Range>,
    pub band: Option<u8>,
    pub segment: Option<(Range, u16)>,
    pub automatic_segment: Option<Range>,
}

// What the operator should know besides.
#[derive(Clone, Copy)]
pub struct Advice {
    pub guidance: Option<Guidance>,
    pub notes: [u8; 256],
    pub sixty: SixtyNotes,
}

#[derive(Clone, Copy)]
pub struct Decision {
    // Beside the rest, and no Result around it: an answer whose refusal nobody looks at must still read Blocked.
    pub refusal: Checked,
    pub verdict: Verdict,
    pub code: Option<Code>,
    pub rule: Option<u16>,
    pub band: Option<u8>,
    pub segment: Option<(Range, u16)>,
    pub automatic_segment: Option<Range>,
    pub audio: Option<Range>,
    pub width: Option<f64>,
    pub air: Option<Range>,
    pub overshoot: Option<Overshoot>,
    pub advice: Advice,
}

// No marks on 60 m.
pub fn no_marks() -> SixtyNotes
    ensures { result ≡ no_marks }
{
    SixtyNotes {
        channel_power: false,
        shared: false,
        segment_power: false,
    }
}

// Nothing to say besides.
#[tactic(auto, unfolding(crate::specs::Decision::no_advice))]
pub fn no_advice() -> Advice
    ensures { result ≡ no_advice }
{
    Advice {
        guidance: None,
        notes: [0u8; 256],
        sixty: no_marks(),
    }
}

// A decision from its draft.
#[tactic(auto, unfolding(crate::specs::Decision::finish_of))]
pub fn finish(
    d: Draft,
    verdict: Verdict,
    code: Option<Code>,
    rule: u16,
    overshoot: Option<Overshoot>,
    advice: Advice,
) -> Decision
    ensures { result ≡ finish_of d verdict code rule overshoot advice }
{
    Decision {
        refusal: Ok(()),
        verdict,
        code,
        rule: Some(rule),
        band: d.band,
        segment: d.segment,
        automatic_segment: d.automatic_segment,
        audio: Some(d.audio),
        width: Some(d.width),
        air: d.air,
        overshoot,
        advice,
    }
}

// A decision with no overshoot and nothing to say besides.
#[tactic(auto, unfolding(crate::specs::Decision::simple_of))]
pub fn simple(d: Draft, verdict: Verdict, code: Option<Code>, rule: u16) -> Decision
    ensures { result ≡ simple_of d verdict code rule }
{
    finish(d, verdict, code, rule, None, no_advice())
}

// No decision: Blocked, all else absent.
pub fn absent(refusal: Checked) -> Decision
    ensures { result ≡ absent_of refusal }
{
    Decision {
        refusal,
        verdict: Verdict::Blocked,
        code: None,
        rule: None,
        band: None,
        segment: None,
        automatic_segment: None,
        audio: None,
        width: None,
        air: None,
        overshoot: None,
        advice: no_advice(),
    }
}

// A refusal: its number, Blocked, all else absent.
#[tactic(auto, unfolding(crate::specs::Decision::refused_of))]
pub fn refused(n: Refusal) -> Decision
    ensures { result ≡ refused_of n }
{
    absent(Err(n))
}

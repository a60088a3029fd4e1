// 47 CFR Part 97 as a definition: specs/Part97.antt says what the gate answers for a transmission, over what an accepted
// table says. No code; the structs are what every judgement works from and what it finds. It uses figures, codes, profile,
// air, scan, layout, table, find, decision and automatic_97_221.
#![tactic(auto)]

use codes::{Direction, EmissionKind, LicenseClass, Sideband};
use decision::{Code, Overshoot, SixtyNotes, Verdict};
use profile::Range;

// The facts every judgement works from, once the prerequisites are met.
#[derive(Clone, Copy)]
pub struct Case {
    pub class: LicenseClass,
    pub sideband: Sideband,
    pub direction: Direction,
    pub kind: EmissionKind,
    // Whether 97.221 applies.
    pub automatic: bool,
    pub dial_hz: f64,
    // The audio edges that the reading takes, and their width.
    pub audio: Range,
    pub width: f64,
    // The range on the air, and the same widened by the margin: what has to fit.
    pub air: Range,
    pub guarded: Range,
    // The guarded range with the margin taken off again: what an automatic station's advice goes by.
    pub advised: Range,
    pub power: Option<f64>,
    // Whether to say where the voluntary band plan differs.
    pub band_plan: bool,
}

// What the first privilege of the operator's class that holds a signal says of an emission.
#[derive(Clone, Copy)]
pub enum Privileged {
    Granted,
    Forbidden,
    Unheld,
}

// What judging finds: all of a decision that does not stand in the case. Where the operator is to be told of power limits and
// the plan, `over` has the range that they are asked over; they then settle the verdict.
#[derive(Clone, Copy)]
pub struct Finding {
    pub band: Option<u8>,
    pub segment: Option<(Range, u16)>,
    pub automatic_segment: Option<Range>,
    pub verdict: Verdict,
    pub code: Option<Code>,
    pub rule: u16,
    pub overshoot: Option<Overshoot>,
    pub sixty: SixtyNotes,
    pub over: Option<Range>,
}

// The records of the boundary to C: flat structs of numbers, read into the station record, the edges and a walk's state, and made from decisions
// and the answers that hold one (flat_answers has the others). It uses codes, profile, occupancy, air, station, decision, numbers, ceiling, walk
// and walk_step.
#![tactic(auto)]

ghost use Rattle.std.specs.Prelude.{◌≡◌, cond, ◌<◌};
ghost use Rattle.ceiling.specs.Ceiling.{rung_number};
ghost use Rattle.flat.specs.Fits.{RungFits, Indexed};
ghost use Rattle.flat.specs.Flat.{station_record_of, station_of, edges_of, edges_flat, range_flat, segment_flat, overshoot_flat};
ghost use Rattle.flat.specs.Flat.{guidance_index_of, guidance_flat, rule_flat, band_flat, width_flat};
ghost use Rattle.flat.specs.Flat.{flat_of, ceiling_beside};
ghost use Rattle.flat.specs.Flat.{walk_of, walk_flat, walk_answer_flat, step_beside};

use air::Margins;
use ceiling::CeilingAnswer;
use decision::{Decision, Guidance, Overshoot};
use occupancy::Edges;
use profile::Range;
use station::StationRecord;
use walk::{WalkAnswer, WalkState};
use walk_step::StepAnswer;

// C has no Option and passes no enum: in these structs a flag stands beside what may be absent, and a number for a case. Their fields have
// other names and types than what they are read into and made from, so that each is written field by field.

// The station record: codes and presence bytes as document 01 numbers them, figures whatever they are.
#[repr(C)]
#[derive(Clone, Copy)]
pub struct FlatStation {
    pub margin_lower_hz: f64,
    pub margin_upper_hz: f64,
    pub dial_hz: f64,
    pub power_w: f64,
    pub policy: u8,
    pub control: u8,
    pub license: u8,
    pub sideband: u8,
    pub itu_region: u8,
    pub band_plan: u8,
    pub dial_known: u8,
    pub power_known: u8,
}

// The edges of a signal under both readings, hertz.
#[repr(C)]
#[derive(Clone, Copy)]
pub struct FlatEdges {
    pub power_low: f64,
    pub power_high: f64,
    pub spectral_low: f64,
    pub spectral_high: f64,
}

// An answer. Absent parts are zero; a refusal has its number, verdict 2 and all else zero.
#[repr(C)]
#[derive(Clone, Copy)]
pub struct FlatDecision {
    pub segment_low: f64,
    pub segment_high: f64,
    pub automatic_low: f64,
    pub automatic_high: f64,
    pub audio_low: f64,
    pub audio_high: f64,
    pub width: f64,
    pub air_low: f64,
    pub air_high: f64,
    pub beyond_hz: f64,
    pub rule: u16,
    pub segment_rule: u16,
    pub guidance_index: u16,
    pub refusal: u8,
    pub verdict: u8,
    pub code: u8,
    pub rule_known: u8,
    pub band_known: u8,
    pub band: u8,
    pub segment_known: u8,
    pub automatic_known: u8,
    pub audio_known: u8,
    pub air_known: u8,
    pub overshoot: u8,
    pub edge: u8,
    pub guidance: u8,
    pub note_channel_power: u8,
    pub note_shared: u8,
    pub note_segment_power: u8,
    pub notes: [u8; 256],
}

// A ceiling. The limit's verdict is 2 in every one: where limit_known is 0 all else of it is zero, but for the number of a refusal.
// rung is -1 where there is none.
#[repr(C)]
#[derive(Clone, Copy)]
pub struct FlatCeiling {
    pub limit: FlatDecision,
    pub rung: i32,
    pub limit_known: u8,
    pub refusal: u8,
}

// The state of a walk: what its rungs have occupied, how many were judged, the image in force, whether a swap waits and a walk is open.
#[repr(C)]
#[derive(Clone, Copy)]
pub struct FlatWalk {
    pub occupied: FlatEdges,
    pub place: u32,
    pub image: u8,
    pub waiting: u8,
    pub walking: u8,
}

// The answer of a swap and of an opening.
#[repr(C)]
#[derive(Clone, Copy)]
pub struct FlatWalkAnswer {
    pub state: FlatWalk,
    pub refusal: u8,
}

// The answer of a step. Its refusal is the ceiling's.
#[repr(C)]
#[derive(Clone, Copy)]
pub struct FlatStep {
    pub ceiling: FlatCeiling,
    pub state: FlatWalk,
    pub over: u8,
}

// The parts of an answer, each flat.
#[derive(Clone, Copy)]
pub struct FlatRange {
    pub low: f64,
    pub high: f64,
    pub known: u8,
}

#[derive(Clone, Copy)]
pub struct FlatSegment {
    pub low: f64,
    pub high: f64,
    pub rule: u16,
    pub known: u8,
}

#[derive(Clone, Copy)]
pub struct FlatOvershoot {
    pub beyond_hz: f64,
    pub edge: u8,
    pub number: u8,
}

#[derive(Clone, Copy)]
pub struct FlatGuidance {
    pub index: u16,
    pub number: u8,
}

#[derive(Clone, Copy)]
pub struct FlatRule {
    pub rule: u16,
    pub known: u8,
}

#[derive(Clone, Copy)]
pub struct FlatBand {
    pub band: u8,
    pub known: u8,
}

#[tactic(auto, unfolding(crate::specs::Flat::station_record_of))]
pub fn station_in(s: FlatStation) -> StationRecord
    ensures { result ≡ station_record_of s }
{
    StationRecord {
        policy: s.policy,
        control: s.control,
        license: s.license,
        sideband: s.sideband,
        itu_region: s.itu_region,
        band_plan: s.band_plan,
        dial_known: s.dial_known,
        power_known: s.power_known,
        margin: Margins {
            lower_hz: s.margin_lower_hz,
            upper_hz: s.margin_upper_hz,
        },
        dial_hz: s.dial_hz,
        power_w: s.power_w,
    }
}

#[tactic(auto, unfolding(crate::specs::Flat::station_of))]
pub fn station_out(s: StationRecord) -> FlatStation
    ensures { result ≡ station_of s }
{
    FlatStation {
        margin_lower_hz: s.margin.lower_hz,
        margin_upper_hz: s.margin.upper_hz,
        dial_hz: s.dial_hz,
        power_w: s.power_w,
        policy: s.policy,
        control: s.control,
        license: s.license,
        sideband: s.sideband,
        itu_region: s.itu_region,
        band_plan: s.band_plan,
        dial_known: s.dial_known,
        power_known: s.power_known,
    }
}

#[tactic(auto, unfolding(crate::specs::Flat::edges_of))]
pub fn edges_in(e: FlatEdges) -> Edges
    ensures { result ≡ edges_of e }
{
    let power = Range {
        low_hz: e.power_low,
        high_hz: e.power_high,
    };
    let spectral = Range {
        low_hz: e.spectral_low,
        high_hz: e.spectral_high,
    };
    Edges { power, spectral }
}

// The edges, flat.
#[tactic(auto, unfolding(crate::specs::Flat::edges_flat))]
fn edges_out(e: Edges) -> FlatEdges
    ensures { result ≡ edges_flat e }
{
    FlatEdges {
        power_low: e.power.low_hz,
        power_high: e.power.high_hz,
        spectral_low: e.spectral.low_hz,
        spectral_high: e.spectral.high_hz,
    }
}

// A walk's state as it arrives, and as it leaves.
#[tactic(auto, unfolding(crate::specs::Flat::walk_of))]
pub fn walk_in(w: FlatWalk) -> WalkState
    ensures { result ≡ walk_of w }
{
    WalkState {
        occupied: edges_in(w.occupied),
        place: w.place,
        image: w.image,
        waiting: w.waiting,
        walking: w.walking,
    }
}

#[tactic(auto, unfolding(crate::specs::Flat::walk_flat))]
pub fn walk_out(w: WalkState) -> FlatWalk
    ensures { result ≡ walk_flat w }
{
    FlatWalk {
        occupied: edges_out(w.occupied),
        place: w.place,
        image: w.image,
        waiting: w.waiting,
        walking: w.walking,
    }
}

fn range_flat(m: Option<Range>) -> FlatRange
    ensures { result ≡ range_flat m }
{
    match m {
        Some(a) => FlatRange {
            low: a.low_hz,
            high: a.high_hz,
            known: 1,
        },
        None => FlatRange {
            low: 0.0,
            high: 0.0,
            known: 0,
        },
    }
}

fn segment_flat(s: Option<(Range, u16)>) -> FlatSegment
    ensures { result ≡ segment_flat s }
{
    match s {
        Some((a, rule)) => FlatSegment {
            low: a.low_hz,
            high: a.high_hz,
            rule,
            known: 1,
        },
        None => FlatSegment {
            low: 0.0,
            high: 0.0,
            rule: 0,
            known: 0,
        },
    }
}

fn overshoot_flat(o: Option<Overshoot>) -> FlatOvershoot
    ensures { result ≡ overshoot_flat o }
{
    let number = numbers::overshoot_number(o);
    match o {
        Some(Overshoot::Beyond(by, edge)) => FlatOvershoot {
            beyond_hz: by,
            edge: edge.into(),
            number,
        },
        Some(Overshoot::TooClose(edge)) => FlatOvershoot {
            beyond_hz: 0.0,
            edge: edge.into(),
            number,
        },
        None => FlatOvershoot {
            beyond_hz: 0.0,
            edge: 0,
            number,
        },
    }
}

fn guidance_flat(g: Option<Guidance>) -> FlatGuidance
    requires { guidance_index_of g < 256 }
    ensures { result ≡ guidance_flat g }
{
    let number = numbers::guidance_number(g);
    match g {
        Some(Guidance::Avoid(i)) => FlatGuidance {
            index: i as u16,
            number,
        },
        Some(Guidance::Inside(i)) => FlatGuidance {
            index: i as u16,
            number,
        },
        Some(Guidance::Outside) => FlatGuidance { index: 0, number },
        None => FlatGuidance { index: 0, number },
    }
}

fn rule_flat(n: Option<u16>) -> FlatRule
    ensures { result ≡ rule_flat n }
{
    match n {
        Some(rule) => FlatRule { rule, known: 1 },
        None => FlatRule { rule: 0, known: 0 },
    }
}

fn band_flat(b: Option<u8>) -> FlatBand
    ensures { result ≡ band_flat b }
{
    match b {
        Some(band) => FlatBand { band, known: 1 },
        None => FlatBand { band: 0, known: 0 },
    }
}

fn width_flat(w: Option<f64>) -> f64
    ensures { result ≡ width_flat w }
{
    w.unwrap_or(0.0)
}

fn mark(b: bool) -> u8
    ensures { result ≡ cond b 1 0 }
{
    if b { 1 } else { 0 }
}

// An answer, flat.
pub fn flat(d: Decision) -> FlatDecision
    requires { Indexed d }
    ensures { result ≡ flat_of d }
{
    let refusal = d.refusal;
    let verdict = d.verdict;
    let code = d.code;
    let rule = d.rule;
    let band = d.band;
    let judged = d.segment;
    let automatic_segment = d.automatic_segment;
    let audio_range = d.audio;
    let width = d.width;
    let air_range = d.air;
    let over = d.overshoot;
    let advice = d.advice;
    let guided = advice.guidance;
    let notes = advice.notes;
    let sixty = advice.sixty;
    let named = rule_flat(rule);
    let numbered = band_flat(band);
    let segment = segment_flat(judged);
    let automatic = range_flat(automatic_segment);
    let audio = range_flat(audio_range);
    let air = range_flat(air_range);
    let overshoot = overshoot_flat(over);
    let guidance = guidance_flat(guided);
    FlatDecision {
        segment_low: segment.low,
        segment_high: segment.high,
        automatic_low: automatic.low,
        automatic_high: automatic.high,
        audio_low: audio.low,
        audio_high: audio.high,
        width: width_flat(width),
        air_low: air.low,
        air_high: air.high,
        beyond_hz: overshoot.beyond_hz,
        rule: named.rule,
        segment_rule: segment.rule,
        guidance_index: guidance.index,
        refusal: numbers::refusal_number(refusal),
        verdict: numbers::verdict_number(verdict),
        code: numbers::code_number(code),
        rule_known: named.known,
        band_known: numbered.known,
        band: numbered.band,
        segment_known: segment.known,
        automatic_known: automatic.known,
        audio_known: audio.known,
        air_known: air.known,
        overshoot: overshoot.number,
        edge: overshoot.edge,
        guidance: guidance.number,
        note_channel_power: mark(sixty.channel_power),
        note_shared: mark(sixty.shared),
        note_segment_power: mark(sixty.segment_power),
        notes,
    }
}

fn rung_number(k: Option<usize>) -> i32
    requires { RungFits k }
    ensures { result ≡ rung_number k }
{
    match k {
        Some(i) => i as i32,
        None => -1,
    }
}

// A ceiling, flat, with the decision that stands for its limit, known or not: whatever its caller lends (`limit_or_absent`, in the calls).
#[tactic(auto, unfolding(crate::specs::Flat::ceiling_beside))]
pub fn ceiling_flat(a: CeilingAnswer, limit: Decision) -> FlatCeiling
    requires { (RungFits a.rung) × (Indexed limit) }
    ensures { result ≡ ceiling_beside a limit }
{
    FlatCeiling {
        limit: flat(limit),
        rung: rung_number(a.rung),
        limit_known: mark(a.limit.is_some()),
        refusal: numbers::refusal_number(a.refusal),
    }
}

// A swap's or an opening's answer, flat.
pub fn walk_answer_flat(a: WalkAnswer) -> FlatWalkAnswer
    ensures { result ≡ walk_answer_flat a }
{
    FlatWalkAnswer {
        state: walk_out(a.state),
        refusal: numbers::refusal_number(a.refusal),
    }
}

// A step's answer, flat, with what stands for its ceiling's limit.
#[tactic(auto, unfolding(crate::specs::Flat::step_beside))]
pub fn step_flat(a: StepAnswer, limit: Decision) -> FlatStep
    requires { (RungFits a.ceiling.rung) × (Indexed limit) }
    ensures { result ≡ step_beside a limit }
{
    FlatStep {
        ceiling: ceiling_flat(a.ceiling, limit),
        state: walk_out(a.state),
        over: mark(a.over),
    }
}

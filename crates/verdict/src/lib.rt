// The verdict: `evaluate` and `unmeasured`, public calls. It uses figures, codes, profile, occupancy, air, station, whole,
// table, transmission, entry, decision, part97, automatic_97_221 and judge; its definitions use layout, its laws scan.
#![tactic(auto)]

ghost use Rattle.std.specs.Prelude.{◌≡◌};
ghost use Rattle.codes.specs.Refusal.{refusal_of};
ghost use Rattle.decision.specs.Decision.{simple_of};
ghost use Rattle.decision.specs.declared.Verdict.TheVariants.{Blocked};
ghost use Rattle.verdict.specs.Verdict.{missing, ready_of, air_of, signal_of, case_of, unruled_of, audio_on, ready_on, decision_on};
ghost use Rattle.verdict.specs.Verdict.{beside_valid, evaluate_tests, evaluate_of, unmeasured_of};

use codes::{
    Checked, ControlMode, Direction, EmissionKind, LicenseClass, Policy, Refusal, Sideband,
};
use decision::{Code, Decision, Draft, Verdict};
use layout::General;
use occupancy::{Edges, Reading};
use part97::Case;
use profile::Range;
use station::{Situation, StationRecord};
use transmission::{Call, Station, Transmission};
use whole::Image;

// A prerequisite that is missing: the code that blocks, and its rule.
#[derive(Clone, Copy)]
pub struct Missing {
    pub code: Option<Code>,
    pub rule: u16,
}

impl Missing {
    fn new(code: Option<Code>, rule: u16) -> Self
        ensures { result ≡ missing code rule }
    {
        Missing { code, rule }
    }
}

// The range on the air, where dial and sideband are known.
#[tactic(auto, unfolding(crate::specs::Verdict::air_of))]
fn air_of(dial: Option<f64>, sideband: Option<Sideband>, audio: Range) -> Option<Range>
    ensures { result ≡ air_of dial sideband audio }
{
    match (dial, sideband) {
        (Some(hz), Some(side)) => Some(air::rf_range(hz, side, audio)),
        _ => None,
    }
}

// The signal, before any test.
#[tactic(auto, unfolding(crate::specs::Verdict::signal_of))]
pub fn signal_of(dial: Option<f64>, sideband: Option<Sideband>, audio: Range) -> Draft
    ensures { result ≡ signal_of dial sideband audio }
{
    Draft {
        audio,
        width: air::width(audio),
        air: air_of(dial, sideband, audio),
        band: None,
        segment: None,
        automatic_segment: None,
    }
}

// The facts that judging works from.
#[tactic(auto, unfolding(crate::specs::Verdict::case_of))]
pub fn case_of(
    s: Situation,
    control: ControlMode,
    class: LicenseClass,
    sideband: Sideband,
    dial: f64,
    kind: EmissionKind,
    direction: Direction,
    audio: Range,
) -> Case
    ensures { result ≡ case_of s control class sideband dial kind direction audio }
{
    let on_air = air::rf_range(dial, sideband, audio);
    let guarded = air::guarded(s.margin, on_air);
    Case {
        class,
        sideband,
        direction,
        kind,
        automatic: automatic_97_221::applies(control, direction),
        dial_hz: dial,
        audio,
        width: air::width(audio),
        air: on_air,
        guarded,
        advised: air::unguarded(s.margin, guarded),
        power: s.power,
        band_plan: s.band_plan,
    }
}

// The prerequisites in order: the case to judge at a dial, or the first that is missing, with its rule. Not inlined it costs a ceiling a tenth
// more instructions, and a verdict 6%.
#[tactic(auto, unfolding(crate::specs::Verdict::ready_of))]
#[inline]
pub fn prepare(
    g: General,
    s: Situation,
    dial: Option<f64>,
    kind: EmissionKind,
    direction: Direction,
    audio: Range,
) -> Result<Case, Missing>
    ensures { result ≡ ready_of g s dial kind direction audio }
{
    if s.itu_region != g.region {
        return Err(Missing::new(Some(Code::Region), decision::RULE_97_301));
    }
    let Some(control) = s.control else {
        return Err(Missing::new(Some(Code::NoControl), decision::RULE_97_109));
    };
    let Some(class) = s.license else {
        return Err(Missing::new(Some(Code::NoLicense), decision::RULE_97_301));
    };
    let Some(sideband) = s.sideband else {
        return Err(Missing::new(Some(Code::NoSideband), decision::NO_RULE));
    };
    let Some(hz) = dial else {
        return Err(Missing::new(Some(Code::NoDial), decision::NO_RULE));
    };
    Ok(case_of(s, control, class, sideband, hz, kind, direction, audio))
}

// The same of a transmission, under an image.
#[inline]
pub fn ready(image: &Image, x: &Transmission) -> Result<Case, Missing>
    ensures { result ≡ ready_on image.now x.now }
{
    let g = image.general;
    let audio = x.edges.range(table::reading_of(g));
    prepare(g, x.station.situation, x.dial, x.kind, x.direction, audio)
}

// Blocked under an image by what is missing.
pub fn unmet(image: &Image, x: &Transmission, m: Missing) -> Decision
    ensures { result ≡ simple_of (signal_of x.now.dial x.now.station.now.situation.sideband (audio_on image.now x.now)) Blocked m.code m.rule }
{
    let audio = x.edges.range(table::reading_of(image.general));
    let signal = signal_of(x.dial, x.station.situation.sideband, audio);
    decision::simple(signal, Verdict::Blocked, m.code, m.rule)
}

// Without a table, by the wider reading: the policy alone decides.
#[tactic(auto, unfolding(crate::specs::Verdict::unruled_of))]
pub fn unruled(
    s: Situation,
    dial: Option<f64>,
    e: Edges,
    verdict: Verdict,
    code: Option<Code>,
) -> Decision
    ensures { result ≡ unruled_of s dial e verdict code }
{
    let signal = signal_of(dial, s.sideband, e.range(Reading::Wider));
    decision::simple(signal, verdict, code, decision::NO_RULE)
}

// By the policy. Under Rules Part 97 judges the case, and what is missing blocks.
#[tactic(auto, unfolding(crate::specs::Verdict::decide_of, crate::specs::Verdict::under_rules_of))]
pub fn decide(x: &Transmission) -> Decision
    ensures { result ≡ decision_on x.now }
{
    let s = x.station.situation;
    match s.policy {
        Policy::Unset => unruled(s, x.dial, x.edges, Verdict::Blocked, Some(Code::NoProfile)),
        Policy::NoProfile => unruled(s, x.dial, x.edges, Verdict::Legal, Some(Code::NoRules)),
        Policy::Rules => {
            let image = x.station.in_force();
            match ready(image, x) {
                Ok(c) => judge::conclude(image, c, judge::judge_case(image, c)),
                Err(m) => unmet(image, x, m),
            }
        }
        Policy::Broken => unruled(
            s,
            x.dial,
            x.edges,
            Verdict::Blocked,
            Some(Code::ProfileBroken),
        ),
    }
}

// The codes beside the record.
fn beside_valid(q: &Call) -> bool
    ensures { result ≡ beside_valid q.now.kind q.now.direction }
{
    q.kind <= 3 && codes::direction_valid(q.direction)
}

// Refusals 20 to 22, 1 to 14 and 15.
#[tactic(auto, using(codes::specs::Laws::refusal_next, codes::specs::Laws::refusal_stays), unfolding(entry::specs::Entry::entry_of))]
pub fn evaluate_refusals(q: &Call) -> Checked
    ensures { result ≡ refusal_of (evaluate_tests q.now.record q.now.kind q.now.direction q.now.edges q.now.image.now) }
{
    entry::admit(q.record, beside_valid(q), q.image)?;
    if !entry::edges_valid(q.edges) {
        return Err(Refusal::SignalEdge);
    }
    Ok(())
}

// Judge a transmission.
#[tactic(auto, unfolding(crate::specs::Verdict::evaluate_of))]
pub fn evaluate(r: StationRecord, kind: u8, direction: u8, e: Edges, image: &[u8]) -> Decision
    ensures { result ≡ evaluate_of r kind direction e image.now }
{
    let q = Call {
        record: r,
        kind,
        direction,
        edges: e,
        image,
    };
    match evaluate_refusals(&q) {
        Err(n) => decision::refused(n),
        Ok(()) => {
            let station = Station::of(station::situation_of(r), image);
            let x = Transmission {
                station: &station,
                dial: station.situation.dial,
                kind: kind.into(),
                direction: direction.into(),
                edges: entry::edges_read(e),
            };
            decide(&x)
        }
    }
}

// The refusal of a transmission whose spectrum is not known.
#[tactic(auto, unfolding(crate::specs::Verdict::unmeasured_of, entry::specs::Entry::entry_of))]
pub fn unmeasured(r: StationRecord, image: &[u8]) -> Decision
    ensures { result ≡ unmeasured_of r image.now }
{
    if let Err(n) = entry::admit(r, true, image) {
        return decision::refused(n);
    }
    let s = station::situation_of(r);
    let audio = Range {
        low_hz: 0.0,
        high_hz: 0.0,
    };
    decision::simple(
        signal_of(s.dial, s.sideband, audio),
        Verdict::Blocked,
        Some(Code::Unmeasured),
        decision::NO_RULE,
    )
}

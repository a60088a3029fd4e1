// A census of a band: how many whole-hertz dials of a stretch get each code. A public call. It uses codes, station, occupancy, transmission,
// entry, decision, verdict, barred and numbers; its definitions use table too, and its laws profile, layout, part97 and judged.
#![tactic(auto)]

ghost use Rattle.std.specs.Prelude.{◌≡◌, ◌-◌, ◌<◌, ◌≤◌, Float, IfSome, unsigned_abs};
ghost use Rattle.codes.specs.Refusal.{refusal_of};
ghost use Rattle.census.specs.Census.{farthest, most, undialled, dial_at, code_on, counts_of, counted, front_tests, census_of};
ghost use Rattle.census.specs.Lifted.{lift, no_stretch, far_of, marked, stretch_of};
ghost use Rattle.census.specs.Counts.{Numbered};

use codes::{Checked, Policy, Refusal};
use decision::Code;
use occupancy::Edges;
use station::StationRecord;
use transmission::{Call, Station, Transmission};

// The most dials of a stretch.
pub const MOST_DIALS: u64 = 1000000;

// The farthest dial from nought, 2^40.
const FARTHEST: u64 = 1099511627776;

// Where nought lies among signed numbers of 64 bits, counted from the least.
const NOUGHT: u64 = 9223372036854775808;

#[derive(Clone, Copy)]
pub struct Census {
    // Beside the counts, which are noughts then.
    pub refusal: Checked,
    // How many dials get each code, code 1 first; noughts on a refusal.
    pub counts: [u32; 25],
}

// A signed number, counted from the least: so two are compared and taken from each other without a sum that overflows.
fn lifted(x: i64) -> u64
    ensures { result ≡ lift x }
{
    if x < 0 {
        return (NOUGHT - 1) - ((0 - (x + 1)) as u64);
    }
    NOUGHT + x as u64
}

// Whether there is no dial from one place to another, or more than a census counts.
fn no_stretch(first: u64, last: u64) -> bool
    ensures { result ≡ no_stretch first last }
{
    last < first || last - first >= MOST_DIALS
}

// Whether a place lies farther from nought than a dial may.
fn far(at: u64) -> bool
    ensures { result ≡ far_of at }
{
    at < NOUGHT - FARTHEST || at > NOUGHT + FARTHEST
}

// How many dials a stretch has, or refusals 33 and 34.
fn stretch(first: i64, last: i64) -> Result<u64, Refusal>
    ensures { result ≡ stretch_of first last }
{
    let from = lifted(first);
    let to = lifted(last);
    if no_stretch(from, to) {
        return Err(Refusal::Stretch);
    }
    if far(from) || far(to) {
        return Err(Refusal::FarDial);
    }
    Ok((to - from) + 1)
}

// The presence byte of the record's own dial is a code, whatever the dial.
fn mark_refusal(known: u8) -> Checked
    ensures { result ≡ marked known }
{
    if known > 1 {
        return Err(Refusal::StationCode);
    }
    Ok(())
}

// The record without its dial, which is not looked at.
#[tactic(auto, unfolding(crate::specs::Census::dialled))]
fn without_dial(r: StationRecord) -> StationRecord
    ensures { result ≡ undialled r }
{
    let mut x = r;
    x.dial_known = 0;
    x
}

// The refusals before those of the stretch, in order: 20 to 22, 1 to 14, 15.
fn front_refusals(q: &Call) -> Checked
    ensures { result ≡ refusal_of (front_tests q.now.record q.now.kind q.now.direction q.now.edges q.now.image.now) }
{
    let mark = mark_refusal(q.record.dial_known);
    let own = Call {
        record: without_dial(q.record),
        ..*q
    };
    mark.and(verdict::evaluate_refusals(&own))
}

// Dial k of a stretch.
fn dial_at(first: i64, k: u64) -> f64
    requires { (unsigned_abs first ≤ farthest) × (k < most) }
    ensures { result ≡ dial_at first k }
{
    std::num::nearest_i64_to_f64(first + k as i64)
}

// The code at a dial.
#[tactic(auto, unfolding(crate::specs::Census::code_at))]
fn code_at(x: &Transmission, hz: f64) -> u8
    ensures { result ≡ code_on x.now hz }
{
    let there = Transmission {
        dial: Some(hz),
        ..*x
    };
    let b = barred::in_brief(&there);
    numbers::code_number(b.code)
}

// The code of every dial, where no dial is looked at: under another policy than Rules, and under Rules where a prerequisite besides the dial is
// missing. It is not asked at each.
fn same_everywhere(x: &Transmission) -> Option<u8>
    ensures { IfSome result (λ c. (hz : Float) → code_on x.now hz ≡ c) }
{
    match x.station.situation.policy {
        Policy::Rules => {
            let image = x.station.in_force();
            let nowhere = Transmission { dial: None, ..*x };
            match verdict::ready(image, &nowhere) {
                Ok(_) => None,
                Err(m) => {
                    let code = numbers::code_number(m.code);
                    if code == numbers::code_number(Some(Code::NoDial)) {
                        return None;
                    }
                    Some(code)
                }
            }
        }
        Policy::Unset => Some(numbers::code_number(Some(Code::NoProfile))),
        Policy::NoProfile => Some(numbers::code_number(Some(Code::NoRules))),
        Policy::Broken => Some(numbers::code_number(Some(Code::ProfileBroken))),
    }
}

// Where the count of a code stands: code 1 first.
fn place(code: u8) -> usize
    requires { 0 < code }
    ensures { result ≡ code - 1 }
{
    code as usize - 1
}

// Every dial of a stretch judged, and its code counted.
fn count_all(x: &Transmission, first: i64, count: u64) -> Census
    requires { (unsigned_abs first ≤ farthest) × (count ≤ most) }
    ensures { result ≡ counted (counts_of (λ k. code_on x.now (dial_at first k)) count) }
{
    let mut counts = [0u32; 25];
    for k in 0..count {
        let hz = dial_at(first, k);
        let code = code_at(x, hz);
        let at = place(code);
        let before = counts[at];
        counts[at] = before + 1;
    }
    Census {
        refusal: Ok(()),
        counts,
    }
}

// A stretch whose dials all have one code.
fn count_same(code: u8, count: u64) -> Census
    requires { Numbered code × (count ≤ most) }
    ensures { result ≡ counted (counts_of (λ k. code) count) }
{
    let mut counts = [0u32; 25];
    let at = place(code);
    counts[at] = count as u32;
    Census {
        refusal: Ok(()),
        counts,
    }
}

// A stretch counted: at once where its dials have one code, and else dial by dial.
fn count_stretch(x: &Transmission, first: i64, count: u64) -> Census
    requires { (unsigned_abs first ≤ farthest) × (count ≤ most) }
    ensures { result ≡ counted (counts_of (λ k. code_on x.now (dial_at first k)) count) }
{
    match same_everywhere(x) {
        Some(code) => count_same(code, count),
        None => count_all(x, first, count),
    }
}

// How many whole-hertz dials from a first to a last get each code, each taken as the record's dial.
pub fn census_of(
    r: StationRecord,
    kind: u8,
    direction: u8,
    e: Edges,
    image: &[u8],
    first: i64,
    last: i64,
) -> Census
    ensures { result ≡ census_of r kind direction e image.now first last }
{
    let q = Call {
        record: r,
        kind,
        direction,
        edges: e,
        image,
    };
    let front = front_refusals(&q);
    let dials = stretch(first, last);
    match front.and(dials) {
        Err(n) => Census {
            refusal: Err(n),
            counts: [0u32; 25],
        },
        Ok(count) => {
            let station = Station::of(station::situation_of(r), image);
            let x = Transmission {
                station: &station,
                dial: station.situation.dial,
                kind: kind.into(),
                direction: direction.into(),
                edges: entry::edges_read(e),
            };
            count_stretch(&x, first, count)
        }
    }
}

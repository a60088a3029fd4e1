// The static library: each call of pamuklid under its name in C, with the promise that pamuklid's has. It uses pamuklid, the flat structs of
// flat and flat_answers, and of the others the definitions that the promises name. A crate is a library or a static library, and three crates use
// pamuklid: so each call stands here once more.
#![tactic(auto)]

ghost use Rattle.std.specs.Prelude.{◌≡◌};
ghost use Rattle.image.specs.Check.{check_of};
ghost use Rattle.fault.specs.Fault.{fault_of};
ghost use Rattle.tidy.specs.Tidy.{tidy_of};
ghost use Rattle.station.specs.Station.{fresh_of};
ghost use Rattle.verdict.specs.Verdict.{evaluate_of, unmeasured_of};
ghost use Rattle.ceiling.specs.Ceiling.{ceiling_of};
ghost use Rattle.census.specs.Census.{census_of};
ghost use Rattle.given.specs.Given.{runs};
ghost use Rattle.distance.specs.Distance.{distance_of};
ghost use Rattle.number_texts.specs.Text.{at_text, khz_text, hertz_text};
ghost use Rattle.numbers.specs.Refusal.{refusal_number};
ghost use Rattle.flat.specs.Flat.{station_record_of, station_of, edges_of, flat_of};
ghost use Rattle.flat_answers.specs.Answers.{fault_flat, tidiness_flat};
ghost use Rattle.flat.specs.Flat.{ceiling_flat};
ghost use Rattle.flat_answers.specs.Answers.{FlatDialed, FlatReported, census_flat, FlatWritten, FlatRaised, FlatLowered, FlatAmended};
ghost use Rattle.flat_answers.specs.Answers.{distance_flat, nearest_flat, FlatTexted, FlatTotalled};
ghost use Rattle.nearest.specs.Nearest.{nearest_of};
ghost use Rattle.flat.specs.Flat.{walk_of, walk_flat, walk_answer_flat, step_flat, version_number};
ghost use Rattle.walk.specs.Walk.{first_state, swap_of, open_of};
ghost use Rattle.walk_step.specs.Step.{step_of};

use flat::{FlatCeiling, FlatDecision, FlatEdges, FlatStation, FlatStep, FlatWalk, FlatWalkAnswer};
use flat_answers::{
    FlatAirtime, FlatCensus, FlatDials, FlatDistance, FlatFault, FlatFields, FlatImage,
    FlatNearest, FlatReport, FlatText, FlatTidiness,
};

// The version of this boundary, that of the header: 10,000 times the first number, 100 times the second, and the third.
#[unsafe(no_mangle)]
pub extern "C" fn pamuklid_version() -> u32
    ensures { result ≡ version_number }
{
    pamuklid::pamuklid_version()
}

// Whether an image is accepted: 0, or the number of its first refusal, 1 to 14.
#[unsafe(no_mangle)]
pub extern "C" fn pamuklid_check(image: &[u8]) -> u8
    ensures { result ≡ refusal_number (check_of image.now) }
{
    pamuklid::pamuklid_check(image)
}

// The same refusal, and where the table is wrong.
#[unsafe(no_mangle)]
pub extern "C" fn pamuklid_fault_of(image: &[u8]) -> FlatFault
    ensures { result ≡ fault_flat (fault_of image.now) }
{
    pamuklid::pamuklid_fault_of(image)
}

// Whether an image's table is tidy, or the image's refusal.
#[unsafe(no_mangle)]
pub extern "C" fn pamuklid_tidy(image: &[u8]) -> FlatTidiness
    ensures { result ≡ tidiness_flat (tidy_of image.now) }
{
    pamuklid::pamuklid_tidy(image)
}

// What an image's table has of overlaps, and of gaps for a licence class, as rows of 24 bytes.
#[unsafe(no_mangle)]
pub extern "C" fn pamuklid_report_of(image: &[u8], license: u8, rows: &mut [u8]) -> FlatReport
    ensures { FlatReported image.now license rows.old rows.new result }
{
    pamuklid::pamuklid_report_of(image, license, rows)
}

// The image of these fields and records, into the bytes lent: three figures, four codes and two rules for each record, the nine tables one
// after the other.
#[unsafe(no_mangle)]
pub extern "C" fn pamuklid_write(
    f: FlatFields,
    figures: &[f64],
    codes: &[u8],
    rules: &[u16],
    out: &mut [u8],
) -> FlatImage
    ensures { FlatWritten f (runs figures.now codes.now rules.now) out.old out.new result }
{
    pamuklid::pamuklid_write(f, figures, codes, rules, out)
}

// Edition 2 of an image of edition 1, into the bytes lent.
#[unsafe(no_mangle)]
pub extern "C" fn pamuklid_raise(image: &[u8], out: &mut [u8]) -> FlatImage
    ensures { FlatRaised image.now out.old out.new result }
{
    pamuklid::pamuklid_raise(image, out)
}

// Edition 1 of an image of edition 2 whose watts are those of edition 1, into the bytes lent.
#[unsafe(no_mangle)]
pub extern "C" fn pamuklid_lower(image: &[u8], out: &mut [u8]) -> FlatImage
    ensures { FlatLowered image.now out.old out.new result }
{
    pamuklid::pamuklid_lower(image, out)
}

// The effective image of a day: the base image with the amendments of the list that are in force, into the bytes lent.
#[unsafe(no_mangle)]
pub extern "C" fn pamuklid_amend(image: &[u8], list: &[u8], day: u32, out: &mut [u8]) -> FlatImage
    ensures { FlatAmended image.now list.now day out.old out.new result }
{
    pamuklid::pamuklid_amend(image, list, day, out)
}

// The calls that take or give a station record. `_2` is the second layout of FlatStation, with two margins: a program that was compiled
// for the first finds no such symbol. The header and the Rust crate name them without it.

// A fresh station record: region 2, margins 50 and 50, and nothing else known.
#[unsafe(no_mangle)]
pub extern "C" fn pamuklid_fresh_2() -> FlatStation
    ensures { result ≡ station_of fresh_of }
{
    pamuklid::pamuklid_fresh_2()
}

// Judge a transmission.
#[unsafe(no_mangle)]
pub extern "C" fn pamuklid_evaluate_2(
    s: FlatStation,
    kind: u8,
    direction: u8,
    e: FlatEdges,
    image: &[u8],
) -> FlatDecision
    ensures { result ≡ flat_of (evaluate_of (station_record_of s) kind direction (edges_of e) image.now) }
{
    pamuklid::pamuklid_evaluate_2(s, kind, direction, e, image)
}

// The refusal of a transmission whose spectrum is not known.
#[unsafe(no_mangle)]
pub extern "C" fn pamuklid_unmeasured_2(s: FlatStation, image: &[u8]) -> FlatDecision
    ensures { result ≡ flat_of (unmeasured_of (station_record_of s) image.now) }
{
    pamuklid::pamuklid_unmeasured_2(s, image)
}

// The fastest rung that may be sent, and the answer on the first that may not.
#[unsafe(no_mangle)]
pub extern "C" fn pamuklid_ceiling_of_2(
    s: FlatStation,
    direction: u8,
    ordinary: FlatEdges,
    floor: FlatEdges,
    image: &[u8],
    rungs: &[f64],
    floors: &[u8],
) -> FlatCeiling
    ensures { result ≡ ceiling_flat (ceiling_of (station_record_of s) direction
        (edges_of ordinary) (edges_of floor) image.now rungs.now floors.now) }
{
    pamuklid::pamuklid_ceiling_of_2(s, direction, ordinary, floor, image, rungs, floors)
}

// The first state of a walk.
#[unsafe(no_mangle)]
pub extern "C" fn pamuklid_walk_first() -> FlatWalk
    ensures { result ≡ walk_flat first_state }
{
    pamuklid::pamuklid_walk_first()
}

// A change to the other image: at once, or at the end of the walk that is open.
#[unsafe(no_mangle)]
pub extern "C" fn pamuklid_walk_swap(w: FlatWalk) -> FlatWalkAnswer
    ensures { result ≡ walk_answer_flat (swap_of (walk_of w)) }
{
    pamuklid::pamuklid_walk_swap(w)
}

// A walk is opened, under the image in force.
#[unsafe(no_mangle)]
pub extern "C" fn pamuklid_walk_open(w: FlatWalk) -> FlatWalkAnswer
    ensures { result ≡ walk_answer_flat (open_of (walk_of w)) }
{
    pamuklid::pamuklid_walk_open(w)
}

// The rung at the walk's place, judged.
#[unsafe(no_mangle)]
pub extern "C" fn pamuklid_walk_step(
    w: FlatWalk,
    s: FlatStation,
    direction: u8,
    ordinary: FlatEdges,
    floor: FlatEdges,
    image_0: &[u8],
    image_1: &[u8],
    rungs: &[f64],
    floors: &[u8],
) -> FlatStep
    ensures { result ≡ step_flat (step_of (walk_of w) (station_record_of s) direction (edges_of ordinary) (edges_of floor)
        image_0.now image_1.now rungs.now floors.now) }
{
    pamuklid::pamuklid_walk_step(
        w, s, direction, ordinary, floor, image_0, image_1, rungs, floors,
    )
}

// The dials that keep a signal of these edges inside the rules, as rows of 36 bytes.
#[unsafe(no_mangle)]
pub extern "C" fn pamuklid_safe_dials_2(
    s: FlatStation,
    direction: u8,
    e: FlatEdges,
    image: &[u8],
    rows: &mut [u8],
) -> FlatDials
    ensures { FlatDialed (station_record_of s) direction (edges_of e) image.now rows.old rows.new result }
{
    pamuklid::pamuklid_safe_dials_2(s, direction, e, image, rows)
}

// How many whole-hertz dials from a first to a last get each code, each taken as the record's dial.
#[unsafe(no_mangle)]
pub extern "C" fn pamuklid_census_of(
    s: FlatStation,
    kind: u8,
    direction: u8,
    e: FlatEdges,
    image: &[u8],
    first: i64,
    last: i64,
) -> FlatCensus
    ensures { result ≡ census_flat (census_of (station_record_of s) kind direction (edges_of e) image.now first last) }
{
    pamuklid::pamuklid_census_of(s, kind, direction, e, image, first, last)
}

// Where to move the dial to: the dial nearest to the record's own at which data is allowed, outside the channel band.
#[unsafe(no_mangle)]
pub extern "C" fn pamuklid_nearest_dial(
    s: FlatStation,
    direction: u8,
    e: FlatEdges,
    image: &[u8],
) -> FlatNearest
    ensures { result ≡ nearest_flat (nearest_of (station_record_of s) direction (edges_of e) image.now) }
{
    pamuklid::pamuklid_nearest_dial(s, direction, e, image)
}

// How far a dial stands from the nearest of the first count rows of a list, those of the channel band left out. flags and channel_band
// are bytes 42 and 43 of the list's image.
#[unsafe(no_mangle)]
pub extern "C" fn pamuklid_distance_of(
    dial_hz: f64,
    flags: u8,
    channel_band: u8,
    count: u32,
    rows: &[u8],
) -> FlatDistance
    ensures { result ≡ distance_flat (distance_of dial_hz flags channel_band count rows.now) }
{
    pamuklid::pamuklid_distance_of(dial_hz, flags, channel_band, count, rows)
}

// The text of a frequency in kilohertz, with three decimals.
#[unsafe(no_mangle)]
pub extern "C" fn pamuklid_text_at(hz: f64, text: &mut [u8]) -> FlatText
    ensures { FlatTexted hz (at_text hz) text.old text.new result }
{
    pamuklid::pamuklid_text_at(hz, text)
}

// The text of a frequency in kilohertz, with as many decimals as it needs.
#[unsafe(no_mangle)]
pub extern "C" fn pamuklid_text_khz(hz: f64, text: &mut [u8]) -> FlatText
    ensures { FlatTexted hz (khz_text hz) text.old text.new result }
{
    pamuklid::pamuklid_text_khz(hz, text)
}

// The text of a figure in whole hertz.
#[unsafe(no_mangle)]
pub extern "C" fn pamuklid_text_hertz(hz: f64, text: &mut [u8]) -> FlatText
    ensures { FlatTexted hz (hertz_text hz) text.old text.new result }
{
    pamuklid::pamuklid_text_hertz(hz, text)
}

// Of each record of a log the seconds of its band over itself and the earlier records that start at most 599 seconds before it.
#[unsafe(no_mangle)]
pub extern "C" fn pamuklid_airtime_of(
    starts: &[u64],
    bands: &[u8],
    seconds: &[u16],
    totals: &mut [u64],
) -> FlatAirtime
    ensures { FlatTotalled starts.now bands.now seconds.now totals.old totals.new result }
{
    pamuklid::pamuklid_airtime_of(starts, bands, seconds, totals)
}

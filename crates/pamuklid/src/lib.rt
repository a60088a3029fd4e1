// The boundary to C: the public calls, with flat structs of numbers. pamuklid_c exports them. It uses station, image, fault, tidy, numbers, verdict,
// ceiling, dials, nearest, report, census, distance, number_texts, airtime, writer, convert, amend, walk, walk_step, flat and flat_answers. Codes
// are numbers, every one of which is accepted, and runs lie side by side, as C lends them.
#![tactic(auto)]

ghost use Rattle.std.specs.Prelude.{◌≡◌};
ghost use Rattle.image.specs.Check.{check_of};
ghost use Rattle.fault.specs.Fault.{fault_of};
ghost use Rattle.tidy.specs.Tidy.{tidy_of};
ghost use Rattle.station.specs.Station.{fresh_of};
ghost use Rattle.verdict.specs.Verdict.{evaluate_of, unmeasured_of};
ghost use Rattle.ceiling.specs.Ceiling.{ceiling_of};
ghost use Rattle.census.specs.Census.{census_of};
ghost use Rattle.given.specs.Given.{runs};
ghost use Rattle.distance.specs.Distance.{distance_of};
ghost use Rattle.number_texts.specs.Text.{at_text, khz_text, hertz_text};
ghost use Rattle.numbers.specs.Refusal.{refusal_number};
ghost use Rattle.flat.specs.Flat.{station_record_of, station_of, edges_of, flat_of};
ghost use Rattle.flat_answers.specs.Answers.{fault_flat, tidiness_flat};
ghost use Rattle.flat.specs.Flat.{ceiling_flat};
ghost use Rattle.flat_answers.specs.Answers.{FlatDialed, FlatReported, census_flat, FlatWritten, FlatRaised, FlatLowered, FlatAmended};
ghost use Rattle.flat_answers.specs.Answers.{distance_flat, nearest_flat, FlatTexted, FlatTotalled};
ghost use Rattle.nearest.specs.Nearest.{nearest_of};
ghost use Rattle.flat.specs.Flat.{walk_of, walk_flat, walk_answer_flat, step_flat, version_number};
ghost use Rattle.walk.specs.Walk.{first_state, swap_of, open_of};
ghost use Rattle.walk_step.specs.Step.{step_of};

use flat::{FlatCeiling, FlatDecision, FlatEdges, FlatStation, FlatStep, FlatWalk, FlatWalkAnswer};
use flat_answers::{
    FlatAirtime, FlatCensus, FlatDials, FlatDistance, FlatFault, FlatFields, FlatImage,
    FlatNearest, FlatReport, FlatText, FlatTidiness,
};

// The version of this boundary: 0.14.0.
pub const VERSION: u32 = 1400;

// The version of this boundary, that of the header: 10,000 times the first number, 100 times the second, and the third.
pub fn pamuklid_version() -> u32
    ensures { result ≡ version_number }
{
    VERSION
}

// Whether an image is accepted: 0, or the number of its first refusal, 1 to 14.
pub fn pamuklid_check(image: &[u8]) -> u8
    ensures { result ≡ refusal_number (check_of image.now) }
{
    numbers::refusal_number(image::check(image))
}

// The same refusal, and where the table is wrong.
pub fn pamuklid_fault_of(image: &[u8]) -> FlatFault
    ensures { result ≡ fault_flat (fault_of image.now) }
{
    flat_answers::fault_flat(fault::fault_of(image))
}

// Whether an image's table is tidy, or the image's refusal.
pub fn pamuklid_tidy(image: &[u8]) -> FlatTidiness
    ensures { result ≡ tidiness_flat (tidy_of image.now) }
{
    flat_answers::tidiness_flat(tidy::is_tidy(image))
}

// What an image's table has of overlaps, and of gaps for a licence class, as rows of 24 bytes.
pub fn pamuklid_report_of(image: &[u8], license: u8, rows: &mut [u8]) -> FlatReport
    ensures { FlatReported image.now license rows.old rows.new result }
{
    flat_answers::report_flat(report::report_of(image, license, rows))
}

// The image of these fields and records, into the bytes lent: three figures, four codes and two rules for each record, the nine tables one
// after the other.
pub fn pamuklid_write(
    f: FlatFields,
    figures: &[f64],
    codes: &[u8],
    rules: &[u16],
    out: &mut [u8],
) -> FlatImage
    ensures { FlatWritten f (runs figures.now codes.now rules.now) out.old out.new result }
{
    let counts = f.counts;
    let fields = flat_answers::fields_in(f);
    flat_answers::image_flat(writer::write(fields, &counts, figures, codes, rules, out))
}

// Edition 2 of an image of edition 1, into the bytes lent.
pub fn pamuklid_raise(image: &[u8], out: &mut [u8]) -> FlatImage
    ensures { FlatRaised image.now out.old out.new result }
{
    flat_answers::image_flat(convert::raise(image, out))
}

// Edition 1 of an image of edition 2 whose watts are those of edition 1, into the bytes lent.
pub fn pamuklid_lower(image: &[u8], out: &mut [u8]) -> FlatImage
    ensures { FlatLowered image.now out.old out.new result }
{
    flat_answers::image_flat(convert::lower(image, out))
}

// The effective image of a day: the base image with the amendments of the list that are in force, into the bytes lent.
pub fn pamuklid_amend(image: &[u8], list: &[u8], day: u32, out: &mut [u8]) -> FlatImage
    ensures { FlatAmended image.now list.now day out.old out.new result }
{
    flat_answers::image_flat(amend::amend(image, list, day, out))
}

// The calls that take or give a station record. `_2` is the second layout of FlatStation, with two margins: a program that was compiled
// for the first finds no such symbol. The header and the Rust crate name them without it.

// A fresh station record: region 2, margins 50 and 50, and nothing else known.
pub fn pamuklid_fresh_2() -> FlatStation
    ensures { result ≡ station_of fresh_of }
{
    flat::station_out(station::fresh())
}

// Judge a transmission.
pub fn pamuklid_evaluate_2(
    s: FlatStation,
    kind: u8,
    direction: u8,
    e: FlatEdges,
    image: &[u8],
) -> FlatDecision
    ensures { result ≡ flat_of (evaluate_of (station_record_of s) kind direction (edges_of e) image.now) }
{
    let record = flat::station_in(s);
    let edges = flat::edges_in(e);
    flat::flat(verdict::evaluate(record, kind, direction, edges, image))
}

// The refusal of a transmission whose spectrum is not known.
pub fn pamuklid_unmeasured_2(s: FlatStation, image: &[u8]) -> FlatDecision
    ensures { result ≡ flat_of (unmeasured_of (station_record_of s) image.now) }
{
    let record = flat::station_in(s);
    flat::flat(verdict::unmeasured(record, image))
}

// The fastest rung that may be sent, and the answer on the first that may not.
pub fn pamuklid_ceiling_of_2(
    s: FlatStation,
    direction: u8,
    ordinary: FlatEdges,
    floor: FlatEdges,
    image: &[u8],
    rungs: &[f64],
    floors: &[u8],
) -> FlatCeiling
    ensures { result ≡ ceiling_flat (ceiling_of (station_record_of s) direction
        (edges_of ordinary) (edges_of floor) image.now rungs.now floors.now) }
{
    let record = flat::station_in(s);
    let ordinary_edges = flat::edges_in(ordinary);
    let floor_edges = flat::edges_in(floor);
    let answer = ceiling::ceiling(
        record,
        direction,
        ordinary_edges,
        floor_edges,
        image,
        rungs,
        floors,
    );
    flat::ceiling_flat(answer, answer.limit_or_absent())
}

// The first state of a walk.
pub fn pamuklid_walk_first() -> FlatWalk
    ensures { result ≡ walk_flat first_state }
{
    flat::walk_out(walk::first())
}

// A change to the other image: at once, or at the end of the walk that is open.
pub fn pamuklid_walk_swap(w: FlatWalk) -> FlatWalkAnswer
    ensures { result ≡ walk_answer_flat (swap_of (walk_of w)) }
{
    flat::walk_answer_flat(walk::swap(flat::walk_in(w)))
}

// A walk is opened, under the image in force.
pub fn pamuklid_walk_open(w: FlatWalk) -> FlatWalkAnswer
    ensures { result ≡ walk_answer_flat (open_of (walk_of w)) }
{
    flat::walk_answer_flat(walk::open_walk(flat::walk_in(w)))
}

// The rung at the walk's place, judged.
pub fn pamuklid_walk_step(
    w: FlatWalk,
    s: FlatStation,
    direction: u8,
    ordinary: FlatEdges,
    floor: FlatEdges,
    image_0: &[u8],
    image_1: &[u8],
    rungs: &[f64],
    floors: &[u8],
) -> FlatStep
    ensures { result ≡ step_flat (step_of (walk_of w) (station_record_of s) direction (edges_of ordinary) (edges_of floor)
        image_0.now image_1.now rungs.now floors.now) }
{
    let state = flat::walk_in(w);
    let record = flat::station_in(s);
    let ordinary_edges = flat::edges_in(ordinary);
    let floor_edges = flat::edges_in(floor);
    let answer = walk_step::step(
        state,
        record,
        direction,
        ordinary_edges,
        floor_edges,
        image_0,
        image_1,
        rungs,
        floors,
    );
    flat::step_flat(answer, answer.ceiling.limit_or_absent())
}

// The dials that keep a signal of these edges inside the rules, as rows of 36 bytes.
pub fn pamuklid_safe_dials_2(
    s: FlatStation,
    direction: u8,
    e: FlatEdges,
    image: &[u8],
    rows: &mut [u8],
) -> FlatDials
    ensures { FlatDialed (station_record_of s) direction (edges_of e) image.now rows.old rows.new result }
{
    let record = flat::station_in(s);
    let edges = flat::edges_in(e);
    let answer = dials::safe_dials(record, direction, edges, image, rows);
    flat_answers::dials_flat(answer)
}

// How many whole-hertz dials from a first to a last get each code, each taken as the record's dial.
pub fn pamuklid_census_of(
    s: FlatStation,
    kind: u8,
    direction: u8,
    e: FlatEdges,
    image: &[u8],
    first: i64,
    last: i64,
) -> FlatCensus
    ensures { result ≡ census_flat (census_of (station_record_of s) kind direction (edges_of e) image.now first last) }
{
    let record = flat::station_in(s);
    let edges = flat::edges_in(e);
    flat_answers::census_flat(census::census_of(record, kind, direction, edges, image, first, last))
}

// Where to move the dial to: the dial nearest to the record's own at which data is allowed, outside the channel band.
pub fn pamuklid_nearest_dial(
    s: FlatStation,
    direction: u8,
    e: FlatEdges,
    image: &[u8],
) -> FlatNearest
    ensures { result ≡ nearest_flat (nearest_of (station_record_of s) direction (edges_of e) image.now) }
{
    let record = flat::station_in(s);
    let edges = flat::edges_in(e);
    flat_answers::nearest_flat(nearest::nearest_dial(record, direction, edges, image))
}

// How far a dial stands from the nearest of the first count rows of a list, those of the channel band left out. flags and channel_band
// are bytes 42 and 43 of the list's image.
pub fn pamuklid_distance_of(
    dial_hz: f64,
    flags: u8,
    channel_band: u8,
    count: u32,
    rows: &[u8],
) -> FlatDistance
    ensures { result ≡ distance_flat (distance_of dial_hz flags channel_band count rows.now) }
{
    flat_answers::distance_flat(distance::distance_of(
        dial_hz,
        flags,
        channel_band,
        count as usize,
        rows,
    ))
}

// The text of a frequency in kilohertz, with three decimals.
pub fn pamuklid_text_at(hz: f64, text: &mut [u8]) -> FlatText
    ensures { FlatTexted hz (at_text hz) text.old text.new result }
{
    flat_answers::text_flat(number_texts::at(hz, text))
}

// The text of a frequency in kilohertz, with as many decimals as it needs.
pub fn pamuklid_text_khz(hz: f64, text: &mut [u8]) -> FlatText
    ensures { FlatTexted hz (khz_text hz) text.old text.new result }
{
    flat_answers::text_flat(number_texts::khz(hz, text))
}

// The text of a figure in whole hertz.
pub fn pamuklid_text_hertz(hz: f64, text: &mut [u8]) -> FlatText
    ensures { FlatTexted hz (hertz_text hz) text.old text.new result }
{
    flat_answers::text_flat(number_texts::hertz(hz, text))
}

// Of each record of a log the seconds of its band over itself and the earlier records that start at most 599 seconds before it.
pub fn pamuklid_airtime_of(
    starts: &[u64],
    bands: &[u8],
    seconds: &[u16],
    totals: &mut [u64],
) -> FlatAirtime
    ensures { FlatTotalled starts.now bands.now seconds.now totals.old totals.new result }
{
    flat_answers::airtime_flat(airtime::totals(starts, bands, seconds, totals))
}

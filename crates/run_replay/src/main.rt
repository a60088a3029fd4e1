// A program of the gate: it replays the cases of its input, each with its answer, and writes a line for each that the
// calls answer otherwise, then how many there were. The input, the file `stdin` beside src/, was written by
// `compare/run --replay crates/run_replay/stdin --seed 1`: verdicts, ceilings, dial lists and texts as the Rust answers them, but for
// those on 60 m that document 02, 4 changed, refusals, distances and the parts that the Rust has only as words as the papers give
// them. compare/src/replay.rs says what the bytes mean, and makes sure that every code and every refusal of each call is there. It uses
// flat, flat_answers, pamuklid and lines.
#![tactic(auto)]

use flat::{FlatDecision, FlatEdges, FlatStation};
use flat_answers::FlatText;
use lines::Cursor;
use std::alloc::Global;
use std::io;
use std::io::{Read, Write};

// The largest image with its cases, and the most cases before an image.
const LARGEST: u32 = 163840;

const CASES: u64 = 1000000;

// The most figures of a ladder, the most bytes lent for rows and for a text, and the most rows that are told.
const FIGURES: usize = 1280;

const LENT: usize = 4096;

const ROOM: usize = 24;

const ROWS: u32 = 1000;

// What lent bytes hold before.
const FILL: u8 = 0xa5;

// The calls, in the order of their numbers.
#[derive(Clone, Copy)]
enum Call {
    Image,
    Verdict,
    Unmeasured,
    Ceiling,
    Dials,
    Distance,
    Fault,
    Text,
}

impl TryFrom<u8> for Call {
    type Error = ();

    fn try_from(n: u8) -> Result<Call, ()> {
        match n {
            0 => Ok(Call::Image),
            1 => Ok(Call::Verdict),
            2 => Ok(Call::Unmeasured),
            3 => Ok(Call::Ceiling),
            4 => Ok(Call::Dials),
            5 => Ok(Call::Distance),
            6 => Ok(Call::Fault),
            7 => Ok(Call::Text),
            _ => Err(()),
        }
    }
}

// ---- what the input gives

// A station record of 32 bytes: it has one margin, which stands for both.
fn station(input: &mut Cursor<'_>) -> Option<FlatStation> {
    let margin = input.f64()?;
    Some(FlatStation {
        margin_lower_hz: margin,
        margin_upper_hz: margin,
        dial_hz: input.f64()?,
        power_w: input.f64()?,
        policy: input.u8()?,
        control: input.u8()?,
        license: input.u8()?,
        sideband: input.u8()?,
        itu_region: input.u8()?,
        band_plan: input.u8()?,
        dial_known: input.u8()?,
        power_known: input.u8()?,
    })
}

fn edges(input: &mut Cursor<'_>) -> Option<FlatEdges> {
    Some(FlatEdges {
        power_low: input.f64()?,
        power_high: input.f64()?,
        spectral_low: input.f64()?,
        spectral_high: input.f64()?,
    })
}

// ---- whether an answer is the one that is next in the input

fn figures_agree(input: &mut Cursor<'_>, figures: &[f64]) -> Option<bool> {
    let mut agree = true;
    for x in figures {
        agree &= input.u64()? == lines::bits_of(*x);
    }
    Some(agree)
}

fn words_agree(input: &mut Cursor<'_>, words: &[u16]) -> Option<bool> {
    let mut agree = true;
    for n in words {
        agree &= input.u16()? == *n;
    }
    Some(agree)
}

fn codes_agree(input: &mut Cursor<'_>, codes: &[u8]) -> Option<bool> {
    Some(input.bytes(codes.len())? == codes)
}

// Rows in lent bytes: the rest is as it was.
fn rows_agree(rows: &[u8], wanted: &[u8]) -> bool {
    match rows.split_at_checked(wanted.len()) {
        Some((written, rest)) => written == wanted && rest.iter().all(|b| *b == FILL),
        None => false,
    }
}

// The notes are there only where one is not zero.
fn notes_agree(input: &mut Cursor<'_>, notes: &[u8]) -> Option<bool> {
    if input.u8()? == 0 {
        return Some(notes.iter().all(|n| *n == 0));
    }
    codes_agree(input, notes)
}

fn decided(input: &mut Cursor<'_>, d: FlatDecision) -> Option<bool> {
    let figures = figures_agree(
        input,
        &[
            d.segment_low,
            d.segment_high,
            d.automatic_low,
            d.automatic_high,
            d.audio_low,
            d.audio_high,
            d.width,
            d.air_low,
            d.air_high,
            d.beyond_hz,
        ],
    )?;
    let words = words_agree(input, &[d.rule, d.segment_rule, d.guidance_index])?;
    let codes = codes_agree(
        input,
        &[
            d.refusal,
            d.verdict,
            d.code,
            d.rule_known,
            d.band_known,
            d.band,
            d.segment_known,
            d.automatic_known,
            d.audio_known,
            d.air_known,
            d.overshoot,
            d.edge,
            d.guidance,
            d.note_channel_power,
            d.note_shared,
            d.note_segment_power,
        ],
    )?;
    let notes = notes_agree(input, &d.notes)?;
    Some(figures && (words && (codes && notes)))
}

// ---- the calls

// The image check and the tidy question.
fn image_case(input: &mut Cursor<'_>, image: &[u8]) -> Option<bool> {
    let refusal = pamuklid::pamuklid_check(image);
    let t = pamuklid::pamuklid_tidy(image);
    let told = input.array::<2>()?;
    Some(told[0] == refusal && (told[0] == t.refusal && told[1] == t.tidy))
}

fn verdict_case(input: &mut Cursor<'_>, image: &[u8]) -> Option<bool> {
    let record = station(input)?;
    let kind = input.u8()?;
    let direction = input.u8()?;
    let signal = edges(input)?;
    decided(
        input,
        pamuklid::pamuklid_evaluate_2(record, kind, direction, signal, image),
    )
}

fn unmeasured_case(input: &mut Cursor<'_>, image: &[u8]) -> Option<bool> {
    let record = station(input)?;
    decided(input, pamuklid::pamuklid_unmeasured_2(record, image))
}

// A ladder has its figures, then its floor bytes.
fn ceiling_case(input: &mut Cursor<'_>, image: &[u8]) -> Option<bool> {
    let record = station(input)?;
    let direction = input.u8()?;
    let ordinary = edges(input)?;
    let floor = edges(input)?;
    let count = input.small()?;
    let floors = input.small()?;
    let mut room = [0.0; FIGURES];
    let rungs = room.get_mut(..count)?;
    for x in rungs.iter_mut() {
        *x = input.f64()?;
    }
    let floors = input.bytes(floors)?;
    let c = pamuklid::pamuklid_ceiling_of_2(
        record, direction, ordinary, floor, image, rungs, floors,
    );
    let refusal = input.u8()?;
    let mark = input.u8()?;
    let number = input.u16()?;
    let known = input.u8()?;
    let rung = if mark == 0 { -1 } else { i32::from(number) };
    let limit = decided(input, c.limit)?;
    Some(refusal == c.refusal && (rung == c.rung && (known == c.limit_known && limit)))
}

fn dials_case(input: &mut Cursor<'_>, image: &[u8]) -> Option<bool> {
    let record = station(input)?;
    let direction = input.u8()?;
    let signal = edges(input)?;
    let lent = input.size()?;
    let mut room = [FILL; LENT];
    let rows = room.get_mut(..lent)?;
    let a = pamuklid::pamuklid_safe_dials_2(record, direction, signal, image, rows);
    let refusal = input.u8()?;
    let count = input.u32().filter(|n| *n <= ROWS)?;
    let wanted = input.bytes(36 * count as usize)?;
    Some(refusal == a.refusal && (count == a.count && rows_agree(rows, wanted)))
}

fn distance_case(input: &mut Cursor<'_>) -> Option<bool> {
    let dial = input.f64()?;
    let flags = input.array::<2>()?;
    let count = input.u32()?;
    let size = input.size()?;
    let rows = input.bytes(size)?;
    let d = pamuklid::pamuklid_distance_of(dial, flags[0], flags[1], count, rows);
    let codes = codes_agree(input, &[d.refusal, d.listed])?;
    let figure = figures_agree(input, &[d.distance_hz])?;
    Some(codes && figure)
}

// Where the table is wrong.
fn fault_case(input: &mut Cursor<'_>, image: &[u8]) -> Option<bool> {
    let f = pamuklid::pamuklid_fault_of(image);
    let codes = codes_agree(input, &[f.refusal, f.place, f.table])?;
    let record = words_agree(input, &[f.record])?;
    Some(codes && record)
}

// One of the three texts of a figure.
fn text_of(which: u8, hz: f64, text: &mut [u8]) -> FlatText {
    match which {
        0 => pamuklid::pamuklid_text_at(hz, text),
        1 => pamuklid::pamuklid_text_khz(hz, text),
        _ => pamuklid::pamuklid_text_hertz(hz, text),
    }
}

fn text_case(input: &mut Cursor<'_>) -> Option<bool> {
    let which = input.u8()?;
    let hz = input.f64()?;
    let lent = input.u8()? as usize;
    let mut room = [FILL; ROOM];
    let text = room.get_mut(..lent)?;
    let a = text_of(which, hz, text);
    let refusal = input.u8()?;
    let length = input.u8()?;
    let wanted = input.bytes(length as usize)?;
    let answered = refusal == a.refusal && u32::from(length) == a.length;
    Some(answered && rows_agree(text, wanted))
}

fn case(call: Call, input: &mut Cursor<'_>, image: &[u8]) -> Option<bool> {
    match call {
        Call::Image => image_case(input, image),
        Call::Verdict => verdict_case(input, image),
        Call::Unmeasured => unmeasured_case(input, image),
        Call::Ceiling => ceiling_case(input, image),
        Call::Dials => dials_case(input, image),
        Call::Distance => distance_case(input),
        Call::Fault => fault_case(input, image),
        Call::Text => text_case(input),
    }
}

// ---- the input, image by image

// How many cases there were, and how many of them differ.
#[derive(Clone, Copy)]
struct Tally {
    cases: u64,
    wrong: u64,
}

// A case on an image: its call, and whether the answer agrees.
fn called(input: &mut Cursor<'_>, image: &[u8]) -> Option<(Call, bool)> {
    let call = Call::try_from(input.u8()?).ok()?;
    Some((call, case(call, input, image)?))
}

// An image, and how many cases there are on it.
fn head<'a>(input: &mut Cursor<'a>) -> Option<(&'a [u8], u32)> {
    let size = input.size()?;
    Some((input.bytes(size)?, input.u32()?))
}

// An image with its cases; false where they are malformed.
fn page(out: &mut impl Write, page: &[u8], number: u32, tally: &mut Tally) -> io::Result<bool> {
    let mut input = Cursor::new(page);
    let Some((image, count)) = head(&mut input) else {
        return Ok(false);
    };
    for k in 0..count {
        let Some((call, agrees)) = called(&mut input, image) else {
            return Ok(false);
        };
        tally.cases = tally.cases.saturating_add(1);
        if !agrees {
            tally.wrong = tally.wrong.saturating_add(1);
            writeln!(out, "image {number} case {k} call {} differs", call as u8)?;
        }
    }
    Ok(input.left.is_empty())
}

// The number of four bytes of the input, unless it has ended.
fn next_number(alloc: Global, from: &mut impl Read) -> io::Result<Option<u32>> {
    let head = lines::read(alloc, from, 4)?;
    Ok(Cursor::new(&head).u32())
}

// The images of the input, in their order; false where they are malformed.
fn pages(
    alloc: Global,
    from: &mut impl Read,
    out: &mut impl Write,
    tally: &mut Tally,
) -> io::Result<bool> {
    let Some(count) = next_number(alloc, from)? else {
        return Ok(false);
    };
    for k in 0..count {
        if CASES < tally.cases {
            return Ok(false);
        }
        let Some(size) = next_number(alloc, from)?.filter(|n| *n <= LARGEST) else {
            return Ok(false);
        };
        let bytes = lines::read(alloc, from, u64::from(size))?;
        if bytes.len() != size as usize || !page(out, &bytes, k, tally)? {
            return Ok(false);
        }
    }
    let rest = lines::read(alloc, from, 1)?;
    Ok(rest.is_empty())
}

fn main(rt: HostRuntime) -> io::Result<()> {
    let mut out = lines::output(&rt)?;
    let mut tally = Tally { cases: 0, wrong: 0 };
    let whole = pages(rt.alloc(), &mut rt.reader(), &mut out, &mut tally)?;
    write!(out, "{} cases", tally.cases)?;
    if !whole {
        writeln!(out, ", then the input is malformed")?;
    } else if tally.wrong == 0 {
        writeln!(out, " agree")?;
    } else {
        writeln!(out, ", of which differ {}", tally.wrong)?;
    }
    out.flush()
}

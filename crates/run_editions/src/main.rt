// A program of the gate: it writes, raises and lowers the images that its input describes, and writes what each call answers and every byte
// that was lent, or two sums of them where they are many. Input and output come from tools/reference/editions.py, which says what the bytes
// mean. It stops at input that is malformed. It uses given, writer, convert, told and lines.
#![tactic(auto)]

use given::Fields;
use lines::Cursor;
use std::alloc::Global;
use std::io;
use std::io::Write;

// The most bytes lent, and what they hold before.
const ROOM: usize = 65600;

const FILL: u8 = 0xa5;

// The most figures and rules that are given.
const FIGURES: usize = 6144;

const RULES: usize = 4096;

// A call, with the bytes of what it is given: for a writer, or an image.
#[derive(Clone, Copy)]
enum Call<'a> {
    Write(&'a [u8]),
    Raise(&'a [u8]),
    Lower(&'a [u8]),
}

// What is given for a writer: the edition and the general block, how many records each table has, and the figures, codes and rules of the
// records, by their bytes.
#[derive(Clone, Copy)]
struct Given<'a> {
    fields: Fields,
    counts: [u16; 9],
    figures: &'a [u8],
    codes: &'a [u8],
    rules: &'a [u8],
}

#[derive(Clone, Copy)]
struct Case<'a> {
    call: Call<'a>,
    room: usize,
}

fn fields(input: &mut Cursor<'_>) -> Option<Fields> {
    Some(Fields {
        edition: input.u16()?,
        data_limit: input.f64()?,
        elsewhere_limit: input.f64()?,
        channel_width: input.f64()?,
        carrier_offset: input.f64()?,
        carrier_tolerance: input.f64()?,
        channel_watts: input.f64()?,
        segment_watts: input.f64()?,
        region: input.u8()?,
        reading: input.u8()?,
        flags: input.u8()?,
        channel_band: input.u8()?,
        sideband: input.u8()?,
        emissions: input.u8()?,
        data_rule: input.u16()?,
        elsewhere_rule: input.u16()?,
        automatic_rule: input.u16()?,
        channels_rule: input.u16()?,
        emissions_rule: input.u16()?,
        privileges_rule: input.u16()?,
    })
}

fn counts(input: &mut Cursor<'_>) -> Option<[u16; 9]> {
    let mut counts = [0; 9];
    for n in counts.iter_mut() {
        *n = input.u16()?;
    }
    Some(counts)
}

impl<'a> Given<'a> {
    fn read(input: &mut Cursor<'a>) -> Option<Self> {
        let fields = fields(input)?;
        let counts = counts(input)?;
        let figures = input.small().filter(|n| *n <= FIGURES)?;
        let codes = input.small()?;
        let rules = input.small().filter(|n| *n <= RULES)?;
        Some(Given {
            fields,
            counts,
            figures: input.bytes(8 * figures)?,
            codes: input.bytes(codes)?,
            rules: input.bytes(2 * rules)?,
        })
    }
}

impl<'a> Case<'a> {
    fn read(input: &mut Cursor<'a>) -> Option<Self> {
        let call = input.u8()?;
        let room = input.size().filter(|n| *n <= ROOM)?;
        let size = input.size()?;
        let body = input.bytes(size)?;
        let call = match call {
            0 => Call::Write(body),
            1 => Call::Raise(body),
            _ => Call::Lower(body),
        };
        Some(Case { call, room })
    }
}

// The line of a case, which ends behind its number where what is given for a writer is malformed.
fn answer(alloc: Global, out: &mut impl Write, k: u16, case: Case<'_>) -> io::Result<Option<()>> {
    let mut lent = vec![in alloc; FILL; case.room]?;
    write!(out, "{k}")?;
    let a = match case.call {
        Call::Write(body) => {
            let Some(g) = Given::read(&mut Cursor::new(body)) else {
                return Ok(None);
            };
            let figures = lines::figures(alloc, g.figures)?;
            let rules = lines::words(alloc, g.rules)?;
            writer::write(g.fields, &g.counts, &figures, g.codes, &rules, &mut lent)
        }
        Call::Raise(image) => convert::raise(image, &mut lent),
        Call::Lower(image) => convert::lower(image, &mut lent),
    };
    told::told(out, a, &lent).map(Some)
}

fn main(rt: HostRuntime) -> io::Result<()> {
    let alloc = rt.alloc();
    let input = lines::input(&rt, 524288)?;
    let mut out = lines::output(&rt)?;
    lines::cases(
        &mut out,
        &input,
        Case::read,
        |out, k, case| answer(alloc, out, k, case),
    )?;
    out.flush()
}

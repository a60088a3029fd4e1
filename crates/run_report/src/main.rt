// A program of the gate: it asks for the table reports that its input describes, and writes what each call answers and every byte that
// was lent. Input and output come from tools/reference/report.py, which says what the bytes mean. It stops at input that is malformed.
// It uses codes, report and lines.
#![tactic(auto)]

use lines::Cursor;
use std::alloc::Global;
use std::io;
use std::io::Write;

// The most bytes lent, and what they hold before.
const ROOM: usize = 2048;

const FILL: u8 = 0xa5;

// An image, how many questions there are on it, and where they begin.
#[derive(Clone, Copy)]
struct Case<'a> {
    image: &'a [u8],
    count: u16,
    questions: Cursor<'a>,
}

impl<'a> Case<'a> {
    // Where the input ends before the last question, the answer says so.
    fn read(input: &mut Cursor<'a>) -> Option<Self> {
        let size = input.size()?;
        let image = input.bytes(size)?;
        let count = input.u16()?;
        let questions = *input;
        let _ = input.bytes(3 * count as usize);
        Some(Case {
            image,
            count,
            questions,
        })
    }
}

// A question: a class, and how many bytes are lent.
fn question(input: &mut Cursor<'_>) -> Option<(u8, usize)> {
    Some((input.u8()?, input.small().filter(|n| *n <= ROOM)?))
}

// The lines of a question: the answer, and every byte lent, a row to a line; what is left of them on the last.
fn asked(
    alloc: Global,
    out: &mut impl Write,
    image: &[u8],
    class: u8,
    lent: usize,
) -> io::Result<()> {
    let mut rows = vec![in alloc; FILL; lent]?;
    match report::report_of(image, class, &mut rows) {
        Ok(n) => writeln!(out, " rows {n}")?,
        Err(r) => writeln!(out, " refusal {}", u8::from(r))?,
    }
    let (whole, rest) = rows.as_chunks::<24>();
    for row in whole {
        lines::hex(out, row)?;
        writeln!(out)?;
    }
    lines::hex(out, rest)?;
    writeln!(out)
}

// The questions on an image, in their order.
fn answer(alloc: Global, out: &mut impl Write, i: u16, case: Case<'_>) -> io::Result<Option<()>> {
    let mut questions = case.questions;
    for k in 0..case.count {
        write!(out, "{i}.{k}")?;
        let Some((class, lent)) = question(&mut questions) else {
            return Ok(None);
        };
        asked(alloc, out, case.image, class, lent)?;
    }
    Ok(Some(()))
}

fn main(rt: HostRuntime) -> io::Result<()> {
    let alloc = rt.alloc();
    let input = lines::input(&rt, 131072)?;
    let mut out = lines::output(&rt)?;
    lines::cases(
        &mut out,
        &input,
        Case::read,
        |out, i, case| answer(alloc, out, i, case),
    )?;
    out.flush()
}

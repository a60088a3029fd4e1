// A program of the gate: it asks for the nearest dial in the cases that its input describes, and writes each answer. Input and output come from
// tools/reference/nearest.py, which says what the bytes mean. It stops at input that is malformed. It uses codes, occupancy, station, nearest,
// asked and lines.
#![tactic(auto)]

use lines::{Bits, Cursor};
use nearest::Nearest;
use occupancy::Edges;
use station::StationRecord;
use std::io;
use std::io::Write;

#[derive(Clone, Copy)]
struct Case<'a> {
    station: StationRecord,
    direction: u8,
    edges: Edges,
    image: &'a [u8],
}

impl<'a> Case<'a> {
    fn read(input: &mut Cursor<'a>) -> Option<Self> {
        let (station, own) = asked::record::<2>(input)?;
        Some(Case {
            station,
            direction: own[1],
            edges: asked::edges(input)?,
            image: input.elsewhere()?,
        })
    }
}

// The line of a case: the answer's number, the refusal's, and the dial's bits.
fn answer(out: &mut impl Write, k: u16, c: Case<'_>) -> io::Result<()> {
    let (number, refusal, dial) = match nearest::nearest_dial(
        c.station,
        c.direction,
        c.edges,
        c.image,
    ) {
        Ok(Nearest::Dial(x)) => (1, 0, x),
        Ok(Nearest::NoneAllowed) => (2, 0, f64::INFINITY),
        Ok(Nearest::NotJudged) => (3, 0, f64::INFINITY),
        Err(r) => (0, u8::from(r), f64::INFINITY),
    };
    writeln!(
        out,
        "{k} answer {number} refusal {refusal} dial {}",
        Bits(dial)
    )
}

fn main(rt: HostRuntime) -> io::Result<()> {
    let input = lines::input(&rt, 65536)?;
    let mut out = lines::output(&rt)?;
    lines::cases(
        &mut out,
        &input,
        Case::read,
        |out, k, case| answer(out, k, case).map(Some),
    )?;
    out.flush()
}

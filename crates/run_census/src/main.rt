// A program of the gate: it takes the censuses that its input describes, and writes the refusal and the counts of each. Input and output
// come from tools/reference/census.py, which says what the bytes mean. It stops at input that is malformed. It uses occupancy, station, numbers,
// census, asked and lines.
#![tactic(auto)]

use lines::Cursor;
use occupancy::Edges;
use station::StationRecord;
use std::io;
use std::io::Write;

#[derive(Clone, Copy)]
struct Case<'a> {
    station: StationRecord,
    kind: u8,
    direction: u8,
    edges: Edges,
    first: i64,
    last: i64,
    image: &'a [u8],
}

impl<'a> Case<'a> {
    fn read(input: &mut Cursor<'a>) -> Option<Self> {
        let (station, own) = asked::record::<2>(input)?;
        Some(Case {
            station,
            kind: own[0],
            direction: own[1],
            edges: asked::edges(input)?,
            first: input.i64()?,
            last: input.i64()?,
            image: input.elsewhere()?,
        })
    }
}

// The line of a case.
fn answer(out: &mut impl Write, k: u16, c: Case<'_>) -> io::Result<()> {
    let census = census::census_of(
        c.station,
        c.kind,
        c.direction,
        c.edges,
        c.image,
        c.first,
        c.last,
    );
    let refusal = numbers::refusal_number(census.refusal);
    write!(out, "{k} refusal {refusal} counts")?;
    for n in census.counts {
        write!(out, " {n}")?;
    }
    writeln!(out)
}

fn main(rt: HostRuntime) -> io::Result<()> {
    let input = lines::input(&rt, 65536)?;
    let mut out = lines::output(&rt)?;
    lines::cases(
        &mut out,
        &input,
        Case::read,
        |out, k, case| answer(out, k, case).map(Some),
    )?;
    out.flush()
}

// A program of the gate: it reads the station records that its input describes and writes the refusal of each, or what
// it is read as. Input and output come from tools/reference/borders.py, which says what the bytes mean. It stops at
// input that is malformed. It uses codes, station, asked and lines.
#![tactic(auto)]

use codes::{Direction, EmissionKind};
use lines::{Bits, Cursor};
use station::StationRecord;
use std::io::Write;
use std::{fmt, io};

// A record, with a direction and a kind beside it, and an image of no byte or one.
#[derive(Clone, Copy)]
struct Case {
    station: StationRecord,
    direction: u8,
    kind: u8,
    image: u8,
}

impl Case {
    fn read(input: &mut Cursor<'_>) -> Option<Self> {
        let (station, own) = asked::record::<2>(input)?;
        Some(Case {
            station,
            direction: own[0],
            kind: own[1],
            image: input.u8().filter(|n| *n <= 1)?,
        })
    }
}

// A figure's bits, or that it is absent.
#[derive(Clone, Copy)]
struct Known(Option<f64>);

impl fmt::Display for Known {
    fn fmt<W: fmt::Write>(&self, f: &mut fmt::Formatter<W>) -> fmt::Result {
        match self.0 {
            Some(x) => write!(f, "{}", Bits(x)),
            None => write!(f, "absent"),
        }
    }
}

// What a record is read as; 255 for a code that is none.
fn shown(out: &mut impl Write, case: Case) -> io::Result<()> {
    let x = station::situation_of(case.station);
    let margin = x.margin;
    let policy = x.policy as u8;
    let control = x.control.map_or(255, |c| c as u8);
    let license = x.license.map_or(255, u8::from);
    let sideband = x.sideband.map_or(255, |s| s as u8);
    let region = x.itu_region;
    let plan = x.band_plan as u8;
    let direction = Direction::from(case.direction) as u8;
    let kind = u8::from(EmissionKind::from(case.kind));
    write!(
        out,
        "policy {policy} control {control} license {license} sideband {sideband}"
    )?;
    write!(
        out,
        " region {region} plan {plan} dial {} power {}",
        Known(x.dial),
        Known(x.power)
    )?;
    write!(
        out,
        " lower {} upper {}",
        Bits(margin.lower_hz),
        Bits(margin.upper_hz)
    )?;
    writeln!(out, " direction {direction} kind {kind}")
}

// The line of a case.
fn answer(out: &mut impl Write, k: u16, case: Case) -> io::Result<()> {
    write!(out, "{k} ")?;
    let valid = codes::direction_valid(case.direction) && case.kind <= 3;
    let image: &[u8] = if case.image == 0 { &[] } else { &[0] };
    match station::refusals(case.station, valid, image) {
        Err(r) => writeln!(out, "refused {}", u8::from(r)),
        Ok(()) => shown(out, case),
    }
}

fn main(rt: HostRuntime) -> io::Result<()> {
    let input = lines::input(&rt, 163840)?;
    let mut out = lines::output(&rt)?;
    lines::cases(
        &mut out,
        &input,
        Case::read,
        |out, k, case| answer(out, k, case).map(Some),
    )?;
    out.flush()
}

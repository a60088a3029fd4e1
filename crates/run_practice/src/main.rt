// Runs the unstarred cases of document 01's practice table, whose image is on standard input: verdict and code on 60 m for
// a test emission, at 100 W and at 100.125 W, and the ceiling of no rungs. It uses codes, air, profile,
// occupancy, station, decision, verdict, ceiling, numbers and lines.
#![tactic(auto)]

use air::Margins;
use codes::EmissionKind;
use occupancy::Edges;
use profile::Range;
use station::StationRecord;
use std::io;
use std::io::Write;

const PAIR: Range = Range {
    low_hz: 1250.0,
    high_hz: 1750.0,
};

const EDGES: Edges = Edges {
    power: PAIR,
    spectral: PAIR,
};

// Region 2, General, local, upper sideband, margins 50 and 50, at 5,330,550, with a power that may be absent.
fn station_of(power: Option<f64>) -> StationRecord {
    StationRecord {
        policy: 2,
        control: 0,
        license: 2,
        sideband: 0,
        itu_region: 2,
        band_plan: 0,
        dial_known: 1,
        power_known: power.is_some() as u8,
        margin: Margins {
            lower_hz: 50.0,
            upper_hz: 50.0,
        },
        dial_hz: 5330550.0,
        power_w: power.unwrap_or(0.0),
    }
}

// Verdict and code of a transmission of a kind.
fn judged(
    out: &mut impl Write,
    name: &str,
    power: Option<f64>,
    kind: EmissionKind,
    image: &[u8],
) -> io::Result<()> {
    let d = verdict::evaluate(station_of(power), kind.into(), 0, EDGES, image);
    let verdict = numbers::verdict_number(d.verdict);
    let code = numbers::code_number(d.code);
    writeln!(out, "{name} verdict {verdict} code {code}")
}

// The ceiling of no rungs.
fn no_rungs(out: &mut impl Write, image: &[u8]) -> io::Result<()> {
    let a = ceiling::ceiling(station_of(None), 0, EDGES, EDGES, image, &[], &[]);
    let rung = if a.rung.is_some() { "some" } else { "none" };
    let limit = if a.limit.is_some() { "some" } else { "none" };
    writeln!(out, "no rungs: rung {rung} limit {limit}")
}

fn cases(out: &mut impl Write, image: &[u8]) -> io::Result<()> {
    judged(out, "data at 5330550", None, EmissionKind::Data, image)?;
    judged(out, "test at 5330550", None, EmissionKind::Test, image)?;
    judged(out, "data at 100 W", Some(100.0), EmissionKind::Data, image)?;
    judged(
        out,
        "data at 100.125 W",
        Some(100.125),
        EmissionKind::Data,
        image,
    )?;
    no_rungs(out, image)
}

fn main(rt: HostRuntime) -> io::Result<()> {
    let input = lines::input(&rt, 1024)?;
    let mut out = lines::output(&rt)?;
    cases(&mut out, &input)?;
    out.flush()
}

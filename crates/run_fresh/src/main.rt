// A program of the gate: the fresh record, byte by byte, what it answers under Rules, and the dial lists that are drawn from it, with its
// own margins and region, with those of a caller that passes 0 and 0 itself, and with two margins that differ. The practice table's image
// is on standard input; what it must write, the file `stdout` beside src/, is from tools/reference/fresh.py. It uses codes, air, profile,
// occupancy, station, decision, verdict, dials, numbers and lines.
#![tactic(auto)]

use air::Margins;
use occupancy::Edges;
use profile::Range;
use station::StationRecord;
use std::io;
use std::io::Write;

// The bytes lent for a list, those of a row, and what they hold before.
const LENT: usize = 144;

const ROW: usize = 36;

const FILL: u8 = 0xa5;

const PAIR: Range = Range {
    low_hz: 1250.0,
    high_hz: 1750.0,
};

const EDGES: Edges = Edges {
    power: PAIR,
    spectral: PAIR,
};

// Every byte of a record; figures by their bits.
fn record(out: &mut impl Write, s: StationRecord) -> io::Result<()> {
    writeln!(out, "policy {}", s.policy)?;
    writeln!(out, "control {}", s.control)?;
    writeln!(out, "license {}", s.license)?;
    writeln!(out, "sideband {}", s.sideband)?;
    writeln!(out, "region {}", s.itu_region)?;
    writeln!(out, "plan {}", s.band_plan)?;
    writeln!(out, "dial known {}", s.dial_known)?;
    writeln!(out, "power known {}", s.power_known)?;
    writeln!(out, "lower margin {}", lines::bits_of(s.margin.lower_hz))?;
    writeln!(out, "upper margin {}", lines::bits_of(s.margin.upper_hz))?;
    writeln!(out, "dial {}", lines::bits_of(s.dial_hz))?;
    writeln!(out, "power {}", lines::bits_of(s.power_w))
}

// A fresh record with a region and margins.
fn with(itu_region: u8, lower_hz: f64, upper_hz: f64) -> StationRecord {
    StationRecord {
        itu_region,
        margin: Margins { lower_hz, upper_hz },
        ..station::fresh()
    }
}

// A record under Rules, with codes for control, licence and sideband.
fn set_up(s: StationRecord, control: u8, license: u8, sideband: u8) -> StationRecord {
    StationRecord {
        policy: 2,
        control,
        license,
        sideband,
        ..s
    }
}

// Verdict and code of data.
fn judged(out: &mut impl Write, name: &str, s: StationRecord, image: &[u8]) -> io::Result<()> {
    let d = verdict::evaluate(s, 0, 0, EDGES, image);
    writeln!(
        out,
        "{name}: verdict {}",
        numbers::verdict_number(d.verdict)
    )?;
    writeln!(out, "{name}: code {}", numbers::code_number(d.code))
}

// A list's answer, and the bytes that it leaves, a row to a line.
fn listed(out: &mut impl Write, name: &str, s: StationRecord, image: &[u8]) -> io::Result<()> {
    let mut rows = [FILL; LENT];
    match dials::safe_dials(s, 0, EDGES, image, &mut rows) {
        Ok(n) => writeln!(out, "{name}: rows {n}")?,
        Err(r) => writeln!(out, "{name}: refusal {}", u8::from(r))?,
    }
    for (i, b) in rows.iter().enumerate() {
        let end = if i % ROW == ROW - 1 { "\n" } else { " " };
        write!(out, "{b}{end}")?;
    }
    Ok(())
}

fn cases(out: &mut impl Write, image: &[u8]) -> io::Result<()> {
    let fresh = station::fresh();
    record(out, fresh)?;
    let old = with(0, 0.0, 0.0);
    let apart = with(2, 25.0, 450.0);
    judged(out, "fresh", fresh, image)?;
    judged(
        out,
        "fresh under Rules",
        set_up(fresh, 255, 255, 255),
        image,
    )?;
    judged(
        out,
        "region 0 and margin 0 under Rules",
        set_up(old, 255, 255, 255),
        image,
    )?;
    listed(out, "fresh", fresh, image)?;
    listed(out, "fresh, set up", set_up(fresh, 0, 2, 0), image)?;
    listed(
        out,
        "region 0 and margin 0, set up",
        set_up(old, 0, 2, 0),
        image,
    )?;
    listed(
        out,
        "margins 25 and 450, set up",
        set_up(apart, 0, 2, 0),
        image,
    )?;
    listed(
        out,
        "margins 25 and 450, lower sideband",
        set_up(apart, 0, 2, 1),
        image,
    )
}

fn main(rt: HostRuntime) -> io::Result<()> {
    let input = lines::input(&rt, 1024)?;
    let mut out = lines::output(&rt)?;
    cases(&mut out, &input)?;
    out.flush()
}

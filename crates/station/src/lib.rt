// The station record: as it arrives, its refusals 20 to 22, and as it is read. The fresh record is a public call.
// It uses figures, codes and air.
#![tactic(auto)]

ghost use Rattle.std.specs.Prelude.{◌≡◌, ◌||◌, leb, eqb};
ghost use Rattle.codes.specs.Refusal.{refusal_of};
ghost use Rattle.station.specs.Station.{codes_valid, margins_valid, figure_valid, figures_valid, margins_read, figure_read};
ghost use Rattle.station.specs.Station.{situation_of, station_tests, fresh_of};

use air::Margins;
use codes::{Checked, ControlMode, LicenseClass, Policy, Refusal, Sideband};

// The record as it arrives: document 01's numbers, and figures whatever they are. C passes it, and refusal 20 says which numbers are wrong,
// so that no flag or number is an Option or an enum yet.
#[derive(Clone, Copy)]
pub struct StationRecord {
    pub policy: u8,
    pub control: u8,
    pub license: u8,
    pub sideband: u8,
    pub itu_region: u8,
    pub band_plan: u8,
    pub dial_known: u8,
    pub power_known: u8,
    pub margin: Margins,
    pub dial_hz: f64,
    pub power_w: f64,
}

// The record as it is read.
#[derive(Clone, Copy)]
pub struct Situation {
    pub policy: Policy,
    pub control: Option<ControlMode>,
    pub license: Option<LicenseClass>,
    pub sideband: Option<Sideband>,
    pub itu_region: u8,
    pub margin: Margins,
    pub band_plan: bool,
    pub dial: Option<f64>,
    pub power: Option<f64>,
}

// Whether a code is among a term's values, or 255 for one that is absent.
fn present_or_absent(code: u8, last: u8) -> bool
    ensures { result ≡ (leb code last || eqb code 255) }
{
    code <= last || code == 255
}

#[tactic(auto, unfolding(crate::specs::Station::codes_valid))]
fn codes_valid(r: StationRecord) -> bool
    ensures { result ≡ codes_valid r }
{
    r.policy <= 3
        && (present_or_absent(r.control, 2)
            && (present_or_absent(r.license, 4)
                && (present_or_absent(r.sideband, 1)
                    && (r.band_plan <= 1 && (r.dial_known <= 1 && r.power_known <= 1)))))
}

fn margins_valid(m: Margins) -> bool
    ensures { result ≡ margins_valid m }
{
    figures::in_size(figures::LIMIT, m.lower_hz) && figures::in_size(figures::LIMIT, m.upper_hz)
}

fn figure_valid(known: u8, x: f64) -> bool
    ensures { result ≡ figure_valid known x }
{
    known == 0 || figures::in_size(figures::LIMIT, x)
}

#[tactic(auto, unfolding(crate::specs::Station::figures_valid))]
fn figures_valid(r: StationRecord) -> bool
    ensures { result ≡ figures_valid r }
{
    margins_valid(r.margin)
        && (figure_valid(r.dial_known, r.dial_hz) && figure_valid(r.power_known, r.power_w))
}

fn margins_read(m: Margins) -> Margins
    ensures { result ≡ margins_read m }
{
    Margins {
        lower_hz: figures::read_hz(m.lower_hz),
        upper_hz: figures::read_hz(m.upper_hz),
    }
}

fn figure_read(known: u8, x: f64) -> Option<f64>
    ensures { result ≡ figure_read known x }
{
    if known == 0 {
        None
    } else {
        Some(figures::read_hz(x))
    }
}

// The record as it is read.
#[tactic(auto, unfolding(crate::specs::Station::situation_of))]
pub fn situation_of(r: StationRecord) -> Situation
    ensures { result ≡ situation_of r }
{
    Situation {
        policy: Policy::from(r.policy),
        control: codes::control_of(r.control),
        license: codes::license_of(r.license),
        sideband: codes::sideband_of(r.sideband),
        itu_region: r.itu_region,
        margin: margins_read(r.margin),
        band_plan: r.band_plan != 0,
        dial: figure_read(r.dial_known, r.dial_hz),
        power: figure_read(r.power_known, r.power_w),
    }
}

// Refusals 20 to 22. The codes beside the record, direction and kind, count with 20.
pub fn refusals(r: StationRecord, beside: bool, image: &[u8]) -> Checked
    ensures { result ≡ refusal_of (station_tests r beside image.now) }
{
    if !codes_valid(r) {
        return Err(Refusal::StationCode);
    }
    if !beside {
        return Err(Refusal::StationCode);
    }
    if !figures_valid(r) {
        return Err(Refusal::StationFigure);
    }
    if r.policy == 2 {
        if image.len() == 0 {
            return Err(Refusal::NoImage);
        }
        return Ok(());
    }
    Ok(())
}

// A fresh record: region 2, margins 50 and 50, and nothing else known. Its policy is unset, so it permits nothing.
pub fn fresh() -> StationRecord
    ensures { result ≡ fresh_of }
{
    StationRecord {
        policy: 0,
        control: 255,
        license: 255,
        sideband: 255,
        itu_region: 2,
        band_plan: 0,
        dial_known: 0,
        power_known: 0,
        margin: Margins {
            lower_hz: 50.0,
            upper_hz: 50.0,
        },
        dial_hz: 0.0,
        power_w: 0.0,
    }
}

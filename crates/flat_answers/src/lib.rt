// The records of the boundary to C of the answers that hold no decision, flat structs of numbers, and the fields of a table that is written. It
// uses fault, tidy, numbers, dials, report, census, distance, nearest, number_texts, airtime, given and writer; its definitions use codes, occupancy,
// station, table, convert, amended and amend.
#![tactic(auto)]

ghost use Rattle.std.specs.Prelude.{◌≡◌};
ghost use Rattle.flat_answers.specs.Fits.{FaultFits, Counted, ReportCounted};
ghost use Rattle.flat_answers.specs.Answers.{fields_of, fault_flat, tidiness_flat, dials_flat, report_flat, image_flat, census_flat};
ghost use Rattle.flat_answers.specs.Answers.{told_of, refused_by, infinity_hz, distance_flat, nearest_flat, text_flat, airtime_flat};

use census::Census;
use codes::Refusal;
use fault::{Fault, FaultAnswer};
use given::Fields;
use nearest::Nearest;

// Structs of the header: those that are alike are told apart by C, each with its own field.

// What an image is written from, beside its records: edition, general block, and the number of records of each table. The watts of
// edition 1 are not looked at.
#[repr(C)]
#[derive(Clone, Copy)]
pub struct FlatFields {
    pub data_limit: f64,
    pub elsewhere_limit: f64,
    pub channel_width: f64,
    pub carrier_offset: f64,
    pub carrier_tolerance: f64,
    pub channel_watts: f64,
    pub segment_watts: f64,
    pub edition: u16,
    pub data_rule: u16,
    pub elsewhere_rule: u16,
    pub automatic_rule: u16,
    pub channels_rule: u16,
    pub emissions_rule: u16,
    pub privileges_rule: u16,
    pub counts: [u16; 9],
    pub region: u8,
    pub reading: u8,
    pub flags: u8,
    pub channel_band: u8,
    pub sideband: u8,
    pub emissions: u8,
}

// Where a table is wrong: place is 0 nowhere, 1 the general block, 2 a record. Where there is no record, table is 255 and record 65,535.
#[repr(C)]
#[derive(Clone, Copy)]
pub struct FlatFault {
    pub record: u16,
    pub table: u8,
    pub place: u8,
    pub refusal: u8,
}

// The tidy question's answer: tidy is 1 only of an accepted image.
#[repr(C)]
#[derive(Clone, Copy)]
pub struct FlatTidiness {
    pub tidy: u8,
    pub refusal: u8,
}

// A dial list: the count of its rows, or the refusal's number and count 0.
#[repr(C)]
#[derive(Clone, Copy)]
pub struct FlatDials {
    pub count: u32,
    pub refusal: u8,
}

// A table report: the count of its rows, or the refusal's number and count 0.
#[repr(C)]
#[derive(Clone, Copy)]
pub struct FlatReport {
    pub count: u32,
    pub refusal: u8,
}

// An image that was written: its length, or the refusal's number and length 0.
#[repr(C)]
#[derive(Clone, Copy)]
pub struct FlatImage {
    pub length: u32,
    pub refusal: u8,
}

// A census: how many dials get each code, code 1 first, or the refusal's number and noughts.
#[repr(C)]
#[derive(Clone, Copy)]
pub struct FlatCensus {
    pub counts: [u32; 25],
    pub refusal: u8,
}

// The distance of a dial; where no row counts and on a refusal listed is 0 and the distance infinite.
#[repr(C)]
#[derive(Clone, Copy)]
pub struct FlatDistance {
    pub distance_hz: f64,
    pub listed: u8,
    pub refusal: u8,
}

// Where to move the dial to. answer: 0 refused, 1 a dial, 2 none, 3 not judged; without a dial dial_hz is infinite.
#[repr(C)]
#[derive(Clone, Copy)]
pub struct FlatNearest {
    pub dial_hz: f64,
    pub answer: u8,
    pub refusal: u8,
}

// A text's answer: the bytes written, or the refusal's number and length 0.
#[repr(C)]
#[derive(Clone, Copy)]
pub struct FlatText {
    pub length: u32,
    pub refusal: u8,
}

// Totals of time on the air: how many were written, or the refusal's number and count 0.
#[repr(C)]
#[derive(Clone, Copy)]
pub struct FlatAirtime {
    pub count: u32,
    pub refusal: u8,
}

// The edition and the general block of the fields.
#[tactic(auto, unfolding(crate::specs::Answers::fields_of))]
pub fn fields_in(f: FlatFields) -> Fields
    ensures { result ≡ fields_of f }
{
    Fields {
        edition: f.edition,
        data_limit: f.data_limit,
        elsewhere_limit: f.elsewhere_limit,
        channel_width: f.channel_width,
        carrier_offset: f.carrier_offset,
        carrier_tolerance: f.carrier_tolerance,
        channel_watts: f.channel_watts,
        segment_watts: f.segment_watts,
        region: f.region,
        reading: f.reading,
        flags: f.flags,
        channel_band: f.channel_band,
        sideband: f.sideband,
        emissions: f.emissions,
        data_rule: f.data_rule,
        elsewhere_rule: f.elsewhere_rule,
        automatic_rule: f.automatic_rule,
        channels_rule: f.channels_rule,
        emissions_rule: f.emissions_rule,
        privileges_rule: f.privileges_rule,
    }
}

// The number that a call answers, or 0, and the number of its refusal, or 0.
fn told(a: Result<u32, Refusal>) -> (u32, u8)
    ensures number { result.0 ≡ told_of a }
    ensures refusal { result.1 ≡ refused_by a }
{
    match a {
        Ok(n) => (n, 0),
        Err(r) => (0, r.into()),
    }
}

// The place of a refusal, flat.
pub fn fault_flat(a: FaultAnswer) -> FlatFault
    requires { FaultFits a.fault }
    ensures { result ≡ fault_flat a }
{
    let refusal = numbers::refusal_number(a.refusal);
    let place = fault::fault_number(a.fault);
    match a.fault {
        Some(Fault::InRecord(t, i)) => FlatFault {
            record: i as u16,
            table: t as u8,
            place,
            refusal,
        },
        Some(Fault::InGeneral) | None => FlatFault {
            record: 65535,
            table: 255,
            place,
            refusal,
        },
    }
}

// The tidy question's answer, flat.
pub fn tidiness_flat(t: Result<bool, Refusal>) -> FlatTidiness
    ensures { result ≡ tidiness_flat t }
{
    match t {
        Ok(tidy) => FlatTidiness {
            tidy: tidy as u8,
            refusal: 0,
        },
        Err(r) => FlatTidiness {
            tidy: 0,
            refusal: r.into(),
        },
    }
}

// A dial list's answer, flat.
pub fn dials_flat(a: Result<usize, Refusal>) -> FlatDials
    requires { Counted a }
    ensures { result ≡ dials_flat a }
{
    match a {
        Ok(n) => FlatDials {
            count: n as u32,
            refusal: 0,
        },
        Err(r) => FlatDials {
            count: 0,
            refusal: r.into(),
        },
    }
}

// A table report's answer, flat.
pub fn report_flat(a: Result<usize, Refusal>) -> FlatReport
    requires { ReportCounted a }
    ensures { result ≡ report_flat a }
{
    match a {
        Ok(n) => FlatReport {
            count: n as u32,
            refusal: 0,
        },
        Err(r) => FlatReport {
            count: 0,
            refusal: r.into(),
        },
    }
}

// The answer of a call that writes an image, flat.
pub fn image_flat(a: Result<u32, Refusal>) -> FlatImage
    ensures { result ≡ image_flat a }
{
    let (length, refusal) = told(a);
    FlatImage { length, refusal }
}

// A census, flat.
pub fn census_flat(c: Census) -> FlatCensus
    ensures { result ≡ census_flat c }
{
    let counts = c.counts;
    FlatCensus {
        counts,
        refusal: numbers::refusal_number(c.refusal),
    }
}

// No distance: nothing to be near to.
fn infinity() -> f64
    ensures { result ≡ infinity_hz }
{
    f64::from_bits(0x7ff0_0000_0000_0000)
}

// A distance, flat.
pub fn distance_flat(d: Result<Option<f64>, Refusal>) -> FlatDistance
    ensures { result ≡ distance_flat d }
{
    match d {
        Ok(Some(x)) => FlatDistance {
            distance_hz: x,
            listed: 1,
            refusal: 0,
        },
        Ok(None) => FlatDistance {
            distance_hz: infinity(),
            listed: 0,
            refusal: 0,
        },
        Err(r) => FlatDistance {
            distance_hz: infinity(),
            listed: 0,
            refusal: r.into(),
        },
    }
}

// The nearest dial, flat.
pub fn nearest_flat(n: Result<Nearest, Refusal>) -> FlatNearest
    ensures { result ≡ nearest_flat n }
{
    match n {
        Ok(Nearest::Dial(x)) => FlatNearest {
            dial_hz: x,
            answer: 1,
            refusal: 0,
        },
        Ok(Nearest::NoneAllowed) => FlatNearest {
            dial_hz: infinity(),
            answer: 2,
            refusal: 0,
        },
        Ok(Nearest::NotJudged) => FlatNearest {
            dial_hz: infinity(),
            answer: 3,
            refusal: 0,
        },
        Err(r) => FlatNearest {
            dial_hz: infinity(),
            answer: 0,
            refusal: r.into(),
        },
    }
}

// A text's answer, flat.
pub fn text_flat(a: Result<u32, Refusal>) -> FlatText
    ensures { result ≡ text_flat a }
{
    let (length, refusal) = told(a);
    FlatText { length, refusal }
}

// An answer on time on the air, flat.
pub fn airtime_flat(a: Result<u32, Refusal>) -> FlatAirtime
    ensures { result ≡ airtime_flat a }
{
    let (count, refusal) = told(a);
    FlatAirtime { count, refusal }
}

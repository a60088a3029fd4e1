// What an accepted image says: one function for each part, from its record or the general block. It uses figures, codes,
// profile, occupancy, layout and whole; its clauses use scan.
#![tactic(auto)]

ghost use Rattle.std.specs.Prelude.{◌≡◌, ◌<◌, ℕ, Bool};
ghost use Rattle.scan.specs.First.{first, some, on_found};
ghost use Rattle.layout.specs.Layout.{count_of};
ghost use Rattle.table.specs.Table.{count_in, record_in};
ghost use Rattle.table.specs.Parts.{span_of, band_of, own_limit_of, named_of, listed_of, channel_sideband_of};
ghost use Rattle.table.specs.Parts.{segment_of, centre_of, privilege_of, excluded_of, power_of, plan_of};
ghost use Rattle.table.specs.Parts.{data_of, reading_of, elsewhere_of, channels_of, sixty_of, has_plan};

use codes::Sideband;
use layout::{General, Record};
use occupancy::Reading;
use profile::{DataLimit, Range};
use whole::Image;

// A band, for naming a frequency.
#[derive(Clone, Copy)]
pub struct Band {
    pub range: Range,
    pub band: u8,
}

// A segment where data emissions are authorized (97.305(c)).
#[derive(Clone, Copy)]
pub struct Segment {
    pub range: Range,
    pub band: u8,
    pub rule: u16,
    pub own: Option<f64>,
    pub second: Option<u16>,
}

// A privilege of a licence class (97.301), with the emissions it allows when they are fewer than the segments'.
#[derive(Clone, Copy)]
pub struct Privilege {
    pub range: Range,
    pub class: u8,
    pub emissions: Option<u8>,
    pub rule: Option<u16>,
}

// A band where automatic control is not allowed.
#[derive(Clone, Copy)]
pub struct Excluded {
    pub band: u8,
    pub rule: u16,
}

// A power limit, for a reminder.
#[derive(Clone, Copy)]
pub struct PowerLimit {
    pub range: Range,
    pub max_w: f64,
    pub classes: Option<u8>,
    pub rule: u16,
}

// A voluntary band-plan area.
#[derive(Clone, Copy)]
pub struct PlanArea {
    pub range: Range,
    pub label: u16,
}

// Automatic control outside the designated segments (97.221(c)).
#[derive(Clone, Copy)]
pub struct Elsewhere {
    pub max_bandwidth_hz: f64,
    pub requires_response: bool,
    pub rule: u16,
}

// The 60 m discrete channels (97.303(h)(3)).
#[derive(Clone, Copy)]
pub struct Channels {
    pub band: u8,
    pub rule: u16,
    pub width_hz: f64,
    pub carrier_offset_hz: f64,
    pub carrier_tolerance_hz: f64,
    pub sideband: Sideband,
}

// Record i of table t.
#[tactic(auto, using(crate::specs::Laws::read_in))]
pub fn record_of(s: &Image, t: usize, i: usize) -> Record
    requires { (t < 9) × (i < count_of s.now t) }
    ensures { result ≡ record_in s.now t i }
{
    let at = s.start_of(t) + layout::RECORD_SIZE * i;
    s.record_at(at)
}

// The first record of table t that passes a test, with its index. A test that answers as p does, record by record, picks what p picks.
pub fn pick_of<F: Fn(Record) -> bool>(s: &Image, t: usize, test: F) -> Option<(usize, Record)>
    requires lies { t < 9 }
    requires can { (i : ℕ) → i < count_in s.now t → F.pre test (record_in s.now t i) }
    ensures { (p : ℕ → Bool) → ((i : ℕ) (b : Bool) → i < count_in s.now t → F.post test (record_in s.now t i) b → b ≡ p i)
        → result ≡ on_found (first p (count_in s.now t)) (λ i. Some (i, record_in s.now t i)) None }
{
    let start = s.start_of(t);
    let count = s.count_of(t) as usize;
    for i in 0..count {
        let r = s.record_at(start + layout::RECORD_SIZE * i);
        if test(r) {
            return Some((i, r));
        }
    }
    None
}

// Its index alone.
pub fn first_of<F: Fn(Record) -> bool>(s: &Image, t: usize, test: F) -> Option<usize>
    requires lies { t < 9 }
    requires can { (i : ℕ) → i < count_in s.now t → F.pre test (record_in s.now t i) }
    ensures { (p : ℕ → Bool) → ((i : ℕ) (b : Bool) → i < count_in s.now t → F.post test (record_in s.now t i) b → b ≡ p i)
        → result ≡ first p (count_in s.now t) }
{
    pick_of(s, t, test).map(|(i, _)| i)
}

// Whether a record of table t passes a test.
pub fn some_of<F: Fn(Record) -> bool>(s: &Image, t: usize, test: F) -> bool
    requires lies { t < 9 }
    requires can { (i : ℕ) → i < count_in s.now t → F.pre test (record_in s.now t i) }
    ensures { (p : ℕ → Bool) → ((i : ℕ) (b : Bool) → i < count_in s.now t → F.post test (record_in s.now t i) b → b ≡ p i)
        → result ≡ some p (count_in s.now t) }
{
    first_of(s, t, test).is_some()
}

// Here and below what a record or the general block says is read field by field, since names and types differ. A record's range.
pub fn span_of(r: Record) -> Range
    ensures { result ≡ span_of r }
{
    Range {
        low_hz: figures::figure(r.low),
        high_hz: figures::figure(r.high),
    }
}

pub fn band_of(r: Record) -> Band
    ensures { result ≡ band_of r }
{
    Band {
        range: span_of(r),
        band: r.band,
    }
}

// A segment's own limit.
pub fn own_limit(r: Record) -> Option<f64>
    ensures { result ≡ own_limit_of r }
{
    if codes::bit(r.flags, 0) {
        Some(figures::figure(r.figure))
    } else {
        None
    }
}

// A rule that a record names under bit 1 of its flags.
fn named(flags: u8, rule: u16) -> Option<u16>
    ensures { result ≡ named_of flags rule }
{
    if codes::bit(flags, 1) {
        Some(rule)
    } else {
        None
    }
}

// A list that a record has under bit 0 of its flags.
fn listed(flags: u8, bits: u8) -> Option<u8>
    ensures { result ≡ listed_of flags bits }
{
    if codes::bit(flags, 0) {
        Some(bits)
    } else {
        None
    }
}

pub fn segment_of(r: Record) -> Segment
    ensures { result ≡ segment_of r }
{
    Segment {
        range: span_of(r),
        band: r.band,
        rule: r.rule,
        own: own_limit(r),
        second: named(r.flags, r.second_rule),
    }
}

// A channel's centre.
pub fn centre_of(r: Record) -> f64
    ensures { result ≡ centre_of r }
{
    figures::figure(r.low)
}

pub fn privilege_of(r: Record) -> Privilege
    ensures { result ≡ privilege_of r }
{
    Privilege {
        range: span_of(r),
        class: r.class,
        emissions: listed(r.flags, r.emissions),
        rule: named(r.flags, r.rule),
    }
}

pub fn excluded_of(r: Record) -> Excluded
    ensures { result ≡ excluded_of r }
{
    Excluded {
        band: r.band,
        rule: r.rule,
    }
}

pub fn power_limit_of(r: Record) -> PowerLimit
    ensures { result ≡ power_of r }
{
    PowerLimit {
        range: span_of(r),
        max_w: figures::figure(r.figure),
        classes: listed(r.flags, r.class),
        rule: r.rule,
    }
}

pub fn plan_area_of(r: Record) -> PlanArea
    ensures { result ≡ plan_of r }
{
    PlanArea {
        range: span_of(r),
        label: r.rule,
    }
}

// The general limit on data.
pub fn data_of(g: General) -> DataLimit
    ensures { result ≡ data_of g }
{
    DataLimit {
        max_bandwidth_hz: figures::figure(g.data_limit),
        rule: g.data_rule,
    }
}

pub fn reading_of(g: General) -> Reading
    ensures { result ≡ reading_of g }
{
    if g.reading == 0 {
        return Reading::Power;
    }
    if g.reading == 1 {
        return Reading::Spectral;
    }
    Reading::Wider
}

pub fn elsewhere_of(g: General) -> Option<Elsewhere>
    ensures { result ≡ elsewhere_of g }
{
    if codes::bit(g.flags, 0) {
        Some(Elsewhere {
            max_bandwidth_hz: figures::figure(g.elsewhere_limit),
            requires_response: codes::bit(g.flags, 1),
            rule: g.elsewhere_rule,
        })
    } else {
        None
    }
}

// The sideband of a data emission on a channel.
fn channel_sideband(g: General) -> Sideband
    ensures { result ≡ channel_sideband_of g }
{
    if g.sideband == 0 {
        Sideband::Usb
    } else {
        Sideband::Lsb
    }
}

pub fn channels_of(g: General) -> Option<Channels>
    ensures { result ≡ channels_of g }
{
    if codes::bit(g.flags, 2) {
        Some(Channels {
            band: g.channel_band,
            rule: g.channels_rule,
            width_hz: figures::figure(g.channel_width),
            carrier_offset_hz: figures::figure(g.carrier_offset),
            carrier_tolerance_hz: figures::figure(g.carrier_tolerance),
            sideband: channel_sideband(g),
        })
    } else {
        None
    }
}

pub fn sixty_emissions_of(g: General) -> Option<(u8, u16)>
    ensures { result ≡ sixty_of g }
{
    if codes::bit(g.flags, 3) {
        Some((g.emissions, g.emissions_rule))
    } else {
        None
    }
}

// Whether the table has a band plan.
pub fn has_plan(g: General) -> bool
    ensures { result ≡ has_plan g }
{
    codes::bit(g.flags, 4)
}

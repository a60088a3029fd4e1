// The Rust's profile.rs: ranges, a segment's data limit, and the lists of emissions and classes.
// It uses figures and codes.
#![tactic(auto)]

ghost use Rattle.std.specs.Prelude.{◌≡◌};
ghost use Rattle.profile.specs.Range.{holds_of, overlaps_of, lengthy, intersect_of, share_of, channel_range_of};
ghost use Rattle.profile.specs.Limit.{data_limit_of, allows_of, meant_of};

use codes::{EmissionKind, LicenseClass};

// A frequency range, hertz, both ends inclusive.
#[derive(Clone, Copy)]
pub struct Range {
    pub low_hz: f64,
    pub high_hz: f64,
}

// The widest data emission allowed, and the rule that says so.
#[derive(Clone, Copy)]
pub struct DataLimit {
    pub max_bandwidth_hz: f64,
    pub rule: u16,
}

impl Range {
    // Whether a lies inside.
    pub fn holds(self, a: Range) -> bool
        ensures { result ≡ holds_of self a }
    {
        self.low_hz <= a.low_hz && a.high_hz <= self.high_hz
    }

    // Whether a touches it at all.
    pub fn overlaps(self, a: Range) -> bool
        ensures { result ≡ overlaps_of self a }
    {
        a.low_hz <= self.high_hz && self.low_hz <= a.high_hz
    }

    // Whether it has a positive length.
    pub fn is_lengthy(self) -> bool
        ensures { result ≡ lengthy self }
    {
        self.low_hz < self.high_hz
    }
}

// The overlap of two ranges, if they have one.
pub fn intersect(a: Range, b: Range) -> Option<Range>
    ensures { result ≡ intersect_of a b }
{
    let low = figures::max(a.low_hz, b.low_hz);
    let high = figures::min(a.high_hz, b.high_hz);
    if low < high {
        Some(Range {
            low_hz: low,
            high_hz: high,
        })
    } else {
        None
    }
}

// Whether two ranges share a stretch of positive length.
pub fn share(a: Range, b: Range) -> bool
    ensures { result ≡ share_of a b }
{
    figures::max(a.low_hz, b.low_hz) < figures::min(a.high_hz, b.high_hz)
}

// A channel of a width about its centre.
pub fn channel_range(width_hz: f64, center_hz: f64) -> Range
    ensures { result ≡ channel_range_of width_hz center_hz }
{
    Range {
        low_hz: center_hz - width_hz / 2.0,
        high_hz: center_hz + width_hz / 2.0,
    }
}

// The widest data emission allowed in a segment, and the rule for it.
pub fn data_limit(own: Option<f64>, second: Option<u16>, general: DataLimit) -> DataLimit
    ensures { result ≡ data_limit_of own second general }
{
    match own {
        Some(max) => DataLimit {
            max_bandwidth_hz: max,
            rule: second.unwrap_or(general.rule),
        },
        None => general,
    }
}

// Whether a privilege's list allows a kind of emission; below, a class in place of the kind.
pub fn allows(emissions: Option<u8>, kind: EmissionKind) -> bool
    ensures { result ≡ allows_of emissions kind }
{
    emissions.is_none_or(|bits| codes::has_kind(bits, kind))
}

// Whether a power limit is meant for a licence class.
pub fn meant_for(classes: Option<u8>, class: LicenseClass) -> bool
    ensures { result ≡ meant_of classes class }
{
    classes.is_none_or(|bits| codes::has_class(bits, class))
}

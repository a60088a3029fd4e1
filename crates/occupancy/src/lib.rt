// The Rust's occupancy.rs: the edges of a signal, measured elsewhere, and the readings of 97.3(a)(8).
// It uses figures and profile.
#![tactic(auto)]

ghost use Rattle.std.specs.Prelude.{◌≡◌};
ghost use Rattle.occupancy.specs.Edges.{hull_of, range_of, union_of};

use profile::Range;

// Which reading of 97.3(a)(8) turns a spectrum into a bandwidth.
#[derive(Clone, Copy)]
pub enum Reading {
    Power,
    Spectral,
    Wider,
}

// The audio a transmission occupies, hertz, under both readings.
#[derive(Clone, Copy)]
pub struct Edges {
    // All but 1/398 of the power.
    pub power: Range,
    // Where the density stays 26 dB below the mean density within.
    pub spectral: Range,
}

// The least range that takes in two.
pub fn hull(a: Range, b: Range) -> Range
    ensures { result ≡ hull_of a b }
{
    let low = figures::min(a.low_hz, b.low_hz);
    let high = figures::max(a.high_hz, b.high_hz);
    Range {
        low_hz: low,
        high_hz: high,
    }
}

impl Edges {
    // The edges that a reading takes.
    pub fn range(self, reading: Reading) -> Range
        ensures { result ≡ range_of self reading }
    {
        match reading {
            Reading::Power => self.power,
            Reading::Spectral => self.spectral,
            Reading::Wider => hull(self.power, self.spectral),
        }
    }

    // The smallest edges that hold both: a burst of frames of more than one kind.
    pub fn union(self, other: Edges) -> Edges
        ensures { result ≡ union_of self other }
    {
        let power = hull(self.power, other.power);
        let spectral = hull(self.spectral, other.spectral);
        Edges { power, spectral }
    }
}

// The nearest to a dial of the dials in several rows, those of the channel band left out: row by row, as a search gives them. It uses rows and
// distance; its laws use lists.
#![tactic(auto)]

ghost use Rattle.std.specs.Prelude.{◌≡◌};
ghost use Rattle.nearest_rows.specs.Over.{point_of, far_of, before, better_of, considered_of};

use distance::Here;
use rows::SafeDial;

// The dial of a row that is nearest to a dial.
#[tactic(auto, unfolding(crate::specs::Over::point_of))]
fn point_of(dial_hz: f64, low: f64, high: f64) -> f64
    ensures { result ≡ point_of dial_hz low high }
{
    if dial_hz < low {
        low
    } else if high < dial_hz {
        high
    } else {
        dial_hz
    }
}

// How far a dial is from another.
#[tactic(auto, unfolding(crate::specs::Over::far_of))]
fn far_of(dial_hz: f64, x: f64) -> f64
    ensures { result ≡ far_of dial_hz x }
{
    if x < dial_hz {
        dial_hz - x
    } else {
        x - dial_hz
    }
}

// Whether x is closer to a dial than y, or as close and lower.
#[tactic(auto, unfolding(crate::specs::Over::before))]
fn is_before(dial_hz: f64, x: f64, y: f64) -> bool
    ensures { result ≡ before dial_hz x y }
{
    let a = far_of(dial_hz, x);
    let b = far_of(dial_hz, y);
    a < b || (!(b < a) && x < y)
}

// The better of the nearest dial so far and another.
fn better(dial_hz: f64, best: Option<f64>, x: f64) -> Option<f64>
    ensures { result ≡ better_of dial_hz best x }
{
    match best {
        Some(y) if !is_before(dial_hz, x, y) => best,
        _ => Some(x),
    }
}

// A row, if it is outside the channel band.
pub fn consider(h: Here, best: Option<f64>, x: SafeDial) -> Option<f64>
    ensures { result ≡ considered_of h.dial_hz h.flags h.channel_band best x }
{
    if distance::is_outside(h.flags, h.channel_band, x.band) {
        better(
            h.dial_hz,
            best,
            point_of(h.dial_hz, x.dial_low_hz, x.dial_high_hz),
        )
    } else {
        best
    }
}

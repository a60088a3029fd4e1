// A double's exact value, rounded to a decimal in whole numbers, and Rust's `round`, for figures within 2^43. A double has 53 binary
// digits, and 1,000 times such a number fits in 63. It uses figures in its laws only.
#![tactic(auto)]

ghost use Rattle.std.specs.Prelude.{◌≡◌, ◌^◌, ◌<◌, ◌≤◌};
ghost use Rattle.std.specs.Float.Ieee.Nearest.{closest};
ghost use Rattle.decimal.specs.Decimal.{half_up, round_of, decimal_rounded};
ghost use Rattle.decimal.specs.Within.{Within};
ghost use Rattle.decimal.specs.Laws.{Parted};

// A figure: its sign, its binary digits, and by how many places they are moved down.
#[derive(Clone, Copy)]
pub struct Parts {
    pub negative: bool,
    pub digits: u64,
    pub shift: u64,
}

// A figure rounded: its sign, and how many units of its last place it has.
#[derive(Clone, Copy)]
pub struct Decimal {
    pub negative: bool,
    pub count: u64,
}

// The parts of a figure, by its bits.
#[tactic(auto, using(crate::specs::Laws::no_nan, crate::specs::Laws::parted_low, crate::specs::Laws::parted_high))]
pub fn parts_of(x: f64) -> Parts
    requires { Within 43 x }
    ensures { Parted x result.negative result.digits result.shift }
{
    let bits = f64::to_bits(x);
    let field = bits % 0x8000_0000_0000_0000 / 0x10_0000_0000_0000;
    let part = bits % 0x10_0000_0000_0000;
    let negative = bits >= 0x8000_0000_0000_0000;
    if field == 0 {
        return Parts {
            negative,
            digits: part,
            shift: 1074,
        };
    }
    Parts {
        negative,
        digits: 0x10_0000_0000_0000 + part,
        shift: 1075 - field,
    }
}

// n / 2^shift, to the nearest whole number, halves to even.
#[tactic(auto, using(crate::specs::Laws::closest_nought))]
fn nearest(n: u64, shift: u64) -> u64
    requires { n < 2 ^ 63 }
    ensures { result ≡ closest n (2 ^ shift) }
{
    if shift > 63 {
        return 0;
    }
    let whole = n >> shift;
    let twice = (n - (whole << shift)) * 2;
    let unit = 1u64 << shift;
    if twice < unit {
        return whole;
    }
    if twice == unit {
        return whole + whole % 2;
    }
    whole + 1
}

// n / 2^shift, to the nearest whole number, halves up.
#[tactic(auto, using(crate::specs::Laws::half_up_nought))]
fn half_up(n: u64, shift: u64) -> u64
    requires { n < 2 ^ 53 }
    ensures { result ≡ half_up n (2 ^ shift) }
{
    if shift > 62 {
        return 0;
    }
    (2 * n + (1u64 << shift)) >> (shift + 1)
}

// A rounded figure keeps the sign of the figure, also where nothing is left of it.
fn with_sign(negative: bool, count: u64) -> Decimal
    ensures { result ≡ record { negative = negative; count = count } }
{
    Decimal { negative, count }
}

// A figure's exact value, to the nearest of so many units to the whole, halves to even.
#[tactic(auto, using(crate::specs::Laws::parted_rounded))]
pub fn rounded(x: f64, units: u64) -> Decimal
    requires { Within 43 x × (units ≤ 1000) }
    ensures { result ≡ decimal_rounded units x }
{
    let p = parts_of(x);
    with_sign(p.negative, nearest(p.digits * units, p.shift))
}

// Rust's f64::round.
#[tactic(auto, using(crate::specs::Laws::parted_less, crate::specs::Laws::parted_plus))]
pub fn round(x: f64) -> f64
    requires { Within 43 x }
    ensures { result ≡ round_of x }
{
    let p = parts_of(x);
    let size = std::num::nearest_u64_to_f64(half_up(p.digits, p.shift));
    if p.negative { -size } else { size }
}

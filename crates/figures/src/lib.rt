// Arithmetic on figures, as the gate has them: f64, each operation rounding once. It stands for the
// methods of Rust's f64 that the port needs, and holds document 01's size test. It uses nothing.
#![tactic(auto)]

ghost use Rattle.std.specs.Prelude.{◌≡◌};
ghost use Rattle.figures.specs.Figure.{min_of, max_of, abs_of, midpoint_of, negative, total_less, in_size, read_hz, figure_of};

// Document 01's limit on the size of a figure, 2^40.
pub const LIMIT: f64 = 1099511627776.0;

// Rust's f64::min. std's promises leave open which of two noughts comes; this one, max and abs say it.
pub fn min(x: f64, y: f64) -> f64
    ensures { result ≡ min_of x y }
{
    if x != x {
        return y;
    }
    if y < x { y } else { x }
}

// Rust's f64::max.
pub fn max(x: f64, y: f64) -> f64
    ensures { result ≡ max_of x y }
{
    if x != x {
        return y;
    }
    if x < y { y } else { x }
}

// Rust's f64::abs.
pub fn abs(x: f64) -> f64
    ensures { result ≡ abs_of x }
{
    if x < 0.0 {
        return -x;
    }
    if x == 0.0 { 0.0 } else { x }
}

// Rust's f64::midpoint, for figures whose sum is finite: the sum halved.
pub fn midpoint(x: f64, y: f64) -> f64
    ensures { result ≡ midpoint_of x y }
{
    (x + y) / 2.0
}

// Whether a number is negative, negative zero included.
fn is_negative(x: f64) -> bool
    ensures { result ≡ negative x }
{
    1.0 / x < 0.0
}

// Whether Rust's f64::total_cmp puts x before y, of figures that are numbers.
pub fn total_less(x: f64, y: f64) -> bool
    ensures { result ≡ total_less x y }
{
    x < y || (x == y && (is_negative(x) && !is_negative(y)))
}

// Finite, and at most limit in size.
pub fn in_size(limit: f64, x: f64) -> bool
    ensures { result ≡ in_size limit x }
{
    abs(x) <= limit
}

// Negative zero reads as zero.
pub fn read_hz(x: f64) -> f64
    ensures { result ≡ read_hz x }
{
    if x == 0.0 { 0.0 } else { x }
}

// The figure that 64 bits stand for. Every pattern has one: those of a NaN give the one NaN.
pub fn figure(bits: u64) -> f64
    ensures { result ≡ figure_of bits }
{
    if bits % 0x8000_0000_0000_0000 > 0x7ff0_0000_0000_0000 {
        return 0.0 / 0.0;
    }
    f64::from_bits(bits)
}

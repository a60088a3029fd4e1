// Rows of a dial list in lent bytes: 36 bytes a row, in a stable order by lower dial. Every offset of a row stands here.
// It uses figures, profile, layout and byte_writes; its laws use lists and order.
#![tactic(auto)]

ghost use Rattle.std.specs.Prelude.{◌≡◌, ◌+◌, ◌*◌, ◌-◌, ◌≤◌, length, take, drop};
ghost use Rattle.std.proofs.lemmas.List.Edits.{sets};
ghost use Rattle.rows.specs.Rows.{figures_of, encode_row, low_at, high_at, row_band, row_at};
ghost use Rattle.rows.specs.Held.{follows_at, place_at, insert_at, row_of, offer_at};

use profile::Range;

pub const ROW_SIZE: usize = 36;

// A range of dials, and the range on the air that it keeps to.
#[derive(Clone, Copy)]
pub struct SafeDial {
    pub band: u8,
    pub segment: Range,
    pub rule: u16,
    pub dial_low_hz: f64,
    pub dial_high_hz: f64,
}

// The four figures of a row.
#[tactic(auto, using(crate::specs::Turns::figures_set))]
fn put_figures(rows: &mut [u8], at: usize, row: SafeDial)
    requires { at + 36 ≤ length rows.old }
    ensures { rows.new ≡ sets rows.old at (figures_of row) }
{
    byte_writes::put_figure(rows, at, row.segment.low_hz);
    byte_writes::put_figure(rows, at + 8, row.segment.high_hz);
    byte_writes::put_figure(rows, at + 16, row.dial_low_hz);
    byte_writes::put_figure(rows, at + 24, row.dial_high_hz);
}

// A row, in the 36 bytes from at on.
#[tactic(auto, using(crate::specs::Turns::row_set))]
fn put_row(rows: &mut [u8], at: usize, row: SafeDial)
    requires { at + 36 ≤ length rows.old }
    ensures { rows.new ≡ sets rows.old at (encode_row row) }
{
    put_figures(rows, at, row);
    rows[at + 32] = row.band;
    rows[at + 33] = 0;
    byte_writes::put(rows, at + 34, 2, row.rule as u64);
}

// The row that begins at a place, another at each call.
#[tactic(auto, unfolding(crate::specs::Rows::row_at))]
pub fn row_at(rows: &[u8], at: usize) -> SafeDial
    requires { at + 36 ≤ length rows.now }
    ensures { result ≡ row_at rows.now at }
{
    SafeDial {
        band: rows[at + 32],
        segment: Range {
            low_hz: figures::figure(layout::u64_at(rows, at)),
            high_hz: figures::figure(layout::u64_at(rows, at + 8)),
        },
        rule: layout::u16_at(rows, at + 34),
        dial_low_hz: low_at(rows, at),
        dial_high_hz: figures::figure(layout::u64_at(rows, at + 24)),
    }
}

// Its lower dial.
pub fn low_at(rows: &[u8], at: usize) -> f64
    requires { at + 36 ≤ length rows.now }
    ensures { result ≡ low_at rows.now at }
{
    figures::figure(layout::u64_at(rows, at + 16))
}

// Its upper dial and its band.
pub fn high_at(rows: &[u8], at: usize) -> f64
    requires { at + 36 ≤ length rows.now }
    ensures { result ≡ high_at rows.now at }
{
    let bits = layout::u64_at(rows, at + 24);
    figures::figure(bits)
}

pub fn band_at(rows: &[u8], at: usize) -> u8
    requires { at + 36 ≤ length rows.now }
    ensures { result ≡ row_band rows.now at }
{
    layout::byte_at(rows, at + 32)
}

// The place of a lower dial among the first count rows: after the last row that does not lie above it.
#[tactic(auto, using(crate::specs::Turns::place_below, crate::specs::Turns::place_none))]
fn place(rows: &[u8], count: usize, dial_low_hz: f64) -> usize
    requires { count * 36 ≤ length rows.now }
    ensures { result ≡ place_at dial_low_hz count rows.now }
{
    for i in (0..count).rev() {
        if !figures::total_less(dial_low_hz, low_at(rows, i * ROW_SIZE)) {
            return i + 1;
        }
    }
    0
}

// Moves the bytes between two places up by a row, the last first.
fn shift(rows: &mut [u8], from: usize, to: usize)
    requires { (from ≤ to) × (to + 36 ≤ length rows.old) }
    ensures { rows.new ≡ sets rows.old (from + 36) (take (to - from) (drop from rows.old)) }
{
    for k in (from..to).rev() {
        rows[k + ROW_SIZE] = rows[k];
    }
}

// Puts a row in its place among the first count rows.
#[tactic(auto, using(crate::specs::Turns::place_le), unfolding(crate::specs::Held::insert_at, crate::specs::Held::insert_from))]
fn insert(rows: &mut [u8], count: usize, row: SafeDial)
    requires { count * 36 + 36 ≤ length rows.old }
    ensures { rows.new ≡ insert_at row count rows.old }
{
    let end = count * ROW_SIZE;
    let at = place(rows, count, row.dial_low_hz) * ROW_SIZE;
    shift(rows, at, end);
    put_row(rows, at, row);
}

// Whether a lower dial comes behind the first count rows: the last of them lies below it, or there is none.
#[tactic(auto, using(crate::specs::Turns::follows_none, crate::specs::Turns::follows_last))]
fn follows(rows: &[u8], count: usize, dial_low_hz: f64) -> bool
    requires { count * 36 ≤ length rows.now }
    ensures { result ≡ follows_at dial_low_hz count rows.now }
{
    count == 0 || low_at(rows, (count - 1) * ROW_SIZE) < dial_low_hz
}

// Puts a row in its place where there is room for one row more than count; else nothing. The row comes in its parts, which pass in
// registers.
#[tactic(auto, using(crate::specs::Turns::insert_behind), unfolding(crate::specs::Held::offer_at))]
pub fn offer(
    rows: &mut [u8],
    count: usize,
    band: u8,
    rule: u16,
    low_hz: f64,
    high_hz: f64,
    dial_low_hz: f64,
    dial_high_hz: f64,
)
    ensures { rows.new ≡ offer_at (row_of band rule low_hz high_hz dial_low_hz dial_high_hz) count rows.old }
{
    if count < rows.len() / ROW_SIZE {
        let row = SafeDial {
            band,
            segment: Range { low_hz, high_hz },
            rule,
            dial_low_hz,
            dial_high_hz,
        };
        if follows(rows, count, dial_low_hz) {
            put_row(rows, count * ROW_SIZE, row);
        } else {
            insert(rows, count, row);
        }
    }
}

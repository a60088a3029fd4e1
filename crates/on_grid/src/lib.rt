// Whether hertz figures are in eighths and at most 2^38 in size, one by one and of a whole table, edges or margins. It uses figures, decimal,
// scan, layout, table, occupancy, profile and air; its definitions use eighths.
#![tactic(auto)]

ghost use Rattle.std.specs.Prelude.{◌≡◌, eqb, ◌<◌, ◌%◌, ◌^◌};
ghost use Rattle.decimal.specs.Within.{Within};
ghost use Rattle.eighths.specs.Grid.{in_eighths};
ghost use Rattle.figures.specs.Figure.{figure_of};
ghost use Rattle.table.specs.Table.{table_of};
ghost use Rattle.on_grid.specs.Within.{figure_met, record_met, block_met, unmet_in, figures_met, range_met, edges_met, margins_met};

use air::Margins;
use layout::{General, Record};
use occupancy::Edges;
use profile::Range;
use whole::Image;

// The limit, 2^38.
const LIMIT: f64 = 274877906944.0;

// Whether n / 2^shift is whole.
#[tactic(auto, using(crate::specs::Laws::whole_far, crate::specs::Laws::whole_near))]
fn whole(n: u64, shift: u64) -> bool
    requires { n < 2 ^ 63 }
    ensures { result ≡ eqb (n % 2 ^ shift) 0 }
{
    if shift > 63 {
        n == 0
    } else {
        n == n >> shift << shift
    }
}

// Whether a figure is in eighths.
#[tactic(auto, using(crate::specs::Laws::in_eighths_by, std::proofs::lemmas::Nat::pow_pos))]
fn in_eighths(x: f64) -> bool
    requires { Within 43 x }
    ensures { result ≡ in_eighths x }
{
    let p = decimal::parts_of(x);
    whole(p.digits * 8, p.shift)
}

// In eighths and at most 2^38 in size.
#[tactic(auto, using(crate::specs::Laws::size_within), unfolding(crate::specs::Within::figure_met))]
pub fn figure_met(x: f64) -> bool
    ensures { result ≡ figure_met x }
{
    figures::in_size(LIMIT, x) && in_eighths(x)
}

// The figure that 64 bits stand for. Most records have a nought.
#[tactic(auto, using(crate::specs::Laws::nought_met))]
fn bits_met(bits: u64) -> bool
    ensures { result ≡ figure_met (figure_of bits) }
{
    bits == 0 || figure_met(figures::figure(bits))
}

// The hertz figures of a record of table t.
#[tactic(auto, unfolding(crate::specs::Within::record_met))]
fn record_met(t: usize, r: Record) -> bool
    ensures { result ≡ record_met t r }
{
    bits_met(r.low) && (bits_met(r.high) && (t == layout::POWER || bits_met(r.figure)))
}

// Those of the general block.
#[tactic(auto, unfolding(crate::specs::Within::block_met))]
fn block_met(g: General) -> bool
    ensures { result ≡ block_met g }
{
    bits_met(g.data_limit)
        && (bits_met(g.elsewhere_limit)
            && (bits_met(g.channel_width)
                && (bits_met(g.carrier_offset) && bits_met(g.carrier_tolerance))))
}

// Whether a record of table t has a figure that is not.
fn unmet_in(s: &Image, t: usize) -> bool
    requires { t < 9 }
    ensures { result ≡ unmet_in (table_of s.now) t }
{
    table::some_of(s, t, |r| !record_met(t, r))
}

// Whether every hertz figure of a table is in eighths and at most 2^38 in size.
#[tactic(auto, unfolding(crate::specs::Within::figures_met))]
pub fn figures_met(s: &Image) -> bool
    ensures { result ≡ figures_met (table_of s.now) }
{
    block_met(s.general) && !scan::some(layout::TABLES, |t| unmet_in(s, t))
}

fn range_met(r: Range) -> bool
    ensures { result ≡ range_met r }
{
    figure_met(r.low_hz) && figure_met(r.high_hz)
}

// Both pairs of edges.
#[tactic(auto, unfolding(crate::specs::Within::edges_met))]
pub fn edges_met(e: Edges) -> bool
    ensures { result ≡ edges_met e }
{
    range_met(e.power) && range_met(e.spectral)
}

// Both margins.
pub fn margins_met(m: Margins) -> bool
    ensures { result ≡ margins_met m }
{
    figure_met(m.lower_hz) && figure_met(m.upper_hz)
}

// How far data lies outside a data segment (97.305(c)): the nearest segment, and the overshoot. It uses figures, profile,
// layout, whole, table, decision and part97.
#![tactic(auto)]

ghost use Rattle.std.specs.Prelude.{◌≡◌};
ghost use Rattle.layout.specs.Layout.{count_of, segments};
ghost use Rattle.table.specs.Table.{table_of};
ghost use Rattle.part97.specs.Part97.{below, above, reach, overshoot_by, overshoot_of, nearer_by, considered, nearest_up_to};

use decision::{Edge, Overshoot};
use part97::Case;
use profile::Range;
use whole::Image;

// How far a signal reaches below a segment, and above it: the same of the other end, in two lines.
fn below_of(segment: Range, air: Range) -> f64
    ensures { result ≡ below segment air }
{
    figures::max(segment.low_hz - air.low_hz, 0.0)
}

fn above_of(segment: Range, air: Range) -> f64
    ensures { result ≡ above segment air }
{
    figures::max(air.high_hz - segment.high_hz, 0.0)
}

fn reach_of(segment: Range, air: Range) -> f64
    ensures { result ≡ reach segment air }
{
    below_of(segment, air) + above_of(segment, air)
}

fn overshoot_by(by: f64, edge: Edge) -> Overshoot
    ensures { result ≡ overshoot_by by edge }
{
    if 0.0 < by {
        Overshoot::Beyond(by, edge)
    } else {
        Overshoot::TooClose(edge)
    }
}

// Beyond an edge by a distance, or merely too close to an edge.
#[tactic(auto, unfolding(part97::specs::Part97::overshoot_of))]
pub fn overshoot_of(segment: Range, air: Range) -> Overshoot
    ensures { result ≡ overshoot_of segment air }
{
    let low = below_of(segment, air);
    let high = above_of(segment, air);
    if low <= high {
        overshoot_by(high, Edge::Upper)
    } else {
        overshoot_by(low, Edge::Lower)
    }
}

// Of two segments the one with the less overshoot, the earlier at a tie.
fn nearer_by(best: Option<(usize, f64)>, i: usize, by: f64) -> Option<(usize, f64)>
    ensures { result ≡ nearer_by best i by }
{
    match best {
        Some((_, least)) if !figures::total_less(by, least) => best,
        _ => Some((i, by)),
    }
}

#[tactic(auto, unfolding(part97::specs::Part97::considered))]
fn consider(c: Case, best: Option<(usize, f64)>, i: usize, segment: Range) -> Option<(usize, f64)>
    ensures { result ≡ considered c best i segment }
{
    if segment.overlaps(c.guarded) {
        nearer_by(best, i, reach_of(segment, c.air))
    } else {
        best
    }
}

// Among the segments that overlap the guarded range the one with the least overshoot, the first at a tie.
#[tactic(auto, using(layout::specs::Laws::table_within, table::specs::Laws::read_in, part97::specs::Laws::nearest_more), unfolding(part97::specs::Part97::nearest_up_to))]
pub fn nearest_segment(s: &Image, c: Case) -> Option<(usize, f64)>
    ensures { result ≡ nearest_up_to (table_of s.now) c (count_of s.now segments) }
{
    let start = s.start_of(layout::SEGMENTS);
    let count = s.count_of(layout::SEGMENTS) as usize;
    let mut best = None;
    for i in 0..count {
        let segment = table::span_of(s.record_at(start + layout::RECORD_SIZE * i));
        best = consider(c, best, i, segment);
    }
    best
}

// The rungs that a ceiling is asked for, as they are lent: the edges of a rung with its control frame, and what refuses a call. It uses
// figures, codes, profile, occupancy, scan, station, layout and entry.
#![tactic(auto)]

ghost use Rattle.std.specs.Prelude.{◌+◌, ◌*◌, ◌<◌, ◌≡◌, length};
ghost use Rattle.codes.specs.Refusal.{refusal_of};
ghost use Rattle.rungs.specs.Rungs.{figure_at, rung_of, control_edges, burst_of, any_unsized, any_unmarked, bad_edges, bad_rungs, ceiling_tests};

use codes::{Checked, Refusal};
use occupancy::Edges;
use profile::Range;
use station::StationRecord;

// Rungs as they are lent: a run of figures, four a rung, with a floor byte each, and the control frames that go with them.
#[derive(Clone, Copy)]
pub struct Rungs<'a> {
    pub ordinary: Edges,
    pub floor: Edges,
    pub figures: &'a [f64],
    pub floors: &'a [u8],
}

// A call for a ceiling, as it arrives.
#[derive(Clone, Copy)]
pub struct Call<'a> {
    pub record: StationRecord,
    pub direction: u8,
    pub image: &'a [u8],
    pub rungs: Rungs<'a>,
}

fn figure_at(s: &[f64], at: usize) -> f64
    requires { at < length s.now }
    ensures { result ≡ figure_at s.now at }
{
    s[at]
}

// Whether some figure is not finite or above 2^40 in size.
fn any_unsized(rungs: &[f64]) -> bool
    ensures { result ≡ any_unsized rungs.now }
{
    scan::some(
        rungs.len(),
        |i| !figures::in_size(figures::LIMIT, figure_at(rungs, i)),
    )
}

// Whether some floor byte is neither 0 nor 1.
fn any_unmarked(floors: &[u8]) -> bool
    ensures { result ≡ any_unmarked floors.now }
{
    scan::some(floors.len(), |i| layout::byte_at(floors, i) > 1)
}

// The edges of rung k.
#[tactic(auto, unfolding(crate::specs::Rungs::rung_of))]
fn rung_edges(rungs: &[f64], k: usize) -> Edges
    requires { 4 * k + 3 < length rungs.now }
    ensures { result ≡ rung_of rungs.now k }
{
    let at = 4 * k;
    entry::edges_read(Edges {
        power: Range {
            low_hz: figure_at(rungs, at),
            high_hz: figure_at(rungs, at + 1),
        },
        spectral: Range {
            low_hz: figure_at(rungs, at + 2),
            high_hz: figure_at(rungs, at + 3),
        },
    })
}

impl<'a> Rungs<'a> {
    // Refusal 15: an edge.
    #[tactic(auto, unfolding(crate::specs::Rungs::bad_edges))]
    fn bad_edges(&self) -> bool
        ensures { result ≡ bad_edges self.now.ordinary self.now.floor self.now.figures.now }
    {
        any_unsized(self.figures)
            || (!entry::edges_valid(self.ordinary) || !entry::edges_valid(self.floor))
    }

    // Refusal 16: the rungs and their floor bytes.
    #[tactic(auto, unfolding(crate::specs::Rungs::bad_rungs))]
    fn bad_rungs(&self) -> bool
        ensures { result ≡ bad_rungs self.now.figures.now self.now.floors.now }
    {
        let figures = self.figures.len();
        let floors = self.floors.len();
        figures % 4 != 0
            || (figures / 4 > 256 || (floors != figures / 4 || any_unmarked(self.floors)))
    }

    // The control frame that goes with a rung, by its floor byte.
    fn control_edges(&self, mark: u8) -> Edges
        ensures { result ≡ control_edges self.now.ordinary self.now.floor mark }
    {
        if mark == 1 { self.floor } else { self.ordinary }
    }

    // Rung k with its control frame.
    #[tactic(auto, unfolding(crate::specs::Rungs::burst_of))]
    pub fn burst(&self, k: usize) -> Edges
        requires { (4 * k + 3 < length self.now.figures.now) × (k < length self.now.floors.now) }
        ensures { result ≡ burst_of self.now.ordinary self.now.floor self.now.figures.now self.now.floors.now k }
    {
        let mark = layout::byte_at(self.floors, k);
        rung_edges(self.figures, k).union(self.control_edges(mark))
    }
}

// The refusals in order: 20 to 22, 1 to 14, 15, 16.
#[tactic(auto, using(codes::specs::Laws::refusal_next), unfolding(entry::specs::Entry::entry_of))]
pub fn ceiling_refusals(q: &Call) -> Checked
    ensures { result ≡ refusal_of (ceiling_tests q.now.record q.now.direction q.now.rungs.ordinary q.now.rungs.floor q.now.image.now
        q.now.rungs.figures.now q.now.rungs.floors.now) }
{
    entry::admit(q.record, codes::direction_valid(q.direction), q.image)?;
    if q.rungs.bad_edges() {
        return Err(Refusal::SignalEdge);
    }
    if q.rungs.bad_rungs() {
        return Err(Refusal::Rungs);
    }
    Ok(())
}

// The front of every judging call: refusals 20 to 22 and 1 to 14 in order, and the edges as they are read. It uses figures,
// codes, profile, occupancy, station and image.
#![tactic(auto)]

ghost use Rattle.std.specs.Prelude.{◌≡◌};
ghost use Rattle.entry.specs.Entry.{entry_of, pair_valid, edges_valid, pair_read, edges_read};

use codes::Checked;
use occupancy::Edges;
use profile::Range;
use station::StationRecord;

// The first refusal of a station record and an image. The codes beside the record, direction and kind, count with 20.
pub fn admit(r: StationRecord, beside: bool, image: &[u8]) -> Checked
    ensures { result ≡ entry_of r beside image.now }
{
    station::refusals(r, beside, image)?;
    if r.policy == 2 {
        return image::check(image);
    }
    Ok(())
}

fn pair_valid(p: Range) -> bool
    ensures { result ≡ pair_valid p }
{
    figures::in_size(figures::LIMIT, p.low_hz) && figures::in_size(figures::LIMIT, p.high_hz)
}

// Whether no edge meets refusal 15.
#[tactic(auto, unfolding(crate::specs::Entry::edges_valid))]
pub fn edges_valid(e: Edges) -> bool
    ensures { result ≡ edges_valid e }
{
    pair_valid(e.power) && pair_valid(e.spectral)
}

fn pair_read(p: Range) -> Range
    ensures { result ≡ pair_read p }
{
    Range {
        low_hz: figures::read_hz(p.low_hz),
        high_hz: figures::read_hz(p.high_hz),
    }
}

// The edges as they are read.
#[tactic(auto, unfolding(crate::specs::Entry::edges_read))]
pub fn edges_read(e: Edges) -> Edges
    ensures { result ≡ edges_read e }
{
    Edges {
        power: pair_read(e.power),
        spectral: pair_read(e.spectral),
    }
}

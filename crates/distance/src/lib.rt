// The distance of a dial from the rows of a finished dial list. A public call. It uses figures, codes and rows.
#![tactic(auto)]

ghost use Rattle.std.specs.Prelude.{◌≡◌, ◌+◌, ◌*◌, ◌≤◌, length};
ghost use Rattle.rows.specs.Rows.{low_at, high_at, row_band};
ghost use Rattle.distance.specs.Distance.{is_outside, distance_to, counts, nearer_of, considered_at, least_up_to, distance_of};

use codes::Refusal;

// What rows are held against: a dial, and which band is the channel band, by bytes 42 and 43 of the image that the rows are of.
#[derive(Clone, Copy)]
pub struct Here {
    pub dial_hz: f64,
    pub flags: u8,
    pub channel_band: u8,
}

// A band that is not the channel band.
#[tactic(auto, unfolding(crate::specs::Distance::is_outside))]
pub fn is_outside(flags: u8, channel_band: u8, band: u8) -> bool
    ensures { result ≡ is_outside flags channel_band band }
{
    !(codes::bit(flags, 2) && band == channel_band)
}

impl Here {
    // Whether the row that begins at a place counts. Of one that does not no more is read than says so.
    fn counts(self, rows: &[u8], at: usize) -> bool
        requires { at + 36 ≤ length rows.now }
        ensures { result ≡ counts self.flags self.channel_band (row_band rows.now at) (low_at rows.now at) (high_at rows.now at) }
    {
        is_outside(self.flags, self.channel_band, rows::band_at(rows, at))
            && rows::low_at(rows, at) <= rows::high_at(rows, at)
    }
}

// How far a dial stands below a lower dial or above an upper one, 0 on or between them.
fn distance_to(dial_hz: f64, low: f64, high: f64) -> f64
    ensures { result ≡ distance_to dial_hz low high }
{
    if dial_hz < low {
        low - dial_hz
    } else if high < dial_hz {
        dial_hz - high
    } else {
        0.0
    }
}

// The lesser of the least distance so far and another.
fn nearer(best: Option<f64>, by: f64) -> Option<f64>
    ensures { result ≡ nearer_of best by }
{
    match best {
        Some(least) => Some(if by < least { by } else { least }),
        None => Some(by),
    }
}

#[tactic(auto, unfolding(crate::specs::Distance::considered_at))]
fn consider(h: Here, best: Option<f64>, rows: &[u8], at: usize) -> Option<f64>
    requires { at + 36 ≤ length rows.now }
    ensures { result ≡ considered_at h.dial_hz h.flags h.channel_band rows.now best at }
{
    if h.counts(rows, at) {
        let by = distance_to(h.dial_hz, rows::low_at(rows, at), rows::high_at(rows, at));
        nearer(best, by)
    } else {
        best
    }
}

// The least over the first count rows.
#[tactic(auto, using(crate::specs::Laws::least_more), unfolding(crate::specs::Distance::least_up_to))]
fn least(h: Here, count: usize, rows: &[u8]) -> Option<f64>
    requires { count * 36 ≤ length rows.now }
    ensures { result ≡ least_up_to h.dial_hz h.flags h.channel_band rows.now count }
{
    let mut best = None;
    for i in 0..count {
        best = consider(h, best, rows, i * rows::ROW_SIZE);
    }
    best
}

// How far a dial stands from the nearest of the first count rows, those of the channel band left out. flags and channel_band are
// bytes 42 and 43 of the image that the list is of.
#[tactic(auto, unfolding(crate::specs::Distance::distance_of))]
pub fn distance_of(
    dial_hz: f64,
    flags: u8,
    channel_band: u8,
    count: usize,
    rows: &[u8],
) -> Result<Option<f64>, Refusal>
    ensures { result ≡ distance_of dial_hz flags channel_band count rows.now }
{
    if !figures::in_size(figures::LIMIT, dial_hz) {
        return Err(Refusal::StationFigure);
    }
    if rows.len() / rows::ROW_SIZE < count {
        return Err(Refusal::Rows);
    }
    let h = Here {
        dial_hz: figures::read_hz(dial_hz),
        flags,
        channel_band,
    };
    Ok(least(h, count, rows))
}

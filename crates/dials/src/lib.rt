// The dial list: the dials that keep a signal inside the rules, as rows in lent bytes. A public call. It uses codes, occupancy, air, station,
// layout, whole, table, entry, fill, rows, distance, nearest_rows and dial_rows; its laws use lists.
#![tactic(auto)]

ghost use Rattle.std.specs.Prelude.{◌≡◌, ◌+◌, ◌≤◌};
ghost use Rattle.table.specs.Table.{table_of};
ghost use Rattle.table.specs.Parts.{segment_of};
ghost use Rattle.rows.specs.Pour.{Poured};
ghost use Rattle.nearest_rows.specs.Over.{nearest_over};
ghost use Rattle.dial_rows.specs.Dials.{privileges_rows, segment_rows, data_rows, band_rows, searched_rows};
ghost use Rattle.dial_rows.specs.Next.{channel_count_of};
ghost use Rattle.dials.specs.List.{situation_rows, Filled, SafeDials};

use codes::{Direction, Refusal};
use dial_rows::{PlacedSearch, RowSearch, Spot};
use distance::Here;
use layout::Record;
use occupancy::Edges;
use station::{Situation, StationRecord};
use table::Channels;
use whole::Image;

// What was made of the rows so far: how many they are, and the nearest of them to a dial.
#[derive(Clone, Copy)]
pub struct Tally {
    pub count: usize,
    pub best: Option<f64>,
}

// The bytes that rows are counted on: 64 rows. A list of no more takes one pass.
const OWN: usize = 2304;

// The rows of a segment's record under every privilege, one after the other, into bytes that may have room for them or not, and held against
// a dial. Each of these functions takes the tally so far and returns it with its own.
#[tactic(auto, using(rows::specs::Pour::pouring_none, rows::specs::Pour::pouring_step, rows::specs::Pour::pouring_done, dial_rows::specs::Next::privileges_all, dial_rows::specs::Laws::privileges_few, nearest_rows::specs::Laws::over_row, nearest_rows::specs::Laws::over_none))]
fn privileges_rows(
    search: &PlacedSearch,
    rows: &mut [u8],
    r: Record,
    h: Here,
    before: Tally,
) -> Tally
    requires { before.count + 65536 ≤ 0x1_0000_0000 }
    ensures { (Poured rows.old before.count rows.new result.count (privileges_rows (table_of search.now.image.now) search.now.request (segment_of r)))
        × (result.best ≡ nearest_over h.dial_hz h.flags h.channel_band before.best
        (privileges_rows (table_of search.now.image.now) search.now.request (segment_of r))) }
{
    let mut spot = Spot {
        privilege: search.places.first,
        cut: 0,
    };
    let Tally {
        mut count,
        mut best,
    } = before;
    while let Some((x, behind)) = search.privileges_from(r, spot) {
        rows::offer(
            rows,
            count,
            x.band,
            x.rule,
            x.segment.low_hz,
            x.segment.high_hz,
            x.dial_low_hz,
            x.dial_high_hz,
        );
        best = nearest_rows::consider(h, best, x);
        spot = behind;
        count += 1;
    }
    Tally { count, best }
}

// The rows of a segment's record: none where it is passed over.
#[tactic(auto, using(rows::specs::Pour::poured_none, dial_rows::specs::Next::segment_closed, dial_rows::specs::Next::segment_open, nearest_rows::specs::Laws::over_none))]
fn segment_rows(search: &PlacedSearch, rows: &mut [u8], r: Record, h: Here, before: Tally) -> Tally
    requires { before.count + 65536 ≤ 0x1_0000_0000 }
    ensures { (Poured rows.old before.count rows.new result.count (segment_rows (table_of search.now.image.now) search.now.request (segment_of r)))
        × (result.best ≡ nearest_over h.dial_hz h.flags h.channel_band before.best
        (segment_rows (table_of search.now.image.now) search.now.request (segment_of r))) }
{
    if dial_rows::closed(search.image, search.request, r) {
        before
    } else {
        privileges_rows(search, rows, r, h, before)
    }
}

// The rows of every data segment.
#[tactic(auto, using(layout::specs::Laws::table_within, dial_rows::specs::Next::data_all, dial_rows::specs::Laws::data_few, rows::specs::Pour::pouring_none, rows::specs::Pour::pouring_more, rows::specs::Pour::pouring_done, lists::specs::From::from_step, lists::specs::From::from_end, table::specs::Laws::at_in, nearest_rows::specs::Laws::over_append, nearest_rows::specs::Laws::over_none))]
pub fn data_rows(search: &PlacedSearch, rows: &mut [u8], h: Here) -> Tally
    ensures { (Poured rows.old 0 rows.new result.count (data_rows (table_of search.now.image.now) search.now.request))
        × (result.best ≡ nearest_over h.dial_hz h.flags h.channel_band None (data_rows (table_of search.now.image.now) search.now.request)) }
{
    let mut t = Tally {
        count: 0,
        best: None,
    };
    for i in 0..search.places.segment_count {
        let r = search
            .image
            .record_at(search.places.segments + layout::RECORD_SIZE * i);
        t = segment_rows(search, rows, r, h, t);
    }
    t
}

// The rows of the channels.
#[tactic(auto, using(rows::specs::Pour::pouring_none, rows::specs::Pour::pouring_step, rows::specs::Pour::pouring_done, dial_rows::specs::Next::band_all, dial_rows::specs::Laws::open_few))]
fn channel_rows(search: &PlacedSearch, rows: &mut [u8], c: Channels, before: usize) -> usize
    requires { (search.now.places.channel_count ≡ channel_count_of (table_of search.now.image.now) search.now.request (Some c))
        × (before + 256 ≤ 0x1_0000_0000) }
    ensures { Poured rows.old before rows.new result (band_rows (table_of search.now.image.now) search.now.request (Some c)) }
{
    let mut from = 0;
    let mut count = before;
    while let Some((x, behind)) = search.channels_from(c, from) {
        rows::offer(
            rows,
            count,
            x.band,
            x.rule,
            x.segment.low_hz,
            x.segment.high_hz,
            x.dial_low_hz,
            x.dial_high_hz,
        );
        from = behind;
        count += 1;
    }
    count
}

// Every row; and their count.
#[tactic(auto, using(rows::specs::Pour::poured_none, rows::specs::Pour::poured_more, dial_rows::specs::Laws::data_few))]
fn gather(search: &RowSearch, rows: &mut [u8]) -> usize
    ensures { Poured rows.old 0 rows.new result (searched_rows (table_of search.now.placed.image.now) search.now.placed.request search.now.placed.band) }
{
    let h = Here {
        dial_hz: 0.0,
        flags: 0,
        channel_band: 0,
    };
    let count = data_rows(&search.placed, rows, h).count;
    match search.placed.band {
        Some(c) => channel_rows(&search.placed, rows, c, count),
        None => count,
    }
}

// Fills the bytes with them, in their order.
fn fill_rows(search: &RowSearch, rows: &mut [u8]) -> Result<usize, Refusal>
    ensures { Filled (searched_rows (table_of search.now.placed.image.now) search.now.placed.request search.now.placed.band) rows.old rows.new result }
{
    let mut own = [0u8; OWN];
    fill::fill(
        rows,
        &mut own,
        rows::ROW_SIZE,
        Refusal::Rows,
        |out| gather(search, out),
    )
}

// The list for a station and edges as they are read, under Rules.
#[tactic(auto, unfolding(crate::specs::List::situation_rows, dial_rows::specs::Dials::rows_of))]
fn situation_list(
    image: &Image,
    rows: &mut [u8],
    s: Situation,
    direction: Direction,
    e: Edges,
) -> Result<usize, Refusal>
    ensures { Filled (situation_rows (table_of image.now) s direction e) rows.old rows.new result }
{
    let (Some(sideband), Some(license), Some(control)) = (s.sideband, s.license, s.control) else {
        return Ok(0);
    };
    let g = image.general;
    let audio = e.range(table::reading_of(g));
    let q = dial_rows::request_of(g, license, sideband, control, direction, s.margin, audio);
    fill_rows(&RowSearch::of(image, q, table::channels_of(g)), rows)
}

// The dials that keep a signal of these edges inside the rules, with the margins to spare, in a stable order by lower dial.
#[tactic(auto, using(entry::specs::Laws::entry_whole, crate::specs::Answer::filled_none, crate::specs::Answer::safe_refused, crate::specs::Answer::safe_edges, crate::specs::Answer::safe_filled, crate::specs::Answer::rows_free, crate::specs::Answer::rows_rules))]
pub fn safe_dials(
    r: StationRecord,
    direction: u8,
    e: Edges,
    image: &[u8],
    rows: &mut [u8],
) -> Result<usize, Refusal>
    ensures { SafeDials r direction e image.now rows.old rows.new result }
{
    entry::admit(r, codes::direction_valid(direction), image)?;
    if !entry::edges_valid(e) {
        return Err(Refusal::SignalEdge);
    }
    if r.policy != 2 {
        return Ok(0);
    }
    let s = station::situation_of(r);
    let read = entry::edges_read(e);
    situation_list(&Image::of(image), rows, s, Direction::from(direction), read)
}

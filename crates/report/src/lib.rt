// The trustee's table report: the pairs of bands, of data segments and of privileges of one class that share a stretch, and the stretches
// of the data segments that no privilege of a class covers, as rows in lent bytes. A public call. It uses codes, profile, layout, whole,
// table, image, sweep, fill and report_rows; its laws use lists and order.
#![tactic(auto)]

ghost use Rattle.std.specs.Prelude.{Some, ◌≡◌, map, ◌+◌, ◌-◌, ◌≤◌, ◌<◌, length};
ghost use Rattle.lists.specs.Pour.{Poured};
ghost use Rattle.table.specs.Table.{table_of};
ghost use Rattle.report_rows.specs.Rows.{offer_at};
ghost use Rattle.report.specs.Gaps.{of_part, left_from};
ghost use Rattle.report.specs.Report.{pair_members, pair_rows_at, overlap_rows};
ghost use Rattle.report.specs.Report.{gap_row, gap_rows, report_rows, Filled, Reported};

use codes::Refusal;
use layout::Record;
use profile::Range;
use report_rows::{ReportRow, RowKind};
use sweep::Ranges;
use whole::Image;

// The bytes that rows are counted on: 64 rows. A report of no more takes one pass.
const OWN: usize = 1536;

// With which records of table t a record makes a pair: of a class, or all.
fn pair_members(t: usize, r: Record) -> Option<u8>
    ensures { result ≡ pair_members t r }
{
    if t == layout::PRIVILEGES {
        Some(r.class)
    } else {
        None
    }
}

// The pairs of record i of a table with later ones, as rows into bytes that may have room for them or not. Each of these
// functions takes the count of rows so far and returns it with its own.
fn pair_rows(g: &Ranges, rows: &mut [u8], i: usize, before: usize) -> usize
    requires { (i < g.now.count)
        × (before + length (pair_rows_at (table_of g.now.image.now) g.now.table i) ≤ 0x1_0000_0000) }
    ensures { Poured offer_at rows.old before rows.new result
        (pair_rows_at (table_of g.now.image.now) g.now.table i) }
{
    let r = g.record(i);
    let members = pair_members(g.table, r);
    let window = table::span_of(r);
    let mut n = before;
    let mut from = i + 1;
    while let Some((j, x)) = g.next(members, window, from) {
        report_rows::offer(
            rows,
            n,
            ReportRow {
                stretch: x,
                kind: RowKind::Overlap(g.table as u8),
                class: members,
                first: i,
                second: j,
            },
        );
        from = j + 1;
        n += 1;
    }
    n
}

// The pairs of table t.
fn overlap_rows(image: &Image, rows: &mut [u8], t: usize, before: usize) -> usize
    requires { (t < 9) × (before + length (overlap_rows (table_of image.now) t) ≤ 0x1_0000_0000) }
    ensures { Poured offer_at rows.old before rows.new result (overlap_rows (table_of image.now) t) }
{
    let g = Ranges::of(image, t);
    let mut n = before;
    for i in 0..g.count {
        n = pair_rows(&g, rows, i, n);
    }
    n
}

// What the privileges of a class from an index on leave of a piece of a segment: of the first that shares a stretch with it, what the
// others leave of the parts below and above that stretch.
fn gaps_left(
    g: &Ranges,
    rows: &mut [u8],
    class: u8,
    segment: usize,
    piece: Range,
    from: usize,
    before: usize,
) -> usize
    requires { before
        + length (of_part (left_from ((table_of g.now.image.now).at g.now.table) (Some class) (g.now.count - from) from) piece) ≤ 0x1_0000_0000 }
    ensures { Poured offer_at rows.old before rows.new result (map (gap_row class segment)
        (of_part (left_from ((table_of g.now.image.now).at g.now.table) (Some class) (g.now.count - from) from) piece)) }
{
    if !piece.is_lengthy() {
        return before;
    }
    let Some((j, x)) = g.next(Some(class), piece, from) else {
        report_rows::offer(
            rows,
            before,
            ReportRow {
                stretch: piece,
                kind: RowKind::Gap,
                class: Some(class),
                first: segment,
                second: segment,
            },
        );
        return before + 1;
    };
    let below = Range {
        low_hz: piece.low_hz,
        high_hz: x.low_hz,
    };
    let above = Range {
        low_hz: x.high_hz,
        high_hz: piece.high_hz,
    };
    let n = gaps_left(g, rows, class, segment, below, j + 1, before);
    gaps_left(g, rows, class, segment, above, j + 1, n)
}

// The gaps of the data segments, for the privileges of a class.
fn gap_rows(image: &Image, rows: &mut [u8], class: u8, before: usize) -> usize
    requires { (before + length (gap_rows (table_of image.now) class) ≤ 0x1_0000_0000) }
    ensures { Poured offer_at rows.old before rows.new result (gap_rows (table_of image.now) class) }
{
    let g = Ranges::of(image, layout::PRIVILEGES);
    let s = Ranges::of(image, layout::SEGMENTS);
    let mut n = before;
    for i in 0..s.count {
        let segment = table::span_of(s.record(i));
        n = gaps_left(&g, rows, class, i, segment, 0, n);
    }
    n
}

// Every row; and their count.
#[tactic(auto, using(crate::specs::Few::table_few, crate::specs::Few::segments_few))]
fn gather(image: &Image, rows: &mut [u8], class: u8) -> usize
    ensures { Poured offer_at rows.old 0 rows.new result (report_rows (table_of image.now) class) }
{
    // That the image is whole bounds the rows.
    let _ = &image.bytes;
    let a = overlap_rows(image, rows, layout::BANDS, 0);
    let b = overlap_rows(image, rows, layout::SEGMENTS, a);
    let c = overlap_rows(image, rows, layout::PRIVILEGES, b);
    gap_rows(image, rows, class, c)
}

// Fills the bytes with them.
fn fill_rows(image: &Image, class: u8, rows: &mut [u8]) -> Result<usize, Refusal>
    ensures { Filled (report_rows (table_of image.now) class) rows.old rows.new result }
{
    let mut own = [0u8; OWN];
    fill::fill(
        rows,
        &mut own,
        report_rows::ROW_SIZE,
        Refusal::Report,
        |out| gather(image, out, class),
    )
}

// The overlaps and gaps of an image's table, for a licence class, as rows of 24 bytes.
pub fn report_of(image: &[u8], class: u8, rows: &mut [u8]) -> Result<usize, Refusal>
    ensures { Reported image.now class rows.old rows.new result }
{
    if 4 < class {
        return Err(Refusal::StationCode);
    }
    image::check(image)?;
    fill_rows(&Image::of(image), class, rows)
}

// Rows of a table report in lent bytes: 24 bytes a row, one behind the other. Every offset of a row stands here. It uses profile and
// byte_writes; its laws use lists.
#![tactic(auto)]

ghost use Rattle.std.specs.Prelude.{◌≡◌, ◌+◌, ◌≤◌, length};
ghost use Rattle.std.proofs.lemmas.List.Edits.{sets};
ghost use Rattle.report_rows.specs.Rows.{kind_byte, stretch_bytes, mark_bytes, encode_row, offer_at};

use profile::Range;

pub const ROW_SIZE: usize = 24;

// What a stretch is: shared by two records of the table of this number, or covered by no privilege. A gap is a kind of row, not the absence of one.
#[derive(Clone, Copy, PartialEq, Eq)]
pub enum RowKind {
    Overlap(u8),
    Gap,
}

impl From<RowKind> for u8 {
    ghost from_gives = { λ kind n. n ≡ kind_byte kind };

    fn from(kind: RowKind) -> u8 {
        match kind {
            RowKind::Overlap(table) => table,
            RowKind::Gap => 255,
        }
    }
}

// A stretch, what it is, its class, if it has one, and the indices of the two records that share it; of a gap its segment's, twice.
#[derive(Clone, Copy)]
pub struct ReportRow {
    pub stretch: Range,
    pub kind: RowKind,
    pub class: Option<u8>,
    pub first: usize,
    pub second: usize,
}

// The two figures of a row.
#[tactic(auto, using(crate::specs::Laws::stretch_set))]
fn put_stretch(rows: &mut [u8], at: usize, x: ReportRow)
    requires { at + 16 ≤ length rows.old }
    ensures { rows.new ≡ sets rows.old at (stretch_bytes x) }
{
    byte_writes::put_figure(rows, at, x.stretch.low_hz);
    byte_writes::put_figure(rows, at + 8, x.stretch.high_hz);
}

// Its kind, class and indices, and the two zero bytes.
#[tactic(auto, using(crate::specs::Laws::marks_set))]
fn put_marks(rows: &mut [u8], at: usize, x: ReportRow)
    requires { at + 8 ≤ length rows.old }
    ensures { rows.new ≡ sets rows.old at (mark_bytes x) }
{
    byte_writes::put(rows, at, 1, u8::from(x.kind) as u64);
    byte_writes::put(rows, at + 1, 1, x.class.unwrap_or(0) as u64);
    byte_writes::put(rows, at + 2, 2, x.first as u64);
    byte_writes::put(rows, at + 4, 2, x.second as u64);
    byte_writes::put(rows, at + 6, 2, 0);
}

// A row, in the 24 bytes from at on.
#[tactic(auto, using(crate::specs::Laws::row_set))]
fn put_row(rows: &mut [u8], at: usize, x: ReportRow)
    requires { at + 24 ≤ length rows.old }
    ensures { rows.new ≡ sets rows.old at (encode_row x) }
{
    put_stretch(rows, at, x);
    put_marks(rows, at + 16, x);
}

// A row behind n others, where there is room for it; else nothing.
#[tactic(auto, unfolding(crate::specs::Rows::offer_at))]
pub fn offer(rows: &mut [u8], n: usize, x: ReportRow)
    ensures { rows.new ≡ offer_at x n rows.old }
{
    if n < rows.len() / ROW_SIZE {
        put_row(rows, n * ROW_SIZE, x);
    }
}

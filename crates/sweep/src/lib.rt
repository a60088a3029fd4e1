// The ranges of one table against a window: the first record from an index on that shares a stretch of positive length with it, for
// whichever table and class it is given. The overlaps and the gaps of a table report both go by it. It uses profile, layout, whole and
// table; its laws use apart and lists.
#![tactic(auto)]

ghost use Rattle.std.specs.Prelude.{◌≡◌, ◌+◌, ◌*◌, ◌≤◌, ◌<◌, length};
ghost use Rattle.std.specs.Option.{IfSome};
ghost use Rattle.layout.specs.Layout.{count_of, start_of};
ghost use Rattle.table.specs.Table.{table_of};
ghost use Rattle.sweep.specs.Sweep.{is_member, shared_with, sweep};

use layout::Record;
use profile::Range;
use whole::Image;

fn is_member(m: Option<u8>, r: Record) -> bool
    ensures { result ≡ is_member m r }
{
    m.is_none_or(|n| r.class == n)
}

// What a record shares with a window, if it counts.
#[tactic(auto, using(apart::specs::Apart::below_nothing, apart::specs::Apart::above_nothing), unfolding(crate::specs::Sweep::shared_with))]
fn shared_with(m: Option<u8>, window: Range, r: Record) -> Option<Range>
    ensures { result ≡ shared_with m window r }
{
    if !is_member(m, r) {
        return None;
    }
    let span = table::span_of(r);
    // Most lie apart, which two tests tell.
    if span.high_hz <= window.low_hz || window.high_hz <= span.low_hz {
        return None;
    }
    profile::intersect(span, window)
}

// One table of an image: its number, where its records begin, and how many it has.
#[derive(Clone, Copy)]
pub struct Ranges<'a> {
    pub image: &'a Image<'a>,
    pub table: usize,
    pub start: usize,
    pub count: usize,
    pub ghost below: { table < 9 },
    pub ghost begins: { start ≡ start_of image.now table },
    pub ghost counted: { count ≡ count_of image.now table },
    pub ghost lies: { (start + 32 * count + 28 ≤ length image.now) × (length image.now ≤ 65552) },
    pub ghost few: { count ≤ 256 },
}

impl<'a> Ranges<'a> {
    // Table t of an image.
    pub fn of(image: &'a Image<'a>, t: usize) -> Self
        requires { t < 9 }
        ensures { (result.image.now ≡ image.now) × (result.table ≡ t) }
    {
        Ranges {
            image,
            table: t,
            start: image.start_of(t),
            count: image.count_of(t) as usize,
        }
    }

    // Record i of it.
    #[tactic(auto, using(table::specs::Laws::read_in))]
    pub fn record(&self, i: usize) -> Record
        requires { i < self.now.count }
        ensures { result ≡ (table_of self.now.image.now).at self.now.table i }
    {
        self.image.record_at(self.start + layout::RECORD_SIZE * i)
    }

    // Its first record, from an index on, that counts and shares a stretch of positive length with a window.
    #[tactic(auto, using(crate::specs::Laws::sweep_step, crate::specs::Laws::sweep_end))]
    pub fn next(&self, m: Option<u8>, window: Range, from: usize) -> Option<(usize, Range)>
        ensures value { result ≡ sweep ((table_of self.now.image.now).at self.now.table) m window self.now.count from }
        ensures within { IfSome result (λ p. (from ≤ p.0) × (p.0 < self.now.count)) }
    {
        for i in from..self.count {
            if let Some(x) = shared_with(m, window, self.record(i)) {
                return Some((i, x));
            }
        }
        None
    }
}

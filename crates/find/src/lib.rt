// One scan for every table: the first record that a question fits. The question is a value, so that the loop is proved
// once. It uses figures, profile, layout, whole, coded, table and scan.
#![tactic(auto)]

ghost use Rattle.std.specs.Prelude.{◌≡◌, ◌+◌, ◌*◌, ◌≤◌, ◌<◌, length};
ghost use Rattle.scan.specs.First.{first};
ghost use Rattle.table.specs.Table.{table_of};
ghost use Rattle.find.specs.Question.{sound_bits, sound_record, no_limit, asks, asks_at, first_in, some_in, pick_in, home_question, homeless_of};

use layout::Record;
use profile::Range;
use whole::Image;

// What is asked of a record. A match on it whose arms are calls is the plain form: the closures are inside.
#[derive(Clone, Copy)]
pub enum Question {
    // A byte outside its values or not zero where unused, in a record of a table (5).
    Miscoded(usize),
    // A figure not finite, above 2^40 in size, or negative zero (6).
    Unsound,
    // A range with low not below high (7 to 10).
    NotLengthy,
    // An own limit that is not positive (13).
    NoLimit,
    // Its range holds this one, touches it, or shares a stretch of positive length with it.
    Holds(Range),
    Overlaps(Range),
    Shares(Range),
    // It has this band's number.
    OfBand(u8),
    BandHolds(u8, Range),
    // It has this class's number.
    ClassHolds(u8, Range),
    ClassShares(u8, Range),
    // The channel of this width about its centre touches this range.
    ChannelOverlaps(f64, Range),
}

#[tactic(auto, unfolding(crate::specs::Question::sound_bits))]
pub fn sound_bits(bits: u64) -> bool
    ensures { result ≡ sound_bits bits }
{
    figures::in_size(figures::LIMIT, figures::figure(bits)) && bits != 0x8000_0000_0000_0000
}

#[tactic(auto, unfolding(crate::specs::Question::sound_record))]
fn sound_record(r: Record) -> bool
    ensures { result ≡ sound_record r }
{
    sound_bits(r.low) && (sound_bits(r.high) && sound_bits(r.figure))
}

fn no_limit(own: Option<f64>) -> bool
    ensures { result ≡ no_limit own }
{
    match own {
        Some(max) => max <= 0.0,
        None => false,
    }
}

// Whether a question fits a record.
#[tactic(auto, unfolding(crate::specs::Question::asks))]
pub fn answers(q: Question, r: Record) -> bool
    ensures { result ≡ asks q r }
{
    match q {
        Question::Miscoded(t) => !coded::coded_record(t, r),
        Question::Unsound => !sound_record(r),
        Question::NotLengthy => !table::span_of(r).is_lengthy(),
        Question::NoLimit => no_limit(table::own_limit(r)),
        Question::Holds(a) => table::span_of(r).holds(a),
        Question::Overlaps(a) => table::span_of(r).overlaps(a),
        Question::Shares(a) => profile::share(table::span_of(r), a),
        Question::OfBand(n) => r.band == n,
        Question::BandHolds(n, a) => r.band == n && table::span_of(r).holds(a),
        Question::ClassHolds(n, a) => r.class == n && table::span_of(r).holds(a),
        Question::ClassShares(n, a) => r.class == n && profile::share(table::span_of(r), a),
        Question::ChannelOverlaps(width, a) => profile::channel_range(
            width,
            table::centre_of(r),
        ).overlaps(a),
    }
}

// The questions that judging asks most, each with a loop of its own that reads no more than it needs.
// The high end comes first: in a table in order it tells the most records apart.
#[tactic(auto, unfolding(crate::specs::Question::asks))]
fn holding(r: Record, a: Range) -> bool
    ensures { result ≡ asks (Question.Holds a) r }
{
    a.high_hz <= figures::figure(r.high) && figures::figure(r.low) <= a.low_hz
}

#[tactic(auto, unfolding(crate::specs::Question::asks))]
fn class_holding(r: Record, n: u8, a: Range) -> bool
    ensures { result ≡ asks (Question.ClassHolds n a) r }
{
    r.class == n && holding(r, a)
}

#[tactic(auto, unfolding(crate::specs::Question::asks))]
fn overlapping(r: Record, a: Range) -> bool
    ensures { result ≡ asks (Question.Overlaps a) r }
{
    table::span_of(r).overlaps(a)
}

#[tactic(auto, unfolding(crate::specs::Question::asks))]
fn of_band(r: Record, n: u8) -> bool
    ensures { result ≡ asks (Question.OfBand n) r }
{
    r.band == n
}

#[tactic(auto, unfolding(crate::specs::Question::asks))]
fn band_holding(r: Record, n: u8, a: Range) -> bool
    ensures { result ≡ asks (Question.BandHolds n a) r }
{
    r.band == n && holding(r, a)
}

#[tactic(auto, unfolding(crate::specs::Question::asks))]
fn channel_overlapping(r: Record, width: f64, a: Range) -> bool
    ensures { result ≡ asks (Question.ChannelOverlaps width a) r }
{
    profile::channel_range(width, table::centre_of(r)).overlaps(a)
}

// The first of the count records from a place on that a question fits.
pub fn find_from(s: &[u8], start: usize, count: usize, q: Question) -> Option<usize>
    requires { start + 32 * count ≤ length s.now }
    ensures { result ≡ first (asks_at s.now start q) count }
{
    scan::first(
        count,
        |i| answers(q, layout::record_at(s, start + layout::RECORD_SIZE * i)),
    )
}

// The first record of table t that a question fits, with its index.
#[tactic(auto, unfolding(crate::specs::Question::pick_in))]
pub fn pick_in(s: &Image, t: usize, q: Question) -> Option<(usize, Record)>
    requires { t < 9 }
    ensures { result ≡ pick_in (table_of s.now) t q }
{
    match q {
        Question::Holds(a) => pick_holding(s, t, a),
        Question::ClassHolds(n, a) => pick_class(s, t, n, a),
        Question::Overlaps(a) => table::pick_of(s, t, |r| overlapping(r, a)),
        Question::OfBand(n) => table::pick_of(s, t, |r| of_band(r, n)),
        Question::BandHolds(n, a) => table::pick_of(s, t, |r| band_holding(r, n, a)),
        Question::ChannelOverlaps(width, a) => {
            table::pick_of(s, t, |r| channel_overlapping(r, width, a))
        }
        _ => table::pick_of(s, t, |r| answers(q, r)),
    }
}

// The same for the questions that judging asks most, without asking which.
#[tactic(auto, unfolding(crate::specs::Question::pick_in))]
pub fn pick_holding(s: &Image, t: usize, a: Range) -> Option<(usize, Record)>
    requires { t < 9 }
    ensures { result ≡ pick_in (table_of s.now) t (Question.Holds a) }
{
    table::pick_of(s, t, |r| holding(r, a))
}

#[tactic(auto, unfolding(crate::specs::Question::pick_in))]
pub fn pick_class(s: &Image, t: usize, n: u8, a: Range) -> Option<(usize, Record)>
    requires { t < 9 }
    ensures { result ≡ pick_in (table_of s.now) t (Question.ClassHolds n a) }
{
    table::pick_of(s, t, |r| class_holding(r, n, a))
}

// Its index alone.
#[tactic(auto, unfolding(crate::specs::Question::pick_in))]
pub fn find_in(s: &Image, t: usize, q: Question) -> Option<usize>
    requires { t < 9 }
    ensures { result ≡ first_in (table_of s.now) t q }
{
    pick_in(s, t, q).map(|(i, _)| i)
}

// Whether a question fits a record of table t.
pub fn some_in(s: &Image, t: usize, q: Question) -> bool
    requires { t < 9 }
    ensures { result ≡ some_in (table_of s.now) t q }
{
    find_in(s, t, q).is_some()
}

// Which bands a segment asks for: those that hold it, of whatever number or of its own.
fn home_question(own: bool, r: Record) -> Question
    ensures { result ≡ home_question own r }
{
    if own {
        Question::BandHolds(r.band, table::span_of(r))
    } else {
        Question::Holds(table::span_of(r))
    }
}

// Whether a data segment lies in no band, of whatever number or of its own.
pub fn homeless(s: &Image, own: bool) -> bool
    ensures { result ≡ homeless_of (table_of s.now) own }
{
    table::some_of(
        s,
        layout::SEGMENTS,
        |r| !some_in(s, layout::BANDS, home_question(own, r)),
    )
}

// The image check: refusals 1 to 14, in their order. A public call. Refusals 5 to 14 are asked of whatever holds a table. It uses figures, codes,
// scan, layout, whole, coded, table, find and plain.
#![tactic(auto)]

ghost use Rattle.std.specs.Prelude.{◌≡◌, ◌<◌, ℕ, Bool, false};
ghost use Rattle.codes.specs.Refusal.{refusal_of};
ghost use Rattle.scan.specs.First.{some};
ghost use Rattle.layout.specs.Layout.{start_of};
ghost use Rattle.table.specs.Table.{Table, table_of};
ghost use Rattle.find.specs.Question.{some_in, homeless_of};
ghost use Rattle.image.specs.Check.{coded_block, miscoded, sound_block, unsound, bare, unlimited, content_tests, check_of, accepted_of};
ghost use Rattle.plain.specs.Plain.{is_rough};
ghost use Rattle.image.specs.Short.{plain_image, left_tests};

use codes::{Checked, Refusal};
use find::Question;
use layout::{General, Record};
use whole::Image;

// What holds a table that refusals 5 to 14 are asked of: an image, what an image is written from, the effective image of a day.
pub trait Source {
    // The table, and where each of its nine begins.
    ghost table: { Self → Table };

    ghost begins: { Self → ℕ → ℕ };

    fn general(&self) -> General
        ensures { result ≡ (table self.now).general };

    // How many records table t has.
    fn count_of(&self, t: usize) -> u16
        requires { t < 9 }
        ensures { result ≡ (table self.now).count t };

    // Where table t begins, counted as the source counts.
    fn start_of(&self, t: usize) -> usize
        requires { t < 9 }
        ensures { result ≡ begins self.now t };

    // Record i of table t, which begins there.
    fn record_in(&self, t: usize, start: usize, i: usize) -> Record
        requires { (t < 9) × (start ≡ begins self.now t) × (i < (table self.now).count t) }
        ensures { result ≡ (table self.now).at t i };

    // Whether a record of table t passes a test. A test that answers as p does, record by record, passes what p passes.
    fn some_of<F: Fn(Record) -> bool>(&self, t: usize, test: F) -> bool
        requires lies { t < 9 }
        requires can { (i : ℕ) → i < (table self.now).count t → F.pre test ((table self.now).at t i) }
        ensures { (p : ℕ → Bool) → ((i : ℕ) (b : Bool) → i < (table self.now).count t → F.post test ((table self.now).at t i) b → b ≡ p i)
            → result ≡ some p ((table self.now).count t) }
    {
        let start = self.start_of(t);
        let count = self.count_of(t) as usize;
        for i in 0..count {
            if test(self.record_in(t, start, i)) {
                return true;
            }
        }
        false
    }

    // Whether a question fits one of them.
    fn some_in(&self, t: usize, q: Question) -> bool
        requires { t < 9 }
        ensures { result ≡ some_in (table self.now) t q }
    {
        self.some_of(t, |r| find::answers(q, r))
    }
}

impl Source for Image<'_> {
    ghost table = { table_of };

    ghost begins = { start_of };

    fn general(&self) -> General {
        self.general
    }

    fn count_of(&self, t: usize) -> u16 {
        Image::count_of(self, t)
    }

    fn start_of(&self, t: usize) -> usize {
        Image::start_of(self, t)
    }

    #[tactic(auto, using(layout::specs::Laws::table_within, table::specs::Laws::count_in_holds, table::specs::Laws::read_in))]
    fn record_in(&self, _t: usize, start: usize, i: usize) -> Record {
        let bytes = self.bytes;
        layout::record_at(bytes, start + layout::RECORD_SIZE * i)
    }

    fn some_in(&self, t: usize, q: Question) -> bool {
        find::some_in(self, t, q)
    }
}

// The general block's codes, with the counts of the tables whose part may be absent.
#[tactic(auto, unfolding(crate::specs::Check::coded_block))]
fn coded_block<T: Source>(s: &T) -> bool
    ensures { result ≡ coded_block (T.table s.now) }
{
    coded::coded_general(
        s.general(),
        s.count_of(layout::CHANNELS),
        s.count_of(layout::PLAN_DATA),
        s.count_of(layout::PLAN_AVOID),
    )
}

// 5: the general block, then each table.
#[tactic(auto, unfolding(crate::specs::Check::miscoded))]
fn is_miscoded<T: Source>(s: &T) -> bool
    ensures { result ≡ miscoded (T.table s.now) }
{
    !coded_block(s) || scan::some(layout::TABLES, |t| s.some_in(t, Question::Miscoded(t)))
}

// The general block's figures.
#[tactic(auto, unfolding(crate::specs::Check::sound_block))]
pub fn sound_block(g: General) -> bool
    ensures { result ≡ sound_block g }
{
    find::sound_bits(g.data_limit)
        && (find::sound_bits(g.elsewhere_limit)
            && (find::sound_bits(g.channel_width)
                && (find::sound_bits(g.carrier_offset)
                    && (find::sound_bits(g.carrier_tolerance)
                        && (find::sound_bits(g.channel_watts)
                            && find::sound_bits(g.segment_watts))))))
}

// 6: the general block's figures, then those of each table's records.
#[tactic(auto, unfolding(crate::specs::Check::unsound))]
fn is_unsound<T: Source>(s: &T) -> bool
    ensures { result ≡ unsound (T.table s.now) }
{
    !sound_block(s.general()) || scan::some(layout::TABLES, |t| s.some_in(t, Question::Unsound))
}

// 11
#[tactic(auto, unfolding(crate::specs::Check::bare))]
fn is_bare<T: Source>(s: &T) -> bool
    ensures { result ≡ bare (T.table s.now) }
{
    s.count_of(layout::BANDS) == 0 || s.count_of(layout::SEGMENTS) == 0
}

// 12
fn is_homeless<T: Source>(s: &T) -> bool
    ensures { result ≡ homeless_of (T.table s.now) false }
{
    s.some_of(
        layout::SEGMENTS,
        |r| !s.some_in(layout::BANDS, Question::Holds(table::span_of(r))),
    )
}

// 14
#[tactic(auto, unfolding(crate::specs::Check::unlimited))]
pub fn is_unlimited(g: General) -> bool
    ensures { result ≡ unlimited g }
{
    figures::figure(g.data_limit) <= 0.0
}

// Refusals 5 to 14 of a table, test by test.
pub fn in_order<T: Source>(s: &T) -> Checked
    ensures { result ≡ refusal_of (content_tests (T.table s.now)) }
{
    if is_miscoded(s) {
        return Err(Refusal::CodedByte);
    }
    if is_unsound(s) {
        return Err(Refusal::ImageFigure);
    }
    if s.some_in(layout::BANDS, Question::NotLengthy) {
        return Err(Refusal::BandRange);
    }
    if s.some_in(layout::SEGMENTS, Question::NotLengthy) {
        return Err(Refusal::SegmentRange);
    }
    if s.some_in(layout::AUTOMATIC, Question::NotLengthy) {
        return Err(Refusal::AutomaticRange);
    }
    if s.some_in(layout::PRIVILEGES, Question::NotLengthy) {
        return Err(Refusal::PrivilegeRange);
    }
    if is_bare(s) {
        return Err(Refusal::EmptyTable);
    }
    if is_homeless(s) {
        return Err(Refusal::SegmentOutside);
    }
    if s.some_in(layout::SEGMENTS, Question::NoLimit) {
        return Err(Refusal::OwnLimit);
    }
    if is_unlimited(s.general()) {
        return Err(Refusal::GeneralLimit);
    }
    Ok(())
}

// The general block is coded and sound, and every record is plain.
#[tactic(auto, unfolding(crate::specs::Short::plain_image))]
fn is_plain(s: &Image) -> bool
    ensures { result ≡ plain_image s.now }
{
    coded_block(s) && (sound_block(s.general) && !plain::is_rough(s))
}

// The refusals that are left of a plain image.
fn left(s: &Image) -> Checked
    requires { is_rough s.now ≡ false }
    ensures { result ≡ refusal_of (left_tests (table_of s.now)) }
{
    if is_bare(s) {
        return Err(Refusal::EmptyTable);
    }
    if plain::is_homeless(s) {
        return Err(Refusal::SegmentOutside);
    }
    if is_unlimited(s.general) {
        return Err(Refusal::GeneralLimit);
    }
    Ok(())
}

// Refusals 5 to 14 of a whole image. A plain one, as most are, is visited once.
fn content(s: &Image) -> Checked
    ensures { result ≡ refusal_of (content_tests (table_of s.now)) }
{
    if is_plain(s) {
        return left(s);
    }
    in_order(s)
}

// The image of accepted bytes, or the first refusal of 1 to 14.
#[tactic(auto, using(codes::specs::Laws::refusal_next, layout::specs::Laws::whole_of), unfolding(crate::specs::Check::check_of))]
#[inline]
pub fn accepted(s: &[u8]) -> Result<Image<'_>, Refusal>
    ensures { result ≡ accepted_of s.now }
{
    layout::form(s)?;
    let image = Image::of(s);
    content(&image)?;
    Ok(image)
}

// Whether an image is accepted.
pub fn check(s: &[u8]) -> Checked
    ensures { result ≡ check_of s.now }
{
    accepted(s).map(|_| ())
}

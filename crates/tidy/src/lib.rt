// The tidy question on an image. A public call. It uses codes, scan, layout, whole, table, find and image.
#![tactic(auto)]

ghost use Rattle.std.specs.Prelude.{◌≡◌, ◌<◌, ◌≤◌, ◌+◌, ◌*◌, length};
ghost use Rattle.scan.specs.First.{some};
ghost use Rattle.layout.specs.Layout.{record_at};
ghost use Rattle.find.specs.Question.{asks};
ghost use Rattle.table.specs.Table.{table_of};
ghost use Rattle.tidy.specs.Tidy.{pair_question, two_share, tidy_table, tidy_of};

use codes::Refusal;
use find::Question;
use layout::Record;
use whole::Image;

fn pair_question(classes: bool, r: Record) -> Question
    ensures { result ≡ pair_question classes r }
{
    if classes {
        Question::ClassShares(r.class, table::span_of(r))
    } else {
        Question::Shares(table::span_of(r))
    }
}

// Whether record j of a table that begins at a place shares a stretch with an earlier one.
fn shares_earlier(s: &Image, start: usize, j: usize, classes: bool) -> bool
    requires { start + 32 * j + 32 ≤ length s.now }
    ensures { result ≡ some (λ i. asks (pair_question classes (record_at s.now (start + 32 * j))) (record_at s.now (start + 32 * i))) j }
{
    let bytes = s.bytes;
    let r = layout::record_at(bytes, start + layout::RECORD_SIZE * j);
    find::find_from(bytes, start, j, pair_question(classes, r)).is_some()
}

// Whether two records of table t share a stretch of positive length; with classes, two of one class.
#[tactic(auto, using(layout::specs::Laws::table_within), unfolding(crate::specs::Tidy::two_share))]
fn two_share(s: &Image, t: usize, classes: bool) -> bool
    requires { t < 9 }
    ensures { result ≡ two_share (table_of s.now) t classes }
{
    let start = s.start_of(t);
    scan::some(
        s.count_of(t) as usize,
        |j| shares_earlier(s, start, j, classes),
    )
}

// Whether the table of an accepted image is tidy.
#[tactic(auto, unfolding(crate::specs::Tidy::tidy_table))]
pub fn tidy_table(s: &Image) -> bool
    ensures { result ≡ tidy_table (table_of s.now) }
{
    !find::homeless(s, true)
        && (!two_share(s, layout::BANDS, false)
            && (!two_share(s, layout::SEGMENTS, false) && !two_share(s, layout::PRIVILEGES, true)))
}

// Whether an image's table is tidy, or the refusal of the image.
#[tactic(auto, using(image::specs::Laws::accepted_whole))]
pub fn is_tidy(s: &[u8]) -> Result<bool, Refusal>
    ensures { result ≡ tidy_of s.now }
{
    image::check(s)?;
    Ok(tidy_table(&Image::of(s)))
}

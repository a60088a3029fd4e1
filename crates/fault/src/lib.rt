// Where a table is wrong: the general block, or the first table and record, that the check's refusal meets. A public call.
// It uses codes, scan, layout, whole, coded, table, find and image.
#![tactic(auto)]

ghost use Rattle.std.specs.Prelude.{◌≡◌, false, ◌<◌};
ghost use Rattle.scan.specs.First.{first};
ghost use Rattle.layout.specs.Layout.{segments, count_of};
ghost use Rattle.table.specs.Table.{table_of};
ghost use Rattle.find.specs.Question.{homeless_at};
ghost use Rattle.fault.specs.Fault.{in_table, first_of, record_where, absent_part, miscoded_place, unsound_place, wrong_at, short_in, fault_at, fault_of};
ghost use Rattle.fault.specs.Number.{fault_number};

use codes::{Checked, Refusal};
use find::Question;
use layout::General;
use whole::Image;

// Two places, neither the absence of the other.
#[derive(Clone, Copy)]
pub enum Fault {
    // In the general block.
    InGeneral,
    // In a record: its table, 0 to 8, and its index there.
    InRecord(usize, usize),
}

#[derive(Clone, Copy)]
pub struct FaultAnswer {
    pub refusal: Checked,
    pub fault: Option<Fault>,
}

// 0 nowhere, 1 the general block, 2 a record.
pub fn fault_number(f: Option<Fault>) -> u8
    ensures { result ≡ fault_number f }
{
    match f {
        None => 0,
        Some(Fault::InGeneral) => 1,
        Some(Fault::InRecord(_, _)) => 2,
    }
}

// What a scan of table t found.
fn in_table(t: usize, f: Option<usize>) -> Option<Fault>
    ensures { result ≡ in_table t f }
{
    f.map(|i| Fault::InRecord(t, i))
}

// Whether table t belongs to a part that the flags say is absent.
#[tactic(auto, unfolding(crate::specs::Fault::absent_part))]
fn is_absent(g: General, t: usize) -> bool
    ensures { result ≡ absent_part g t }
{
    if t == layout::CHANNELS {
        return !codes::bit(g.flags, 2);
    }
    if t == layout::PLAN_DATA {
        return !codes::bit(g.flags, 4);
    }
    if t == layout::PLAN_AVOID {
        return !codes::bit(g.flags, 4);
    }
    false
}

// The first record of table t that meets 5, or 6.
fn find_wrong(s: &Image, coding: bool, t: usize) -> Option<usize>
    requires { t < 9 }
    ensures { result ≡ first_of (table_of s.now) (wrong_at coding (table_of s.now)) t }
{
    if !coding {
        return find::find_in(s, t, Question::Unsound);
    }
    if !is_absent(s.general, t) {
        return find::find_in(s, t, Question::Miscoded(t));
    }
    if s.count_of(t) == 0 {
        return None;
    }
    Some(0)
}

// The first table and record that meets 5, or 6.
fn record_where(s: &Image, coding: bool) -> Option<Fault>
    ensures { result ≡ record_where (table_of s.now) (wrong_at coding (table_of s.now)) }
{
    for t in 0..layout::TABLES {
        if let Some(i) = find_wrong(s, coding, t) {
            return Some(Fault::InRecord(t, i));
        }
    }
    None
}

// 5
#[tactic(auto, unfolding(crate::specs::Fault::miscoded_place))]
fn miscoded_place(s: &Image) -> Option<Fault>
    ensures { result ≡ miscoded_place (table_of s.now) }
{
    if coded::coded_general(s.general, 0, 0, 0) {
        record_where(s, true)
    } else {
        Some(Fault::InGeneral)
    }
}

// 6
#[tactic(auto, unfolding(crate::specs::Fault::unsound_place))]
fn unsound_place(s: &Image) -> Option<Fault>
    ensures { result ≡ unsound_place (table_of s.now) }
{
    if image::sound_block(s.general) {
        record_where(s, false)
    } else {
        Some(Fault::InGeneral)
    }
}

// The first segment in no band (12).
fn find_homeless(s: &Image) -> Option<usize>
    ensures { result ≡ first (homeless_at (table_of s.now) false) (count_of s.now segments) }
{
    table::first_of(
        s,
        layout::SEGMENTS,
        |r| !find::some_in(s, layout::BANDS, Question::Holds(table::span_of(r))),
    )
}

// The first record of table t with low not below high (7 to 10).
fn short_in(s: &Image, t: usize) -> Option<Fault>
    requires { t < 9 }
    ensures { result ≡ short_in (table_of s.now) t }
{
    in_table(t, find::find_in(s, t, Question::NotLengthy))
}

// The place of a refusal of a whole image.
#[tactic(auto, unfolding(crate::specs::Fault::fault_at))]
fn fault_at(s: &Image, n: Refusal) -> Option<Fault>
    ensures { result ≡ fault_at n (table_of s.now) }
{
    match n {
        Refusal::CodedByte | Refusal::Other(5) => miscoded_place(s),
        Refusal::ImageFigure | Refusal::Other(6) => unsound_place(s),
        Refusal::BandRange | Refusal::Other(7) => short_in(s, layout::BANDS),
        Refusal::SegmentRange | Refusal::Other(8) => short_in(s, layout::SEGMENTS),
        Refusal::AutomaticRange | Refusal::Other(9) => short_in(s, layout::AUTOMATIC),
        Refusal::PrivilegeRange | Refusal::Other(10) => short_in(s, layout::PRIVILEGES),
        Refusal::SegmentOutside | Refusal::Other(12) => in_table(
            layout::SEGMENTS,
            find_homeless(s),
        ),
        Refusal::OwnLimit | Refusal::Other(13) => in_table(
            layout::SEGMENTS,
            find::find_in(s, layout::SEGMENTS, Question::NoLimit),
        ),
        _ => None,
    }
}

// The check's answer, and where the table is wrong. An image that 1 to 4 refuse has no records to look at.
pub fn fault_of(s: &[u8]) -> FaultAnswer
    ensures { result ≡ fault_of s.now }
{
    let refusal = image::check(s);
    let fault = match refusal {
        Ok(()) => None,
        Err(n) => {
            if u8::from(n) < 5 {
                None
            } else {
                fault_at(&Image::of(s), n)
            }
        }
    };
    FaultAnswer { refusal, fault }
}

// Writing an image of either edition from fields and records. A public call. The parts of every image that is written are put here. It uses
// codes, layout, given and byte_writes; its definitions use lists.
#![tactic(auto)]

ghost use Rattle.std.specs.Prelude.{◌≡◌, ◌+◌, ◌*◌, ◌≤◌, length};
ghost use Rattle.std.proofs.lemmas.List.Edits.{sets};
ghost use Rattle.codes.specs.Refusal.{refusal_of};
ghost use Rattle.given.specs.Given.{runs, before_from};
ghost use Rattle.given.specs.Tests.{Held};
ghost use Rattle.writer.specs.Image.{littles, record_bytes, block_bytes, watts_bytes, more_bytes, count_bytes, end_bytes};
ghost use Rattle.writer.specs.Image.{records_bytes, tables_at, trailer_at, image_of};
ghost use Rattle.writer.specs.Write.{room_test, Left, Written};
ghost use Rattle.writer.specs.Laws.{total};

use codes::Refusal;
use given::{Fields, Given, Records};
use layout::{General, Record};

// Numbers one after the other from a place on, each with the width of bytes before it.
#[tactic(auto, using(crate::specs::Laws::lay_step, crate::specs::Laws::lay_done))]
fn put_all(out: &mut [u8], at: usize, numbers: &[(usize, u64)])
    requires { at + total numbers.now ≤ length out.old }
    ensures { out.new ≡ sets out.old at (littles numbers.now) }
{
    let mut place = at;
    for (width, x) in numbers {
        byte_writes::put(out, place, *width, *x);
        place += *width;
    }
}

// A record, in the 32 bytes from at on.
#[tactic(auto, unfolding(crate::specs::Image::record_bytes))]
fn put_record(out: &mut [u8], at: usize, r: Record)
    requires { at + 32 ≤ length out.old }
    ensures { out.new ≡ sets out.old at (record_bytes r) }
{
    let numbers = [
        (8, r.low),
        (8, r.high),
        (8, r.figure),
        (1, r.band as u64),
        (1, r.class as u64),
        (1, r.emissions as u64),
        (1, r.flags as u64),
        (2, r.rule as u64),
        (2, r.second_rule as u64),
    ];
    put_all(out, at, &numbers);
}

// The general block, in the first 64 bytes.
#[tactic(auto, unfolding(crate::specs::Image::block_bytes))]
fn put_block(out: &mut [u8], g: General)
    requires { 64 ≤ length out.old }
    ensures { out.new ≡ sets out.old 0 (block_bytes g) }
{
    let numbers = [
        (8, g.data_limit),
        (8, g.elsewhere_limit),
        (8, g.channel_width),
        (8, g.carrier_offset),
        (8, g.carrier_tolerance),
        (1, g.region as u64),
        (1, g.reading as u64),
        (1, g.flags as u64),
        (1, g.channel_band as u64),
        (1, g.sideband as u64),
        (1, g.emissions as u64),
        (2, g.data_rule as u64),
        (2, g.elsewhere_rule as u64),
        (2, g.automatic_rule as u64),
        (2, g.channels_rule as u64),
        (2, g.emissions_rule as u64),
        (2, g.privileges_rule as u64),
        (2, g.unused as u64),
        (4, g.unused_rest as u64),
    ];
    put_all(out, 0, &numbers);
}

// The watts of edition 2, after the general block.
#[tactic(auto, unfolding(crate::specs::Image::watts_bytes))]
pub fn put_watts(out: &mut [u8], channel: u64, segment: u64)
    requires { 80 ≤ length out.old }
    ensures { out.new ≡ sets out.old 64 (watts_bytes channel segment) }
{
    put_all(out, layout::GENERAL_SIZE, &[(8, channel), (8, segment)]);
}

// The trailer's end: distance, edition and letters.
#[tactic(auto, unfolding(crate::specs::Image::end_bytes))]
pub fn put_end(out: &mut [u8], at: usize, distance: u32, edition: u16)
    requires { at + 10 ≤ length out.old }
    ensures { out.new ≡ sets out.old at (end_bytes distance edition) }
{
    let letters = layout::LETTERS;
    let numbers = [
        (4, distance as u64),
        (2, edition as u64),
        (1, letters[0] as u64),
        (1, letters[1] as u64),
        (1, letters[2] as u64),
        (1, letters[3] as u64),
    ];
    put_all(out, at, &numbers);
}

// The first count records, one after the other.
#[tactic(auto, using(crate::specs::Laws::records_more), unfolding(lists::specs::Each::each))]
fn put_records(out: &mut [u8], at: usize, records: &Records, count: usize)
    requires { (at + 32 * count ≤ length out.old) × (Held records.now count) }
    ensures { out.new ≡ sets out.old at (records_bytes records.now count) }
{
    for k in 0..count {
        put_record(out, at + layout::RECORD_SIZE * k, records.record_at(k));
    }
}

// The nine counts.
#[tactic(auto, using(crate::specs::Laws::counts_more), unfolding(lists::specs::Each::each))]
fn put_counts(out: &mut [u8], at: usize, counts: &[u16; 9])
    requires { at + 18 ≤ length out.old }
    ensures { out.new ≡ sets out.old at (count_bytes counts.now 9) }
{
    for t in 0..layout::TABLES {
        byte_writes::put(out, at + 2 * t, 2, given::count_at(counts, t) as u64);
    }
}

// The watts, of an edition that has them.
fn put_more(out: &mut [u8], edition: u16, g: General)
    requires { 80 ≤ length out.old }
    ensures { out.new ≡ sets out.old 64 (more_bytes edition g) }
{
    if edition == layout::SECOND_EDITION {
        put_watts(out, g.channel_watts, g.segment_watts);
    }
}

// Where the tables of an edition begin.
fn tables_at(edition: u16) -> usize
    ensures { (result ≡ tables_at edition) × (64 ≤ result) × (result ≤ 80) }
{
    if edition == layout::SECOND_EDITION {
        layout::GENERAL_SIZE + layout::WATTS_SIZE
    } else {
        layout::GENERAL_SIZE
    }
}

// The trailer: counts, and what follows them.
fn put_trailer(out: &mut [u8], at: usize, counts: &[u16; 9], edition: u16)
    requires { (at + 28 ≤ length out.old) × (at ≤ 65552) }
    ensures { out.new ≡ sets (sets out.old at (count_bytes counts.now 9)) (at + 18) (end_bytes at edition) }
{
    put_counts(out, at, counts);
    put_end(out, at + 18, at as u32, edition);
}

// The whole image, from the first byte on.
#[tactic(auto, using(crate::specs::Laws::parts_set))]
fn put_image(out: &mut [u8], edition: u16, given: &Given, count: usize)
    requires { (trailer_at edition given.now.counts.now + 28 ≤ length out.old) × (count ≡ before_from given.now.counts.now 9) }
    ensures { out.new ≡ sets out.old 0 (image_of edition given.now.general given.now.counts.now given.now.records) }
{
    let at = tables_at(edition);
    put_block(out, given.general);
    put_more(out, edition, given.general);
    put_records(out, at, &given.records, count);
    put_trailer(out, at + layout::RECORD_SIZE * count, given.counts, edition);
}

// The image of what is not refused, where it fits.
fn fit(out: &mut [u8], edition: u16, given: &Given) -> Result<u32, Refusal>
    ensures { Left (refusal_of (room_test (image_of edition given.now.general given.now.counts.now given.now.records) out.old))
        (image_of edition given.now.general given.now.counts.now given.now.records)
        out.old out.new result }
{
    let count = given::before(given.counts, layout::TABLES);
    let length = tables_at(edition) + layout::RECORD_SIZE * count + layout::TRAILER_SIZE;
    if out.len() < length {
        return Err(Refusal::Rows);
    }
    put_image(out, edition, given, count);
    Ok(length as u32)
}

// Writes the image of these fields and records, or answers the refusal that it would get.
pub fn write(
    f: Fields,
    counts: &[u16; 9],
    figures: &[f64],
    codes: &[u8],
    rules: &[u16],
    out: &mut [u8],
) -> Result<u32, Refusal>
    ensures { Written f counts.now (runs figures.now codes.now rules.now)
        out.old out.new result }
{
    let g = given::general_from(f);
    given::refusal(f.edition, g, counts, figures, codes, rules)?;
    let records = Records {
        figures,
        codes,
        rules,
    };
    let given = Given {
        general: g,
        counts,
        records,
    };
    fit(out, f.edition, &given)
}

// Amendments with a day: the effective image of a base image, a list of amendments and a day. A public call. It uses codes, layout, whole, image,
// writer, convert and amended; its laws use scan and table.
#![tactic(auto)]

ghost use Rattle.std.specs.Prelude.{◌≡◌, ◌++◌, Ok, ◌≤◌, ◌<◌, length, drop};
ghost use Rattle.std.proofs.lemmas.List.Edits.{sets};
ghost use Rattle.scan.specs.First.{on_found};
ghost use Rattle.layout.specs.Layout.{records_before};
ghost use Rattle.image.specs.Check.{check_of};
ghost use Rattle.writer.specs.Write.{Left};
ghost use Rattle.amended.specs.Amended.{replacement_of, counting, slot_at, effective_of};
ghost use Rattle.amend.specs.Amend.{Amended};

use amended::{Amending, Amendments, Effective};
use codes::Refusal;

// The amendment that counts for record k, in its place.
#[tactic(auto, using(amended::specs::Latest::few_records))]
fn put_record(out: &mut [u8], e: &Effective, k: usize)
    requires { (k < records_before e.now.of.image.now 9) × (length e.now.of.image.now ≤ length out.old) }
    ensures { out.new ≡ on_found (counting e.now.of.image.now e.now.of.list.bytes.now e.now.of.day k)
        (λ j. sets out.old (slot_at e.now.of.image.now k) (replacement_of e.now.of.list.bytes.now j)) out.old }
{
    if let Some(j) = e.counting(k) {
        let image = e.of.image;
        let at = layout::tables_from(image.bytes) + layout::RECORD_SIZE * k;
        let from = amended::AMENDMENT_SIZE * j + 8;
        convert::put_part(out, at, e.of.list.bytes, from, layout::RECORD_SIZE);
    }
}

// The effective image, from the first byte on.
#[tactic(auto, using(crate::specs::Copies::put_base, crate::specs::Laws::put_more), unfolding(amended::specs::Amended::effective_of))]
fn put_image(out: &mut [u8], e: &Effective)
    requires { length e.now.of.image.now ≤ length out.old }
    ensures { out.new ≡ effective_of e.now.of.image.now e.now.of.list.bytes.now e.now.of.day ++ drop (length e.now.of.image.now) out.old }
{
    let image = e.of.image;
    let bytes = image.bytes;
    convert::put_part(out, 0, bytes, 0, bytes.len());
    for k in 0..layout::records_before(bytes, layout::TABLES) as usize {
        put_record(out, e, k);
    }
}

// Past 28: the effective image's own refusal, or the image.
fn fit(of: &Amending, out: &mut [u8]) -> Result<u32, Refusal>
    requires { (check_of of.now.image.now ≡ Ok tt) × (length of.now.image.now ≤ length out.old) }
    ensures { Left (check_of (effective_of of.now.image.now of.now.list.bytes.now of.now.day))
        (effective_of of.now.image.now of.now.list.bytes.now of.now.day)
        out.old out.new result }
{
    let mut index = [0u32; 2045];
    of.fill(&mut index);
    let e = Effective {
        of: *of,
        index: &index,
    };
    image::in_order(&e)?;
    put_image(out, &e);
    let image = of.image;
    Ok(image.bytes.len() as u32)
}

// Writes the effective image of a day, or answers a refusal: the base image's, 27, 28, or the effective image's own.
pub fn amend(image: &[u8], list: &[u8], day: u32, out: &mut [u8]) -> Result<u32, Refusal>
    ensures { Amended image.now list.now day out.old out.new result }
{
    let image = image::accepted(image)?;
    let list = Amendments { bytes: list };
    if list.is_wrong(image.bytes) {
        return Err(Refusal::Amendments);
    }
    if out.len() < image.bytes.len() {
        return Err(Refusal::AmendedRoom);
    }
    let of = Amending {
        image: &image,
        list,
        day,
    };
    fit(&of, out)
}

// The converters between the two editions of an image. Public calls. They use codes, layout, whole, image, byte_writes and writer.
#![tactic(auto)]

ghost use Rattle.std.specs.Prelude.{◌≡◌, false, ◌+◌, ◌≤◌, length, take, drop};
ghost use Rattle.std.proofs.lemmas.List.Edits.{sets};
ghost use Rattle.codes.specs.Refusal.{refusal_of};
ghost use Rattle.layout.specs.Layout.{edition_of};
ghost use Rattle.image.specs.Check.{image_or};
ghost use Rattle.given.specs.Tests.{neither_edition};
ghost use Rattle.writer.specs.Write.{room_test, Left};
ghost use Rattle.convert.specs.Convert.{from_tests, other_watts, lower_tests, raised_of, lowered_of, Raised, Lowered};
ghost use Rattle.convert.specs.Laws.{early};

use codes::Refusal;
use layout::General;
use whole::Image;

// Whether a refusal comes before the edition is looked at.
fn is_early(r: Refusal) -> bool
    ensures { result ≡ early (Err r) }
{
    matches!(
        r,
        Refusal::ImageLength | Refusal::Letters | Refusal::Other(0..=2)
    )
}

// An image that must be of one edition, or its refusal of 1 to 14.
fn image_of(s: &[u8], edition: u16) -> Result<Image<'_>, Refusal>
    requires { neither_edition edition ≡ false }
    ensures { result ≡ image_or s.now (refusal_of (from_tests edition s.now)) }
{
    if let Err(r) = layout::form(s) {
        if is_early(r) {
            return Err(r);
        }
    }
    if layout::edition_of(s) != edition {
        return Err(Refusal::Edition);
    }
    image::accepted(s)
}

// Whether the watts are others than those of edition 1.
fn other_watts(g: General) -> bool
    ensures { result ≡ other_watts g }
{
    g.channel_watts != layout::CHANNEL_WATTS || g.segment_watts != layout::SEGMENT_WATTS
}

// The same with 26, which an image that is to be lowered can meet.
fn lowerable(s: &[u8]) -> Result<Image<'_>, Refusal>
    ensures { result ≡ image_or s.now (refusal_of (lower_tests s.now)) }
{
    let image = image_of(s, layout::SECOND_EDITION)?;
    if other_watts(image.general) {
        return Err(Refusal::Watts);
    }
    Ok(image)
}

// Bytes of an image, from one place on, to another place of the output.
pub fn put_part(out: &mut [u8], to: usize, image: &[u8], from: usize, count: usize)
    requires { (to + count ≤ length out.old) × (from + count ≤ length image.now) }
    ensures { out.new ≡ sets out.old to (take count (drop from image.now)) }
{
    byte_writes::copy(&mut out[to..], &image[from..], count);
}

// The raised image, where it fits.
fn put_raised(image: &Image, out: &mut [u8]) -> Result<u32, Refusal>
    requires { edition_of image.now ≡ 1 }
    ensures { Left (refusal_of (room_test (raised_of image.now) out.old)) (raised_of image.now)
        out.old out.new result }
{
    let image = image.bytes;
    let length = image.len() + layout::WATTS_SIZE;
    if out.len() < length {
        return Err(Refusal::Rows);
    }
    let trailer = image.len() - layout::TRAILER_SIZE;
    put_part(out, 0, image, 0, layout::GENERAL_SIZE);
    writer::put_watts(out, layout::CHANNEL_WATTS, layout::SEGMENT_WATTS);
    put_part(
        out,
        layout::GENERAL_SIZE + layout::WATTS_SIZE,
        image,
        layout::GENERAL_SIZE,
        trailer + 18 - layout::GENERAL_SIZE,
    );
    writer::put_end(
        out,
        length - 10,
        (trailer + layout::WATTS_SIZE) as u32,
        layout::SECOND_EDITION,
    );
    Ok(length as u32)
}

// The lowered image, where it fits.
fn put_lowered(image: &Image, out: &mut [u8]) -> Result<u32, Refusal>
    requires { edition_of image.now ≡ 2 }
    ensures { Left (refusal_of (room_test (lowered_of image.now) out.old)) (lowered_of image.now)
        out.old out.new result }
{
    let image = image.bytes;
    let length = image.len() - layout::WATTS_SIZE;
    if out.len() < length {
        return Err(Refusal::Rows);
    }
    let trailer = image.len() - layout::TRAILER_SIZE;
    let from = layout::GENERAL_SIZE + layout::WATTS_SIZE;
    put_part(out, 0, image, 0, layout::GENERAL_SIZE);
    put_part(out, layout::GENERAL_SIZE, image, from, trailer + 18 - from);
    writer::put_end(
        out,
        length - 10,
        (trailer - layout::WATTS_SIZE) as u32,
        layout::FIRST_EDITION,
    );
    Ok(length as u32)
}

// Writes edition 2 of an image of edition 1.
pub fn raise(image: &[u8], out: &mut [u8]) -> Result<u32, Refusal>
    ensures { Raised image.now out.old out.new result }
{
    let image = image_of(image, layout::FIRST_EDITION)?;
    put_raised(&image, out)
}

// Writes edition 1 of an image of edition 2 whose watts are those of edition 1.
pub fn lower(image: &[u8], out: &mut [u8]) -> Result<u32, Refusal>
    ensures { Lowered image.now out.old out.new result }
{
    let image = lowerable(image)?;
    put_lowered(&image, out)
}

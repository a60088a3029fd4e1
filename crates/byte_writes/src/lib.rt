// Writing bytes: numbers and figures little-endian at a place, and a copy of bytes. Rows of any size and images are written by it. It
// uses figures and layout in its laws only.
#![tactic(auto)]

ghost use Rattle.std.specs.Prelude.{◌≡◌, ◌+◌, ◌≤◌, length};
ghost use Rattle.std.proofs.lemmas.List.Edits.{sets};
ghost use Rattle.std.proofs.Math.Seq.{paste};
ghost use Rattle.std.specs.Float.{binary64};
ghost use Rattle.std.specs.Float.Ieee.{to_bits};
ghost use Rattle.byte_writes.specs.Bytes.{little, figure_bytes};

// A figure's bits. A NaN has many: it gets those that `to_bits` says.
pub fn bits(x: f64) -> u64
    ensures { result ≡ to_bits binary64 x }
{
    if x.is_nan() {
        return 0x7ff8_0000_0000_0000;
    }
    f64::to_bits(x)
}

// A number, little-endian, in the width bytes from at on.
#[tactic(auto, using(crate::specs::Laws::put_step, crate::specs::Laws::put_done))]
pub fn put(out: &mut [u8], at: usize, width: usize, x: u64)
    requires { at + width ≤ length out.old }
    ensures { out.new ≡ sets out.old at (little width x) }
{
    let mut rest = x;
    for k in 0..width {
        out[at + k] = (rest % 256) as u8;
        rest /= 256;
    }
}

// A figure, in the eight bytes from at on.
pub fn put_figure(out: &mut [u8], at: usize, x: f64)
    requires { at + 8 ≤ length out.old }
    ensures { out.new ≡ sets out.old at (figure_bytes x) }
{
    put(out, at, 8, bits(x));
}

// The first bytes of one slice into another, byte by byte.
pub fn copy(out: &mut [u8], from: &[u8], room: usize)
    requires { (room ≤ length out.old) × (room ≤ length from.now) }
    ensures { out.new ≡ paste out.old 0 from.now room }
{
    for k in 0..room {
        out[k] = from[k];
    }
}

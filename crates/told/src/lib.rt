// What a program of the gate writes of a call that was lent bytes for an image: the answer, and every byte, or two sums of them where they are
// many. It uses codes and lines.
#![tactic(auto)]

use codes::Refusal;
use std::io;
use std::io::Write;

// The most bytes of which each is written.
const SHOWN: usize = 512;

// Two sums of bytes: of themselves, and of the first sum at each.
fn summed(out: &mut impl Write, bytes: &[u8]) -> io::Result<()> {
    let mut one = 1;
    let mut two = 0;
    for b in bytes {
        one = (one + u32::from(*b)) % 65521;
        two = (two + one) % 65521;
    }
    write!(out, " sums {one} {two}")
}

// An answer, and the lent bytes after it.
pub fn told(out: &mut impl Write, a: Result<u32, Refusal>, lent: &[u8]) -> io::Result<()> {
    match a {
        Ok(n) => write!(out, " length {n}")?,
        Err(r) => write!(out, " refusal {}", u8::from(r))?,
    }
    if SHOWN < lent.len() {
        summed(out, lent)?;
    } else {
        write!(out, " ")?;
        lines::hex(out, lent)?;
    }
    writeln!(out)
}

// What the programs of the gate read and write with: standard input up to a limit, read number by number from the front, and standard output
// behind a buffer. It uses figures.
#![tactic(auto)]

ghost use Rattle.std.specs.Prelude.{◌≡◌, ◌<◌, ◌^◌, IfSome};
ghost use Rattle.lines.specs.Left.{Takes};

use std::alloc::{AllocError, Global};
use std::io::{BufWriter, Input, Print, Read, Write};
use std::{fmt, io};

// So many bytes of a reader, or all that are left where they are fewer.
pub fn read(alloc: Global, reader: &mut impl Read, limit: u64) -> io::Result<Vec<u8>> {
    let mut bytes = Vec::new(alloc);
    reader.take(limit).read_to_end(&mut bytes)?;
    Ok(bytes)
}

// The same of standard input.
pub fn input(rt: &(impl Input + AllocGlobal), limit: u64) -> io::Result<Vec<u8>> {
    read(rt.alloc(), &mut rt.reader(), limit)
}

// Standard output. What is written to it is there once it is flushed.
pub fn output<R: Print + AllocGlobal>(rt: &R) -> io::Result<BufWriter<io::Printer<'_, R>>> {
    BufWriter::new(rt.alloc(), io::writer(rt))
}

// ---- reading

// An input, and what is left of it. Numbers are read little-endian from the front of what is left; None says that it ends before.
#[derive(Clone, Copy)]
pub struct Cursor<'a> {
    whole: &'a [u8],
    pub left: &'a [u8],
}

impl<'a> Cursor<'a> {
    pub fn new(whole: &'a [u8]) -> Self
        ensures { result.left.now ≡ whole.now }
    {
        Cursor { whole, left: whole }
    }

    // The same input, read from a place on.
    pub fn at(&self, place: usize) -> Option<Self> {
        let whole = self.whole;
        let left = whole.get(place..)?;
        Some(Cursor { whole, left })
    }

    // So many bytes.
    pub fn bytes(&mut self, count: usize) -> Option<&'a [u8]>
        ensures { Takes count self.old.left.now self.new.left.now result }
    {
        let (taken, left) = self.left.split_at_checked(count)?;
        self.left = left;
        Some(taken)
    }

    pub fn array<const N: usize>(&mut self) -> Option<[u8; N]>
        ensures { Takes N self.old.left.now self.new.left.now result }
    {
        let (taken, left) = self.left.split_first_chunk::<N>()?;
        self.left = left;
        Some(*taken)
    }

    pub fn u8(&mut self) -> Option<u8>
        ensures { Takes 1 self.old.left.now self.new.left.now result }
    {
        let (first, left) = self.left.split_first()?;
        self.left = left;
        Some(*first)
    }

    // One for each width: `from_le_bytes` is no trait's.
    pub fn u16(&mut self) -> Option<u16>
        ensures { Takes 2 self.old.left.now self.new.left.now result }
    {
        Some(u16::from_le_bytes(self.array()?))
    }

    pub fn u32(&mut self) -> Option<u32>
        ensures { Takes 4 self.old.left.now self.new.left.now result }
    {
        Some(u32::from_le_bytes(self.array()?))
    }

    pub fn u64(&mut self) -> Option<u64>
        ensures { Takes 8 self.old.left.now self.new.left.now result }
    {
        Some(u64::from_le_bytes(self.array()?))
    }

    pub fn i64(&mut self) -> Option<i64>
        ensures { Takes 8 self.old.left.now self.new.left.now result }
    {
        Some(i64::from_le_bytes(self.array()?))
    }

    // A figure, by its bits.
    pub fn f64(&mut self) -> Option<f64>
        ensures { Takes 8 self.old.left.now self.new.left.now result }
    {
        Some(figures::figure(self.u64()?))
    }

    // A number of bytes or of records, or a place, in two bytes and in four.
    pub fn small(&mut self) -> Option<usize>
        ensures within { IfSome result (λ n. n < 2 ^ 16) }
        ensures takes { Takes 2 self.old.left.now self.new.left.now result }
    {
        Some(self.u16()? as usize)
    }

    pub fn size(&mut self) -> Option<usize>
        ensures within { IfSome result (λ n. n < 2 ^ 32) }
        ensures takes { Takes 4 self.old.left.now self.new.left.now result }
    {
        Some(self.u32()? as usize)
    }

    // Bytes that stand elsewhere in the input, by their place and how many they are.
    pub fn elsewhere(&mut self) -> Option<&'a [u8]> {
        let place = self.size()?;
        let count = self.size()?;
        self.at(place)?.bytes(count)
    }
}

// Words, one behind the other.
pub fn words(alloc: Global, bytes: &[u8]) -> Result<Vec<u16>, AllocError> {
    let (words, _) = bytes.as_chunks::<2>();
    words.iter().map(|b| u16::from_le_bytes(*b)).collect(alloc)
}

// Numbers of eight bytes.
pub fn longs(alloc: Global, bytes: &[u8]) -> Result<Vec<u64>, AllocError> {
    let (longs, _) = bytes.as_chunks::<8>();
    longs.iter().map(|b| u64::from_le_bytes(*b)).collect(alloc)
}

// Figures, by their bits.
pub fn figures(alloc: Global, bytes: &[u8]) -> Result<Vec<f64>, AllocError> {
    let longs = longs(alloc, bytes)?;
    longs
        .iter()
        .map(|bits| figures::figure(*bits))
        .collect(alloc)
}

// The cases of an input: a count in two bytes, and so many cases behind it. Each is read, and then answered with its number. Where one is
// malformed, as it is read or, with None, as it is answered, the cases end.
pub fn cases<'a, W, C, R, A>(out: &mut W, input: &'a [u8], read: R, answer: A) -> io::Result<()>
where
    W: Write,
    R: Fn(&mut Cursor<'a>) -> Option<C>,
    A: Fn(&mut W, u16, C) -> io::Result<Option<()>>,
    requires reads { R.IsAlwaysCallable read }
    requires answers { A.IsAlwaysCallable answer }
{
    let mut input = Cursor::new(input);
    for k in 0..input.u16().unwrap_or(0) {
        let Some(case) = read(&mut input) else {
            return Ok(());
        };
        let Some(()) = answer(out, k, case)? else {
            return Ok(());
        };
    }
    Ok(())
}

// ---- writing

// The bits of a figure; those of a NaN all ones.
pub fn bits_of(x: f64) -> u64 {
    if x.is_nan() { u64::MAX } else { x.to_bits() }
}

// A figure that is written by them, in hexadecimal digits.
#[derive(Clone, Copy)]
pub struct Bits(pub f64);

impl fmt::Display for Bits {
    fn fmt<W: fmt::Write>(&self, f: &mut fmt::Formatter<W>) -> fmt::Result {
        let bits = bits_of(self.0);
        write!(f, "{bits:016x}")
    }
}

// Bytes in hexadecimal digits.
pub fn hex(out: &mut impl Write, bytes: &[u8]) -> io::Result<()> {
    for b in bytes {
        write!(out, "{b:02x}")?;
    }
    Ok(())
}

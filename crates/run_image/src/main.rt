// A program of the gate: it builds the images that its input describes and writes what the check and the tidy question
// answer of each, and where the table is wrong. Input and output come from tools/reference/borders.py, which says what
// the bytes mean. It stops at input that is malformed. It uses codes, image, tidy, fault, numbers and lines.
#![tactic(auto)]

use fault::Fault;
use lines::Cursor;
use std::alloc::Global;
use std::io;
use std::io::Write;

// The largest image of the input.
const LARGEST: usize = 65600;

// A body that is written at a place of an image, so many times, a stride apart.
#[derive(Clone, Copy)]
struct Patch<'a> {
    place: usize,
    times: u16,
    stride: usize,
    body: &'a [u8],
}

// Bytes, at a place. None where the image has no room for them.
fn write_at(image: &mut [u8], place: usize, bytes: &[u8]) -> Option<()> {
    let room = image.len().checked_sub(bytes.len())?;
    if room < place {
        return None;
    }
    for k in 0..bytes.len() {
        image[place + k] = bytes[k];
    }
    Some(())
}

impl<'a> Patch<'a> {
    fn read(input: &mut Cursor<'a>) -> Option<Self> {
        let place = input.size()?;
        let size = input.small().filter(|n| 1 <= *n && *n <= 64)?;
        let times = input.u16()?;
        let stride = input.size()?;
        let body = input.bytes(size)?;
        Some(Patch {
            place,
            times,
            stride,
            body,
        })
    }

    // None where the image has no room for it.
    fn put(self, image: &mut [u8]) -> Option<()> {
        let mut place = self.place;
        for _ in 0..self.times {
            write_at(image, place, self.body)?;
            place = place.checked_add(self.stride)?;
        }
        Some(())
    }
}

// An image of so many noughts with so many patches, which stand where they are read.
#[derive(Clone, Copy)]
struct Case<'a> {
    length: usize,
    count: u16,
    patches: Cursor<'a>,
}

impl<'a> Case<'a> {
    fn read(input: &mut Cursor<'a>) -> Option<Self> {
        let length = input.size().filter(|n| *n <= LARGEST)?;
        let count = input.u16()?;
        let patches = *input;
        for _ in 0..count {
            Patch::read(input)?;
        }
        Some(Case {
            length,
            count,
            patches,
        })
    }

    fn put(self, image: &mut [u8]) -> Option<()> {
        let mut patches = self.patches;
        for _ in 0..self.count {
            Patch::read(&mut patches)?.put(image)?;
        }
        Some(())
    }
}

// The line of a case whose patches have room: what the check answers; 0 or 1 of the tidy question, or 100 and the refusal; and the place of the
// refusal, with a record's table and index.
fn answer(alloc: Global, out: &mut impl Write, k: u16, case: Case<'_>) -> io::Result<Option<()>> {
    let mut image = vec![in alloc; 0; case.length]?;
    let Some(()) = case.put(&mut image) else {
        return Ok(None);
    };
    let check = numbers::refusal_number(image::check(&image));
    let tidy = match tidy::is_tidy(&image) {
        Ok(tidy) => tidy as u16,
        Err(r) => 100 + u8::from(r) as u16,
    };
    let fault = fault::fault_of(&image).fault;
    write!(
        out,
        "{k} check {check} tidy {tidy} fault {}",
        fault::fault_number(fault)
    )?;
    if let Some(Fault::InRecord(table, index)) = fault {
        write!(out, " {table} {index}")?;
    }
    writeln!(out).map(Some)
}

fn main(rt: HostRuntime) -> io::Result<()> {
    let alloc = rt.alloc();
    let input = lines::input(&rt, 524288)?;
    let mut out = lines::output(&rt)?;
    lines::cases(
        &mut out,
        &input,
        Case::read,
        |out, k, case| answer(alloc, out, k, case),
    )?;
    out.flush()
}

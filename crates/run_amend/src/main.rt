// A program of the gate: it amends the images that its input describes, and writes what the call answers and every byte that was lent, or two
// sums of them where they are many. Input and output come from tools/reference/amend.py, which says what the bytes mean. It stops at input that
// is malformed. It uses amend, told and lines.
#![tactic(auto)]

use lines::Cursor;
use std::alloc::Global;
use std::io;
use std::io::Write;

// The most bytes lent, and what they hold before.
const ROOM: usize = 65600;

const FILL: u8 = 0xa5;

#[derive(Clone, Copy)]
struct Case<'a> {
    day: u32,
    room: usize,
    image: &'a [u8],
    list: &'a [u8],
}

impl<'a> Case<'a> {
    fn read(input: &mut Cursor<'a>) -> Option<Self> {
        let day = input.u32()?;
        let room = input.size().filter(|n| *n <= ROOM)?;
        let image = input.elsewhere()?;
        let size = input.size()?;
        let list = input.bytes(size)?;
        Some(Case {
            day,
            room,
            image,
            list,
        })
    }
}

fn answer(alloc: Global, out: &mut impl Write, k: u16, case: Case<'_>) -> io::Result<()> {
    let mut lent = vec![in alloc; FILL; case.room]?;
    write!(out, "{k}")?;
    let a = amend::amend(case.image, case.list, case.day, &mut lent);
    told::told(out, a, &lent)
}

fn main(rt: HostRuntime) -> io::Result<()> {
    let alloc = rt.alloc();
    let input = lines::input(&rt, 524288)?;
    let mut out = lines::output(&rt)?;
    lines::cases(
        &mut out,
        &input,
        Case::read,
        |out, k, case| answer(alloc, out, k, case).map(Some),
    )?;
    out.flush()
}

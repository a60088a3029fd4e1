// A program of the gate: it asks for the totals of the runs that its input lists or makes, and writes what each call answers and every
// total that was lent. Input and output come from tools/reference/airtime.py, which says what the bytes mean. It stops at input that is
// malformed. It uses codes, airtime and lines.
#![tactic(auto)]

ghost use Rattle.std.specs.Prelude.{◌≤◌, IfSome};

use lines::Cursor;
use std::alloc::{AllocError, Global};
use std::io;
use std::io::Write;
use std::num::{NonZeroU64, NonZeroUsize};

// One record more than a run may have.
const ROOM: usize = 65537;

// What a total holds before the call.
const FILL: u64 = 0xa0a0_a0a0_a0a0_a0a0;

const FOLD: u64 = 4294967291;

// The runs of a case.
#[derive(Clone, Copy)]
enum Runs<'a> {
    // The bytes of each.
    Listed {
        starts: &'a [u8],
        bands: &'a [u8],
        seconds: &'a [u8],
    },
    // So many of each, by a rule.
    Made {
        starts: usize,
        bands: usize,
        seconds: usize,
        rule: Rule,
    },
}

// Starts that go a step on behind so many records, modulo 2^64; so many bands, one after the other; and seconds that grow by a factor, modulo
// 65,536.
#[derive(Clone, Copy)]
struct Rule {
    first: u64,
    step: u64,
    alike: NonZeroU64,
    bands: NonZeroUsize,
    factor: u16,
}

impl Rule {
    fn read(input: &mut Cursor<'_>) -> Option<Self> {
        Some(Rule {
            first: input.u64()?,
            step: input.u64()?,
            alike: NonZeroU64::new(u64::from(input.u32()?))?,
            bands: NonZeroUsize::new(input.small().filter(|n| *n <= 256)?)?,
            factor: input.u16()?,
        })
    }

    fn fill(self, starts: &mut [u64], bands: &mut [u8], seconds: &mut [u16]) {
        for (i, x) in starts.iter_mut().enumerate() {
            let turn = i as u64 / self.alike;
            *x = self.first.wrapping_add(self.step.wrapping_mul(turn));
        }
        for (i, x) in bands.iter_mut().enumerate() {
            *x = (i % self.bands & 0xff) as u8;
        }
        for (i, x) in seconds.iter_mut().enumerate() {
            *x = ((i as u64).wrapping_mul(u64::from(self.factor)) & 0xffff) as u16;
        }
    }
}

// How long a run is.
fn length(input: &mut Cursor<'_>) -> Option<usize>
    ensures { IfSome result (λ n. n ≤ 65537) }
{
    input.size().filter(|n| *n <= ROOM)
}

#[derive(Clone, Copy)]
struct Case<'a> {
    runs: Runs<'a>,
    lent: usize,
}

impl<'a> Case<'a> {
    fn read(input: &mut Cursor<'a>) -> Option<Self> {
        let form = input.u8()?;
        let starts = length(input)?;
        let bands = length(input)?;
        let seconds = length(input)?;
        let lent = length(input)?;
        let runs = match form {
            0 => Runs::Listed {
                starts: input.bytes(8 * starts)?,
                bands: input.bytes(bands)?,
                seconds: input.bytes(2 * seconds)?,
            },
            _ => Runs::Made {
                starts,
                bands,
                seconds,
                rule: Rule::read(input)?,
            },
        };
        Some(Case { runs, lent })
    }
}

// The call, on runs and totals that are there.
fn called(
    out: &mut impl Write,
    k: u16,
    starts: &[u64],
    bands: &[u8],
    seconds: &[u16],
    totals: &mut [u64],
) -> io::Result<()> {
    match airtime::totals(starts, bands, seconds, totals) {
        Ok(n) => write!(out, "{k} refusal 0 totals {n}"),
        Err(r) => write!(out, "{k} refusal {} totals 0", u8::from(r)),
    }
}

// All totals in one number.
fn folded(totals: &[u64]) -> u64 {
    let mut h = 0;
    for t in totals {
        h = (h * 31 + *t % FOLD) % FOLD;
    }
    h
}

// Room for the runs that a rule makes and for the totals: made anew for each case, it would cost more than the call.
#[derive(Drop)]
struct Room {
    starts: Vec<u64>,
    bands: Vec<u8>,
    seconds: Vec<u16>,
    totals: Vec<u64>,
}

impl Room {
    fn new(alloc: Global) -> Result<Self, AllocError> {
        Ok(Room {
            starts: vec![in alloc; 0; ROOM]?,
            bands: vec![in alloc; 0; ROOM]?,
            seconds: vec![in alloc; 0; ROOM]?,
            totals: vec![in alloc; FILL; ROOM]?,
        })
    }

    // The line of a case: of listed runs each total, of those that are made all of them folded. None where there is no room, which no case asks for.
    fn answer(
        &mut self,
        alloc: Global,
        out: &mut impl Write,
        k: u16,
        case: Case<'_>,
    ) -> io::Result<Option<()>> {
        let Some((totals, _)) = self.totals.split_at_mut_checked(case.lent) else {
            return Ok(None);
        };
        totals.fill(FILL);
        match case.runs {
            Runs::Listed {
                starts,
                bands,
                seconds,
            } => {
                let starts = lines::longs(alloc, starts)?;
                let seconds = lines::words(alloc, seconds)?;
                called(out, k, &starts, bands, &seconds, totals)?;
                for t in totals.iter() {
                    write!(out, " {t}")?;
                }
            }
            Runs::Made {
                starts,
                bands,
                seconds,
                rule,
            } => {
                let Some((starts, _)) = self.starts.split_at_mut_checked(starts) else {
                    return Ok(None);
                };
                let Some((bands, _)) = self.bands.split_at_mut_checked(bands) else {
                    return Ok(None);
                };
                let Some((seconds, _)) = self.seconds.split_at_mut_checked(seconds) else {
                    return Ok(None);
                };
                rule.fill(starts, bands, seconds);
                called(out, k, starts, bands, seconds, totals)?;
                write!(out, " folded {}", folded(totals))?;
            }
        }
        writeln!(out).map(Some)
    }
}

// The cases of the input, in their order, by a loop of their own: `lines::cases` takes closures that change nothing, and the room is written. It is
// made once there is a case.
fn cases(alloc: Global, out: &mut impl Write, input: &[u8]) -> io::Result<()> {
    let mut input = Cursor::new(input);
    let count = input.u16().unwrap_or(0);
    let mut ahead = input;
    if count == 0 || Case::read(&mut ahead).is_none() {
        return Ok(());
    }
    let mut room = Room::new(alloc)?;
    for k in 0..count {
        let Some(case) = Case::read(&mut input) else {
            return Ok(());
        };
        let Some(()) = room.answer(alloc, out, k, case)? else {
            return Ok(());
        };
    }
    Ok(())
}

fn main(rt: HostRuntime) -> io::Result<()> {
    let alloc = rt.alloc();
    let input = lines::input(&rt, 16384)?;
    let mut out = lines::output(&rt)?;
    cases(alloc, &mut out, &input)?;
    out.flush()
}

// A program of the gate: it makes the calls that its input describes, of walks and swaps, and writes the answer and the state of each.
// Input and output come from tools/reference/walk.py, which says what the bytes mean. What is not in its input reads as nought. It uses codes,
// profile, occupancy, station, decision, numbers, ceiling, walk, walk_step, asked and lines.
#![tactic(auto)]

use lines::{Bits, Cursor};
use occupancy::Edges;
use station::StationRecord;
use std::alloc::Global;
use std::io;
use std::io::Write;
use walk::{WalkAnswer, WalkState};
use walk_step::StepAnswer;

// ---- the input

// The most figures of the rungs.
const FIGURES: usize = 1040;

// What is read where the input has no more. Eight bytes for each figure.
static NOUGHTS: [u8; 8320] = [0; 8320];

// A part of the input: so many bytes at a place, where they lie in it whole.
fn part<'a>(input: Cursor<'a>, place: usize, size: usize) -> Option<&'a [u8]> {
    input.at(place)?.bytes(size)
}

// The same, or noughts; None only where those are fewer.
fn part_or_noughts<'a>(input: Cursor<'a>, place: usize, size: usize) -> Option<&'a [u8]> {
    part(input, place, size).or(NOUGHTS.get(..size))
}

// An image: its length, and its bytes.
fn image<'a>(input: Cursor<'a>, place: usize) -> Option<&'a [u8]> {
    let mut image = input.at(place)?;
    let size = image.small()?;
    image.bytes(size)
}

// A call of the input.
#[derive(Clone, Copy)]
enum Call<'a> {
    First,
    Swap,
    Open,
    Step(Step<'a>),
}

// What is lent to a step, besides a state.
#[derive(Clone, Copy)]
struct Step<'a> {
    station: StationRecord,
    direction: u8,
    ordinary: Edges,
    floor: Edges,
    image_0: &'a [u8],
    image_1: &'a [u8],
    rungs: &'a [u8],
    floors: &'a [u8],
}

// A call, and the state that it is given: its own, or that of the call before.
#[derive(Clone, Copy)]
struct Case<'a> {
    own: Option<WalkState>,
    call: Call<'a>,
}

fn state(input: Cursor<'_>, place: usize) -> Option<WalkState> {
    let mut state = Cursor::new(part_or_noughts(input, place, 39)?);
    Some(WalkState {
        occupied: asked::edges(&mut state)?,
        place: state.u32()?,
        image: state.u8()?,
        waiting: state.u8()?,
        walking: state.u8()?,
    })
}

impl<'a> Step<'a> {
    // From the places of its parts. The lent one has two edges, and where the figures of the rungs and the floor bytes begin and how many they
    // are; more figures than there may be are none.
    fn read(input: Cursor<'a>, places: &mut Cursor<'_>) -> Option<Self> {
        let mut station = Cursor::new(part_or_noughts(input, places.small()?, 41)?);
        let mut lent = Cursor::new(part_or_noughts(input, places.small()?, 72)?);
        let (station, own) = asked::record::<1>(&mut station)?;
        let ordinary = asked::edges(&mut lent)?;
        let floor = asked::edges(&mut lent)?;
        let rungs_at = lent.small()?;
        let count = lent.small()?;
        let rungs = if FIGURES < count { 0 } else { count };
        let floors_at = lent.small()?;
        let floors = lent.small()?;
        Some(Step {
            station,
            direction: own[0],
            ordinary,
            floor,
            image_0: image(input, places.small()?).unwrap_or(&[]),
            image_1: image(input, places.small()?).unwrap_or(&[]),
            rungs: part_or_noughts(input, rungs_at, 8 * rungs)?,
            floors: part(input, floors_at, floors).unwrap_or(&[]),
        })
    }
}

impl<'a> Case<'a> {
    fn read(input: &mut Cursor<'a>) -> Option<Self> {
        let mut case = Cursor::new(input.bytes(12).or(NOUGHTS.get(..12))?);
        let call = case.u8()?;
        let given = case.u8()?;
        let place = case.small()?;
        let own = if given == 0 {
            None
        } else {
            Some(state(*input, place)?)
        };
        let call = match call {
            0 => Call::First,
            1 => Call::Swap,
            2 => Call::Open,
            _ => Call::Step(Step::read(*input, &mut case)?),
        };
        Some(Case { own, call })
    }
}

// ---- the output

fn state_shown(out: &mut impl Write, w: WalkState) -> io::Result<()> {
    let power = w.occupied.power;
    let spectral = w.occupied.spectral;
    write!(
        out,
        " state {} {} {} {}",
        w.place, w.image, w.waiting, w.walking
    )?;
    write!(out, " {} {}", Bits(power.low_hz), Bits(power.high_hz))?;
    writeln!(out, " {} {}", Bits(spectral.low_hz), Bits(spectral.high_hz))
}

fn answer_shown(out: &mut impl Write, name: &str, a: WalkAnswer) -> io::Result<WalkState> {
    write!(
        out,
        " {name} refusal {}",
        numbers::refusal_number(a.refusal)
    )?;
    state_shown(out, a.state)?;
    Ok(a.state)
}

fn step_shown(out: &mut impl Write, a: StepAnswer) -> io::Result<WalkState> {
    let c = a.ceiling;
    write!(out, " step refusal {}", numbers::refusal_number(c.refusal))?;
    match c.rung {
        Some(k) => write!(out, " rung {k}")?,
        None => write!(out, " rung -")?,
    }
    match c.limit {
        Some(d) => write!(out, " limit {}", numbers::code_number(d.code))?,
        None => write!(out, " limit -")?,
    }
    write!(out, " over {}", a.over as u8)?;
    state_shown(out, a.state)?;
    Ok(a.state)
}

// ---- the calls

// A call in a state: its line, and the state after it.
fn called(
    alloc: Global,
    out: &mut impl Write,
    w: WalkState,
    call: Call<'_>,
) -> io::Result<WalkState> {
    match call {
        Call::First => {
            let w = walk::first();
            write!(out, " first")?;
            state_shown(out, w)?;
            Ok(w)
        }
        Call::Swap => answer_shown(out, "swap", walk::swap(w)),
        Call::Open => answer_shown(out, "open", walk::open_walk(w)),
        Call::Step(s) => {
            let rungs = lines::figures(alloc, s.rungs)?;
            let a = walk_step::step(
                w,
                s.station,
                s.direction,
                s.ordinary,
                s.floor,
                s.image_0,
                s.image_1,
                &rungs,
                s.floors,
            );
            step_shown(out, a)
        }
    }
}

// The calls of the input, in their order. Each is given the state of the one before.
fn calls(alloc: Global, out: &mut impl Write, input: &[u8]) -> io::Result<()> {
    let mut input = Cursor::new(input);
    let mut w = walk::first();
    for k in 0..input.u16().unwrap_or(0) {
        let Some(case) = Case::read(&mut input) else {
            return Ok(());
        };
        write!(out, "{k}")?;
        w = called(alloc, out, case.own.unwrap_or(w), case.call)?;
    }
    Ok(())
}

fn main(rt: HostRuntime) -> io::Result<()> {
    let alloc = rt.alloc();
    let input = lines::input(&rt, 65536)?;
    let mut out = lines::output(&rt)?;
    calls(alloc, &mut out, &input)?;
    out.flush()
}

// The numbers of an answer's cases, as the boundary hands them out. It uses codes and decision.
#![tactic(auto)]

ghost use Rattle.std.specs.Prelude.{◌≡◌};
ghost use Rattle.decision.specs.Number.{verdict_number, code_number, edge_number, overshoot_number, guidance_number};
ghost use Rattle.numbers.specs.Refusal.{refusal_number};

use codes::Checked;
use decision::{Code, Edge, Guidance, Overshoot, Verdict};

// 0 where nothing is refused.
pub fn refusal_number(c: Checked) -> u8
    ensures { result ≡ refusal_number c }
{
    match c {
        Ok(()) => 0,
        Err(n) => n.into(),
    }
}

pub fn verdict_number(v: Verdict) -> u8
    ensures { result ≡ verdict_number v }
{
    v.into()
}

// 0 where there is none: a refusal.
pub fn code_number(c: Option<Code>) -> u8
    ensures { result ≡ code_number c }
{
    c.map_or(0, u8::from)
}

pub fn edge_number(e: Edge) -> u8
    ensures { result ≡ edge_number e }
{
    e.into()
}

// Of a case that holds values, and of none: by a match, which no derive gives.
pub fn overshoot_number(o: Option<Overshoot>) -> u8
    ensures { result ≡ overshoot_number o }
{
    match o {
        Some(Overshoot::Beyond(_, _)) => 1,
        Some(Overshoot::TooClose(_)) => 2,
        None => 0,
    }
}

pub fn guidance_number(g: Option<Guidance>) -> u8
    ensures { result ≡ guidance_number g }
{
    match g {
        Some(Guidance::Avoid(_)) => 1,
        Some(Guidance::Inside(_)) => 2,
        Some(Guidance::Outside) => 3,
        None => 0,
    }
}

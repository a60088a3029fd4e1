// A program of the gate: it asks for the number texts that its input describes, and writes what each call answers and every byte that
// was lent. Input and output come from tools/reference/texts.py, which says what the bytes mean. It stops at input that is malformed.
// It uses flat_answers, pamuklid and lines.
#![tactic(auto)]

use flat_answers::FlatText;
use lines::Cursor;
use std::alloc::Global;
use std::io;
use std::io::Write;

// The most bytes lent, and what they hold before.
const ROOM: u8 = 24;

const FILL: u8 = 0xa5;

// One of the three texts of a figure.
#[derive(Clone, Copy)]
enum Text {
    At,
    Khz,
    Hertz,
}

impl From<u8> for Text {
    fn from(n: u8) -> Text {
        match n {
            0 => Text::At,
            1 => Text::Khz,
            _ => Text::Hertz,
        }
    }
}

#[derive(Clone, Copy)]
struct Case {
    text: Text,
    lent: u8,
    hz: f64,
}

impl Case {
    fn read(input: &mut Cursor<'_>) -> Option<Self> {
        Some(Case {
            text: input.u8()?.into(),
            lent: input.u8().filter(|n| *n <= ROOM)?,
            hz: input.f64()?,
        })
    }

    fn ask(self, out: &mut [u8]) -> FlatText {
        match self.text {
            Text::At => pamuklid::pamuklid_text_at(self.hz, out),
            Text::Khz => pamuklid::pamuklid_text_khz(self.hz, out),
            Text::Hertz => pamuklid::pamuklid_text_hertz(self.hz, out),
        }
    }
}

// The line of a case: the answer, the text, and the lent bytes past it.
fn answer(alloc: Global, out: &mut impl Write, k: u16, case: Case) -> io::Result<()> {
    let mut lent = vec![in alloc; FILL; case.lent as usize]?;
    let answer = case.ask(&mut lent);
    let length = answer.length;
    write!(out, "{k} refusal {} length {length}", answer.refusal)?;
    let Some((text, rest)) = lent.split_at_checked(length as usize) else {
        return writeln!(out, " longer than the bytes lent");
    };
    write!(out, " [")?;
    out.write_all(text)?;
    write!(out, "]")?;
    lines::hex(out, rest)?;
    writeln!(out)
}

fn main(rt: HostRuntime) -> io::Result<()> {
    let alloc = rt.alloc();
    let input = lines::input(&rt, 8192)?;
    let mut out = lines::output(&rt)?;
    lines::cases(
        &mut out,
        &input,
        Case::read,
        |out, k, case| answer(alloc, out, k, case).map(Some),
    )?;
    out.flush()
}

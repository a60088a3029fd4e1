// The small functions of the Rust's mod.rs: the range on the air, the guarded range and the dial range.
// Each operation rounds once, in the Rust's order. It uses codes and profile.
#![tactic(auto)]

ghost use Rattle.std.specs.Prelude.{◌≡◌};
ghost use Rattle.air.specs.Air.{rf_range_of, guarded_of, unguarded_of, width_of, dial_ends_of, dial_range_of};

use codes::Sideband;
use profile::Range;

// What a range on the air is widened by, hertz: below it and above it. Either may be negative.
#[derive(Clone, Copy)]
pub struct Margins {
    pub lower_hz: f64,
    pub upper_hz: f64,
}

// The range on the air that an audio range covers on a dial and a sideband.
pub fn rf_range(dial_hz: f64, sideband: Sideband, audio: Range) -> Range
    ensures { result ≡ rf_range_of dial_hz sideband audio }
{
    match sideband {
        Sideband::Usb => Range {
            low_hz: dial_hz + audio.low_hz,
            high_hz: dial_hz + audio.high_hz,
        },
        Sideband::Lsb => Range {
            low_hz: dial_hz - audio.high_hz,
            high_hz: dial_hz - audio.low_hz,
        },
    }
}

// A range widened by the margins, each on its side: what has to fit.
pub fn guarded(margin: Margins, r: Range) -> Range
    ensures { result ≡ guarded_of margin r }
{
    Range {
        low_hz: r.low_hz - margin.lower_hz,
        high_hz: r.high_hz + margin.upper_hz,
    }
}

// A guarded range with the margins taken off again.
pub fn unguarded(margin: Margins, r: Range) -> Range
    ensures { result ≡ unguarded_of margin r }
{
    Range {
        low_hz: r.low_hz + margin.lower_hz,
        high_hz: r.high_hz - margin.upper_hz,
    }
}

// The occupied width.
pub fn width(audio: Range) -> f64
    ensures { result ≡ width_of audio }
{
    audio.high_hz - audio.low_hz
}

// The lowest and the highest dial for a piece, in whatever order they stand.
pub fn dial_ends(piece: Range, sideband: Sideband, audio: Range, margin: Margins) -> Range
    ensures { result ≡ dial_ends_of piece sideband audio margin }
{
    match sideband {
        Sideband::Usb => Range {
            low_hz: piece.low_hz - audio.low_hz + margin.lower_hz,
            high_hz: piece.high_hz - audio.high_hz - margin.upper_hz,
        },
        Sideband::Lsb => Range {
            low_hz: piece.low_hz + audio.high_hz + margin.lower_hz,
            high_hz: piece.high_hz + audio.low_hz - margin.upper_hz,
        },
    }
}

// The dial range that puts an audio range inside a piece with each margin to spare on its side, if any does.
pub fn dial_range(piece: Range, sideband: Sideband, audio: Range, margin: Margins) -> Option<Range>
    ensures { result ≡ dial_range_of piece sideband audio margin }
{
    let ends = dial_ends(piece, sideband, audio, margin);
    (ends.low_hz <= ends.high_hz).then_some(ends)
}

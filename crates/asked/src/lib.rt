// What a case of a program of the gate asks of a station and a signal, as it stands in its input: a station record with bytes of the case's own
// in it, and edges. It uses profile, occupancy, air, station and lines.
#![tactic(auto)]

ghost use Rattle.std.specs.Prelude.{◌+◌};
ghost use Rattle.lines.specs.Left.{Reads};

use air::Margins;
use lines::Cursor;
use occupancy::Edges;
use profile::Range;
use station::StationRecord;

// Eight bytes, those that are the case's own, and four figures.
pub fn record<const OWN: usize>(input: &mut Cursor<'_>) -> Option<(StationRecord, [u8; OWN])>
    ensures { Reads (40 + OWN) input.old.left.now input.new.left.now result }
{
    let codes = input.array::<8>()?;
    let own = input.array()?;
    let margin = Margins {
        lower_hz: input.f64()?,
        upper_hz: input.f64()?,
    };
    let record = StationRecord {
        policy: codes[0],
        control: codes[1],
        license: codes[2],
        sideband: codes[3],
        itu_region: codes[4],
        band_plan: codes[5],
        dial_known: codes[6],
        power_known: codes[7],
        margin,
        dial_hz: input.f64()?,
        power_w: input.f64()?,
    };
    Some((record, own))
}

fn range(input: &mut Cursor<'_>) -> Option<Range>
    ensures { Reads 16 input.old.left.now input.new.left.now result }
{
    Some(Range {
        low_hz: input.f64()?,
        high_hz: input.f64()?,
    })
}

// Four figures.
pub fn edges(input: &mut Cursor<'_>) -> Option<Edges>
    ensures { Reads 32 input.old.left.now input.new.left.now result }
{
    Some(Edges {
        power: range(input)?,
        spectral: range(input)?,
    })
}

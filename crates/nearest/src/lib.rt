// Where to move the dial to: the dial nearest to the present one at which data is allowed. A public call. It uses codes, profile, occupancy,
// air, station, layout, whole, table, transmission, tidy, entry, verdict, dial_rows, dials, distance and on_grid; its definitions use
// nearest_rows and demand_3.
#![tactic(auto)]

ghost use Rattle.std.specs.Prelude.{◌≡◌, true};
ghost use Rattle.codes.specs.declared.Policy.TheVariants.{Rules};
ghost use Rattle.layout.specs.Layout.{general_of};
ghost use Rattle.table.specs.Table.{table_of};
ghost use Rattle.dial_rows.specs.Dials.{rows_of};
ghost use Rattle.demand_3.specs.Words.{positive_width, unrefused};
ghost use Rattle.nearest.specs.Nearest.{answer_of, nearest_in, nearest_of};
ghost use Rattle.nearest_rows.specs.Over.{nearest_over};
ghost use Rattle.nearest.specs.Laws.{premises_of, known_nearest};

use codes::{ControlMode, Direction, LicenseClass, Policy, Refusal, Sideband};
use dial_rows::{PlacedSearch, Request};
use distance::Here;
use occupancy::Edges;
use profile::Range;
use station::{Situation, StationRecord};
use transmission::Call;
use whole::Image;

// The dial to move to, that no dial would be allowed, or that a premise fails: three answers, and no Option.
#[derive(Clone, Copy)]
pub enum Nearest {
    Dial(f64),
    NoneAllowed,
    NotJudged,
}

// Whether the guarded width is positive.
#[tactic(auto, unfolding(demand_3::specs::Words::positive_width, demand_3::specs::Words::guarded_width))]
fn positive_width(s: Situation, audio: Range) -> bool
    ensures { result ≡ positive_width s audio }
{
    0.0 < air::width(audio) + (s.margin.lower_hz + s.margin.upper_hz)
}

// The premises that are left where Rules are in force and the prerequisites met.
#[tactic(auto, unfolding(crate::specs::Laws::premises_of))]
fn premises_met(image: &Image, s: Situation, e: Edges, dial_hz: f64, audio: Range) -> bool
    ensures { result ≡ premises_of (table_of image.now) s e dial_hz audio }
{
    on_grid::figure_met(dial_hz)
        && (on_grid::margins_met(s.margin)
            && (on_grid::edges_met(e)
                && (positive_width(s, audio)
                    && (on_grid::figures_met(image) && tidy::tidy_table(image)))))
}

fn answer_of(best: Option<f64>) -> Nearest
    ensures { result ≡ answer_of best }
{
    match best {
        Some(x) => Nearest::Dial(x),
        None => Nearest::NoneAllowed,
    }
}

// The nearest of the rows that a request is given, by the list's own search, with no bytes to keep a row in. Those of the channels are not
// searched: none lies outside the channel band.
fn nearest_for(image: &Image, q: Request, dial_hz: f64) -> Nearest
    ensures { result ≡ answer_of (nearest_over dial_hz (general_of image.now).flags (general_of image.now).channel_band None
        (rows_of (table_of image.now) q)) }
{
    let h = Here {
        dial_hz,
        flags: image.general.flags,
        channel_band: image.general.channel_band,
    };
    let mut none = [0u8; 1];
    answer_of(dials::data_rows(&PlacedSearch::of(image, q, None), &mut none, h).best)
}

// With the prerequisites met.
#[tactic(auto, unfolding(crate::specs::Laws::known_nearest))]
fn nearest_known(
    image: &Image,
    s: Situation,
    direction: Direction,
    e: Edges,
    sideband: Sideband,
    license: LicenseClass,
    control: ControlMode,
    dial_hz: f64,
) -> Nearest
    ensures { result ≡ known_nearest (table_of image.now) s direction e sideband license control dial_hz }
{
    let audio = e.range(table::reading_of(image.general));
    if premises_met(image, s, e, dial_hz, audio) {
        let q = dial_rows::request_of(
            image.general,
            license,
            sideband,
            control,
            direction,
            s.margin,
            audio,
        );
        nearest_for(image, q, dial_hz)
    } else {
        Nearest::NotJudged
    }
}

// For a station and edges as they are read, under Rules.
#[tactic(auto, using(crate::proofs::Premises::no_region, crate::proofs::Premises::no_control, crate::proofs::Premises::no_license, crate::proofs::Premises::no_sideband, crate::proofs::Premises::no_dial))]
fn nearest_in(image: &Image, s: Situation, direction: Direction, e: Edges) -> Nearest
    requires { ((s.policy ≡ Rules) × (unrefused (table_of image.now) ≡ true)) }
    ensures { result ≡ nearest_in (table_of image.now) s direction e }
{
    if s.itu_region != image.general.region {
        return Nearest::NotJudged;
    }
    let (Some(control), Some(license), Some(sideband), Some(dial_hz)) = (
        s.control, s.license, s.sideband, s.dial,
    ) else {
        return Nearest::NotJudged;
    };
    nearest_known(image, s, direction, e, sideband, license, control, dial_hz)
}

// The dial nearest to the present one at which data is allowed, outside the channel band.
pub fn nearest_dial(
    r: StationRecord,
    direction: u8,
    e: Edges,
    image: &[u8],
) -> Result<Nearest, Refusal>
    ensures { result ≡ nearest_of r direction e image.now }
{
    let call = Call {
        record: r,
        kind: 0,
        direction,
        edges: e,
        image,
    };
    verdict::evaluate_refusals(&call)?;
    let s = station::situation_of(r);
    if s.policy != Policy::Rules {
        return Ok(Nearest::NotJudged);
    }
    Ok(nearest_in(
        &Image::of(image),
        s,
        Direction::from(direction),
        entry::edges_read(e),
    ))
}

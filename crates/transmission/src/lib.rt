// A transmission that is to be judged: whose, and what is sent; and as it arrives. It uses codes, occupancy, station, layout and whole.
#![tactic(auto)]

ghost use Rattle.std.specs.Prelude.{◌≡◌, Some};
ghost use Rattle.std.proofs.Props.{props};
ghost use Rattle.codes.specs.declared.Policy.TheVariants.{Rules};
ghost use Rattle.layout.specs.Form.{Whole};

use codes::{Direction, EmissionKind, Policy};
use occupancy::Edges;
use station::{Situation, StationRecord};
use whole::Image;

// A call for a verdict, as it arrives.
#[derive(Clone, Copy)]
pub struct Call<'a> {
    pub record: StationRecord,
    pub kind: u8,
    pub direction: u8,
    pub edges: Edges,
    pub image: &'a [u8],
}

// A station, with what it is lent for an image. Under Rules that is an accepted one, and is read here, once for all that is judged by it.
#[derive(Drop)]
pub struct Station<'a> {
    pub situation: Situation,
    pub lent: &'a [u8],
    pub image: Option<Image<'a>>,
    pub ghost accepted: { situation.policy ≡ Rules → image ≡ Some lent.now } by { Prim.hlevel props },
}

impl<'a> Station<'a> {
    pub fn of(situation: Situation, lent: &'a [u8]) -> Self
        requires { situation.policy ≡ Rules → Whole lent.now }
        ensures reads { result.situation ≡ situation }
        ensures lends { result.lent.now ≡ lent.now }
    {
        let image = match situation.policy {
            Policy::Rules => Some(Image::of(lent)),
            Policy::Unset | Policy::NoProfile | Policy::Broken => None,
        };
        Station {
            situation,
            lent,
            image,
        }
    }

    // The image in force.
    pub fn in_force(&self) -> &Image<'a>
        requires { self.now.situation.policy ≡ Rules }
        ensures { result.now ≡ self.now.lent.now }
    {
        match &self.image {
            Some(image) => image,
            None => unreachable!(),
        }
    }
}

// What a station sends: the dial, where it is known, the kind and the direction, and the edges of the signal.
#[derive(Clone, Copy)]
pub struct Transmission<'a> {
    pub station: &'a Station<'a>,
    pub dial: Option<f64>,
    pub kind: EmissionKind,
    pub direction: Direction,
    pub edges: Edges,
}

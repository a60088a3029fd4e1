// 97.221, automatically controlled digital stations, as far as verdict, ceiling and dial list share it. It uses codes and
// table.
#![tactic(auto)]

ghost use Rattle.std.specs.Prelude.{◌≡◌};
ghost use Rattle.automatic_97_221.specs.Automatic.{responds, applies_of, elsewhere_allows};

use codes::{ControlMode, Direction};
use table::Elsewhere;

// Whether a transmission answers interrogation by a station under local or remote control (97.221(c)(1)).
pub fn responding(direction: Direction) -> bool
    ensures { result ≡ responds direction }
{
    direction == Direction::Respond
}

// Whether 97.221 applies: an automatically controlled station, not an operator's test.
pub fn applies(control: ControlMode, direction: Direction) -> bool
    ensures { result ≡ applies_of control direction }
{
    control == ControlMode::Automatic && direction != Direction::Operator
}

// Whether 97.221(c) allows a width outside the segments of 97.221(b).
pub fn elsewhere_allows(rule: Option<Elsewhere>, width: f64, direction: Direction) -> bool
    ensures { result ≡ elsewhere_allows rule width direction }
{
    rule.is_some_and(|e| width <= e.max_bandwidth_hz
        && (responding(direction) || !e.requires_response))
}

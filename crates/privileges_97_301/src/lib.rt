// The operator's privileges (97.301, 97.307(f)(9)): what the first privilege of the class that holds a signal says of an
// emission, and whether one holds a range. It uses codes, profile, layout, whole, table, find and part97.
#![tactic(auto)]

ghost use Rattle.std.specs.Prelude.{◌≡◌};
ghost use Rattle.table.specs.Table.{table_of};
ghost use Rattle.part97.specs.Part97.{privileged_of, some_privilege};

use codes::EmissionKind;
use find::Question;
use part97::{Case, Privileged};
use profile::Range;
use whole::Image;

// Whether some privilege of the operator's class holds a range, whatever emissions it allows.
pub fn some_privilege(s: &Image, c: Case, r: Range) -> bool
    ensures { result ≡ some_privilege (table_of s.now) c r }
{
    find::some_in(
        s,
        layout::PRIVILEGES,
        Question::ClassHolds(c.class.into(), r),
    )
}

// What the first privilege of the operator's class that holds the guarded range says of an emission.
#[tactic(auto, unfolding(part97::specs::Part97::privileged_of, find::specs::Question::pick_in))]
pub fn privileged(s: &Image, c: Case, kind: EmissionKind) -> Privileged
    ensures { result ≡ privileged_of (table_of s.now) c kind }
{
    match find::pick_class(s, layout::PRIVILEGES, c.class.into(), c.guarded) {
        Some((_, held)) => {
            if profile::allows(table::privilege_of(held).emissions, kind) {
                Privileged::Granted
            } else {
                Privileged::Forbidden
            }
        }
        None => Privileged::Unheld,
    }
}

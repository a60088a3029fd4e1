// Data from an automatically controlled station (97.221). It uses codes, profile, layout, whole, table, find, decision,
// part97, findings and automatic_97_221.
#![tactic(auto)]

ghost use Rattle.std.specs.Prelude.{◌≡◌, ◌&&◌, not};
ghost use Rattle.table.specs.Table.{Table, table_of};
ghost use Rattle.automatic_97_221.specs.Automatic.{responds};
ghost use Rattle.part97.specs.Part97.{draft_inside, automatic_elsewhere, automatic_data};
ghost use Rattle.part97.specs.Finding.{lawful_in, concluded};

use codes::Direction;
use decision::Code;
use findings::Place;
use layout::General;
use part97::{Case, Finding};
use profile::Range;
use table::Elsewhere;
use whole::Image;

// Whether a transmission would have to answer interrogation, and doesn't.
fn must_respond(e: Elsewhere, direction: Direction) -> bool
    ensures { result ≡ (e.requires_response && not (responds direction)) }
{
    e.requires_response && !automatic_97_221::responding(direction)
}

// Lawful; the advice goes by the guarded range with the margin taken off again.
fn lawful(c: Case, p: Place, inside: Option<Range>, code: Option<Code>, rule: u16) -> Finding
    ensures { result ≡ lawful_in p.band p.segment p.own inside c.advised code rule }
{
    findings::lawful_in(p, inside, c.advised, code, rule)
}

// Outside the segments for automatic control (97.221(c)).
#[tactic(auto, using(part97::specs::Finding::in_segment_holds, part97::specs::Finding::lawful_in_holds), unfolding(part97::specs::Part97::automatic_elsewhere))]
fn automatic_elsewhere(g: General, c: Case, p: Place, rule: Option<Elsewhere>) -> Finding
    ensures { (table : Table) → g ≡ table.general → concluded table c result ≡ automatic_elsewhere table c (draft_inside c p.band p.segment p.own) rule }
{
    let Some(e) = rule else {
        return findings::in_segment(p, Some(Code::AutomaticOutside), g.automatic_rule);
    };
    if e.max_bandwidth_hz < c.width {
        findings::in_segment(p, Some(Code::AutomaticBandwidth), e.rule)
    } else if must_respond(e, c.direction) {
        findings::in_segment(p, Some(Code::AutomaticOriginate), e.rule)
    } else {
        lawful(c, p, None, Some(Code::AutomaticResponse), e.rule)
    }
}

// Inside a segment for automatic control (97.221(b)), or else by (c).
#[tactic(auto, using(part97::specs::Finding::lawful_automatic), unfolding(part97::specs::Part97::automatic_data, find::specs::Question::pick_in))]
pub fn automatic_data(s: &Image, c: Case, p: Place) -> Finding
    ensures { concluded (table_of s.now) c result ≡ automatic_data (table_of s.now) c p.band p.segment p.own }
{
    match find::pick_holding(s, layout::AUTOMATIC, c.guarded) {
        Some((_, r)) => {
            lawful(
                c,
                p,
                Some(table::span_of(r)),
                Some(Code::AutomaticSegment),
                s.general.automatic_rule,
            )
        }
        None => automatic_elsewhere(s.general, c, p, table::elsewhere_of(s.general)),
    }
}

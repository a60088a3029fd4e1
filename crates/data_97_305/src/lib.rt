// Data off 60 m: inside a data segment (97.305(c)), no wider than its limit (97.307(f)), under the operator's privileges
// (97.301) and, for automatic control, 97.221. It uses codes, profile, layout, whole, table, find, decision, part97, findings,
// privileges_97_301, automatic_data_97_221 and overshoot_97_305.
#![tactic(auto)]

ghost use Rattle.std.specs.Prelude.{◌≡◌};
ghost use Rattle.layout.specs.Layout.{segments};
ghost use Rattle.table.specs.Table.{table_of};
ghost use Rattle.find.specs.Question.{first_in};
ghost use Rattle.find.specs.declared.Question.TheVariants.{Holds};
ghost use Rattle.part97.specs.Part97.{outside_segments, inside_segment, judge_data};
ghost use Rattle.part97.specs.Finding.{concluded};

use codes::EmissionKind;
use decision::{Code, Verdict};
use findings::Place;
use part97::{Case, Finding, Privileged};
use table::Segment;
use whole::Image;

// A data segment, as a place in the band that is judged.
fn place_of(band: u8, segment: Segment) -> Place
    ensures { result ≡ record { band = band; segment = segment.range; own = segment.rule } }
{
    Place {
        band,
        segment: segment.range,
        own: segment.rule,
    }
}

// No data segment holds the guarded signal: the nearest one says how far it lies outside.
#[tactic(auto, using(part97::specs::Laws::nearest_below, part97::specs::Finding::on_band_holds, part97::specs::Finding::beyond_segment_holds), unfolding(part97::specs::Part97::outside_segments))]
fn outside_segments(s: &Image, c: Case, band: u8) -> Finding
    ensures { concluded (table_of s.now) c result ≡ outside_segments (table_of s.now) c band }
{
    match overshoot_97_305::nearest_segment(s, c) {
        Some((i, _)) => {
            let segment = table::segment_of(table::record_of(s, layout::SEGMENTS, i));
            let overshoot = overshoot_97_305::overshoot_of(segment.range, c.air);
            findings::beyond_segment(place_of(band, segment), Some(overshoot))
        }
        None => {
            findings::on_band(
                Some(band),
                Verdict::Blocked,
                Some(Code::NoDataHere),
                decision::RULE_97_305C,
            )
        }
    }
}

// Inside a data segment: the operator's privileges, then automatic control.
#[tactic(auto, using(part97::specs::Finding::in_segment_holds, part97::specs::Finding::lawful_in_holds), unfolding(part97::specs::Part97::inside_segment))]
fn inside_segment(s: &Image, c: Case, band: u8, segment: Segment) -> Finding
    ensures { concluded (table_of s.now) c result ≡ inside_segment (table_of s.now) c band segment }
{
    let place = place_of(band, segment);
    match privileges_97_301::privileged(s, c, EmissionKind::Data) {
        Privileged::Granted => {
            if c.automatic {
                automatic_data_97_221::automatic_data(s, c, place)
            } else {
                findings::lawful_in(place, None, c.air, Some(Code::Permitted), segment.rule)
            }
        }
        Privileged::Forbidden => {
            findings::in_segment(place, Some(Code::Privilege), decision::RULE_97_307F9)
        }
        Privileged::Unheld => {
            findings::in_segment(place, Some(Code::Privilege), decision::RULE_97_301)
        }
    }
}

// By the first data segment that holds the guarded range; too wide comes before "no segment".
#[tactic(auto, using(part97::specs::Finding::on_band_holds), unfolding(part97::specs::Part97::judge_data, find::specs::Question::pick_in))]
pub fn judge_data(s: &Image, c: Case, band: u8) -> Finding
    ensures { concluded (table_of s.now) c result
        ≡ judge_data (table_of s.now) c band (first_in (table_of s.now) segments (Holds c.guarded)) }
{
    let general = table::data_of(s.general);
    let found = find::pick_holding(s, layout::SEGMENTS, c.guarded).map(|(_, r)| table::segment_of(
        r,
    ));
    let limit = match found {
        Some(segment) => profile::data_limit(segment.own, segment.second, general),
        None => general,
    };
    if limit.max_bandwidth_hz < c.width {
        return findings::on_band(
            Some(band),
            Verdict::Blocked,
            Some(Code::TooWide),
            limit.rule,
        );
    }
    match found {
        Some(segment) => inside_segment(s, c, band, segment),
        None => outside_segments(s, c, band),
    }
}

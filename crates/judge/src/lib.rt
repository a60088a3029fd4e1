// The judgement of a case under an accepted table: the band (97.301), bands closed to automatic control, 60 m, and the kind
// of emission; and the decision from what was found. It uses codes, layout, whole, table, find, decision, part97, findings, advice_97_313,
// data_97_305, other_97_305 and sixty_97_303.
#![tactic(auto)]

ghost use Rattle.std.specs.Prelude.{◌≡◌};
ghost use Rattle.table.specs.Table.{table_of};
ghost use Rattle.part97.specs.Part97.{off_sixty, judge_on_band, judge_in_band, touching, judge};
ghost use Rattle.part97.specs.Finding.{draft_at, concluded};

use codes::EmissionKind;
use decision::{Advice, Code, Decision, Draft, Verdict};
use find::Question;
use layout::General;
use part97::{Case, Finding};
use table::Channels;
use whole::Image;

// By the kind of emission, off 60 m.
fn off_sixty(s: &Image, c: Case, band: u8, kind: EmissionKind) -> Finding
    ensures { concluded (table_of s.now) c result ≡ off_sixty (table_of s.now) c band kind }
{
    match kind {
        EmissionKind::Data => data_97_305::judge_data(s, c, band),
        EmissionKind::Cw | EmissionKind::Test => other_97_305::judge_emitted(s, c, band, kind),
        EmissionKind::Nothing => other_97_305::judge_keyed(s, c, band),
    }
}

// On 60 m, the band that has the channels' number, or off it.
#[tactic(auto, unfolding(part97::specs::Part97::judge_on_band))]
fn judge_on_band(s: &Image, c: Case, band: u8, channels: Option<Channels>) -> Finding
    ensures { concluded (table_of s.now) c result ≡ judge_on_band (table_of s.now) c band channels }
{
    match channels {
        Some(ch) if ch.band == band => sixty_97_303::sixty(s, c, ch),
        _ => off_sixty(s, c, band, c.kind),
    }
}

// A band that is not closed to a station under automatic control is judged.
#[tactic(auto, using(part97::specs::Finding::on_band_holds), unfolding(part97::specs::Part97::judge_in_band, find::specs::Question::pick_in))]
fn judge_in_band(s: &Image, c: Case, band: u8) -> Finding
    ensures { concluded (table_of s.now) c result ≡ judge_in_band (table_of s.now) c band }
{
    if c.automatic
        && let Some((_, r)) = find::pick_in(s, layout::EXCLUDED, Question::OfBand(band))
    {
        return findings::on_band(
            Some(band),
            Verdict::Blocked,
            Some(Code::AutomaticExcluded),
            table::excluded_of(r).rule,
        );
    }
    judge_on_band(s, c, band, table::channels_of(s.general))
}

// The first band that the guarded range touches.
#[tactic(auto, unfolding(part97::specs::Part97::touching, find::specs::Question::pick_in))]
fn touching_band(s: &Image, c: Case) -> Option<u8>
    ensures { result ≡ touching (table_of s.now) c }
{
    find::pick_in(s, layout::BANDS, Question::Overlaps(c.guarded)).map(|(_, r)| r.band)
}

// By the first band that holds the guarded range.
#[tactic(auto, using(part97::specs::Finding::on_band_holds), unfolding(part97::specs::Part97::judge, find::specs::Question::pick_in))]
pub fn judge_case(s: &Image, c: Case) -> Finding
    ensures { concluded (table_of s.now) c result ≡ judge (table_of s.now) c }
{
    match find::pick_holding(s, layout::BANDS, c.guarded) {
        Some((_, r)) => judge_in_band(s, c, r.band),
        None => findings::on_band(
            touching_band(s, c),
            Verdict::Blocked,
            Some(Code::OutOfBand),
            decision::RULE_97_301,
        ),
    }
}

// The facts of a decision: the case's and the finding's.
#[tactic(auto, unfolding(part97::specs::Finding::draft_at))]
fn draft_at(c: Case, f: Finding) -> Draft
    ensures { result ≡ draft_at c f }
{
    Draft {
        audio: c.audio,
        width: c.width,
        air: Some(c.air),
        band: f.band,
        segment: f.segment,
        automatic_segment: f.automatic_segment,
    }
}

// The decision, with what the operator should know.
#[tactic(auto, unfolding(part97::specs::Finding::concluded, part97::specs::Finding::concluded_over))]
pub fn conclude(s: &Image, c: Case, f: Finding) -> Decision
    ensures { result ≡ concluded (table_of s.now) c f }
{
    let draft = draft_at(c, f);
    match f.over {
        Some(r) => advice_97_313::advise(s, c, r, draft, f.code, f.rule),
        None => {
            let advice = Advice {
                guidance: None,
                notes: [0u8; 256],
                sixty: f.sixty,
            };
            decision::finish(draft, f.verdict, f.code, f.rule, f.overshoot, advice)
        }
    }
}

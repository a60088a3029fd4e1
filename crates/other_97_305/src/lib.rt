// CW, test emissions and keying with no audio, off 60 m: wherever the operator's privileges allow that emission (97.305(a),
// (b)). It uses codes, profile, layout, whole, decision, part97, findings and privileges_97_301.
#![tactic(auto)]

ghost use Rattle.std.specs.Prelude.{◌≡◌};
ghost use Rattle.table.specs.Table.{table_of};
ghost use Rattle.part97.specs.Part97.{other_rule, emitted, keyed};
ghost use Rattle.part97.specs.Finding.{concluded};

use codes::EmissionKind;
use decision::{Code, Verdict};
use layout::General;
use part97::{Case, Finding, Privileged};
use profile::Range;
use whole::Image;

fn other_rule(kind: EmissionKind) -> u16
    ensures { result ≡ other_rule kind }
{
    match kind {
        EmissionKind::Cw => decision::RULE_97_305A,
        EmissionKind::Test => decision::RULE_97_305B,
        EmissionKind::Data | EmissionKind::Nothing => decision::RULE_97_301,
    }
}

// An emission that is allowed wherever the operator's privileges allow it.
#[tactic(auto, using(part97::specs::Finding::on_band_holds))]
pub fn judge_emitted(s: &Image, c: Case, band: u8, kind: EmissionKind) -> Finding
    ensures { concluded (table_of s.now) c result ≡ emitted (table_of s.now) c band kind }
{
    let (verdict, code, rule) = match privileges_97_301::privileged(s, c, kind) {
        Privileged::Granted => (Verdict::Legal, Some(Code::Permitted), other_rule(kind)),
        Privileged::Forbidden => (
            Verdict::Blocked,
            Some(Code::Privilege),
            decision::RULE_97_307F9,
        ),
        Privileged::Unheld => (
            Verdict::Blocked,
            Some(Code::Privilege),
            decision::RULE_97_301,
        ),
    };
    findings::on_band(Some(band), verdict, code, rule)
}

// Keyed with no audio: some privilege holds the dial.
#[tactic(auto, using(part97::specs::Finding::on_band_holds))]
pub fn judge_keyed(s: &Image, c: Case, band: u8) -> Finding
    ensures { concluded (table_of s.now) c result ≡ keyed (table_of s.now) c band }
{
    let dial = Range {
        low_hz: c.dial_hz,
        high_hz: c.dial_hz,
    };
    let (verdict, code, rule) = if privileges_97_301::some_privilege(s, c, dial) {
        (Verdict::Legal, Some(Code::Permitted), decision::RULE_97_301)
    } else {
        (
            Verdict::Blocked,
            Some(Code::Privilege),
            s.general.privileges_rule,
        )
    };
    findings::on_band(Some(band), verdict, code, rule)
}

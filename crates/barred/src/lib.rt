// Whether a transmission is blocked, without the answer: the census of a band asks its code of each dial, and the climb over the rungs asks
// what blocks a rung, of which the answer is made without judging it again. It uses codes, transmission, decision, part97, findings, judge and
// verdict; its definitions use profile, occupancy, station and table, and its laws layout and judged.
#![tactic(auto)]

ghost use Rattle.std.specs.Prelude.{◌≡◌, IfSome, IsSome};
ghost use Rattle.verdict.specs.Verdict.{decision_on};
ghost use Rattle.barred.specs.Barred.{settled_of, blocked_over, brief_over, brief_of};
ghost use Rattle.barred.specs.Barring.{bar_by, led_on, Barred};

use codes::Policy;
use decision::{Code, Decision, Verdict};
use part97::Finding;
use transmission::Transmission;

// What is asked of a decision that is not made.
#[derive(Clone, Copy)]
pub struct Brief {
    pub blocked: bool,
    pub code: Option<Code>,
}

// Whether a finding blocks: power limits and the plan never do.
fn blocks(f: Finding) -> bool
    ensures { result ≡ blocked_over f.verdict f.over }
{
    f.over.is_none() && f.verdict == Verdict::Blocked
}

// One that needs no judging.
fn settled(blocked: bool, code: Option<Code>) -> Brief
    ensures { result ≡ settled_of blocked code }
{
    Brief { blocked, code }
}

// A finding in brief.
fn brief_of(f: Finding) -> Brief
    ensures { result ≡ brief_over f }
{
    settled(blocks(f), f.code)
}

// By the policy. Under Rules a prerequisite that is missing blocks, and else Part 97 says.
#[tactic(auto, using(crate::specs::Barred::finding_brief), unfolding(verdict::specs::Verdict::decide_of, verdict::specs::Verdict::under_rules_of, verdict::specs::Verdict::unruled_of, decision::specs::Decision::simple_of, decision::specs::Decision::finish_of))]
pub fn in_brief(x: &Transmission) -> Brief
    ensures { result ≡ brief_of (decision_on x.now) }
{
    match x.station.situation.policy {
        Policy::Unset => settled(true, Some(Code::NoProfile)),
        Policy::NoProfile => settled(false, Some(Code::NoRules)),
        Policy::Rules => {
            let image = x.station.in_force();
            match verdict::ready(image, x) {
                Ok(c) => brief_of(judge::judge_case(image, c)),
                Err(m) => settled(true, m.code),
            }
        }
        Policy::Broken => settled(true, Some(Code::ProfileBroken)),
    }
}

// What blocks where nothing is judged: a policy, or a prerequisite that is missing.
fn bar_by(code: Option<Code>, rule: u16) -> Option<Finding>
    ensures { result ≡ bar_by code rule }
{
    Some(findings::on_band(None, Verdict::Blocked, code, rule))
}

// What blocks, by the policy. Under Rules that is a prerequisite that is missing, and else what Part 97 finds.
#[tactic(auto, using(crate::specs::Barring::bar_none))]
pub fn barring(x: &Transmission) -> Option<Finding>
    ensures barred { Barred (led_on x.now) (decision_on x.now) result }
    ensures coded { IfSome result (λ f. IsSome f.code) }
{
    match x.station.situation.policy {
        Policy::Unset => bar_by(Some(Code::NoProfile), decision::NO_RULE),
        Policy::NoProfile => None,
        Policy::Rules => {
            let image = x.station.in_force();
            match verdict::ready(image, x) {
                Ok(c) => {
                    let f = judge::judge_case(image, c);
                    if blocks(f) { Some(f) } else { None }
                }
                Err(m) => bar_by(m.code, m.rule),
            }
        }
        Policy::Broken => bar_by(Some(Code::ProfileBroken), decision::NO_RULE),
    }
}

// The answer on what is blocked by a finding. Nothing is judged again.
#[tactic(auto, unfolding(crate::specs::Barring::led_to, crate::specs::Barring::led_by_rules))]
pub fn answer(x: &Transmission, f: Finding) -> Decision
    ensures { result ≡ led_on x.now f }
{
    match x.station.situation.policy {
        Policy::Rules => {
            let image = x.station.in_force();
            match verdict::ready(image, x) {
                Ok(c) => judge::conclude(image, c, f),
                Err(m) => verdict::unmet(image, x, m),
            }
        }
        Policy::Unset | Policy::NoProfile | Policy::Broken => {
            verdict::unruled(x.station.situation, x.dial, x.edges, f.verdict, f.code)
        }
    }
}

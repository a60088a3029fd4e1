// The 60 m band: its discrete channels, its segment, and the emissions allowed there (97.303(h)(3), 97.305(c),
// 97.307(f)(14), 97.313(i)). It uses figures, codes, profile, layout, whole, table, find, decision, part97, advice_97_313,
// findings and privileges_97_301; its definitions use scan.
#![tactic(auto)]

ghost use Rattle.std.specs.Prelude.{◌≡◌};
ghost use Rattle.scan.specs.First.{on_found};
ghost use Rattle.layout.specs.Layout.{segments};
ghost use Rattle.table.specs.Table.{Table, table_of};
ghost use Rattle.part97.specs.Finding.{concluded};
ghost use Rattle.find.specs.Question.{first_in};
ghost use Rattle.find.specs.declared.Question.TheVariants.{BandHolds};
ghost use Rattle.part97.specs.Part97.{segment_at, cw_on_channel, data_on_channel, on_channel, sixty_channel};
ghost use Rattle.part97.specs.Part97.{sixty_segment, sixty_overlap, sixty_place, sixty_emission, sixty_kind, sixty};

use codes::EmissionKind;
use decision::{Code, SixtyNotes, Verdict};
use find::Question;
use findings::Place;
use layout::General;
use part97::{Case, Finding};
use table::{Channels, Segment};
use whole::Image;

// Whether a CW carrier is on a channel's centre, within the tolerance.
fn cw_on_channel(c: Case, ch: Channels, centre: f64) -> bool
    ensures { result ≡ cw_on_channel c ch centre }
{
    figures::abs(figures::midpoint(c.air.low_hz, c.air.high_hz) - centre) <= ch.carrier_tolerance_hz
}

// Whether any other emission is on the channel's sideband, its carrier (the dial) below the centre by the offset, within
// the tolerance, and all of it, guarded, inside the channel.
fn data_on_channel(c: Case, ch: Channels, centre: f64) -> bool
    ensures { result ≡ data_on_channel c ch centre }
{
    c.sideband == ch.sideband
        && (figures::abs(c.dial_hz - (centre - ch.carrier_offset_hz)) <= ch.carrier_tolerance_hz
            && profile::channel_range(ch.width_hz, centre).holds(c.guarded))
}

// Whether an emission is set up for a channel.
fn on_channel(c: Case, ch: Channels, centre: f64, kind: EmissionKind) -> bool
    ensures { result ≡ on_channel c ch centre kind }
{
    match kind {
        EmissionKind::Cw => cw_on_channel(c, ch, centre),
        EmissionKind::Data | EmissionKind::Test | EmissionKind::Nothing => data_on_channel(
            c, ch, centre,
        ),
    }
}

// On a channel: set up for it, or blocked. Above the table's watts the operator is warned, here and in the segment (97.313(i)).
#[tactic(auto, using(part97::specs::Finding::in_segment_holds, part97::specs::Finding::on_sixty_holds), unfolding(part97::specs::Part97::sixty_channel))]
fn sixty_channel(g: General, c: Case, ch: Channels, centre: f64) -> Finding
    ensures { (table : Table) → g ≡ table.general → concluded table c result ≡ sixty_channel table c ch centre }
{
    let range = profile::channel_range(ch.width_hz, centre);
    let place = Place {
        band: ch.band,
        segment: range,
        own: ch.rule,
    };
    if !on_channel(c, ch, centre, c.kind) {
        return findings::in_segment(place, Some(Code::SixtyChannel), ch.rule);
    }
    let warn = advice_97_313::above(c.power, figures::figure(g.channel_watts));
    let marks = SixtyNotes {
        channel_power: warn,
        shared: true,
        segment_power: false,
    };
    findings::on_sixty(place, warn, Some(Code::SixtyChannel), marks)
}

// In the segment: the general width is tested, and no other.
#[tactic(auto, using(part97::specs::Finding::in_segment_holds, part97::specs::Finding::on_sixty_holds), unfolding(part97::specs::Part97::sixty_segment))]
fn sixty_segment(g: General, c: Case, band: u8, segment: Segment) -> Finding
    ensures { (table : Table) → g ≡ table.general → concluded table c result ≡ sixty_segment table c band segment }
{
    let general = table::data_of(g);
    let place = Place {
        band,
        segment: segment.range,
        own: segment.rule,
    };
    if c.kind == EmissionKind::Data && general.max_bandwidth_hz < c.width {
        return findings::in_segment(place, Some(Code::TooWide), general.rule);
    }
    let warn = advice_97_313::above(c.power, figures::figure(g.segment_watts));
    let marks = SixtyNotes {
        channel_power: false,
        shared: false,
        segment_power: warn,
    };
    findings::on_sixty(place, warn, Some(Code::SixtySegment), marks)
}

// The first data segment of the channels' band that holds the guarded range.
#[tactic(auto, unfolding(find::specs::Question::pick_in))]
fn band_segment(s: &Image, c: Case, ch: Channels) -> Option<Segment>
    ensures { result ≡ on_found (first_in (table_of s.now) segments (BandHolds ch.band c.guarded)) (λ i. Some (segment_at (table_of s.now) i)) None }
{
    find::pick_in(s, layout::SEGMENTS, Question::BandHolds(ch.band, c.guarded)).map(|(
        _,
        r,
    )| table::segment_of(r))
}

// By the first channel that the signal overlaps, whose centre is given, if it holds the guarded range; else by the segment that holds
// it, if one does.
#[tactic(auto, unfolding(part97::specs::Part97::sixty_overlap))]
fn sixty_overlap(s: &Image, c: Case, ch: Channels, centre: f64) -> Finding
    ensures { concluded (table_of s.now) c result ≡ sixty_overlap (table_of s.now) c ch centre }
{
    if profile::channel_range(ch.width_hz, centre).holds(c.guarded) {
        return sixty_channel(s.general, c, ch, centre);
    }
    match band_segment(s, c, ch) {
        Some(segment) => sixty_segment(s.general, c, ch.band, segment),
        None => sixty_channel(s.general, c, ch, centre),
    }
}

// By an overlapping channel or the segment; neither: off channel.
#[tactic(auto, using(part97::specs::Finding::on_band_holds), unfolding(part97::specs::Part97::sixty_place, find::specs::Question::pick_in))]
fn sixty_place(s: &Image, c: Case, ch: Channels) -> Finding
    ensures { concluded (table_of s.now) c result ≡ sixty_place (table_of s.now) c ch }
{
    let overlaps = Question::ChannelOverlaps(ch.width_hz, c.guarded);
    if let Some((_, channel)) = find::pick_in(s, layout::CHANNELS, overlaps) {
        return sixty_overlap(s, c, ch, table::centre_of(channel));
    }
    match band_segment(s, c, ch) {
        Some(segment) => sixty_segment(s.general, c, ch.band, segment),
        None => findings::on_band(
            Some(ch.band),
            Verdict::Blocked,
            Some(Code::SixtyOffChannel),
            ch.rule,
        ),
    }
}

// The emissions allowed on 60 m (97.307(f)(14)).
#[tactic(auto, using(part97::specs::Finding::on_band_holds), unfolding(part97::specs::Part97::sixty_emission))]
fn sixty_emission(s: &Image, c: Case, ch: Channels, allowed: Option<(u8, u16)>) -> Finding
    ensures { concluded (table_of s.now) c result ≡ sixty_emission (table_of s.now) c ch allowed }
{
    match allowed {
        Some((bits, rule)) if !codes::has_kind(bits, c.kind) => findings::on_band(
            Some(ch.band),
            Verdict::Blocked,
            Some(Code::SixtyEmission),
            rule,
        ),
        _ => sixty_place(s, c, ch),
    }
}

// Keyed with no audio is permitted; anything else goes by the emissions allowed.
#[tactic(auto, using(part97::specs::Finding::on_band_holds), unfolding(part97::specs::Part97::sixty_kind))]
fn sixty_kind(s: &Image, c: Case, ch: Channels, kind: EmissionKind) -> Finding
    ensures { concluded (table_of s.now) c result ≡ sixty_kind (table_of s.now) c ch kind }
{
    if kind == EmissionKind::Nothing {
        return findings::on_band(
            Some(ch.band),
            Verdict::Legal,
            Some(Code::Permitted),
            decision::RULE_97_301,
        );
    }
    sixty_emission(s, c, ch, table::sixty_emissions_of(s.general))
}

// 60 m: some privilege must hold the signal's range on the air, without the margin; the emissions that privileges list
// aren't read.
#[tactic(auto, using(part97::specs::Finding::on_band_holds), unfolding(part97::specs::Part97::sixty))]
pub fn sixty(s: &Image, c: Case, ch: Channels) -> Finding
    ensures { concluded (table_of s.now) c result ≡ sixty (table_of s.now) c ch }
{
    if !privileges_97_301::some_privilege(s, c, c.air) {
        return findings::on_band(
            Some(ch.band),
            Verdict::Blocked,
            Some(Code::Privilege),
            decision::RULE_97_301,
        );
    }
    sixty_kind(s, c, ch, c.kind)
}

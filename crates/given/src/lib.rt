// What an image is written from, and its refusals: 1, 3 and 4 of what is given, and 5 to 14 of the table that it makes, which image asks.
// Nothing is written here. It uses codes, scan, layout, image and byte_writes; its definitions use table.
#![tactic(auto)]

ghost use Rattle.std.specs.Prelude.{◌≡◌, ◌+◌, ◌≤◌, ◌<◌, length};
ghost use Rattle.codes.specs.Refusal.{refusal_of};
ghost use Rattle.given.specs.Given.{Runs, runs, figure_bits, count_from, before_from, record_from, watts_from, general_from, table_with};
ghost use Rattle.given.specs.Tests.{neither_edition, overfull_from, runs_wrong, given_tests, Held};

use codes::{Checked, Refusal};
use image::Source;
use layout::{General, Record};
use std::marker::Model;

// The most records that an image has room for, of either edition.
pub const MOST: usize = 2045;

// The edition, and the general block: figures as figures, codes and rules as numbers. The watts of edition 1 are not looked at.
#[derive(Clone, Copy)]
pub struct Fields {
    pub edition: u16,
    pub data_limit: f64,
    pub elsewhere_limit: f64,
    pub channel_width: f64,
    pub carrier_offset: f64,
    pub carrier_tolerance: f64,
    pub channel_watts: f64,
    pub segment_watts: f64,
    pub region: u8,
    pub reading: u8,
    pub flags: u8,
    pub channel_band: u8,
    pub sideband: u8,
    pub emissions: u8,
    pub data_rule: u16,
    pub elsewhere_rule: u16,
    pub automatic_rule: u16,
    pub channels_rule: u16,
    pub emissions_rule: u16,
    pub privileges_rule: u16,
}

// A watt figure by its bits: as given for edition 2, fixed for edition 1.
fn watts_from(edition: u16, watts: f64, fixed: u64) -> u64
    ensures { result ≡ watts_from edition watts fixed }
{
    if edition == layout::SECOND_EDITION {
        byte_writes::bits(watts)
    } else {
        fixed
    }
}

// The general block of these fields.
#[tactic(auto, unfolding(crate::specs::Given::general_from))]
pub fn general_from(f: Fields) -> General
    ensures { result ≡ general_from f }
{
    General {
        data_limit: byte_writes::bits(f.data_limit),
        elsewhere_limit: byte_writes::bits(f.elsewhere_limit),
        channel_width: byte_writes::bits(f.channel_width),
        carrier_offset: byte_writes::bits(f.carrier_offset),
        carrier_tolerance: byte_writes::bits(f.carrier_tolerance),
        region: f.region,
        reading: f.reading,
        flags: f.flags,
        channel_band: f.channel_band,
        sideband: f.sideband,
        emissions: f.emissions,
        data_rule: f.data_rule,
        elsewhere_rule: f.elsewhere_rule,
        automatic_rule: f.automatic_rule,
        channels_rule: f.channels_rule,
        emissions_rule: f.emissions_rule,
        privileges_rule: f.privileges_rule,
        unused: 0,
        unused_rest: 0,
        channel_watts: watts_from(f.edition, f.channel_watts, layout::CHANNEL_WATTS),
        segment_watts: watts_from(f.edition, f.segment_watts, layout::SEGMENT_WATTS),
    }
}

// The records of the nine tables one after the other, in runs: three figures, four codes and two rules each. A contract sees the runs.
#[derive(Drop)]
pub struct Records<'a> {
    pub figures: &'a [f64],
    pub codes: &'a [u8],
    pub rules: &'a [u16],
}

impl<'a> Model for Records<'a> {
    ghost use Rattle.given.specs.Given.{Runs, runs};

    ghost Value = { Runs };

    ghost view = { λ a. runs a.figures.now a.codes.now a.rules.now };
}

impl Records<'_> {
    // Figure i of all, by its bits.
    fn bits_at(&self, i: usize) -> u64
        requires { i < length self.now.figures }
        ensures { result ≡ figure_bits self.now i }
    {
        let figures = self.figures;
        byte_writes::bits(figures[i])
    }

    // Record k of all.
    #[tactic(auto, unfolding(crate::specs::Given::record_from))]
    pub fn record_at(&self, k: usize) -> Record
        requires { Held self.now (k + 1) }
        ensures { result ≡ record_from self.now k }
    {
        let codes = self.codes;
        let rules = self.rules;
        Record {
            low: self.bits_at(3 * k),
            high: self.bits_at(3 * k + 1),
            figure: self.bits_at(3 * k + 2),
            band: codes[4 * k],
            class: codes[4 * k + 1],
            emissions: codes[4 * k + 2],
            flags: codes[4 * k + 3],
            rule: rules[2 * k],
            second_rule: rules[2 * k + 1],
        }
    }

    // Whether a run has other than its three figures, four codes or two rules for each of so many records.
    #[tactic(auto, unfolding(crate::specs::Tests::runs_wrong))]
    fn are_wrong(&self, count: usize) -> bool
        requires { count ≤ 2045 }
        ensures { result ≡ runs_wrong self.now count }
    {
        self.figures.len() != 3 * count
            || (self.codes.len() != 4 * count || self.rules.len() != 2 * count)
    }
}

// How many records table t has.
pub fn count_at(counts: &[u16; 9], t: usize) -> u16
    requires { t < 9 }
    ensures { result ≡ count_from counts.now t }
{
    counts[t]
}

// The records of the tables before t.
#[tactic(auto, using(crate::specs::Laws::before_more), unfolding(crate::specs::Given::before_from))]
pub fn before(counts: &[u16; 9], t: usize) -> usize
    requires { t ≤ 9 }
    ensures { (result ≡ before_from counts.now t) × (result ≤ 589815) }
{
    let mut sum = 0;
    for i in 0..t {
        sum += count_at(counts, i) as usize;
    }
    sum
}

// What an image is written from, where the runs have the records that the counts say.
#[derive(Drop)]
pub struct Given<'a> {
    pub general: General,
    pub counts: &'a [u16; 9],
    pub records: Records<'a>,
    pub ghost held: { Held records (before_from counts.now 9) },
    pub ghost few: { before_from counts.now 9 ≤ 2045 },
}

impl Source for Given<'_> {
    ghost table = { λ g. table_with g.general g.counts.now g.records };

    ghost begins = { λ g t. before_from g.counts.now t };

    fn general(&self) -> General {
        self.general
    }

    fn count_of(&self, t: usize) -> u16 {
        count_at(self.counts, t)
    }

    fn start_of(&self, t: usize) -> usize {
        before(self.counts, t)
    }

    #[tactic(auto, using(crate::specs::Laws::before_within, crate::specs::Laws::count_given_holds, crate::specs::Laws::record_given_holds))]
    fn record_in(&self, _t: usize, start: usize, i: usize) -> Record {
        self.records.record_at(start + i)
    }
}

// Whether one of the tables has over 256 records.
fn has_overfull(counts: &[u16; 9]) -> bool
    ensures { result ≡ overfull_from counts.now }
{
    scan::some(layout::TABLES, |t| 256 < count_at(counts, t))
}

// Whether an edition is neither of the two.
fn edition_wrong(edition: u16) -> bool
    ensures { result ≡ neither_edition edition }
{
    edition != layout::FIRST_EDITION && edition != layout::SECOND_EDITION
}

// The refusal of what is given: the number that its image would get.
#[tactic(auto, using(crate::specs::Laws::runs_held))]
pub fn refusal(
    edition: u16,
    g: General,
    counts: &[u16; 9],
    figures: &[f64],
    codes: &[u8],
    rules: &[u16],
) -> Checked
    ensures { result ≡ refusal_of (given_tests edition g counts.now
        (runs figures.now codes.now rules.now)) }
{
    let count = before(counts, layout::TABLES);
    if MOST < count {
        return Err(Refusal::ImageLength);
    }
    if edition_wrong(edition) {
        return Err(Refusal::Edition);
    }
    let records = Records {
        figures,
        codes,
        rules,
    };
    if has_overfull(counts) || records.are_wrong(count) {
        return Err(Refusal::Counts);
    }
    image::in_order(&Given {
        general: g,
        counts,
        records,
    })
}

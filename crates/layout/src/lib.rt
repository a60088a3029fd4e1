// The table image's bytes: little-endian numbers, records, the general block, the trailer, and refusals 1 to 4.
// Every offset and size of the image stands here. It uses codes and scan.
#![tactic(auto)]

ghost use Rattle.std.specs.Prelude.{◌≡◌, ◌+◌, ◌≤◌, ◌<◌, length};
ghost use Rattle.codes.specs.Refusal.{refusal_of};
ghost use Rattle.layout.specs.Bytes.{byte_at, u16_at, u32_at, u64_at};
ghost use Rattle.layout.specs.Layout.{record_at, lists_of, rules_of, edition_of, watts_at, general_of, count_of, records_before, tables_from, start_of};
ghost use Rattle.layout.specs.Form.{letters_wrong, edition_wrong, overfull, counts_wrong, form_tests};

use codes::{Checked, Refusal};

pub const GENERAL_SIZE: usize = 64;

// The two figures more of edition 2.
pub const WATTS_SIZE: usize = 16;

pub const RECORD_SIZE: usize = 32;

pub const TRAILER_SIZE: usize = 28;

pub const LARGEST: usize = 65552;

pub const FIRST_EDITION: u16 = 1;

pub const SECOND_EDITION: u16 = 2;

// The 60 m power limits of edition 1, 100 W and 9.15 W, by their bits.
pub const CHANNEL_WATTS: u64 = 0x4059_0000_0000_0000;

pub const SEGMENT_WATTS: u64 = 0x4022_4ccc_cccc_cccd;

// The trailer's last bytes.
pub const LETTERS: [u8; 4] = *b"EDGE";

// The tables, in their order. A table is a number and no enum: the trailer counts tables by number, the definitions speak of table t, and most
// loops go over all nine.
pub const TABLES: usize = 9;

pub const BANDS: usize = 0;

pub const SEGMENTS: usize = 1;

pub const CHANNELS: usize = 2;

pub const PRIVILEGES: usize = 3;

pub const AUTOMATIC: usize = 4;

pub const EXCLUDED: usize = 5;

pub const POWER: usize = 6;

pub const PLAN_DATA: usize = 7;

pub const PLAN_AVOID: usize = 8;

// A record as it stands: f64 fields by their bits.
#[derive(Clone, Copy)]
pub struct Record {
    pub low: u64,
    pub high: u64,
    pub figure: u64,
    pub band: u8,
    pub class: u8,
    pub emissions: u8,
    pub flags: u8,
    pub rule: u16,
    pub second_rule: u16,
}

// The general block as it stands.
#[derive(Clone, Copy)]
pub struct General {
    pub data_limit: u64,
    pub elsewhere_limit: u64,
    pub channel_width: u64,
    pub carrier_offset: u64,
    pub carrier_tolerance: u64,
    pub region: u8,
    pub reading: u8,
    pub flags: u8,
    pub channel_band: u8,
    pub sideband: u8,
    pub emissions: u8,
    pub data_rule: u16,
    pub elsewhere_rule: u16,
    pub automatic_rule: u16,
    pub channels_rule: u16,
    pub emissions_rule: u16,
    pub privileges_rule: u16,
    pub unused: u16,
    pub unused_rest: u32,
    pub channel_watts: u64,
    pub segment_watts: u64,
}

// The number of one byte, of two, four and eight: each promises its own by its width, and `from_le_bytes` is no trait's. Here and below a
// place is another at each call, so that its bound is the call's own.
pub fn byte_at(s: &[u8], at: usize) -> u8
    requires { at < length s.now }
    ensures { result ≡ byte_at s.now at }
{
    s[at]
}

#[tactic(auto, unfolding(crate::specs::Bytes::u16_at))]
pub fn u16_at(s: &[u8], at: usize) -> u16
    requires { at + 2 ≤ length s.now }
    ensures { result ≡ u16_at s.now at }
{
    byte_at(s, at) as u16 + byte_at(s, at + 1) as u16 * 256
}

#[tactic(auto, unfolding(crate::specs::Bytes::u32_at))]
pub fn u32_at(s: &[u8], at: usize) -> u32
    requires { at + 4 ≤ length s.now }
    ensures { result ≡ u32_at s.now at }
{
    u16_at(s, at) as u32 + u16_at(s, at + 2) as u32 * 65536
}

#[tactic(auto, unfolding(crate::specs::Bytes::u64_at))]
pub fn u64_at(s: &[u8], at: usize) -> u64
    requires { at + 8 ≤ length s.now }
    ensures { result ≡ u64_at s.now at }
{
    u32_at(s, at) as u64 + u32_at(s, at + 4) as u64 * 4294967296
}

// Single fields of the record that begins at a place.
#[tactic(auto, unfolding(crate::specs::Layout::record_at))]
pub fn low_at(s: &[u8], at: usize) -> u64
    requires { at + 32 ≤ length s.now }
    ensures { result ≡ (record_at s.now at).low }
{
    u64_at(s, at)
}

#[tactic(auto, unfolding(crate::specs::Layout::record_at))]
pub fn high_at(s: &[u8], at: usize) -> u64
    requires { at + 32 ≤ length s.now }
    ensures { result ≡ (record_at s.now at).high }
{
    u64_at(s, at + 8)
}

#[tactic(auto, unfolding(crate::specs::Layout::record_at))]
pub fn band_at(s: &[u8], at: usize) -> u8
    requires { at + 32 ≤ length s.now }
    ensures { result ≡ (record_at s.now at).band }
{
    byte_at(s, at + 24)
}

#[tactic(auto, unfolding(crate::specs::Layout::record_at))]
pub fn class_at(s: &[u8], at: usize) -> u8
    requires { at + 32 ≤ length s.now }
    ensures { result ≡ (record_at s.now at).class }
{
    byte_at(s, at + 25)
}

#[tactic(auto, unfolding(crate::specs::Layout::record_at))]
pub fn figure_at(s: &[u8], at: usize) -> u64
    requires { at + 32 ≤ length s.now }
    ensures { result ≡ (record_at s.now at).figure }
{
    u64_at(s, at + 16)
}

// Band, class, emission bits and flags as one number.
#[tactic(auto, using(crate::specs::Laws::lists_read))]
pub fn lists_at(s: &[u8], at: usize) -> u32
    requires { at + 32 ≤ length s.now }
    ensures { result ≡ lists_of (record_at s.now at) }
{
    u32_at(s, at + 24)
}

// The two rules as one number.
#[tactic(auto, using(crate::specs::Laws::rules_read))]
pub fn rules_at(s: &[u8], at: usize) -> u32
    requires { at + 32 ≤ length s.now }
    ensures { result ≡ rules_of (record_at s.now at) }
{
    u32_at(s, at + 28)
}

#[tactic(auto, unfolding(crate::specs::Layout::record_at))]
pub fn record_at(s: &[u8], at: usize) -> Record
    requires { at + 32 ≤ length s.now }
    ensures { result ≡ record_at s.now at }
{
    Record {
        low: u64_at(s, at),
        high: u64_at(s, at + 8),
        figure: u64_at(s, at + 16),
        band: byte_at(s, at + 24),
        class: byte_at(s, at + 25),
        emissions: byte_at(s, at + 26),
        flags: byte_at(s, at + 27),
        rule: u16_at(s, at + 28),
        second_rule: u16_at(s, at + 30),
    }
}

// What follows up to `form` is read of bytes that are long enough and not yet known to be whole; the crate whole has it for those that are.
// The edition that the trailer names.
pub fn edition_of(s: &[u8]) -> u16
    requires { 28 ≤ length s.now }
    ensures { result ≡ edition_of s.now }
{
    let at = s.len() - TRAILER_SIZE + 22;
    u16_at(s, at)
}

// A figure that edition 2 has at a place, or the fixed one of edition 1.
#[tactic(auto, unfolding(crate::specs::Layout::watts_at))]
fn watts_at(s: &[u8], at: usize, fixed: u64) -> u64
    requires { (28 ≤ length s.now) × (at + 8 ≤ length s.now) }
    ensures { result ≡ watts_at s.now at fixed }
{
    if edition_of(s) == SECOND_EDITION {
        return u64_at(s, at);
    }
    fixed
}

// Field by field, each from its own place.
#[tactic(auto, unfolding(crate::specs::Layout::general_of))]
pub fn general_of(s: &[u8]) -> General
    requires { 92 ≤ length s.now }
    ensures { result ≡ general_of s.now }
{
    General {
        data_limit: u64_at(s, 0),
        elsewhere_limit: u64_at(s, 8),
        channel_width: u64_at(s, 16),
        carrier_offset: u64_at(s, 24),
        carrier_tolerance: u64_at(s, 32),
        region: byte_at(s, 40),
        reading: byte_at(s, 41),
        flags: byte_at(s, 42),
        channel_band: byte_at(s, 43),
        sideband: byte_at(s, 44),
        emissions: byte_at(s, 45),
        data_rule: u16_at(s, 46),
        elsewhere_rule: u16_at(s, 48),
        automatic_rule: u16_at(s, 50),
        channels_rule: u16_at(s, 52),
        emissions_rule: u16_at(s, 54),
        privileges_rule: u16_at(s, 56),
        unused: u16_at(s, 58),
        unused_rest: u32_at(s, 60),
        channel_watts: watts_at(s, 64, CHANNEL_WATTS),
        segment_watts: watts_at(s, 72, SEGMENT_WATTS),
    }
}

// How many records table t has.
pub fn count_of(s: &[u8], t: usize) -> u16
    requires { (28 ≤ length s.now) × (t < 9) }
    ensures { result ≡ count_of s.now t }
{
    let at = s.len() - TRAILER_SIZE + 2 * t;
    u16_at(s, at)
}

// The records of the tables before t.
#[tactic(auto, unfolding(crate::specs::Layout::records_before))]
pub fn records_before(s: &[u8], t: usize) -> u32
    requires { (28 ≤ length s.now) × (t ≤ 9) }
    ensures { result ≡ records_before s.now t }
{
    let mut sum: u32 = 0;
    for i in 0..t {
        sum += count_of(s, i) as u32;
    }
    sum
}

// Where the tables begin: after the general block, which is longer in edition 2.
#[tactic(auto, unfolding(crate::specs::Layout::tables_from))]
pub fn tables_from(s: &[u8]) -> usize
    requires { 28 ≤ length s.now }
    ensures { result ≡ tables_from s.now }
{
    if edition_of(s) == SECOND_EDITION {
        return GENERAL_SIZE + WATTS_SIZE;
    }
    GENERAL_SIZE
}

// Where table t begins.
#[tactic(auto, using(crate::specs::Laws::tables_near))]
pub fn start_of(s: &[u8], t: usize) -> usize
    requires { (28 ≤ length s.now) × (t ≤ 9) }
    ensures { result ≡ start_of s.now t }
{
    tables_from(s) + RECORD_SIZE * records_before(s, t) as usize
}

// Whether one of the tables has over 256 records.
fn has_overfull(s: &[u8]) -> bool
    requires { 28 ≤ length s.now }
    ensures { result ≡ overfull s.now }
{
    scan::some(TABLES, |t| 256 < count_of(s, t))
}

// Whether the trailer ends in other bytes than the letters.
fn letters_wrong(s: &[u8]) -> bool
    requires { 28 ≤ length s.now }
    ensures { result ≡ letters_wrong s.now }
{
    s[s.len() - LETTERS.len()..] != LETTERS[..]
}

// Whether the edition is neither of the two.
fn edition_wrong(s: &[u8]) -> bool
    requires { 28 ≤ length s.now }
    ensures { result ≡ edition_wrong s.now }
{
    let edition = edition_of(s);
    edition != FIRST_EDITION && edition != SECOND_EDITION
}

// Whether a count is over 256, or the length or the distance disagrees with the counts.
fn counts_wrong(s: &[u8]) -> bool
    requires { 28 ≤ length s.now }
    ensures { result ≡ counts_wrong s.now }
{
    if has_overfull(s) {
        return true;
    }
    let trailer = s.len() - TRAILER_SIZE;
    if trailer != start_of(s, TABLES) {
        return true;
    }
    u32_at(s, trailer + 18) as usize != trailer
}

// Refusals 1 to 4.
pub fn form(s: &[u8]) -> Checked
    ensures { result ≡ refusal_of (form_tests s.now) }
{
    if s.len() < GENERAL_SIZE + TRAILER_SIZE {
        return Err(Refusal::ImageLength);
    }
    if LARGEST < s.len() {
        return Err(Refusal::ImageLength);
    }
    if letters_wrong(s) {
        return Err(Refusal::Letters);
    }
    if edition_wrong(s) {
        return Err(Refusal::Edition);
    }
    if counts_wrong(s) {
        return Err(Refusal::Counts);
    }
    Ok(())
}

// The rows of a dial list, segment by segment, privilege by privilege, automatic segment by automatic segment, and then the 60 m
// channels: searches that give one row after the other. It uses codes, profile, air, scan, layout, whole, table, find,
// automatic_97_221 and rows; its laws use apart, lists, order and bit_order.
#![tactic(auto)]

ghost use Rattle.std.specs.Prelude.{◌≡◌, ◌+◌, ◌*◌, ◌≤◌, ◌<◌, ℕ, List, Option, length};
ghost use Rattle.lists.specs.From.{from as gathered_from};
ghost use Rattle.profile.specs.Range.{holds_of};
ghost use Rattle.table.specs.Table.{table_of};
ghost use Rattle.layout.specs.Layout.{record_at};
ghost use Rattle.table.specs.Parts.{segment_of};
ghost use Rattle.dial_rows.specs.Apart.{below_bits, apart_of};
ghost use Rattle.dial_rows.specs.Class.{Ahead, Past};
ghost use Rattle.rows.specs.declared.SafeDial.{SafeDial};
ghost use Rattle.dial_rows.specs.Dials.{request_of, piece_rows, cut, may_use, too_wide, excluded_band};
ghost use Rattle.dial_rows.specs.Dials.{centre_span, some_centre, channel_found, channels_open, channel_row, channel_rows_at};
ghost use Rattle.dial_rows.specs.Next.{rows_in, cut_next, segment_next, cuts, automatic_in, cut_at, cuts_from, privilege_from, pair_from};
ghost use Rattle.dial_rows.specs.Next.{behind_of, privileges_from, closed_of, channel_count_of, channels_from, Known, Searched};

use air::Margins;
use codes::{ControlMode, Direction, EmissionKind, LicenseClass, Sideband};
use find::Question;
use layout::{General, Record};
use profile::{DataLimit, Range};
use rows::SafeDial;
use table::{Channels, Privilege, Segment};
use whole::Image;

// The bits of 2^40.
const LIMIT_BITS: u64 = 0x4270_0000_0000_0000;

// What a list is made for: the signal as it is read, and what the general block says of it.
#[derive(Clone, Copy)]
pub struct Request {
    // The licence class's number.
    pub class: u8,
    pub sideband: Sideband,
    pub audio: Range,
    pub width_hz: f64,
    pub margin: Margins,
    // 97.221 applies.
    pub automatic: bool,
    // 97.221(c) lets the signal outside the automatic segments.
    pub elsewhere_ok: bool,
    // The general limit.
    pub data: DataLimit,
    // The rule for automatic segments.
    pub segments_rule: u16,
}

#[tactic(auto, unfolding(crate::specs::Dials::request_of))]
pub fn request_of(
    g: General,
    license: LicenseClass,
    sideband: Sideband,
    control: ControlMode,
    direction: Direction,
    margin: Margins,
    audio: Range,
) -> Request
    ensures { result ≡ request_of g license sideband control direction margin audio }
{
    let width = air::width(audio);
    Request {
        class: u8::from(license),
        sideband,
        audio,
        width_hz: width,
        margin,
        automatic: automatic_97_221::applies(control, direction),
        elsewhere_ok: automatic_97_221::elsewhere_allows(table::elsewhere_of(g), width, direction),
        data: table::data_of(g),
        segments_rule: g.automatic_rule,
    }
}

// A place among the rows of a segment: the privilege, and the cut of the piece that the two share.
#[derive(Clone, Copy)]
pub struct Spot {
    pub privilege: usize,
    pub cut: usize,
}

// What a search for rows knows beforehand: where the tables begin and how much of each is gone through.
#[derive(Clone, Copy)]
pub struct Search {
    pub segments: usize,
    pub segment_count: usize,
    // Privileges: those of the class lie from first to end.
    pub privileges: usize,
    pub first: usize,
    pub end: usize,
    // Whether a piece is cut to the automatic segments, and into how many cuts; else it is whole, one cut.
    pub automatic: usize,
    pub cut: bool,
    pub cuts: usize,
    pub channels: usize,
    pub channel_count: usize,
}

// The row of a piece.
#[tactic(auto, unfolding(crate::specs::Dials::piece_rows))]
fn piece_row(q: Request, band: u8, rule: u16, piece: Range) -> Option<SafeDial>
    ensures { rows_in result ≡ piece_rows q band rule piece }
{
    let ends = air::dial_range(piece, q.sideband, q.audio, q.margin)?;
    Some(SafeDial {
        band,
        segment: piece,
        rule,
        dial_low_hz: ends.low_hz,
        dial_high_hz: ends.high_hz,
    })
}

// The row of a piece inside an automatic segment.
fn automatic_row(q: Request, band: u8, piece: Range, r: Record) -> Option<SafeDial>
    ensures { rows_in result ≡ automatic_in q band piece r }
{
    let inside = profile::intersect(piece, table::span_of(r))?;
    piece_row(q, band, q.segments_rule, inside)
}

// The first row that the indices from one to below end give, and the index after it.
#[tactic(auto, using(lists::specs::From::from_row, lists::specs::From::from_skip, lists::specs::From::from_end))]
fn row_from<F: Fn(usize) -> Option<SafeDial>>(
    from: usize,
    end: usize,
    row: F,
) -> Option<(SafeDial, usize)>
    requires { (i : ℕ) → i < end → F.pre row i }
    ensures { (f : ℕ → List SafeDial) → ((i : ℕ) (r : Option SafeDial) → i < end → F.post row i r → rows_in r ≡ f i)
        → gathered_from end f from ≡ cut_next (gathered_from end f) result }
{
    for i in from..end {
        if let Some(x) = row(i) {
            return Some((x, i + 1));
        }
    }
    None
}

// Whether a privilege is the class's and allows data.
fn may_use(q: Request, p: Privilege) -> bool
    ensures { result ≡ may_use q p }
{
    p.class == q.class && profile::allows(p.emissions, EmissionKind::Data)
}

// Whether the signal is too wide for a segment.
fn too_wide(q: Request, s: Segment) -> bool
    ensures { result ≡ too_wide q s }
{
    profile::data_limit(s.own, s.second, q.data).max_bandwidth_hz < q.width_hz
}

// Whether 97.221 keeps the signal out of a segment's band.
fn excluded(image: &Image, q: Request, s: Segment) -> bool
    ensures { result ≡ excluded_band (table_of image.now) q s }
{
    q.automatic && find::some_in(image, layout::EXCLUDED, Question::OfBand(s.band))
}

// Whether a segment's record is passed over: the signal is too wide for it, or kept out of its band.
pub fn closed(image: &Image, q: Request, r: Record) -> bool
    ensures { result ≡ closed_of (table_of image.now) q (segment_of r) }
{
    let s = table::segment_of(r);
    too_wide(q, s) || excluded(image, q, s)
}

// The first privilege of a class; where there is none, how many privileges there are.
#[tactic(auto, using(layout::specs::Laws::table_within))]
fn class_first(image: &Image, class: u8) -> usize
    ensures { Ahead image.now class result }
{
    let start = image.start_of(layout::PRIVILEGES);
    let count = image.count_of(layout::PRIVILEGES) as usize;
    scan::first(
        count,
        |i| image.class_at(start + layout::RECORD_SIZE * i) == class,
    )
    .unwrap_or(count)
}

// The place after the last privilege of a class; where there is none, 0.
#[tactic(auto, using(layout::specs::Laws::table_within, crate::specs::Class::of_in, crate::specs::Class::past_step))]
fn class_end(image: &Image, class: u8) -> usize
    ensures { Past image.now class result }
{
    let start = image.start_of(layout::PRIVILEGES);
    let count = image.count_of(layout::PRIVILEGES) as usize;
    for i in (0..count).rev() {
        if image.class_at(start + layout::RECORD_SIZE * i) == class {
            return i + 1;
        }
    }
    0
}

// Whether a range that ends at high lies below one that begins at low, by their bits.
fn below(high: u64, low: u64) -> bool
    ensures { result ≡ below_bits high low }
{
    high <= low && low <= LIMIT_BITS
}

// Whether a record's range lies apart from that of the record which begins at a place, by their bits.
fn apart(image: &Image, at: usize, r: Record) -> bool
    requires { at + 32 ≤ length image.now }
    ensures { result ≡ apart_of r (record_at image.now at) }
{
    below(r.high, image.low_at(at)) || below(image.high_at(at), r.low)
}

// The place behind a row at cut k − 1 of a privilege.
fn behind(w: Search, privilege: usize, k: usize) -> Spot
    requires { privilege < 0x1_0000 }
    ensures { result ≡ behind_of w.cuts privilege k }
{
    if k < w.cuts {
        Spot { privilege, cut: k }
    } else {
        Spot {
            privilege: privilege + 1,
            cut: 0,
        }
    }
}

// Whether channels are asked for at all.
fn channels_open(q: Request) -> bool
    ensures { result ≡ channels_open q }
{
    !q.automatic && (q.width_hz <= q.data.max_bandwidth_hz && q.sideband == Sideband::Usb)
}

// Whether a range holds a channel's centre.
fn centre_held(range: Range, r: Record) -> bool
    ensures { result ≡ holds_of range (centre_span r) }
{
    let center = table::centre_of(r);
    range.holds(Range {
        low_hz: center,
        high_hz: center,
    })
}

// Whether one channel lies under a privilege, which is the class's and allows data.
fn some_centre(image: &Image, q: Request, p: Privilege) -> bool
    ensures { result ≡ some_centre (table_of image.now) q p }
{
    may_use(q, p) && table::some_of(image, layout::CHANNELS, |c| centre_held(p.range, c))
}

// Whether one channel lies under one privilege of the class that allows data.
#[tactic(auto, unfolding(crate::specs::Dials::channel_found))]
fn channel_found(image: &Image, q: Request) -> bool
    ensures { result ≡ channel_found (table_of image.now) q }
{
    table::some_of(
        image,
        layout::PRIVILEGES,
        |r| some_centre(image, q, table::privilege_of(r)),
    )
}

// How many channels are gone through: all, where channels are asked for and one is found.
fn channel_count(image: &Image, q: Request, band: Option<Channels>) -> usize
    ensures { result ≡ channel_count_of (table_of image.now) q band }
{
    if band.is_some() && (channels_open(q) && channel_found(image, q)) {
        image.count_of(layout::CHANNELS) as usize
    } else {
        0
    }
}

// The row of a channel.
#[tactic(auto, unfolding(crate::specs::Dials::channel_row))]
fn channel_row(q: Request, c: Channels, center_hz: f64) -> Option<SafeDial>
    ensures { rows_in result ≡ channel_row q c center_hz }
{
    let dial = center_hz - c.carrier_offset_hz;
    let range = profile::channel_range(c.width_hz, center_hz);
    let guarded = air::guarded(q.margin, air::rf_range(dial, q.sideband, q.audio));
    range.holds(guarded).then_some(SafeDial {
        band: c.band,
        segment: range,
        rule: c.rule,
        dial_low_hz: dial,
        dial_high_hz: dial,
    })
}

// 97.221: whether a piece is cut to the automatic segments.
fn is_cut(q: Request) -> bool
    ensures { result ≡ cut q }
{
    q.automatic && !q.elsewhere_ok
}

// How many cuts a piece has.
fn cut_count(image: &Image, q: Request) -> usize
    ensures { result ≡ cuts (table_of image.now) q }
{
    if is_cut(q) {
        image.count_of(layout::AUTOMATIC) as usize
    } else {
        1
    }
}

// What a search for rows knows beforehand.
fn places_of(image: &Image, q: Request, band: Option<Channels>) -> Search
    ensures { Searched image.now q band result }
{
    // That the image is whole is one of the things known.
    let _ = &image.bytes;
    Search {
        segments: image.start_of(layout::SEGMENTS),
        segment_count: image.count_of(layout::SEGMENTS) as usize,
        privileges: image.start_of(layout::PRIVILEGES),
        first: class_first(image, q.class),
        end: class_end(image, q.class),
        automatic: image.start_of(layout::AUTOMATIC),
        cut: is_cut(q),
        cuts: cut_count(image, q),
        channels: image.start_of(layout::CHANNELS),
        channel_count: channel_count(image, q, band),
    }
}

// A search for the rows of a request in an image, with those of the channels of a band, if it has one. That it goes through as many
// channels as the band asks for is what `of` promises, and no part of the type: no search here needs it.
#[derive(Clone, Copy)]
pub struct PlacedSearch<'a> {
    pub image: &'a Image<'a>,
    pub request: Request,
    pub band: Option<Channels>,
    pub places: Search,
    pub ghost known: { Known image.now request places },
}

impl<'a> PlacedSearch<'a> {
    // The search for the rows of a request, with those of the channels of a band.
    pub fn of(image: &'a Image<'a>, q: Request, band: Option<Channels>) -> Self
        ensures { (result.image.now ≡ image.now) × (result.request ≡ q) × (result.band ≡ band)
            × (result.places.channel_count ≡ channel_count_of (table_of result.image.now) result.request result.band) }
    {
        PlacedSearch {
            image,
            request: q,
            band,
            places: places_of(image, q, band),
        }
    }

    // The row of a cut of a piece.
    #[tactic(auto, using(layout::specs::Laws::table_within, crate::specs::Next::cut_below, table::specs::Laws::at_in))]
    fn cut_row(&self, s: Segment, piece: Range, k: usize) -> Option<SafeDial>
        requires { k < self.now.places.cuts }
        ensures { rows_in result ≡ cut_at (table_of self.now.image.now) self.now.request s piece k }
    {
        if self.places.cut {
            let r = self
                .image
                .record_at(self.places.automatic + layout::RECORD_SIZE * k);
            automatic_row(self.request, s.band, piece, r)
        } else {
            piece_row(self.request, s.band, s.rule, piece)
        }
    }

    // The first row of a piece from a cut on.
    #[tactic(auto, unfolding(crate::specs::Next::cuts_from))]
    fn cuts_from(&self, s: Segment, piece: Range, from: usize) -> Option<(SafeDial, usize)>
        ensures { cuts_from (table_of self.now.image.now) self.now.request s piece from
            ≡ cut_next (cuts_from (table_of self.now.image.now) self.now.request s piece) result }
    {
        row_from(from, self.places.cuts, |k| self.cut_row(s, piece, k))
    }

    // The first row of a segment under one privilege, from a cut on.
    #[tactic(auto, unfolding(crate::specs::Next::privilege_from))]
    fn privilege_from(&self, s: Segment, p: Privilege, from: usize) -> Option<(SafeDial, usize)>
        ensures { privilege_from (table_of self.now.image.now) self.now.request s p from
            ≡ cut_next (privilege_from (table_of self.now.image.now) self.now.request s p) result }
    {
        let piece = profile::intersect(s.range, p.range)?;
        if may_use(self.request, p) {
            self.cuts_from(s, piece, from)
        } else {
            None
        }
    }

    // The same of a segment's record and the privilege that begins at a place: its class and its range's bits are asked before the rest is
    // read.
    #[tactic(auto, using(crate::specs::Apart::apart_nothing), unfolding(crate::specs::Next::privilege_from))]
    fn pair_from(&self, r: Record, at: usize, from: usize) -> Option<(SafeDial, usize)>
        requires { at + 32 ≤ length self.now.image.now }
        ensures { pair_from self.now.image.now self.now.request r at from ≡ cut_next (pair_from self.now.image.now self.now.request r at) result }
    {
        let image = self.image;
        if image.class_at(at) != self.request.class {
            return None;
        }
        if apart(image, at, r) {
            return None;
        }
        let s = table::segment_of(r);
        let p = table::privilege_of(image.record_at(at));
        self.privilege_from(s, p, from)
    }

    // The first row of a segment's record under the privileges from a place on.
    #[tactic(auto, using(layout::specs::Laws::table_within))]
    pub fn privileges_from(&self, r: Record, spot: Spot) -> Option<(SafeDial, Spot)>
        ensures { privileges_from (table_of self.now.image.now) self.now.request (segment_of r) spot
            ≡ segment_next (privileges_from (table_of self.now.image.now) self.now.request (segment_of r)) result }
    {
        let mut from = spot.cut;
        for i in spot.privilege..self.places.end {
            let at = self.places.privileges + layout::RECORD_SIZE * i;
            if let Some((row, k)) = self.pair_from(r, at, from) {
                return Some((row, behind(self.places, i, k)));
            }
            from = 0;
        }
        None
    }

    // The row of channel i.
    #[tactic(auto, using(layout::specs::Laws::table_within, table::specs::Laws::at_in))]
    fn channel_row_at(&self, c: Channels, i: usize) -> Option<SafeDial>
        requires { i < self.now.places.channel_count }
        ensures { rows_in result ≡ channel_rows_at (table_of self.now.image.now) self.now.request c i }
    {
        let r = self
            .image
            .record_at(self.places.channels + layout::RECORD_SIZE * i);
        channel_row(self.request, c, table::centre_of(r))
    }

    // The first row of the channels from one on, and the channel after it; or no row.
    pub fn channels_from(&self, c: Channels, from: usize) -> Option<(SafeDial, usize)>
        ensures { channels_from (table_of self.now.image.now) self.now.request c self.now.places.channel_count from
            ≡ cut_next (channels_from (table_of self.now.image.now) self.now.request c self.now.places.channel_count) result }
    {
        row_from(
            from,
            self.places.channel_count,
            |i| self.channel_row_at(c, i),
        )
    }
}

// A search whose type says the channels' count as well: what fills bytes with every row goes by it.
#[derive(Clone, Copy)]
pub struct RowSearch<'a> {
    pub placed: PlacedSearch<'a>,
    pub ghost searched: { Searched placed.image.now placed.request placed.band placed.places },
}

impl<'a> RowSearch<'a> {
    // The search for the rows of a request, with those of the channels of a band.
    pub fn of(image: &'a Image<'a>, q: Request, band: Option<Channels>) -> Self
        ensures { (result.placed.image.now ≡ image.now) × (result.placed.request ≡ q) × (result.placed.band ≡ band) }
    {
        RowSearch {
            placed: PlacedSearch::of(image, q, band),
        }
    }
}

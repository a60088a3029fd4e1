// Amendments with a day: a lent list of them and its refusal, which one counts for each record of an image, and the record that is in force. It
// uses layout, scan, whole and image; its definitions and laws use table and alike.
#![tactic(auto)]

ghost use Rattle.std.specs.Prelude.{◌≡◌, false, ◌+◌, ◌*◌, ◌≤◌, ◌<◌, length};
ghost use Rattle.std.specs.Option.{IfSome};
ghost use Rattle.layout.specs.Layout.{record_at, records_before};
ghost use Rattle.table.specs.Table.{table_of};
ghost use Rattle.amended.specs.Amended.{amendments_in, table_at, index_at, day_at, stray_at, list_wrong, named_at, counting, slot_at, effective_of};
ghost use Rattle.amended.specs.Latest.{Earlier, found_from, superseded, onward, Indexed, Ready};

use image::Source;
use layout::{General, Record};
use whole::Image;

pub const AMENDMENT_SIZE: usize = 40;

// The most amendments whose places fit the index's numbers.
const MOST: usize = u32::MAX as usize;

// A lent list of amendments.
#[derive(Clone, Copy)]
pub struct Amendments<'a> {
    pub bytes: &'a [u8],
}

impl<'a> Amendments<'a> {
    // How many it has.
    fn count(&self) -> usize
        ensures { result ≡ amendments_in self.now.bytes.now }
    {
        self.bytes.len() / AMENDMENT_SIZE
    }

    // The table, the index and the day of amendment j.
    fn table_at(&self, j: usize) -> usize
        requires { j < amendments_in self.now.bytes.now }
        ensures { result ≡ table_at self.now.bytes.now j }
    {
        layout::u16_at(self.bytes, AMENDMENT_SIZE * j) as usize
    }

    fn index_at(&self, j: usize) -> usize
        requires { j < amendments_in self.now.bytes.now }
        ensures { result ≡ index_at self.now.bytes.now j }
    {
        layout::u16_at(self.bytes, AMENDMENT_SIZE * j + 2) as usize
    }

    fn day_at(&self, j: usize) -> u32
        requires { j < amendments_in self.now.bytes.now }
        ensures { result ≡ day_at self.now.bytes.now j }
    {
        layout::u32_at(self.bytes, AMENDMENT_SIZE * j + 4)
    }

    // Whether amendment j names a table above 8 or an index beyond its table.
    fn is_stray(&self, image: &[u8], j: usize) -> bool
        requires { (28 ≤ length image.now) × (j < amendments_in self.now.bytes.now) }
        ensures { result ≡ stray_at image.now self.now.bytes.now j }
    {
        let t = self.table_at(j);
        layout::TABLES <= t || layout::count_of(image, t) as usize <= self.index_at(j)
    }

    // 27: the list is not in forties, or an amendment is stray.
    #[tactic(auto, unfolding(crate::specs::Amended::list_wrong))]
    pub fn is_wrong(&self, image: &[u8]) -> bool
        requires { 28 ≤ length image.now }
        ensures { result ≡ list_wrong image.now self.now.bytes.now }
    {
        self.bytes.len() % AMENDMENT_SIZE != 0
            || scan::some(self.count(), |j| self.is_stray(image, j))
    }
}

// An image, a list of amendments that is right for it, and the day that is asked for.
#[derive(Clone, Copy)]
pub struct Amending<'a> {
    pub image: &'a Image<'a>,
    pub list: Amendments<'a>,
    pub day: u32,
    pub ghost right: { list_wrong image.now list.bytes.now ≡ false },
}

impl<'a> Amending<'a> {
    // The record that amendment j names, of all the image's records.
    #[tactic(auto, using(crate::specs::Latest::named_of_right, crate::specs::Latest::named_below, crate::specs::Latest::few_records))]
    fn named_at(&self, j: usize) -> usize
        requires { j < amendments_in self.now.list.bytes.now }
        ensures { (result ≡ named_at self.now.image.now self.now.list.bytes.now j) × (result < 2045) }
    {
        let image = self.image;
        layout::records_before(image.bytes, self.list.table_at(j)) as usize + self.list.index_at(j)
    }

    // What is found after amendment j, which names the record: j, where it is in force and not of an earlier day than what was found before.
    fn superseded(&self, found: Option<usize>, j: usize) -> Option<usize>
        requires { (j < amendments_in self.now.list.bytes.now) × (Earlier found j) }
        ensures { result ≡ superseded self.now.list.bytes.now self.now.day found j }
    {
        let own = self.list.day_at(j);
        if self.day < own {
            return found;
        }
        match found {
            Some(i) if own < self.list.day_at(i) => found,
            _ => Some(j),
        }
    }

    // The index of the list: for each record what counts, in one pass.
    pub fn fill(&self, index: &mut [u32])
        requires { Indexed self.now.image.now self.now.list.bytes.now self.now.day index.old 0 }
        ensures { Ready self.now.image.now self.now.list.bytes.now self.now.day index.new }
    {
        // The image, looked into, is whole.
        let image = self.image;
        let _ = &image.bytes;
        let count = self.list.count();
        if MOST < count {
            return;
        }
        for j in 0..count {
            let k = self.named_at(j);
            index[k] = held(self.superseded(found(index[k]), j));
        }
    }

    // What is found for record k after amendment j.
    fn onward(&self, k: usize, found: Option<usize>, j: usize) -> Option<usize>
        requires { (j < amendments_in self.now.list.bytes.now) × (Earlier found j) }
        ensures { result ≡ onward self.now.image.now self.now.list.bytes.now self.now.day k found j }
    {
        if self.named_at(j) == k {
            self.superseded(found, j)
        } else {
            found
        }
    }

    // What counts for record k, without the index.
    #[tactic(auto, using(crate::specs::Latest::latest_more))]
    fn search(&self, k: usize) -> Option<usize>
        ensures { result ≡ counting self.now.image.now self.now.list.bytes.now self.now.day k }
    {
        let mut found = None;
        for j in 0..self.list.count() {
            found = self.onward(k, found, j);
        }
        found
    }
}

// What the index holds for what is found: 0 for nothing, else one more than the amendment's place.
#[tactic(auto, using(crate::specs::Latest::found_place), unfolding(crate::specs::Latest::found_from))]
fn held(found: Option<usize>) -> u32
    requires { Earlier found 4294967295 }
    ensures { found_from result ≡ found }
{
    match found {
        Some(j) => j as u32 + 1,
        None => 0,
    }
}

// What is found, by what the index holds.
#[tactic(auto, unfolding(crate::specs::Latest::found_from))]
fn found(held: u32) -> Option<usize>
    ensures { result ≡ found_from held }
{
    (held as usize).checked_sub(1)
}

// The effective image: an image, a list and a day, with the index that tells which amendments are in force.
#[derive(Clone, Copy)]
pub struct Effective<'a> {
    pub of: Amending<'a>,
    pub index: &'a [u32],
    pub ghost ready: { Ready of.image.now of.list.bytes.now of.day index.now },
}

impl<'a> Effective<'a> {
    // The amendment that counts for record k: by the index, which lists of any length that a machine can hold have.
    pub fn counting(&self, k: usize) -> Option<usize>
        requires { k < 2045 }
        ensures value { result ≡ counting self.now.of.image.now self.now.of.list.bytes.now self.now.of.day k }
        ensures within { IfSome result (λ j. 40 * j + 40 ≤ length self.now.of.list.bytes.now) }
    {
        if MOST < self.of.list.count() {
            return self.of.search(k);
        }
        found(self.index[k])
    }

    // Record k of the effective image.
    #[tactic(auto, using(crate::specs::Latest::few_records, crate::specs::Effective::record_in_holds))]
    pub fn record_at(&self, k: usize) -> Record
        requires { k < records_before self.now.of.image.now 9 }
        ensures { result ≡ record_at (effective_of self.now.of.image.now self.now.of.list.bytes.now self.now.of.day) (slot_at self.now.of.image.now k) }
    {
        match self.counting(k) {
            Some(j) => layout::record_at(self.of.list.bytes, AMENDMENT_SIZE * j + 8),
            None => {
                let image = self.of.image;
                layout::record_at(
                    image.bytes,
                    layout::tables_from(image.bytes) + layout::RECORD_SIZE * k,
                )
            }
        }
    }
}

impl Source for Effective<'_> {
    ghost table = { λ e. table_of (effective_of e.of.image.now e.of.list.bytes.now e.of.day) };

    ghost begins = { λ e t. records_before e.of.image.now t };

    // The general block is the base's.
    #[tactic(auto, using(crate::specs::Effective::general_same))]
    fn general(&self) -> General {
        let image = self.of.image;
        image.general
    }

    #[tactic(auto, using(crate::specs::Effective::count_in_same))]
    fn count_of(&self, t: usize) -> u16 {
        self.of.image.count_of(t)
    }

    fn start_of(&self, t: usize) -> usize {
        let image = self.of.image;
        layout::records_before(image.bytes, t) as usize
    }

    #[tactic(auto, using(crate::specs::Effective::count_in_same, crate::specs::Effective::record_read, crate::specs::Effective::place_below, crate::specs::Latest::few_records))]
    fn record_in(&self, _t: usize, start: usize, i: usize) -> Record {
        self.record_at(start + i)
    }
}

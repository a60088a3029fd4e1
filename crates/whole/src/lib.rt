// An image that refusals 1 to 4 let pass, with its general block read. A contract sees its bytes; that they are whole is the
// type's own invariant. Its methods read what layout reads of bytes, each with the promise of its own part. It uses layout.
#![tactic(auto)]

ghost use Rattle.std.specs.Prelude.{◌≡◌, ◌≤◌, ◌<◌, ◌*◌, ◌+◌, length, ℕ, List};
ghost use Rattle.layout.specs.Form.{Whole};
ghost use Rattle.layout.specs.Layout.{general_of, count_of, start_of, tables_from, record_at};

use layout::{General, Record};
use std::marker::Model;

#[derive(Drop)]
pub struct Image<'a> {
    pub bytes: &'a [u8],
    pub general: General,
}

impl<'a> Model for Image<'a> {
    ghost Value = { List ℕ };

    ghost view = { λ a. a.bytes.now };

    ghost invariant = { λ a. (Whole a.bytes.now) × (a.general ≡ general_of a.bytes.now) };
}

impl<'a> Image<'a> {
    // The image of bytes in form.
    pub fn of(bytes: &'a [u8]) -> Self
        requires { Whole bytes.now }
        ensures { result ≡ bytes.now }
    {
        Image {
            bytes,
            general: layout::general_of(bytes),
        }
    }

    // How many records table t has.
    #[tactic(auto, using(layout::specs::Laws::table_within))]
    pub fn count_of(&self, t: usize) -> u16
        requires { t < 9 }
        ensures gives { result ≡ count_of self.now t }
        ensures few { result ≤ 256 }
    {
        layout::count_of(self.bytes, t)
    }

    // Where table t begins: its records lie in the image.
    #[tactic(auto, using(layout::specs::Laws::table_within))]
    pub fn start_of(&self, t: usize) -> usize
        requires { t < 9 }
        ensures gives { result ≡ start_of self.now t }
        ensures lies { (result + 32 * count_of self.now t + 28 ≤ length self.now) × (length self.now ≤ 65552) }
    {
        layout::start_of(self.bytes, t)
    }

    // Where the first table begins, that of the bands.
    #[tactic(auto, using(layout::specs::Laws::table_within, layout::specs::Laws::first_table))]
    pub fn tables_from(&self) -> usize
        ensures gives { result ≡ tables_from self.now }
        ensures lies { (result + 32 * count_of self.now 0 + 28 ≤ length self.now) × (length self.now ≤ 65552) }
    {
        layout::tables_from(self.bytes)
    }

    // The record that begins at a place.
    pub fn record_at(&self, at: usize) -> Record
        requires { at + 32 ≤ length self.now }
        ensures { result ≡ record_at self.now at }
    {
        layout::record_at(self.bytes, at)
    }
    // Parts of it: the bits of its low and its high end, and its class.
    pub fn low_at(&self, at: usize) -> u64
        requires { at + 32 ≤ length self.now }
        ensures { result ≡ (record_at self.now at).low }
    {
        layout::low_at(self.bytes, at)
    }

    pub fn high_at(&self, at: usize) -> u64
        requires { at + 32 ≤ length self.now }
        ensures { result ≡ (record_at self.now at).high }
    {
        layout::high_at(self.bytes, at)
    }

    pub fn class_at(&self, at: usize) -> u8
        requires { at + 32 ≤ length self.now }
        ensures { result ≡ (record_at self.now at).class }
    {
        layout::class_at(self.bytes, at)
    }
}

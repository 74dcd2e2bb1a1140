//! Reads one record in a file's bytes: its entries, whether they are well formed, and the value that it gives to a
//! word.
//!
//! Used by `formed.rt` and `images.rt` alone.
ghost use Rattle.std.specs.Prelude.{◌≡◌, ◌+◌, ◌*◌, ◌≤◌, ◌<◌, length, Some, slice_get, slice_index};
ghost use Rattle.std.specs.Borrow.{Bor};

use crate::layout::{COUNT_AT, ENTRIES_AT, ENTRY_SIZE, Layout, WORD_SIZE, read_number};
use mw_words::{MAX_ENTRIES, MAX_VALUE};
use std::marker::Model;

/// The entries of a record, in the bytes of a file: each is an address and a new value.
#[derive(Drop)]
pub(crate) struct Record<'a> {
    bytes: &'a [u8],
    count: usize,
}

impl<'a> Model for Record<'a> {
    ghost use Rattle.std.specs.Prelude.{◌≡◌, ◌≤◌, ◌*◌, length, List, ℕ};
    ghost use Rattle.mw_record.specs.Records.{Pairs, pairs_at};
    ghost use Rattle.mw_record.specs.declared.layout.TheConstants.{ENTRY_SIZE};
    ghost use Rattle.mw_words.specs.declared.limits.TheConstants.{MAX_ENTRIES};

    ghost Value = { List (ℕ × ℕ) };

    ghost view = { λ r. pairs_at r.bytes.now 0 r.count };

    ghost invariant = { λ r. (ENTRY_SIZE * r.count ≤ length r.bytes.now) × (r.count ≤ MAX_ENTRIES) };
}

impl Record<'_> {
    ghost use Rattle.mw_record.specs.Records as spec;
    ghost use Rattle.mw_record.specs.Layout.{most_entries, place_size};

    /// Returns the record of the place at an offset. Its count byte must be at most the most entries of a record.
    #[tactic(auto, unfolding(crate::specs::Records::body_at))]
    pub(crate) fn new(bytes: &[u8], layout: Layout, at: usize) -> Record<'_>
        requires whole { at + place_size layout ≤ length bytes.now }
        requires few { slice_index bytes.now (at + COUNT_AT) ≤ most_entries layout }
        ensures { result ≡ spec.body_at bytes.now at }
    {
        Record {
            bytes: &bytes[at + ENTRIES_AT..],
            count: bytes[at + COUNT_AT] as usize,
        }
    }

    /// Returns how many entries it has.
    #[tactic(auto, using(crate::proofs::ReadBytes::length_pairs))]
    pub(crate) fn len(&self) -> usize
        ensures { result ≡ length self.now }
    {
        self.count
    }

    /// Returns the address and the new value of an entry.
    #[tactic(auto, using(crate::proofs::ReadBytes::length_pairs))]
    pub(crate) fn entry(&self, i: usize) -> (u64, u64)
        requires { i < length self.now }
        ensures { slice_get self.now i ≡ Some result }
    {
        let bytes = self.bytes;
        let at = ENTRY_SIZE * i;
        (read_number(bytes, at), read_number(bytes, at + WORD_SIZE))
    }

    /// Tells whether an entry has this address.
    pub(crate) fn holds(&self, addr: u64) -> bool
        ensures { result ≡ spec.holds self.now addr }
    {
        for i in 0..self.len() {
            if self.entry(i).0 == addr {
                return true;
            }
        }
        false
    }

    /// Tells whether the addresses rise strictly and are below the number of words.
    pub(crate) fn rises_below(&self, words: u16) -> bool
        ensures { result ≡ spec.rises_below words 0 self.now }
    {
        let mut lowest = 0;
        for i in 0..self.len() {
            let (addr, _) = self.entry(i);
            if addr < lowest || addr >= u64::from(words) {
                return false;
            }
            lowest = addr + 1;
        }
        true
    }

    /// Tells whether no new value is above [`MAX_VALUE`].
    pub(crate) fn has_values(&self) -> bool
        ensures { result ≡ spec.has_values self.now }
    {
        for i in 0..self.len() {
            if self.entry(i).1 > MAX_VALUE {
                return false;
            }
        }
        true
    }

    /// Returns the value at an address after the record is put over this value.
    pub(crate) fn over(&self, addr: u64, mut value: u64) -> u64
        ensures { result ≡ spec.over self.now addr value }
    {
        for i in 0..self.len() {
            let entry = self.entry(i);
            if entry.0 == addr {
                value = entry.1;
            }
        }
        value
    }
}

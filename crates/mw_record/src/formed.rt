//! Tests whether the records of a layout are well formed and apart, and reads its words.
//!
//! Used by `images.rt` alone.
ghost use Rattle.std.specs.Prelude.{◌≡◌, ◌+◌, ◌≤◌, ◌<◌, ◌&&◌, nat_le, true, length};
ghost use Rattle.mw_record.specs.Layout.{most_entries, place_at, size};
ghost use Rattle.mw_record.specs.Records as spec;

use crate::layout::{COMMITTED, COUNT_AT, HEAD_SIZE, Layout, WORD_SIZE, read_number};
use crate::records::Record;
use mw_words::MAX_VALUE;

/// The bytes of a layout, from where it begins, with so many words and record places. All its bytes are there,
/// and each open record is well formed.
#[derive(Drop)]
pub(crate) struct FormedFile<'a> {
    pub(crate) layout: Layout,
    pub(crate) bytes: &'a [u8],
    pub(crate) words: u16,
    pub(crate) places: u16,
    ghost whole: { size layout words places ≤ length bytes.now },
    ghost formed: { spec.are_formed layout words (spec.record_at layout bytes.now words) places ≡ true },
}

/// Tells whether each open record is well formed: it has entries, no more than a record of the layout may have,
/// at strictly rising addresses below the number of words.
pub(crate) fn are_formed(bytes: &[u8], layout: Layout, words: u16, places: u16) -> bool
    requires { size layout words places ≤ length bytes.now }
    ensures { result ≡ spec.are_formed layout words (spec.record_at layout bytes.now words) places }
{
    for place in 0..places {
        if !is_formed(bytes, layout, words, place) {
            return false;
        }
    }
    true
}

/// Tells whether a place is closed or its record is well formed.
fn is_formed(bytes: &[u8], layout: Layout, words: u16, place: u16) -> bool
    requires { place_at layout words (place + 1) ≤ length bytes.now }
    ensures { result ≡ spec.is_formed layout words (spec.record_at layout bytes.now words place) }
{
    let at = layout.place_at(words, place) as usize;
    if bytes[at] != COMMITTED {
        return true;
    }
    is_record_len(layout, bytes[at + COUNT_AT]) && Record::new(bytes, layout, at).rises_below(words)
}

/// Tells whether a record of the layout may have so many entries.
fn is_record_len(layout: Layout, count: u8) -> bool
    ensures { result ≡ (nat_le 1 count && nat_le count (most_entries layout)) }
{
    (1..=layout.most_entries()).contains(&(count as usize))
}

impl FormedFile<'_> {
    /// Returns the record of a place, if the place is open.
    pub(crate) fn record(&self, place: u16) -> Option<Record<'_>>
        requires { place < self.now.places }
        ensures { result ≡ spec.record_at self.now.layout self.now.bytes.now self.now.words place }
    {
        let at = self.layout.place_at(self.words, place) as usize;
        if self.bytes[at] == COMMITTED {
            Some(Record::new(self.bytes, self.layout, at))
        } else {
            None
        }
    }

    /// Returns the home word of an address.
    pub(crate) fn home(&self, addr: u16) -> u64
        requires { addr < self.now.words }
        ensures { result ≡ spec.home self.now.bytes.now addr }
    {
        read_number(self.bytes, HEAD_SIZE + WORD_SIZE * addr as usize)
    }

    /// Tells whether an open record of the first places has the address.
    fn is_covered(&self, places: u16, addr: u64) -> bool
        requires { places ≤ self.now.places }
        ensures { result ≡ spec.is_covered (spec.record_at self.now.layout self.now.bytes.now self.now.words) places addr }
    {
        for place in 0..places {
            if let Some(record) = self.record(place)
                && record.holds(addr)
            {
                return true;
            }
        }
        false
    }

    /// Tells whether no open record of the first places has an address of this record.
    fn is_apart(&self, places: u16, entries: &Record) -> bool
        requires { places ≤ self.now.places }
        ensures { result ≡ spec.is_apart (spec.record_at self.now.layout self.now.bytes.now self.now.words) places entries.now }
    {
        for i in 0..entries.len() {
            if self.is_covered(places, entries.entry(i).0) {
                return false;
            }
        }
        true
    }

    /// Tells whether no two open records share an address.
    pub(crate) fn are_apart(&self) -> bool
        ensures { result ≡ spec.are_apart (spec.record_at self.now.layout self.now.bytes.now self.now.words) self.now.places }
    {
        for place in 0..self.places {
            if let Some(record) = self.record(place)
                && !self.is_apart(place, &record)
            {
                return false;
            }
        }
        true
    }

    /// Tells whether no new value of an open record is above [`MAX_VALUE`], and no home word that no open record
    /// covers.
    pub(crate) fn has_small_values(&self) -> bool
        ensures { result ≡ (spec.records_fit (spec.record_at self.now.layout self.now.bytes.now self.now.words) self.now.places
            && spec.homes_fit (spec.home self.now.bytes.now) (spec.record_at self.now.layout self.now.bytes.now self.now.words) self.now.places self.now.words) }
    {
        self.records_fit() && self.homes_fit()
    }

    /// Tells whether no new value of an open record is above [`MAX_VALUE`].
    fn records_fit(&self) -> bool
        ensures { result ≡ spec.records_fit (spec.record_at self.now.layout self.now.bytes.now self.now.words) self.now.places }
    {
        for place in 0..self.places {
            if let Some(record) = self.record(place)
                && !record.has_values()
            {
                return false;
            }
        }
        true
    }

    /// Tells whether no home word that no open record covers is above [`MAX_VALUE`].
    fn homes_fit(&self) -> bool
        ensures { result ≡ spec.homes_fit (spec.home self.now.bytes.now) (spec.record_at self.now.layout self.now.bytes.now self.now.words) self.now.places self.now.words }
    {
        for addr in 0..self.words {
            if self.home(addr) > MAX_VALUE && !self.is_covered(self.places, u64::from(addr)) {
                return false;
            }
        }
        true
    }

    /// Returns the word at an address: its home word with the open records put over it.
    pub(crate) fn word(&self, addr: u16) -> u64
        requires { addr < self.now.words }
        ensures { result ≡ spec.all_over (spec.record_at self.now.layout self.now.bytes.now self.now.words) self.now.places addr (spec.home self.now.bytes.now addr) }
    {
        let mut value = self.home(addr);
        for place in 0..self.places {
            if let Some(record) = self.record(place) {
                value = record.over(u64::from(addr), value);
            }
        }
        value
    }
}

//! Reads the bytes of a whole file: finds their first damage, or gives the file's sizes, words and records.
//!
//! Used by: many crates from mw_file_text on. Change it with `specs/Damages`, `specs/Layout`, `specs/LayoutBytes` and
//! docs/FILES. docs/PROMISES cites `decode`.
ghost use Rattle.std.specs.Prelude.{◌≡◌, ◌<◌, ◌≤◌, ℕ, true, false, None, Some, length, drop, slice_get, MatchOption, MatchResult};
ghost use Rattle.mw_words.specs.declared.limits.TheConstants.{MAX_WORDS, MAX_ENTRIES};
ghost use Rattle.mw_record.specs.declared.layout.Layout.TheVariants.{Second};
ghost use Rattle.mw_record.specs.Layout.{most_places};
ghost use Rattle.mw_record.specs.LayoutBytes as part;
ghost use Rattle.mw_record.specs.Damages as spec;

use crate::damages::Damage;
use crate::formed::{FormedFile, are_formed};
use crate::layout::{
    COMMITTED, FIRST_MAGIC, HEAD_SIZE, Layout, MAX_FIRST, PLACES_AT, SECOND_AT, SECOND_MAGIC,
    SWITCH_AT, WORDS_AT, read_number,
};
use byteorder::{ByteOrder, LittleEndian};
use mw_words::MAX_WORDS;
use std::marker::Model;

/// The bytes of a file that has no damage, and what they say.
#[derive(Drop)]
pub struct Image<'a> {
    bytes: &'a [u8],
    at: u64,
    file: FormedFile<'a>,
}

impl<'a> Model for Image<'a> {
    ghost use Rattle.std.specs.Prelude.{◌≡◌, List, ℕ};
    ghost use Rattle.mw_record.specs.Damages.{IsSound, part_of};

    ghost Value = { List ℕ };

    ghost view = { λ image. image.bytes.now };

    ghost invariant = { λ image. IsSound image.bytes.now image.file.layout image.at image.file.words image.file.places
        × (image.file.bytes.now ≡ part_of image.bytes.now) };
}

/// Reads the bytes of a whole file. The first [`crate::MAX_FILE`] bytes of a longer file are enough: they have
/// the same damage, words and records
/// ([`bytes_past_the_largest_file_do_not_matter`](crate::bytes_past_the_largest_file_do_not_matter)).
///
/// # Errors
///
/// The first damage, in this order:
///
/// - [`Damage::Short`] if there are fewer bytes than a head has.
/// - [`Damage::NotThisFormat`].
/// - If the switch byte is set: [`Damage::SecondLayout`] if no second layout may begin at the offset that the
///   head tells, [`Damage::Short`] if there are fewer bytes than a head from there on, and
///   [`Damage::SecondLayout`] if these don't begin with the magic bytes.
/// - Of the layout in use: [`Damage::Sizes`], [`Damage::Short`] if there are fewer bytes than the sizes need,
///   [`Damage::Record`], [`Damage::Overlap`] and [`Damage::Value`].
pub fn decode(bytes: &[u8]) -> Result<Image<'_>, Damage>
    ensures { MatchResult result
        (λ image. (spec.damage_of bytes.now ≡ None) × (image ≡ bytes.now))
        (λ damage. spec.damage_of bytes.now ≡ Some damage) }
{
    if bytes.len() < HEAD_SIZE {
        return Err(Damage::Short);
    }
    if !bytes.starts_with(&FIRST_MAGIC) {
        return Err(Damage::NotThisFormat);
    }
    if bytes[SWITCH_AT] != COMMITTED {
        let file = decode_part(bytes, Layout::First)?;
        return Ok(Image { bytes, at: 0, file });
    }
    let at = second_at(bytes)?;
    let file = decode_part(&bytes[at as usize..], Layout::Second)?;
    Ok(Image { bytes, at, file })
}

/// Returns the offset of the second layout, if all bytes of a head are there and begin with its magic bytes.
/// Otherwise it returns the damage.
fn second_at(bytes: &[u8]) -> Result<u64, Damage>
    requires { HEAD_SIZE ≤ length bytes.now }
    ensures { MatchResult result
        (λ (at : ℕ). (at ≡ spec.second_at bytes.now) × (spec.may_begin at ≡ true)
        × (part.has_head (drop at bytes.now) ≡ true) × (part.has_mark Second (drop at bytes.now) ≡ true))
        (λ damage. spec.first_fault (spec.second_tests bytes.now) ≡ Some damage) }
{
    let at = read_number(bytes, SECOND_AT);
    if at < HEAD_SIZE as u64 || at > MAX_FIRST as u64 {
        return Err(Damage::SecondLayout);
    }
    if bytes.len() < at as usize + HEAD_SIZE {
        return Err(Damage::Short);
    }
    if !bytes[at as usize..].starts_with(&SECOND_MAGIC) {
        return Err(Damage::SecondLayout);
    }
    Ok(at)
}

/// Reads the bytes of a layout, from where it begins. Its magic bytes were read before.
fn decode_part(bytes: &[u8], layout: Layout) -> Result<FormedFile<'_>, Damage>
    requires { HEAD_SIZE ≤ length bytes.now }
    ensures { MatchResult result
        (λ file. (spec.first_fault (part.part_tests layout bytes.now) ≡ None) × (file.layout ≡ layout) × (file.bytes.now ≡ bytes.now)
        × (file.words ≡ part.words_told bytes.now) × (file.places ≡ part.places_told bytes.now))
        (λ damage. spec.first_fault (part.part_tests layout bytes.now) ≡ Some damage) }
{
    let Some((words, places)) = sizes(bytes, layout) else {
        return Err(Damage::Sizes);
    };
    if (bytes.len() as u64) < layout.place_at(words, places) {
        return Err(Damage::Short);
    }
    if !are_formed(bytes, layout, words, places) {
        return Err(Damage::Record);
    }
    let file = FormedFile {
        layout,
        bytes,
        words,
        places,
    };
    if !file.are_apart() {
        return Err(Damage::Overlap);
    }
    if !file.has_small_values() {
        return Err(Damage::Value);
    }
    Ok(file)
}

/// Returns the numbers of words and of record places, if the head tells sizes that the layout may have.
#[tactic(auto, unfolding(crate::specs::Layout::number_at))]
fn sizes(bytes: &[u8], layout: Layout) -> Option<(u16, u16)>
    requires { HEAD_SIZE ≤ length bytes.now }
    ensures { MatchOption result
        (part.has_sizes layout bytes.now ≡ false)
        (λ sizes. (part.has_sizes layout bytes.now ≡ true)
        × (sizes.0 ≡ part.words_told bytes.now) × (sizes.1 ≡ part.places_told bytes.now)) }
{
    let words = LittleEndian::read_u32(&bytes[WORDS_AT..PLACES_AT]);
    let places = LittleEndian::read_u16(&bytes[PLACES_AT..PLACES_AT + 2]);
    if words == 0 || words > u32::from(MAX_WORDS) {
        return None;
    }
    if places == 0 || places > layout.most_places() {
        return None;
    }
    Some((words as u16, places))
}

impl Image<'_> {
    /// Returns the layout in use.
    pub fn layout(&self) -> Layout
        ensures { result ≡ spec.layout_of self.now }
    {
        self.file.layout
    }

    /// Returns the offset at which that layout begins, at most [`MAX_FIRST`].
    pub fn at(&self) -> u64
        ensures value { result ≡ spec.at_of self.now }
        ensures fits { result ≤ MAX_FIRST }
    {
        self.at
    }

    /// Returns how many words the file has, 1 to [`MAX_WORDS`].
    pub fn words(&self) -> u16
        ensures value { result ≡ spec.words_of self.now }
        ensures some { 1 ≤ result }
        ensures fits { result ≤ MAX_WORDS }
    {
        self.file.words
    }

    /// Returns how many record places that layout has: at least 1, and at most [`Layout::most_places`].
    pub fn places(&self) -> u16
        ensures value { result ≡ spec.found_places self.now }
        ensures some { 1 ≤ result }
        ensures fits { result ≤ most_places (spec.layout_of self.now) }
    {
        self.file.places
    }

    /// Returns the word at an address below [`Image::words`]: its home word, with the open records put over it.
    pub fn word(&self, addr: u16) -> u64
        requires { addr < spec.words_of self.now }
        ensures { slice_get (spec.words_in self.now) addr ≡ Some result }
    {
        self.file.word(addr)
    }

    /// Returns how many entries the record of a place below [`Image::places`] has. It is 0 exactly if the place
    /// is closed.
    pub fn count(&self, place: u16) -> u8
        requires { place < spec.found_places self.now }
        ensures value { result ≡ length (spec.pairs_in self.now place) }
        ensures closed { result ≡ 0 → spec.records_of self.now place ≡ None }
        ensures fits { result ≤ MAX_ENTRIES }
    {
        match self.file.record(place) {
            Some(record) => record.len() as u8,
            None => 0,
        }
    }

    /// Returns the address and the new value of an entry of a place's record. The index must be below
    /// [`Image::count`].
    pub fn pair(&self, place: u16, i: u8) -> (u16, u64)
        requires place { place < spec.found_places self.now }
        requires entry { i < length (spec.pairs_in self.now place) }
        ensures { slice_get (spec.pairs_in self.now place) i ≡ Some result }
    {
        match self.file.record(place) {
            Some(record) => {
                let (addr, new) = record.entry(i as usize);
                (addr as u16, new)
            }
            None => unreachable!(),
        }
    }
}

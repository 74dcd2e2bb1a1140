//! Makes the bytes that are written to a file: a head, a whole second layout, and the body of a record.
//!
//! Used by: mw_file, mw_world_file, mwshow; mwinit, for the [`header`] of a new file. A reader of today must
//! understand what is written: docs/FILES.
ghost use Rattle.std.specs.Prelude.{◌≡◌, ◌≤◌, ◌<◌, ◌^◌, length, replicate};
ghost use Rattle.mw_record.specs.Layout as spec;
ghost use Rattle.mw_record.specs.declared.layout.Layout.TheVariants.{First, Second};

use crate::layout::{
    BODY_SIZE, ENTRIES_AT, ENTRY_SIZE, FIRST_PLACES, HEAD_SIZE, Layout, PLACES_AT, WORD_SIZE,
    WORDS_AT, write_number,
};
use byteorder::{ByteOrder, LittleEndian};
use mw_words::{Entries, MAX_PLACES, MAX_WORDS};

/// Returns the head of a first layout with so many words, 1 to [`MAX_WORDS`], and so many record places, 1 to
/// [`FIRST_PLACES`].
pub fn header(words: u16, places: u16) -> [u8; HEAD_SIZE]
    requires some_word { 1 ≤ words }
    requires words_fit { words ≤ MAX_WORDS }
    requires some_place { 1 ≤ places }
    requires places_fit { places ≤ FIRST_PLACES }
    ensures { result ≡ spec.header First words places }
{
    head(Layout::First, words, places)
}

/// Returns the head of a second layout with so many words, 1 to [`MAX_WORDS`], and so many record places, 1 to
/// [`MAX_PLACES`].
pub fn header2(words: u16, places: u16) -> [u8; HEAD_SIZE]
    requires some_word { 1 ≤ words }
    requires words_fit { words ≤ MAX_WORDS }
    requires some_place { 1 ≤ places }
    requires places_fit { places ≤ MAX_PLACES }
    ensures { result ≡ spec.header Second words places }
{
    head(Layout::Second, words, places)
}

/// Returns the head of a layout with so many words and record places.
#[tactic(auto, unfolding(crate::specs::Layout::number_bytes))]
fn head(layout: Layout, words: u16, places: u16) -> [u8; HEAD_SIZE]
    ensures { result ≡ spec.header layout words places }
{
    let mut head = [0; HEAD_SIZE];
    head[..WORDS_AT].copy_from_slice(&layout.magic());
    LittleEndian::write_u32(&mut head[WORDS_AT..PLACES_AT], u32::from(words));
    LittleEndian::write_u16(&mut head[PLACES_AT..PLACES_AT + 2], places);
    head
}

/// Writes a whole second layout over these bytes, which must be as many as it has. It has these words, 1 to
/// [`MAX_WORDS`] of them, and so many record places, 1 to [`MAX_PLACES`], all of them closed.
pub fn write_second(out: &mut [u8], words: &[u64], places: u16)
    requires some_word { 1 ≤ length words.now }
    requires words_fit { length words.now ≤ MAX_WORDS }
    requires some_place { 1 ≤ places }
    requires places_fit { places ≤ MAX_PLACES }
    requires whole { length out.old ≡ spec.size Second (length words.now) places }
    ensures { out.new ≡ spec.second_part places words.now }
{
    clear(out);
    write_head(out, words.len() as u16, places);
    for (addr, word) in words.iter().enumerate() {
        write_number(out, HEAD_SIZE + WORD_SIZE * addr, *word);
    }
}

/// Sets all bytes to 0.
fn clear(out: &mut [u8])
    ensures { out.new ≡ replicate (length out.old) 0 }
{
    out.fill(0);
}

/// Writes the head of a second layout with so many words and record places over the first bytes.
fn write_head(out: &mut [u8], words: u16, places: u16)
    requires some_word { 1 ≤ words }
    requires words_fit { words ≤ MAX_WORDS }
    requires some_place { 1 ≤ places }
    requires places_fit { places ≤ MAX_PLACES }
    requires long { HEAD_SIZE ≤ length out.old }
    ensures { out.new ≡ spec.patched out.old 0 (spec.header Second words places) }
{
    out[..HEAD_SIZE].copy_from_slice(&header2(words, places));
}

/// Returns the bytes of a record place after its commit byte: the number of entries, six zeros, the address and
/// the new value of each entry, and zeros up to the place's end.
pub fn body(entries: &Entries) -> [u8; BODY_SIZE]
    ensures { result ≡ spec.body entries.now.items }
{
    let mut body = [0; BODY_SIZE];
    body[0] = entries.len() as u8;
    for (i, entry) in entries.iter().enumerate() {
        let at = ENTRIES_AT - 1 + ENTRY_SIZE * i;
        write_number(&mut body, at, u64::from(entry.addr));
        write_number(&mut body, at + WORD_SIZE, entry.new);
    }
    body
}

/// Returns the bytes of a home word of this value.
#[tactic(auto, unfolding(crate::specs::Layout::number_bytes))]
pub fn home_word(value: u64) -> [u8; WORD_SIZE]
    ensures bytes { result ≡ spec.number_bytes WORD_SIZE value }
    ensures fits { value < 256 ^ WORD_SIZE }
{
    let mut word = [0; WORD_SIZE];
    LittleEndian::write_u64(&mut word, value);
    word
}

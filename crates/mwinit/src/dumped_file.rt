//! Makes the bytes of a new file: all its words are 0, or they are those of a dump.
//!
//! Used by: `new_file`. `specs/Dump` says which file it is: change both together.
ghost use Rattle.std.specs.Prelude.{◌≡◌, ◌≤◌, ◌*◌, nat_le, true, slice_index, [], IfOk, MatchResult};
ghost use Rattle.mw_words.specs.declared.limits.TheConstants.{MAX_WORDS};
ghost use Rattle.mw_record.specs.declared.layout.TheConstants.{FIRST_PLACES, PLACES_GROW};
ghost use Rattle.mwinit.specs.Dump as spec;

use crate::dump::{Dump, DumpFault, Unread, read_dump};
use mw_record::{Image, Layout, PLACES_GROW, decode, header, size};
use std::alloc::{AllocError, Global};

/// Makes the bytes of a new file with the words of a dump, in a first layout with so many words and places. The
/// words at further addresses are 0.
///
/// # Errors
///
/// - [`DumpFault::NotWhole`] if `text` is not a whole dump.
/// - [`DumpFault::Words`] if the dump has more than `words` words.
/// - [`DumpFault::Places`] if it has more places than the new file has, after the first opening of each.
/// - [`DumpFault::CannotMake`] if memory was refused. The bytes are read again before they are returned, and this is
///   the fault too if they don't have the words.
pub fn file_of_dump(
    alloc: Global,
    text: &[u8],
    words: u16,
    places: u16,
) -> Result<Vec<u8>, DumpFault>
    requires some_word { 1 ≤ words }
    requires words_fit { words ≤ MAX_WORDS }
    requires some_place { 1 ≤ places }
    requires places_fit { places ≤ FIRST_PLACES }
    ensures ends { MatchResult result (λ bytes. spec.IsFileOfDump text.now bytes.items words places) (λ fault. spec.HasCause text.now words places fault) }
{
    let dump = match read_dump(alloc, text) {
        Ok(dump) => dump,
        Err(Unread::At(left)) => return Err(DumpFault::NotWhole(line_at(text, left))),
        Err(Unread::Memory) => return Err(DumpFault::CannotMake),
    };
    if dump.words.len() > words as usize {
        return Err(DumpFault::Words(dump.words.len(), words));
    }
    if !places_fit(&dump, places) {
        return Err(DumpFault::Places(least_places(&dump), places));
    }
    let Ok(bytes) = file_bytes(alloc, &dump.words, words, places) else {
        return Err(DumpFault::CannotMake);
    };
    if !is_new_file(&bytes, &dump.words, words, places) {
        return Err(DumpFault::CannotMake);
    }
    Ok(bytes)
}

/// Gives the number of the line that begins where so many bytes of a text are left. Lines count from 1.
fn line_at(text: &[u8], left: usize) -> usize {
    let read = text.len().saturating_sub(left);
    let mut line: usize = 1;
    for byte in &text[..read.min(text.len())] {
        if *byte == b'\n' {
            line = line.saturating_add(1);
        }
    }
    line
}

/// Gives how many places a new file is made with that has at least those of the dump, once both were opened.
fn least_places(dump: &Dump) -> u64 {
    if dump.has_second {
        dump.places.div_ceil(u64::from(PLACES_GROW))
    } else {
        dump.places
    }
}

/// Tells whether a new file with so many places has at least those of the dump, once both were opened.
fn places_fit(dump: &Dump, places: u16) -> bool
    requires { places ≤ FIRST_PLACES }
    ensures { result ≡ nat_le (spec.places_served dump.now.has_second dump.now.places) (PLACES_GROW * places) }
{
    if dump.has_second {
        dump.places <= u64::from(PLACES_GROW * places)
    } else {
        dump.places <= u64::from(places)
    }
}

/// Makes the bytes of a new file whose words are all 0, in a first layout with so many words and places.
///
/// # Errors
///
/// Memory was refused. The bytes are read again before they are returned, and this is the error too if they aren't such a
/// file.
pub fn file_of_zeros(alloc: Global, words: u16, places: u16) -> Result<Vec<u8>, AllocError>
    requires some_word { 1 ≤ words }
    requires words_fit { words ≤ MAX_WORDS }
    requires some_place { 1 ≤ places }
    requires places_fit { places ≤ FIRST_PLACES }
    ensures is_file { IfOk result (λ bytes. spec.IsNewFile [] words places bytes.items) }
{
    let bytes = file_bytes(alloc, &[], words, places)?;
    if !is_new_file(&bytes, &[], words, places) {
        return Err(AllocError);
    }
    Ok(bytes)
}

/// Makes the bytes of a new file: its head, the words that were told, and zeros.
fn file_bytes(alloc: Global, told: &[u64], words: u16, places: u16) -> Result<Vec<u8>, AllocError>
    requires some_word { 1 ≤ words }
    requires words_fit { words ≤ MAX_WORDS }
    requires some_place { 1 ≤ places }
    requires places_fit { places ≤ FIRST_PLACES }
{
    let mut bytes = Vec::from_slice(alloc, &header(words, places))?;
    for value in told {
        bytes.extend_from_slice(&value.to_le_bytes())?;
    }
    bytes.resize(size(words, places) as usize, 0)?;
    Ok(bytes)
}

/// Tells whether these are the bytes of a new file with so many words and places, that has the words that were told.
fn is_new_file(bytes: &[u8], told: &[u64], words: u16, places: u16) -> bool
    ensures { result ≡ true → spec.IsNewFile told.now words places bytes.now }
{
    let Ok(image) = decode(bytes) else {
        return false;
    };
    image.layout() == Layout::First
        && image.words() == words
        && image.places() == places
        && has_words(&image, told)
}

/// Tells whether a file has the words that were told, and 0 at all further addresses.
fn has_words(image: &Image<'_>, told: &[u64]) -> bool
    ensures { result ≡ true → spec.HasWords told.now image.now }
{
    for addr in 0..image.words() {
        if image.word(addr) != word_told(told, addr) {
            return false;
        }
    }
    true
}

/// Gives the word that was told at an address, or 0.
fn word_told(told: &[u64], addr: u16) -> u64
    ensures { result ≡ slice_index told.now addr }
{
    match told.get(addr as usize) {
        Some(value) => *value,
        None => 0,
    }
}

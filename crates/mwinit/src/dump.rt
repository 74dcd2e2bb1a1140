//! Reads a dump: the text that `mwshow --words` prints of a tenant's file.
//!
//! Used by: `new_file`, `dumped_file`. `specs/Dump` defines the text: change both together, and with them mw_file_text
//! and mwshow, which print it.
ghost use Rattle.std.specs.Prelude.{◌≡◌, ◌++◌, ◌≢◌, ℕ, List, codes, decimal, IfOk, IfSome, MatchOption, length};
ghost use Rattle.mwinit.specs.Dump as spec;

use mw_words::{MAX_ENTRIES, MAX_PLACES, MAX_VALUE};
use std::alloc::{AllocError, Global};
use thiserror::Error;

/// Tells why no file was made of a dump. Its text has a second line, which says more.
#[derive(Debug, Drop, Error)]
pub enum DumpFault {
    /// The text isn't all that is printed of a file without damage. This is the number of the first line that isn't so.
    #[error("mwinit: not a whole dump\nmwinit: line {0} isn't as mwshow --words prints it")]
    NotWhole(usize),
    /// The dump has so many words, and the new file is to have fewer.
    #[error("mwinit: more words in the dump\nmwinit: WORDS must be at least {0}, and is {1}")]
    Words(usize, u16),
    /// The dump has more record places than the new file will have, which would need to be made with at least so many.
    #[error("mwinit: more places in the dump\nmwinit: PLACES must be at least {0}, and is {1}")]
    Places(u64, u16),
    /// Memory was refused, or the bytes that were made don't read as the words of the dump.
    #[error("mwinit: cannot make\nmwinit: memory")]
    CannotMake,
}

/// Tells why a text was not read as a dump.
#[derive(Drop)]
pub enum Unread {
    /// It isn't a whole dump from a line on: so many bytes are left from there.
    At(usize),
    /// Memory was refused.
    Memory,
}

impl From<AllocError> for Unread {
    fn from(_: AllocError) -> Self {
        Unread::Memory
    }
}

/// What a dump says of a file.
#[derive(Drop)]
pub struct Dump {
    /// Whether the file's second layout is in use.
    pub has_second: bool,
    /// How many record places the layout in use has.
    pub places: u64,
    /// The words at all addresses.
    pub words: Vec<u64>,
}

/// Reads the text of a dump.
///
/// # Errors
///
/// As [`Unread`] tells.
pub fn read_dump(alloc: Global, text: &[u8]) -> Result<Dump, Unread>
    ensures { IfOk result (λ dump. spec.IsDump text.now dump.has_second dump.places dump.words.items) }
{
    let (has_second, sizes) = after_layout(alloc, text)?;
    let (number, after) = number_after(alloc, "words ", sizes)?;
    let (places, entries) = number_after(alloc, "places ", after)?;
    let lines = after_entries(alloc, entries)?;
    let words = read_words(alloc, number, lines)?;
    Ok(Dump {
        has_second,
        places,
        words,
    })
}

/// Reads the line of a second layout, if there is one. Gives whether there is, and the text after it.
fn after_layout(alloc: Global, text: &[u8]) -> Result<(bool, &[u8]), Unread>
    ensures { IfOk result (λ x. (at : ℕ) × (text.now ≡ spec.layout_line x.0 at ++ x.1.now)) }
{
    match number_line(alloc, "second layout at ", text)? {
        Some((_, behind)) => Ok((true, behind)),
        None => Ok((false, text)),
    }
}

/// Reads the lines of all entries of open records. Gives the text after them.
fn after_entries(alloc: Global, text: &[u8]) -> Result<&[u8], Unread>
    ensures { IfOk result (λ x. spec.HasEntries text.now x.now) }
{
    let mut rest = text;
    for _ in 0..MAX_PLACES as usize * MAX_ENTRIES {
        let Some(behind) = after_entry(alloc, rest)? else {
            break;
        };
        rest = behind;
    }
    Ok(rest)
}

/// Reads the line of an entry of an open record, if one is first. Gives the text after it.
fn after_entry(alloc: Global, text: &[u8]) -> Result<Option<&[u8]>, Unread>
    ensures { IfOk result (λ x. IfSome x (λ behind. (entry : ℕ × ℕ × ℕ) × (text.now ≡ spec.open_line entry ++ behind.now))) }
{
    let Some(numbers) = behind(b"open ", text) else {
        return Ok(None);
    };
    let (place, rest) = first_number(numbers);
    let (addr, rest) = first_number(rest);
    let (value, _) = first_number(rest);
    let line = format!(in alloc; "open {place} {addr} {value}\n")?;
    Ok(behind(line.as_bytes(), text))
}

/// Reads the lines of so many words, which must be all of the text.
fn read_words(alloc: Global, number: u64, text: &[u8]) -> Result<Vec<u64>, Unread>
    ensures text { IfOk result (λ words. text.now ≡ spec.words_text 0 words.items) }
    ensures number { IfOk result (λ words. length words.items ≡ number) }
{
    let mut words = Vec::new(alloc);
    let mut rest = text;
    for addr in 0..number {
        let (value, behind) = read_word(alloc, addr, rest)?;
        rest = behind;
        match words.push(value) {
            Ok(()) => {}
            Err(_) => return Err(Unread::Memory),
        }
    }
    if number == 0 || !rest.is_empty() {
        return Err(Unread::At(rest.len()));
    }
    Ok(words)
}

/// Reads the line of the word at an address. Gives its value, at most [`MAX_VALUE`], and the text after it.
fn read_word(alloc: Global, addr: u64, text: &[u8]) -> Result<(u64, &[u8]), Unread>
    ensures { IfOk result (λ x. text.now ≡ spec.word_line addr x.0 ++ x.1.now) }
{
    let front = format!(in alloc; "word {addr} ")?;
    match number_line(alloc, front.as_str(), text)? {
        Some((value, behind)) if value <= MAX_VALUE => Ok((value, behind)),
        _ => Err(Unread::At(text.len())),
    }
}

/// Reads a line of a text and a number behind it. Gives the number and the text after the line.
fn number_after<'a>(alloc: Global, front: &str, text: &'a [u8]) -> Result<(u64, &'a [u8]), Unread>
    ensures { IfOk result (λ x. text.now ≡ spec.number_line front.now x.0 ++ x.1.now) }
{
    match number_line(alloc, front, text)? {
        Some(found) => Ok(found),
        None => Err(Unread::At(text.len())),
    }
}

/// Reads a line of a text and a number behind it, if it is first. Gives the number and the text after the line.
fn number_line<'a>(
    alloc: Global,
    front: &str,
    text: &'a [u8],
) -> Result<Option<(u64, &'a [u8])>, AllocError>
    ensures { IfOk result (λ x. IfSome x (λ found. text.now ≡ spec.number_line front.now found.0 ++ found.1.now)) }
{
    let Some(rest) = behind(front.as_bytes(), text) else {
        return Ok(None);
    };
    let (number, _) = first_number(rest);
    let line = format!(in alloc; "{front}{number}\n")?;
    match behind(line.as_bytes(), text) {
        Some(behind) => Ok(Some((number, behind))),
        None => Ok(None),
    }
}

/// Gives the text after `front`, if it begins so.
fn behind<'a>(front: &[u8], text: &'a [u8]) -> Option<&'a [u8]>
    ensures { MatchOption result ((rest : List ℕ) → text.now ≢ front.now ++ rest) (λ x. text.now ≡ front.now ++ x.now) }
{
    text.strip_prefix(front)
}

/// Gives the number that the first digits make, or the greatest where it is larger, and the text after the byte
/// that ends them. Without digits it is 0.
fn first_number(text: &[u8]) -> (u64, &[u8]) {
    let mut number: u64 = 0;
    let mut rest = text;
    while let [byte, after @ ..] = rest {
        rest = after;
        if !byte.is_ascii_digit() {
            break;
        }
        number = number
            .saturating_mul(10)
            .saturating_add(u64::from(*byte - b'0'));
    }
    (number, rest)
}

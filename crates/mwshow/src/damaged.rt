//! Finds the byte at which a file's damaged part begins.
//!
//! Used by: `lines`. `specs/Places` defines that byte: change both together.
ghost use Rattle.std.specs.Prelude.{◌≡◌, ◌≤◌, IfOk, Some, length};
ghost use Rattle.mw_record.specs.declared.layout.TheConstants.{HEAD_SIZE};
ghost use Rattle.mw_record.specs.Damages.{at_of, damage_of, found_places, layout_of, second_at, words_of};
ghost use Rattle.mw_record.specs.LayoutBytes.{places_told, words_told};
ghost use Rattle.mwshow.specs.Places as spec;

use crate::sized::SizedFile;
use byteorder::{ByteOrder, LittleEndian};
use mw_record::{
    COMMITTED, Damage, HEAD_SIZE, Layout, MAX_FIRST, PLACES_AT, SECOND_AT, SWITCH_AT, WORD_SIZE,
    WORDS_AT,
};
use mw_words::MAX_WORDS;
use std::alloc::{AllocError, Global};

/// Gives the byte at which the damaged part begins, counted from the beginning of the file.
/// - The part is the record place, the home word, or the sizes in the head of the layout that is valid.
/// - If the file doesn't begin as such a file does, the byte is 0.
/// - If the file is too short, it is the first byte that is missing.
/// - If no second layout begins, it is the offset at which one should; if none may begin at that offset, it
///   is the byte of that offset in the head.
///
/// # Errors
///
/// Memory was refused.
pub fn damage_byte(alloc: Global, bytes: &[u8], damage: Damage) -> Result<u64, AllocError>
    requires { damage_of bytes.now ≡ Some damage }
    ensures { IfOk result (λ byte. byte ≡ spec.byte_of damage bytes.now) }
{
    match damage {
        Damage::Short => Ok(bytes.len() as u64),
        Damage::NotThisFormat => Ok(0),
        Damage::SecondLayout => Ok(second_byte(bytes)),
        Damage::Sizes => Ok(sizes_byte(bytes)),
        Damage::Record | Damage::Overlap => sized(bytes).place_byte(alloc, damage),
        Damage::Value => sized(bytes).value_byte(alloc),
    }
}

/// Gives the offset at which the second layout should begin, or, if none may begin there, the byte of that
/// offset.
fn second_byte(bytes: &[u8]) -> u64
    requires { HEAD_SIZE ≤ length bytes.now }
    ensures { result ≡ spec.second_byte (second_at bytes.now) }
{
    let at = second_offset(bytes);
    if at < HEAD_SIZE as u64 || at > MAX_FIRST as u64 {
        return SECOND_AT as u64;
    }
    at
}

/// Gives the byte of the number of words if a file may not have so many, else that of the number of record
/// places.
fn sizes_byte(bytes: &[u8]) -> u64
    requires long { HEAD_SIZE ≤ length bytes.now }
    requires head { spec.HasHead (at_of bytes.now) bytes.now }
    ensures { result ≡ spec.sizes_byte (at_of bytes.now) (words_of bytes.now) }
{
    let (_, at) = told_layout(bytes);
    let words = told_words(&bytes[at as usize..]);
    if words == 0 || words > u32::from(MAX_WORDS) {
        return at + WORDS_AT as u64;
    }
    at + PLACES_AT as u64
}

/// Gives the file with its valid layout, and the sizes that its head tells.
fn sized(bytes: &[u8]) -> SizedFile<'_>
    requires long { HEAD_SIZE ≤ length bytes.now }
    requires sized { spec.IsSized (layout_of bytes.now) (at_of bytes.now) (words_of bytes.now) (found_places bytes.now) bytes.now }
    ensures bytes { result.bytes.now ≡ bytes.now }
    ensures layout { result.layout ≡ layout_of bytes.now }
    ensures at { result.at ≡ at_of bytes.now }
    ensures words { result.words ≡ words_of bytes.now }
    ensures places { result.places ≡ found_places bytes.now }
{
    let (layout, at) = told_layout(bytes);
    let part = &bytes[at as usize..];
    SizedFile {
        bytes,
        layout,
        at,
        words: told_words(part) as u16,
        places: told_places(part),
    }
}

/// Gives the layout that is valid, and the offset at which it begins.
fn told_layout(bytes: &[u8]) -> (Layout, u64)
    requires { HEAD_SIZE ≤ length bytes.now }
    ensures layout { result.0 ≡ layout_of bytes.now }
    ensures at { result.1 ≡ at_of bytes.now }
{
    if bytes[SWITCH_AT] == COMMITTED {
        (Layout::Second, second_offset(bytes))
    } else {
        (Layout::First, 0)
    }
}

/// Gives the offset of the second layout that the head of a file tells.
#[tactic(auto, unfolding(mw_record::specs::Layout::number_at))]
fn second_offset(bytes: &[u8]) -> u64
    requires { HEAD_SIZE ≤ length bytes.now }
    ensures { result ≡ second_at bytes.now }
{
    LittleEndian::read_u64(&bytes[SECOND_AT..SECOND_AT + WORD_SIZE])
}

/// Gives the number of words that the head of a layout tells.
#[tactic(auto, unfolding(mw_record::specs::Layout::number_at))]
fn told_words(part: &[u8]) -> u32
    requires { HEAD_SIZE ≤ length part.now }
    ensures { result ≡ words_told part.now }
{
    LittleEndian::read_u32(&part[WORDS_AT..PLACES_AT])
}

/// Gives the number of record places that the head of a layout tells.
#[tactic(auto, unfolding(mw_record::specs::Layout::number_at))]
fn told_places(part: &[u8]) -> u16
    requires { HEAD_SIZE ≤ length part.now }
    ensures { result ≡ places_told part.now }
{
    LittleEndian::read_u16(&part[PLACES_AT..PLACES_AT + 2])
}

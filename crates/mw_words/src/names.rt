//! A tenant's name: its type, and the test whether some bytes are a name.
//!
//! Used by: many crates from mw_line on. A change of [`is_name`] changes `specs/Name`, docs/PROTOCOL, docs/OPERATING,
//! docs/SCHEDULES and the clients (clients/).
ghost use Rattle.std.specs.Prelude.{◌≡◌};
ghost use Rattle.std.specs.List.{list_all};
ghost use Rattle.mw_words.specs.Name as spec;

use crate::limits::MAX_NAME;
use arrayvec::ArrayVec;

/// A tenant's name: a letter `a` to `z`, and then up to 15 of `a` to `z`, `0` to `9` and `-`.
pub type Name = ArrayVec<u8, MAX_NAME>;

/// Returns an equal name. Takes no memory.
pub fn copy_of_name(name: &Name) -> Name
    ensures { result ≡ name.now }
{
    let mut copy = Name::new();
    for i in 0..name.len() {
        copy.push(name[i]);
    }
    copy
}

/// Tells whether these bytes are a tenant's name.
pub fn is_name(text: &[u8]) -> bool
    ensures { result ≡ spec.is_name text.now }
{
    match text {
        [] => false,
        [first, ..] => {
            first.is_ascii_lowercase() && text.len() <= MAX_NAME && are_name_bytes(text)
        }
    }
}

fn are_name_bytes(text: &[u8]) -> bool
    ensures { result ≡ list_all spec.is_name_byte text.now }
{
    text.iter().all(is_name_byte)
}

fn is_name_byte(byte: &u8) -> bool
    ensures { result ≡ spec.is_name_byte byte.now }
{
    byte.is_ascii_lowercase() || byte.is_ascii_digit() || *byte == b'-'
}

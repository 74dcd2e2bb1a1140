//! A tenant's line as an engine keeps it: its name, number of words, quota and places.
//!
//! Used by: `new_parts`, `tenant_words`. `specs/Lines` says which line it is: change it with a field.
use mw_words::Name;

/// A tenant's line without the path: its name, its number of words and its quota. With it, how many places for
/// changes the tenant's file has: 0 if the file didn't open.
#[derive(Default, Drop)]
pub(crate) struct Listed {
    pub(crate) name: Name,
    pub(crate) words: u16,
    pub(crate) quota: u8,
    pub(crate) places: u8,
}

//! Reads the lines of a tenants file, before any limit is checked.
//!
//! Used by: `tenants.rt`; mw_plain, mw_engine, mw_opening, mw_upkeep and mw_programs, for [`TenantLine`]. A new field needs a
//! place in `specs/LineTexts`.
ghost use Rattle.std.specs.Prelude.{◌≡◌, MatchOption, true, false};
ghost use Rattle.std.specs.List.{list_all};
ghost use Rattle.mw_line.specs.LineReader.{Gives, narrow};
ghost use Rattle.mw_words.specs.Name as name_spec;
ghost use Rattle.mw_config.specs.LineTexts as spelling;
ghost use Rattle.mw_config.specs.LineTexts.{line_of};
ghost use Rattle.mw_config.specs.Limits as limits;
ghost use Rattle.mw_config.specs.LineReader as spec;
ghost use Rattle.mw_config.specs.LineReader.{line_of_fields};

use arrayvec::ArrayString;
use mw_line::{address_at as number_at, behind, field};
use mw_words::{MAX_PATH, Name, is_name};
use std::str;

/// A tenant, as its line in the tenants file tells it.
#[derive(Default, Drop)]
pub struct TenantLine {
    /// The tenant's name.
    pub name: Name,
    /// How many words it has, 1 to [`mw_words::MAX_WORDS`].
    pub words: u16,
    /// How many changes it may have under way at a time, 1 to [`mw_words::MAX_QUOTA`].
    pub quota: u8,
    /// The path of its file.
    pub path: ArrayString<MAX_PATH>,
}

/// The fields of a line. A number of more than 16 bits is `u16::MAX` here.
#[derive(Drop)]
pub struct Told {
    /// The tenant's name.
    pub name: Name,
    /// How many words it has.
    pub words: u16,
    /// How many changes it may have under way at a time.
    pub quota: u16,
    /// The path of its file.
    pub path: ArrayString<MAX_PATH>,
}

impl Told {
    /// Tells whether a tenant has another name and another path.
    pub fn differs_from(&self, tenant: &TenantLine) -> bool
        ensures { result ≡ limits.differ (line_of tenant.now) (line_of_fields self.now) }
    {
        tenant.name.as_slice() != self.name.as_slice() && tenant.path.as_str() != self.path.as_str()
    }
}

/// Reads the first line of `text`. Gives its fields and the bytes after it.
#[tactic(auto, unfolding(crate::specs::LineReader::line_at))]
pub fn fields_at(text: &[u8]) -> Option<(Told, &[u8])>
    ensures { Gives (λ x. (line_of_fields x.0, x.1.now)) result (spec.line_at narrow.addr text.now) }
{
    let (name, rest) = field(b' ', text)?;
    let (words, rest) = number_field(rest)?;
    let (quota, rest) = number_field(rest)?;
    let (path, rest) = field(b'\n', rest)?;
    Some((told_by(name, words, quota, path)?, rest))
}

/// Reads the number at the front of `text` and the space after it. Gives the number and the bytes after the space.
fn number_field(text: &[u8]) -> Option<(u16, &[u8])>
    ensures { Gives (λ x. (x.0, x.1.now)) result (spec.number_field narrow.addr text.now) }
{
    let (number, rest) = number_at(text)?;
    Some((number, behind(b" ", rest)?))
}

/// Makes the fields of a line whose name and path are these texts, if they are a name and a path.
fn told_by(name: &[u8], words: u16, quota: u16, path: &[u8]) -> Option<Told>
    ensures { Gives line_of_fields result (spec.line_by name.now words quota path.now) }
{
    Some(Told {
        name: read_name(name)?,
        words,
        quota,
        path: read_path(path)?,
    })
}

fn read_name(text: &[u8]) -> Option<Name>
    ensures { MatchOption result (name_spec.is_name text.now ≡ false)
        (λ name. (name_spec.is_name text.now ≡ true) × (name.items ≡ text.now)) }
{
    if !is_name(text) {
        return None;
    }
    Name::try_from(text).ok()
}

fn read_path(text: &[u8]) -> Option<ArrayString<MAX_PATH>>
    ensures { MatchOption result (spelling.is_path text.now ≡ false)
        (λ path. (spelling.is_path text.now ≡ true) × (path.bytes ≡ text.now)) }
{
    if !is_path(text) {
        return None;
    }
    let Ok(path) = str::from_utf8(text) else {
        return None;
    };
    ArrayString::from(path).ok()
}

pub(crate) fn is_path(text: &[u8]) -> bool
    ensures { result ≡ spelling.is_path text.now }
{
    (1..=MAX_PATH).contains(&text.len()) && are_path_bytes(text)
}

pub(crate) fn are_path_bytes(text: &[u8]) -> bool
    ensures { result ≡ list_all spelling.is_path_byte text.now }
{
    text.iter().all(|byte| (b'!'..=b'~').contains(byte))
}

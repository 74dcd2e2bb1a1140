//! Reads the entries of a `CAS` line one by one, and tells the first fault among them.
//!
//! Only `requests.rt` calls it. It may change with `specs/EntryList`, as long as `read_line` keeps its contract.
ghost use Rattle.std.specs.Prelude.{◌≡◌, ◌<◌, ◌++◌, List, [], ◌∷◌, length, MatchResult};
ghost use Rattle.mw_line.specs.Grammar.{Cas};
ghost use Rattle.std.specs.List.{list_all};
ghost use Rattle.mw_words.specs.declared.jobs.Entry.{Entry as EntryRead};
ghost use Rattle.mw_line.specs.Limits as limits;
ghost use Rattle.mw_line.specs.LineReader as spec;
ghost use Rattle.mw_line.specs.LineReader.{Gives, narrow};
ghost use Rattle.mw_line.specs.EntryList.{Lists, ListsAll, Adds};

use crate::numbers::{address_at, behind, value_at};
use crate::requests::LineFault;
use mw_words::{Entries, Entry, MAX_VALUE, MAX_WORDS, rises};

/// The entries of a line: as many as a change may have, and whether there are more. A number that is too large for
/// its field is kept as the field's greatest value, which no limit allows.
#[derive(Drop)]
pub struct Listing {
    /// The first entries, at most as many as a change may have.
    pub kept: Entries,
    /// Whether the line has more entries.
    pub more: bool,
}

/// Reads entries, each with a space before it, to the end of the bytes. `None` if the bytes are anything else.
pub fn listing_of(bytes: &[u8]) -> Option<Listing>
    ensures { ListsAll (spec.entries_of narrow (length bytes.now) bytes.now) result }
{
    let mut listing = Listing::new();
    let mut rest = bytes;
    while !rest.is_empty() {
        let (entry, after) = entry_at(behind(b" ", rest)?)?;
        listing.note(entry);
        rest = after;
    }
    Some(listing)
}

/// Reads the first entry: its address, its expected value and its new value, with colons between them.
#[tactic(auto, unfolding(crate::specs::LineReader::entry_at))]
fn entry_at(bytes: &[u8]) -> Option<(Entry, &[u8])>
    ensures { Gives (λ x. (x.0, x.1.now)) result (spec.entry_at narrow bytes.now) }
{
    let (addr, rest) = address_at(bytes)?;
    let (expected, rest) = value_at(behind(b":", rest)?)?;
    let (new, rest) = value_at(behind(b":", rest)?)?;
    let entry = Entry {
        addr,
        expected,
        new,
    };
    Some((entry, rest))
}

impl Listing {
    fn new() -> Listing
        ensures { Lists [] result }
    {
        Listing {
            kept: Entries::new(),
            more: false,
        }
    }

    fn note(&mut self, entry: Entry)
        ensures { Adds self.old entry self.new }
    {
        if self.kept.try_push(entry).is_err() {
            self.more = true;
        }
    }

    /// Gives the change of these entries, of which there must be at least one.
    ///
    /// # Errors
    ///
    /// The change's first fault: see [`LineFault`].
    pub fn change(self) -> Result<Entries, LineFault>
        ensures { (es : List EntryRead) → 0 < length es → Lists es self
            → MatchResult result
            (λ change. (limits.first_fault (Cas es) ≡ None) × (change.items ≡ es))
            (λ fault. limits.first_fault (Cas es) ≡ Some fault) }
    {
        if self.more {
            return Err(LineFault::TooManyEntries);
        }
        if !values_fit(&self.kept) {
            return Err(LineFault::ValueRange);
        }
        if !addresses_fit(&self.kept) {
            return Err(LineFault::AddressRange);
        }
        if !rises(&self.kept) {
            return Err(LineFault::AddressOrder);
        }
        Ok(self.kept)
    }
}

fn values_fit(entries: &[Entry]) -> bool
    ensures { result ≡ list_all limits.values_fit entries.now }
{
    entries.iter().all(|entry| entry.expected <= MAX_VALUE && entry.new <= MAX_VALUE)
}

fn addresses_fit(entries: &[Entry]) -> bool
    ensures { result ≡ list_all limits.addr_fits entries.now }
{
    entries.iter().all(|entry| entry.addr < MAX_WORDS)
}

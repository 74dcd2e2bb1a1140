//! Defines a tenant's operations, its *jobs*: to read one word, or to make a change (a multi-word compare-and-swap);
//! and when a job is well formed.
//!
//! Every layer uses [`Job`] and [`Entry`]. CONTRIBUTING lists under *A command* what a new job needs.
ghost use Rattle.std.specs.Prelude.{◌≡◌};
ghost use Rattle.std.specs.List.{list_all};
ghost use Rattle.mw_words.specs.Change as spec;

use crate::limits::{MAX_ENTRIES, MAX_VALUE};
use arrayvec::ArrayVec;

/// One word's part in a change: the word's address, the value that it must have, and its new value.
#[derive(Clone, Copy, Default, PartialEq, Eq)]
pub struct Entry {
    /// The word's address.
    pub addr: u16,
    /// The value that the word must have, at most [`MAX_VALUE`].
    pub expected: u64,
    /// The value that the change writes, at most [`MAX_VALUE`].
    pub new: u64,
}

/// The entries of one change, at rising addresses.
pub type Entries = ArrayVec<Entry, MAX_ENTRIES>;

/// What a tenant asks for: a read or a change.
#[derive(PartialEq, Eq, Drop)]
pub enum Job {
    /// The value of the word at this address.
    Get(u16),
    /// Compares each entry's word with its expected value. If all are equal, writes all new values.
    Cas(Entries),
}

impl Job {
    /// Returns an equal job.
    pub fn copy(&self) -> Job
        ensures { result ≡ self.now }
    {
        match self {
            Job::Get(addr) => Job::Get(*addr),
            Job::Cas(entries) => Job::Cas(copy_of(entries)),
        }
    }

    /// Tells whether a tenant with so many words may ask for this: its addresses are below `words`, and a
    /// change is well formed.
    pub fn is_well_formed(&self, words: usize) -> bool
        ensures { result ≡ spec.is_well_formed words self.now }
    {
        match self {
            Job::Get(addr) => (*addr as usize) < words,
            Job::Cas(entries) => is_change(entries, words),
        }
    }
}

/// Returns equal entries. Takes no memory.
pub fn copy_of(entries: &Entries) -> Entries
    ensures { result ≡ entries.now }
{
    let mut copy = Entries::new();
    for i in 0..entries.len() {
        copy.push(entries[i]);
    }
    copy
}

/// Tells whether these entries are a change of a tenant with so many words: 1 to [`MAX_ENTRIES`] of them, at
/// strictly rising addresses below `words`, with values of at most [`MAX_VALUE`].
pub fn is_change(entries: &Entries, words: usize) -> bool
    ensures { result ≡ spec.is_change words entries.now.items }
{
    (1..=MAX_ENTRIES).contains(&entries.len()) && all_in_range(entries, words) && rises(entries)
}

fn all_in_range(entries: &[Entry], words: usize) -> bool
    ensures { result ≡ list_all (spec.is_in_range words) entries.now }
{
    entries.iter().all(|entry| is_in_range(entry, words))
}

fn is_in_range(entry: &Entry, words: usize) -> bool
    ensures { result ≡ spec.is_in_range words entry.now }
{
    (entry.addr as usize) < words && entry.expected <= MAX_VALUE && entry.new <= MAX_VALUE
}

/// Tells whether each address is above the one before it.
pub fn rises(entries: &[Entry]) -> bool
    ensures { result ≡ spec.rises entries.now }
{
    let mut lowest: u32 = 0;
    for entry in entries {
        if u32::from(entry.addr) < lowest {
            return false;
        }
        lowest = u32::from(entry.addr) + 1;
    }
    true
}

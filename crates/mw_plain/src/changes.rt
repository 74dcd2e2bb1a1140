//! Reads a tenant's words, compares them with the values that a change expects, and writes its new values into them.
//!
//! Called by `loaded_file.rt`, `asked.rt` and `lone.rt`.
ghost use Rattle.std.specs.Prelude.{◌≡◌, ◌<◌, length, IsTrue, MatchOption};
ghost use Rattle.std.specs.List.{list_all};
ghost use Rattle.mw_words.specs.Change as spec;
ghost use Rattle.mw_words.specs.Change.{is_in_range, fits};
ghost use Rattle.mw_plain.specs.Misses.{IsFirstMiss};

use mw_words::Entry;

/// Gives the word at an address.
pub(crate) fn word_at(words: &[u64], addr: u16) -> u64
    requires { addr < length words.now }
    ensures { result ≡ spec.word_at words.now addr }
{
    words[addr as usize]
}

/// Whether the word at every entry's address is that entry's expected value.
pub(crate) fn fits(words: &[u64], entries: &[Entry]) -> bool
    requires { IsTrue (list_all (is_in_range (length words.now)) entries.now) }
    ensures { result ≡ spec.fits words.now entries.now }
{
    for entry in entries {
        if word_at(words, entry.addr) != entry.expected {
            return false;
        }
    }
    true
}

/// Finds the first entry whose word doesn't have the expected value.
pub(crate) fn first_miss(words: &[u64], entries: &[Entry]) -> Option<Entry>
    requires { IsTrue (list_all (is_in_range (length words.now)) entries.now) }
    ensures { MatchOption result (IsTrue (fits words.now entries.now)) (IsFirstMiss words.now entries.now) }
{
    for entry in entries {
        if words[entry.addr as usize] != entry.expected {
            return Some(*entry);
        }
    }
    None
}

/// Puts every entry's new value at its address.
pub(crate) fn put(words: &mut [u64], entries: &[Entry])
    requires { IsTrue (list_all (is_in_range (length words.old)) entries.now) }
    ensures { words.new ≡ spec.put words.old entries.now }
{
    for entry in entries {
        words[entry.addr as usize] = entry.new;
    }
}

//! Tests which changes are well formed, and which texts are names.
use crate::checks::holds;
use mw_words::*;

/// Entries by address and new value, of words that have the value 0; and whether they are a change of four words.
static CHANGES: [(&[(u16, u64)], bool); 6] = [
    (&[], false),
    (&[(0, 1)], true),
    (&[(0, MAX_VALUE), (3, 1)], true),
    (&[(0, MAX_VALUE + 1)], false),
    (&[(4, 1)], false),
    (&[(2, 1), (2, 1)], false),
];

/// Makes entries of words that have the value 0, with these addresses and new values.
pub(crate) fn entries_of(parts: &[(u16, u64)]) -> Option<Entries> {
    let mut entries = Entries::new();
    for (addr, new) in parts {
        let entry = Entry {
            addr: *addr,
            expected: 0,
            new: *new,
        };
        entries.try_push(entry).ok()?;
    }
    Some(entries)
}

/// Tells whether these entries are a change of four words, or none, as is wanted, and a copy of them is the
/// same.
fn is_so(parts: &[(u16, u64)], wanted: bool) -> bool {
    let Some(entries) = entries_of(parts) else {
        return false;
    };
    let is_so = is_change(&entries, 4) == wanted && copy_of(&entries) == entries;
    is_so && Job::Cas(entries).copy().is_well_formed(4) == wanted
}

/// Texts, and whether each is a name.
static NAMES: [(&str, bool); 10] = [
    ("t", true),
    ("a-0", true),
    ("abcdefghijklmnop", true),
    ("", false),
    ("T", false),
    ("0a", false),
    ("-a", false),
    ("a b", false),
    ("aB", false),
    ("abcdefghijklmnopq", false),
];

/// Tells whether these bytes are a name, or none, as is wanted, and a copy of a name is the same.
fn is_right(bytes: &[u8], wanted: bool) -> bool {
    if is_name(bytes) != wanted {
        return false;
    }
    match Name::try_from(bytes) {
        Ok(name) => !wanted || copy_of_name(&name) == name,
        Err(_) => !wanted,
    }
}

#[test]
fn changes_that_are_well_formed_and_not(rt: HostRuntime) {
    for (at, (parts, wanted)) in CHANGES.iter().enumerate() {
        holds(&rt, "a change", at, is_so(parts, *wanted));
    }
    let (last, past) = (Job::Get(3), Job::Get(4).copy());
    let is_right = last.is_well_formed(4) && !past.is_well_formed(4);
    holds(&rt, "a read", 4, is_right);
}

#[test]
fn names(rt: HostRuntime) {
    for (text, wanted) in &NAMES {
        holds(&rt, text, 0, is_right(text.as_bytes(), *wanted));
    }
}

//! Checks what must hold of a larger world at every moment, group by group, as far as what is seen shows it.
//!
//! Used by: `larger/planted_faults`, `larger/tests`. Each module below checks one kind of thing. Nothing is proved of
//! these checks: they must stay true of every run, and refuse the planted faults of their groups
//! (`planted_faults.rt`).

use crate::larger::clauses::changes::changes_hold;
use crate::larger::clauses::slots::{shares_hold, slots_hold};
use crate::larger::clauses::words::words_hold;
use crate::larger::clauses::workers::workers_hold;
use crate::larger::seen::Seen;
use crate::shares::can_be;
use mw_words::MAX_POOL;

mod changes;
mod slots;
mod words;
mod workers;

/// A group of what must hold.
#[derive(Clone, Copy)]
pub(crate) enum Group {
    /// No shared word has bits that no word of its kind has.
    Bits,
    /// Each request is its worker's, is of one of the tenants, and is well formed. The change of a call on a
    /// file is one of its tenant, and its slot is taken and pinned.
    Requests,
    /// A slot is taken for a change that claimed it, and earlier changes have lower numbers. No row names a
    /// slot that isn't there.
    Claims,
    /// While a slot is taken and its change is no draft, the slot has the change's status and entries.
    Slots,
    /// Each reference in a word, and the row of each attempt in a word, names a slot that is taken and pinned,
    /// and a change of this word that has left it so.
    References,
    /// No attempt is in two words, no attempt of which a worker knows has the number of a later one, and none
    /// is for a draft.
    Attempts,
    /// Each word of a change is as the change's status allows. A word that the change holds or has written
    /// names the change.
    Words,
    /// Each word of a change that was decided to be made was held once. If a helper may still hold a word for a
    /// change, and finds the attempt there, then the word was never held for the change, the change is not
    /// made, and the row names that change.
    Late,
    /// A word that is held for a refused change will be released. The owner of a change that is neither refused
    /// nor done is there, or has left its pin. For a word that a change has written, the worker that cleans it
    /// is there, or has left its pin.
    Releaser,
    /// The values of the words are those of the file, if it opened. No two sealed changes of a tenant write to
    /// the same word.
    Files,
    /// No more of a tenant's changes are in its file than its quota.
    Places,
    /// A gate counts the pins that are held or were left behind. If a slot is taken and has no pin, one request
    /// will free it. A door counts the slots that are taken for its tenant and the requests that wait, no more
    /// than the quota.
    Counts,
    /// The quotas fit. Each is within its limits and at most the number of places of its tenant's file, and
    /// together they are at most the pool.
    Limits,
}

/// All groups, with their names.
pub(crate) static GROUPS: [(Group, &str); 13] = [
    (Group::Bits, "bits"),
    (Group::Requests, "requests"),
    (Group::Claims, "claims"),
    (Group::Slots, "slots"),
    (Group::References, "references"),
    (Group::Attempts, "attempts"),
    (Group::Words, "words"),
    (Group::Late, "late"),
    (Group::Releaser, "owed"),
    (Group::Files, "files"),
    (Group::Places, "places"),
    (Group::Counts, "counts"),
    (Group::Limits, "limits"),
];

/// Gives the name of the first group that doesn't hold.
pub(crate) fn broken(seen: &Seen) -> Option<&'static str> {
    for (group, name) in &GROUPS {
        if !group_holds(seen, *group) {
            return Some(*name);
        }
    }
    None
}

/// Tells whether a group holds.
pub(crate) fn group_holds(seen: &Seen, group: Group) -> bool {
    match group {
        Group::Bits => !seen.is_junk,
        Group::Requests => workers_hold(seen, group),
        Group::Claims => {
            !seen.past.is_stray
                && slots_hold(seen, group)
                && changes_hold(seen, group)
                && workers_hold(seen, group)
        }
        Group::Slots | Group::Words => changes_hold(seen, group),
        Group::References => words_hold(seen, group),
        Group::Attempts => words_hold(seen, group) && workers_hold(seen, group),
        Group::Late => changes_hold(seen, group) && workers_hold(seen, group),
        Group::Releaser | Group::Files => words_hold(seen, group) && changes_hold(seen, group),
        Group::Places => shares_hold(seen, group),
        Group::Counts => {
            slots_hold(seen, group) && shares_hold(seen, group) && changes_hold(seen, group)
        }
        Group::Limits => {
            let slots = seen.slots.len();
            slots <= usize::from(MAX_POOL) && can_be(&seen.shares, slots as u64)
        }
    }
}

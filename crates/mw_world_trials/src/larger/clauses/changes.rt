//! Checks what must hold of each change at every moment.
//!
//! Used by: `clauses`, which says what each group is, and what may change here; `workers`.

use crate::larger::clauses::Group;
use crate::larger::past::{Change, Held};
use crate::larger::pins::owner_of;
use crate::larger::seen::Seen;
use mw_actor::Slot;
use mw_words::{Entry, Status, Word};
use mw_world::Phase;

/// Tells whether a group holds of all changes.
pub(super) fn changes_hold(seen: &Seen, group: Group) -> bool {
    for change in &seen.past.changes {
        if !change_holds(seen, group, change) {
            return false;
        }
    }
    true
}

fn change_holds(seen: &Seen, group: Group, change: &Change) -> bool {
    match group {
        Group::Claims => {
            let is_earlier = change.slot.seq < seen.gate(change.slot.slot).seq;
            (is_earlier || seen.is_taken(change.slot))
                && !change.words.is_empty()
                && entries_hold(seen, group, change)
        }
        Group::Slots => is_told(seen, change),
        Group::Words | Group::Late => entries_hold(seen, group, change),
        Group::Releaser => {
            !seen.is_taken(change.slot)
                || matches!(
                    change.fate,
                    Status::No { .. } | Status::DoneNo { .. } | Status::DoneYes
                )
                || change.stays
                || owner_of(seen, change.owner, change.slot.slot).is_some()
        }
        Group::Files => change.fate != Status::Yes || is_apart(seen, change),
        Group::Counts => !change.stays || seen.is_pinned(change.slot),
        _ => true,
    }
}

/// Tells whether a change's slot has its status and entries, while the slot is taken for it and it is no draft.
fn is_told(seen: &Seen, change: &Change) -> bool {
    let Some(written) = seen.slots.get(usize::from(change.slot.slot)) else {
        return false;
    };
    if !seen.is_taken(change.slot) || change.fate == Status::Draft {
        return true;
    }
    written.status == change.fate
        && written.count == change.words.len() as u64
        && are_entries(&written.entries, change)
}

fn are_entries(written: &[Entry], change: &Change) -> bool {
    let mut index: usize = 0;
    for held in &change.words {
        match written.get(index) {
            Some(entry) if *entry == held.entry => {}
            _ => return false,
        }
        index = index.saturating_add(1);
    }
    true
}

/// Tells whether a group holds of each word of a change.
fn entries_hold(seen: &Seen, group: Group, change: &Change) -> bool {
    for held in &change.words {
        if !entry_holds(seen, group, change, held) {
            return false;
        }
    }
    true
}

/// Tells whether a group holds of a word of a change.
fn entry_holds(seen: &Seen, group: Group, change: &Change, held: &Held) -> bool {
    match group {
        Group::Claims => match seen.words.get(usize::from(change.tenant)) {
            Some(words) => held.entry.addr < *words,
            None => false,
        },
        Group::Late => !is_made(change.fate) || !matches!(held.phase, Phase::Fresh),
        _ => may_be(change.fate, held.phase) && is_named(seen, change, held),
    }
}

/// Tells whether a word names the change, if the change holds it or has written it.
fn is_named(seen: &Seen, change: &Change, held: &Held) -> bool {
    let Slot { slot, seq } = change.slot;
    let value = held.entry.new;
    let word = match held.phase {
        Phase::Acquired => Word::Held { slot, seq },
        Phase::Written => Word::Dirty { slot, value },
        _ => return true,
    };
    seen.word(change.tenant, held.entry.addr) == Some(word)
}

/// Tells whether a change of this status may have a word in this phase.
fn may_be(fate: Status, phase: Phase) -> bool {
    match (fate, phase) {
        (Status::Draft | Status::Open, Phase::Fresh) => true,
        (Status::Open | Status::YesDirty | Status::Yes, Phase::Acquired) => true,
        (Status::Yes | Status::DoneYes, Phase::Written) => true,
        (Status::DoneYes, Phase::Released) => true,
        (Status::No { .. } | Status::DoneNo { .. }, phase) => !matches!(phase, Phase::Written),
        _ => false,
    }
}

/// Tells whether a change of this status was decided to be made.
pub(super) fn is_made(fate: Status) -> bool {
    matches!(fate, Status::YesDirty | Status::Yes | Status::DoneYes)
}

/// Tells whether no other sealed change of the tenant writes to a word of a sealed change.
fn is_apart(seen: &Seen, change: &Change) -> bool {
    for other in &seen.past.changes {
        let are_two = other.slot != change.slot && other.tenant == change.tenant;
        if are_two && other.fate == Status::Yes && have_same_word(change, other) {
            return false;
        }
    }
    true
}

fn have_same_word(change: &Change, other: &Change) -> bool {
    for held in &change.words {
        if other.entry_of(held.entry.addr).is_some() {
            return true;
        }
    }
    false
}

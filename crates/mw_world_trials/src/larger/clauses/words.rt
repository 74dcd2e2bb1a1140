//! Checks what must hold of each word of a tenant at every moment.
//!
//! Used by: `clauses`, which says what each group is, and what may change here; `workers`.

use crate::larger::clauses::Group;
use crate::larger::clauses::workers::standing;
use crate::larger::past::{Change, Held};
use crate::larger::pins::{cleans, is_releaser, owner_of};
use crate::larger::seen::{Datum, Seen, WorkerState};
use mw_actor::Slot;
use mw_words::{Status, Word};
use mw_world::Phase;

/// Tells whether a group holds of all words.
pub(super) fn words_hold(seen: &Seen, group: Group) -> bool {
    for datum in &seen.data {
        let holds = match group {
            Group::References => is_reference(seen, datum),
            Group::Attempts => {
                !matches!(datum.word, Word::Planted { .. }) || times(seen, datum.word) == 1
            }
            Group::Releaser => is_let_go(seen, datum),
            _ => {
                let value = value_of(seen, datum);
                value.is_some() && value == seen.past.content(datum.tenant, datum.address)
            }
        };
        if !holds {
            return false;
        }
    }
    true
}

fn is_reference(seen: &Seen, datum: &Datum) -> bool {
    match datum.word {
        Word::Plain(_) => true,
        Word::Held { slot, seq } => {
            let slot = Slot { slot, seq };
            match change_of(seen, datum, slot) {
                Some((change, held)) => {
                    seen.is_pinned(slot)
                        && matches!(held.phase, Phase::Acquired)
                        && change.fate != Status::DoneYes
                }
                None => false,
            }
        }
        Word::Dirty { slot, value } => {
            let seq = seen.gate(slot).seq;
            let slot = Slot { slot, seq };
            match change_of(seen, datum, slot) {
                Some((change, held)) => {
                    seen.is_pinned(slot)
                        && matches!(held.phase, Phase::Written)
                        && matches!(change.fate, Status::Yes | Status::DoneYes)
                        && held.entry.new == value
                }
                None => false,
            }
        }
        Word::Planted { worker, attempt } => match seen.worker_states.get(usize::from(worker)) {
            Some(worker_state) => is_planted(seen, datum, worker_state, attempt),
            None => false,
        },
    }
}

/// Gives a change of this word that is no draft, with its entry of the word.
pub(super) fn change_of<'a>(
    seen: &'a Seen,
    datum: &Datum,
    slot: Slot,
) -> Option<(&'a Change, Held)> {
    let change = seen.past.find(slot)?;
    if change.fate == Status::Draft || change.tenant != datum.tenant {
        return None;
    }
    match change.entry_of(datum.address) {
        Some(held) => Some((change, held)),
        None => None,
    }
}

/// Tells whether the row of an attempt's worker names the word's entry of a change, and the attempt is that for
/// which the worker may have it there.
fn is_planted(seen: &Seen, datum: &Datum, worker_state: &WorkerState, attempt: u64) -> bool {
    let slot = Slot {
        slot: worker_state.row.slot,
        seq: worker_state.row.seq,
    };
    let Some((change, held)) = change_of(seen, datum, slot) else {
        return false;
    };
    let named = match change.words.get(usize::from(worker_state.row.entry)) {
        Some(named) => named.entry.addr == held.entry.addr,
        None => false,
    };
    named
        && seen.is_pinned(slot)
        && attempt < worker_state.attempt
        && standing(worker_state) == Some((datum.tenant, datum.address, attempt))
}

/// Gives in how many places this word is.
fn times(seen: &Seen, word: Word) -> u64 {
    let mut times: u64 = 0;
    for datum in &seen.data {
        if datum.word == word {
            times = times.saturating_add(1);
        }
    }
    times
}

fn is_let_go(seen: &Seen, datum: &Datum) -> bool {
    let slot = match datum.word {
        Word::Held { slot, seq } => Slot { slot, seq },
        Word::Dirty { slot, .. } => {
            let seq = seen.gate(slot).seq;
            Slot { slot, seq }
        }
        Word::Plain(_) | Word::Planted { .. } => return true,
    };
    let is_dirty = matches!(datum.word, Word::Dirty { .. });
    let Some(change) = seen.past.find(slot) else {
        return !is_dirty;
    };
    if is_dirty {
        return change.stays
            || match owner_of(seen, change.owner, slot.slot) {
                Some(actor) => cleans(actor, datum.address),
                None => false,
            };
    }
    !matches!(change.fate, Status::No { .. } | Status::DoneNo { .. })
        || is_releaser(seen, datum.tenant, slot, datum.address)
}

/// Gives the value that a word represents.
fn value_of(seen: &Seen, datum: &Datum) -> Option<u64> {
    match datum.word {
        Word::Plain(value) | Word::Dirty { value, .. } => Some(value),
        Word::Planted { worker, .. } => planted_value(seen, worker),
        Word::Held { slot, .. } => held_value(seen, slot, datum.address),
    }
}

fn planted_value(seen: &Seen, worker: u8) -> Option<u64> {
    let row = seen.worker_states.get(usize::from(worker))?.row;
    let written = seen.slots.get(usize::from(row.slot))?;
    Some(written.entries.get(usize::from(row.entry))?.expected)
}

fn held_value(seen: &Seen, slot: u8, address: u16) -> Option<u64> {
    let written = seen.slots.get(usize::from(slot))?;
    for entry in &written.entries {
        if entry.addr == address {
            return Some(if written.status == Status::Yes {
                entry.new
            } else {
                entry.expected
            });
        }
    }
    None
}

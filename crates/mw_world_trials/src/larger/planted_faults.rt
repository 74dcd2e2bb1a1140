//! Makes something wrong in what is seen of a world, for each group of checks, to see that the group refuses it.
//!
//! Used by: `larger/tests`.

use crate::larger::clauses::Group;
use crate::larger::seen::Seen;
use mw_words::{Status, Word};
use mw_world::Phase;

/// Makes something wrong that this group must notice: for the group of releasers that no worker has a request, and for
/// that of files that every word of a file has a value that none is given.
pub(crate) fn spoil(seen: &mut Seen, group: Group) {
    match group {
        Group::Bits => seen.is_junk = true,
        Group::Requests => seen.words.clear(),
        Group::Claims | Group::Slots | Group::Counts => spoil_slots(seen, group),
        Group::References | Group::Attempts => spoil_words(seen, group),
        Group::Words | Group::Late => spoil_changes(seen, group),
        Group::Releaser => {
            for worker_state in &mut seen.worker_states {
                worker_state.actor = None;
            }
        }
        Group::Files => {
            for content in &mut seen.past.contents {
                content.value = 9;
            }
        }
        Group::Places | Group::Limits => spoil_shares(seen, group),
    }
}

/// Makes every tenant's quota 0, or every file have one place fewer than its tenant's quota.
fn spoil_shares(seen: &mut Seen, group: Group) {
    for share in &mut seen.shares {
        match group {
            Group::Places => share.quota = 0,
            _ => share.places = u16::from(share.quota).saturating_sub(1),
        }
    }
}

/// Makes every slot taken, or without entries, or with one pin more.
fn spoil_slots(seen: &mut Seen, group: Group) {
    for written in &mut seen.slots {
        match group {
            Group::Claims => written.gate.taken = true,
            Group::Slots => written.count = 0,
            _ => written.gate.pins = written.gate.pins.saturating_add(1),
        }
    }
}

/// Makes every word held for a change that never was, or the same attempt.
fn spoil_words(seen: &mut Seen, group: Group) {
    for datum in &mut seen.data {
        datum.word = match group {
            Group::References => Word::Held { slot: 0, seq: 9 },
            _ => Word::Planted {
                worker: 0,
                attempt: 0,
            },
        };
    }
}

/// Makes every change have written its words, whatever its status, or decided to be made, whatever it
/// holds.
fn spoil_changes(seen: &mut Seen, group: Group) {
    for change in &mut seen.past.changes {
        match group {
            Group::Late => change.fate = Status::YesDirty,
            _ => {
                for held in &mut change.words {
                    held.phase = Phase::Written;
                }
            }
        }
    }
}

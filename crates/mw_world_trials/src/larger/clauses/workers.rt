//! Checks what must hold of each worker at every moment.
//!
//! Used by: `clauses`, which says what each group is, and what may change here; `words`.

use crate::larger::clauses::Group;
use crate::larger::clauses::changes::is_made;
use crate::larger::clauses::words::change_of;
use crate::larger::seen::{Datum, Seen, WorkerState};
use mw_actor::{Point, Slot};
use mw_words::{Status, Word};
use mw_world::Phase;

/// Tells whether a group holds of all workers.
pub(super) fn workers_hold(seen: &Seen, group: Group) -> bool {
    let mut worker: u8 = 0;
    for worker_state in &seen.worker_states {
        let holds = match group {
            Group::Requests => is_request(seen, worker, worker_state),
            Group::Claims => usize::from(worker_state.row.slot) < seen.slots.len(),
            Group::Attempts => is_ready(seen, worker_state),
            _ => does_no_harm(seen, worker_state),
        };
        if !holds {
            return false;
        }
        worker = worker.saturating_add(1);
    }
    true
}

fn is_request(seen: &Seen, worker: u8, worker_state: &WorkerState) -> bool {
    let Some(actor) = &worker_state.actor else {
        return true;
    };
    let Some(words) = seen.words.get(usize::from(actor.tenant())) else {
        return false;
    };
    if actor.worker() != worker || !actor.job().is_well_formed(usize::from(*words)) {
        return false;
    }
    let called = match actor.point() {
        Point::Prepare(own) => own,
        Point::Seal(task) | Point::Settle(task) | Point::Cancel(task) => task.target,
        _ => return true,
    };
    match seen.past.find(called) {
        Some(change) => seen.is_pinned(called) && change.tenant == actor.tenant(),
        None => false,
    }
}

/// Tells whether the attempt of a worker that may be in a word has a number that was given out, and is for no
/// draft.
fn is_ready(seen: &Seen, worker_state: &WorkerState) -> bool {
    let Some((_, _, number)) = standing(worker_state) else {
        return true;
    };
    let slot = Slot {
        slot: worker_state.row.slot,
        seq: worker_state.row.seq,
    };
    match seen.past.find(slot) {
        Some(change) => number < worker_state.attempt && change.fate != Status::Draft,
        None => false,
    }
}

/// Gives the attempt of a worker that may be in a word: the word that it is for, and its number.
pub(super) fn standing(worker_state: &WorkerState) -> Option<(u8, u16, u64)> {
    let actor = worker_state.actor.as_ref()?;
    match actor.point() {
        Point::CheckThenResolve {
            task,
            entry,
            attempt,
        }
        | Point::Resolve {
            task,
            entry,
            attempt,
            ..
        } if attempt.worker == actor.worker() => Some((
            actor.tenant(),
            actor.entry(task, entry).addr,
            attempt.number,
        )),
        _ => None,
    }
}

/// Tells whether a helper does no harm that may still hold a word for a change. If it finds the attempt there, the
/// word was never held for the change, the change is not made, and the row names it. Else the attempt's number was
/// given out.
fn does_no_harm(seen: &Seen, worker_state: &WorkerState) -> bool {
    let Some(actor) = &worker_state.actor else {
        return true;
    };
    let Point::Resolve {
        task,
        entry,
        attempt,
        was_open: true,
    } = actor.point()
    else {
        return true;
    };
    let Some(planter) = seen.worker_states.get(usize::from(attempt.worker)) else {
        return false;
    };
    let sought = Datum {
        tenant: actor.tenant(),
        address: actor.entry(task, entry).addr,
        word: Word::Planted {
            worker: attempt.worker,
            attempt: attempt.number,
        },
    };
    let Some((change, held)) = change_of(seen, &sought, task.target) else {
        return false;
    };
    if seen.word(sought.tenant, sought.address) != Some(sought.word) {
        return attempt.number < planter.attempt;
    }
    let is_named = (planter.row.slot, planter.row.seq) == (task.target.slot, task.target.seq);
    is_named && matches!(held.phase, Phase::Fresh) && !is_made(change.fate)
}

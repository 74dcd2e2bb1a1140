//! Computes what a request holds at its point (program counter): its pins, and the words that it will release or
//! clean.
//!
//! Used by: `larger/clauses/changes`, `larger/clauses/slots`, `larger/clauses/words`.

use crate::larger::seen::{Seen, WorkerState};
use mw_actor::{Actor, After, Point, Slot, Sweep, Task};
use mw_look::{Point as ReadPoint, Trail};
use mw_words::MAX_ENTRIES;

/// Gives how many pins of a slot a request holds. It has written its own change into a slot, or gives up with it, or
/// works on a change.
pub(crate) fn pins_held(slot: u8, point: &Point) -> u16 {
    match point {
        Point::Read(look) => u16::from(read_pin(look.point()) == Some(slot)),
        Point::Unpin { slot: its, after } => pins_after(slot, after).saturating_add(u16::from(
            its.slot == slot,
        )),
        Point::FreeSlot { after, .. } | Point::LowerDoor(after) => pins_after(slot, after),
        Point::FillStatus(own)
        | Point::FillCount(own)
        | Point::FillAddr { own, .. }
        | Point::FillExpected { own, .. }
        | Point::FillNew { own, .. }
        | Point::Prepare(own)
        | Point::GiveUp { own, .. } => u16::from(own.slot == slot),
        _ => match task_of(point) {
            Some(task) => task_pins(slot, &task),
            None => 0,
        },
    }
}

fn task_pins(slot: u8, task: &Task) -> u16 {
    let own = u16::from(task.own.slot == slot);
    let other = u16::from(task.target != task.own && task.target.slot == slot);
    own.saturating_add(other)
}

fn pins_after(slot: u8, after: &After) -> u16 {
    match after {
        After::Work(task) => task_pins(slot, task),
        After::GiveUp { own, .. } => u16::from(own.slot == slot),
        After::Reply(_) => 0,
    }
}

fn read_pin(point: ReadPoint) -> Option<u8> {
    match point {
        ReadPoint::ReadStatus(trail)
        | ReadPoint::FindEntry { trail, .. }
        | ReadPoint::ReadExpected { trail, .. }
        | ReadPoint::ReadNew { trail, .. }
        | ReadPoint::RecheckWord { trail, .. } => match trail {
            Trail::Held { slot, .. } => Some(slot),
            Trail::Planted { row, .. } => Some(row.slot),
        },
        ReadPoint::Unpin { slot, .. } => Some(slot),
        _ => None,
    }
}

/// Gives the changes on which a request works, if it works on one.
fn task_of(point: &Point) -> Option<Task> {
    match point {
        Point::ReadTargetStatus(task)
        | Point::Inspect { task, .. }
        | Point::AnnounceRow { task, .. }
        | Point::Plant { task, .. }
        | Point::ReadOtherRow { task, .. }
        | Point::ConfirmAttempt { task, .. }
        | Point::ReadDirtyGate { task, .. }
        | Point::ConfirmDirty { task, .. }
        | Point::DecideYes(task)
        | Point::DecideNo { task, .. }
        | Point::CheckThenResolve { task, .. }
        | Point::Resolve { task, .. }
        | Point::ReadOtherGate { task, .. }
        | Point::PinOther { task, .. }
        | Point::ReadCount(task)
        | Point::ReadAddr { task, .. }
        | Point::ReadExpected { task, .. }
        | Point::ReadNew { task, .. }
        | Point::Seal(task)
        | Point::SweepWord { task, .. }
        | Point::Release { task, .. }
        | Point::Clean { task, .. }
        | Point::SweepRow { task, .. }
        | Point::SweepConfirm { task, .. }
        | Point::SweepResolve { task, .. }
        | Point::Settle(task)
        | Point::Cancel(task) => Some(*task),
        _ => None,
    }
}

/// Tells whether a request will free this slot as its next step.
pub(crate) fn frees(slot: u8, point: &Point) -> bool {
    match point {
        Point::Read(look) => match look.point() {
            ReadPoint::FreeSlot { slot: its, .. } => its == slot,
            _ => false,
        },
        Point::FreeSlot { slot: its, .. } => its.slot == slot,
        _ => false,
    }
}

/// Gives the round over a change's words in which a request is, and its next entry.
fn round(point: &Point) -> Option<(Sweep, u8)> {
    match point {
        Point::SweepWord { sweep, entry, .. } | Point::Release { sweep, entry, .. } => {
            Some((*sweep, *entry))
        }
        Point::SweepRow { sweep, entry, .. }
        | Point::SweepConfirm { sweep, entry, .. }
        | Point::SweepResolve { sweep, entry, .. } => Some((*sweep, entry.saturating_add(1))),
        _ => None,
    }
}

/// Tells whether one of these entries, from `first` on, is of this word. Addresses rise, so after the first
/// entry an address of 0 means that there is no entry.
fn comes_to(actor: &Actor, task: Task, first: u8, address: u16) -> bool {
    for index in first..MAX_ENTRIES as u8 {
        let entry = actor.entry(task, index);
        if entry.addr == address && (index == 0 || address > 0) {
            return true;
        }
    }
    false
}

/// Tells whether a request at its point will release a refused change's word.
fn will_release(actor: &Actor, change: Slot, address: u16) -> bool {
    let point = actor.point();
    let Some(task) = task_of(&point) else {
        return false;
    };
    if task.target != change {
        return false;
    }
    match round(&point) {
        Some((Sweep::No, _)) => true,
        Some((Sweep::DoneNo { .. }, first)) => comes_to(actor, task, first, address),
        Some(_) => false,
        None => !matches!(
            point,
            Point::Inspect { .. }
                | Point::ReadOtherRow { .. }
                | Point::ConfirmAttempt { .. }
                | Point::ReadDirtyGate { .. }
                | Point::ConfirmDirty { .. }
                | Point::ReadOtherGate { .. }
                | Point::PinOther { .. }
                | Point::Seal(_)
                | Point::Clean { .. }
                | Point::Settle(_)
        ),
    }
}

/// Tells whether a change's own request at its point will clean a word that the change has written. In the round
/// that cleans, it cleans the words of the entries to which it still comes.
pub(crate) fn cleans(actor: &Actor, address: u16) -> bool {
    let point = actor.point();
    let (task, first) = match &point {
        Point::Unpin { after, .. } | Point::FreeSlot { after, .. } | Point::LowerDoor(after) => {
            return !matches!(after, After::Reply(_));
        }
        Point::Clean { task, entry, .. } => (*task, *entry),
        _ => match (round(&point), task_of(&point)) {
            (Some((Sweep::DoneYes, first)), Some(task)) => (task, first),
            _ => return true,
        },
    };
    task.target != task.own || comes_to(actor, task, first, address)
}

/// Tells whether some request of this tenant that holds a pin of the change's slot will release the word.
pub(crate) fn is_releaser(seen: &Seen, tenant: u8, change: Slot, address: u16) -> bool {
    for worker_state in &seen.worker_states {
        if let Some(actor) = &worker_state.actor {
            let is_of = actor.tenant() == tenant && pins_held(change.slot, &actor.point()) >= 1;
            if is_of && will_release(actor, change, address) {
                return true;
            }
        }
    }
    false
}

/// Gives the request of the worker that claimed the slot, if it holds a pin of it.
pub(crate) fn owner_of<'a>(seen: &'a Seen, owner: u8, slot: u8) -> Option<&'a Actor> {
    let worker_state: &WorkerState = seen.worker_states.get(usize::from(owner))?;
    match &worker_state.actor {
        Some(actor) if pins_held(slot, &actor.point()) >= 1 => Some(actor),
        _ => None,
    }
}

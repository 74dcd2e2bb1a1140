//! Keeps what has happened to each change since the last start, from the steps of requests.
//!
//! Used by: `larger/clauses/changes`, `larger/clauses/words`, `larger/seen`, `larger/tests`, `run`.
ghost use Rattle.std.specs.Prelude.{◌<◌, IfSome, length};

use crate::larger::seen::{Datum, Seen};
use arrayvec::ArrayVec;
use mw_actor::{Actor, Point, Slot};
use mw_look::Op;
use mw_words::{At, Entry, MAX_ENTRIES, Status, Word};
use mw_world::Phase;
use std::alloc::AllocError;

/// An entry of a change, and what has become of its word.
#[derive(Clone, Copy)]
pub(crate) struct Held {
    pub(crate) entry: Entry,
    pub(crate) phase: Phase,
}

impl Default for Held {
    fn default() -> Held {
        Held {
            entry: Entry::default(),
            phase: Phase::Fresh,
        }
    }
}

/// A change that has claimed a slot.
#[derive(Drop)]
pub(crate) struct Change {
    pub(crate) slot: Slot,
    pub(crate) tenant: u8,
    pub(crate) owner: u8,
    pub(crate) fate: Status,
    pub(crate) words: ArrayVec<Held, MAX_ENTRIES>,
    /// Its worker gave up, and left its pin behind.
    pub(crate) stays: bool,
}

/// The changes since the last start, and the words of each tenant's file.
#[derive(Drop)]
pub(crate) struct Past {
    pub(crate) changes: Vec<Change>,
    pub(crate) contents: Vec<Content>,
    /// A step was of a change that never claimed its slot, or of a word for which the change has no entry.
    pub(crate) is_stray: bool,
}

/// A word of a tenant's file.
#[derive(Clone, Copy)]
pub(crate) struct Content {
    pub(crate) tenant: u8,
    pub(crate) address: u16,
    pub(crate) value: u64,
}

/// What a step does to a change, if its exchange or its call is made.
#[derive(Clone, Copy)]
pub(crate) enum ChangeUpdate {
    Nothing,
    Claims(Slot),
    Becomes(Slot, Status),
    Moves(Slot, u16, Phase),
    Leaves(Slot),
}

impl Past {
    /// Gives a change by its slot and number.
    pub(crate) fn find(&self, slot: Slot) -> Option<&Change> {
        self.changes.get(self.index_of(slot)?)
    }

    /// Gives the index of a change among those that are kept here.
    fn index_of(&self, slot: Slot) -> Option<usize>
        ensures { IfSome result (λ index. index < length self.now.changes.items) }
    {
        for index in 0..self.changes.len() {
            if self.changes[index].slot == slot {
                return Some(index);
            }
        }
        None
    }

    /// Gives the value of a word in the tenant's file.
    pub(crate) fn content(&self, tenant: u8, address: u16) -> Option<u64> {
        for content in &self.contents {
            if content.tenant == tenant && content.address == address {
                return Some(content.value);
            }
        }
        None
    }

    /// Records what a step of this request did to a change.
    pub(crate) fn keep(&mut self, deed: ChangeUpdate, actor: &Actor) -> Result<(), AllocError> {
        let slot = match deed {
            ChangeUpdate::Nothing => return Ok(()),
            ChangeUpdate::Claims(slot) => return Ok(self.changes.push(born(slot, actor))?),
            ChangeUpdate::Becomes(slot, _)
            | ChangeUpdate::Moves(slot, _, _)
            | ChangeUpdate::Leaves(slot) => slot,
        };
        let mut is_found = false;
        for change in &mut self.changes {
            if change.slot == slot {
                is_found = change.update(deed);
            }
        }
        self.is_stray = self.is_stray || !is_found;
        if matches!(deed, ChangeUpdate::Becomes(_, Status::Yes)) {
            self.write(slot);
        }
        Ok(())
    }

    /// Writes a sealed change's words into the file.
    fn write(&mut self, slot: Slot) {
        let Some(index) = self.index_of(slot) else {
            return;
        };
        let change = &self.changes[index];
        for content in &mut self.contents {
            if content.tenant == change.tenant {
                if let Some(held) = change.entry_of(content.address) {
                    content.value = held.entry.new;
                }
            }
        }
    }

    /// Starts all again, with these words.
    pub(crate) fn start(&mut self, seen: &[Datum]) -> Result<(), AllocError> {
        self.changes.clear();
        self.contents.clear();
        for datum in seen {
            let value = match datum.word {
                Word::Plain(value) => value,
                _ => 0,
            };
            self.contents.push(Content {
                tenant: datum.tenant,
                address: datum.address,
                value,
            })?;
        }
        Ok(())
    }
}

fn born(slot: Slot, actor: &Actor) -> Change {
    let mut words = ArrayVec::new();
    for entry in actor.own_entries() {
        if !words.is_full() {
            words.push(Held {
                entry: *entry,
                phase: Phase::Fresh,
            });
        }
    }
    Change {
        slot,
        tenant: actor.tenant(),
        owner: actor.worker(),
        fate: Status::Draft,
        words,
        stays: false,
    }
}

impl Change {
    /// Does what a step did to this change. Tells whether it could: whether the change has an entry of the word
    /// that the step moved.
    fn update(&mut self, deed: ChangeUpdate) -> bool {
        let (address, phase) = match deed {
            ChangeUpdate::Moves(_, address, phase) => (address, phase),
            ChangeUpdate::Becomes(_, status) => {
                self.fate = status;
                return true;
            }
            ChangeUpdate::Leaves(_) => {
                self.stays = true;
                return true;
            }
            ChangeUpdate::Nothing | ChangeUpdate::Claims(_) => return true,
        };
        let mut is_found = false;
        for held in &mut self.words {
            if held.entry.addr == address {
                held.phase = phase;
                is_found = true;
            }
        }
        is_found
    }

    /// Gives the change's entry of a word.
    pub(crate) fn entry_of(&self, address: u16) -> Option<Held> {
        for held in &self.words {
            if held.entry.addr == address {
                return Some(*held);
            }
        }
        None
    }
}

/// Gives what the next step of a request does to a change, if the world is as it is seen. If the step is a call on
/// a file, no device call fails.
pub(crate) fn update_of(seen: &Seen, actor: &Actor) -> ChangeUpdate {
    let (address, to) = match actor.ask() {
        Op::Change {
            at: At::Data { tenant, address },
            from,
            to,
            ..
        } if seen.word(tenant, address) == Word::unpack(from) => (address, Word::unpack(to)),
        _ => return status_update(seen, actor.tenant(), actor.point()),
    };
    match (actor.point(), to) {
        (Point::Resolve { task, .. }, Some(Word::Held { .. })) => {
            ChangeUpdate::Moves(task.target, address, Phase::Acquired)
        }
        (Point::Release { task, .. }, Some(Word::Dirty { .. })) => {
            ChangeUpdate::Moves(task.target, address, Phase::Written)
        }
        (Point::Release { task, .. } | Point::Clean { task, .. }, _) => {
            ChangeUpdate::Moves(task.target, address, Phase::Released)
        }
        _ => ChangeUpdate::Nothing,
    }
}

/// Gives what the step at a point does to a change's status, or that it claims a slot for a change or gives one up.
fn status_update(seen: &Seen, tenant: u8, point: Point) -> ChangeUpdate {
    let change = match point {
        Point::Claim { slot, from, .. } if seen.gate(slot) == from => {
            let seq = from.seq;
            return ChangeUpdate::Claims(Slot { slot, seq });
        }
        Point::GiveUp { own, .. } => return ChangeUpdate::Leaves(own),
        Point::Prepare(own) => own,
        Point::DecideYes(task)
        | Point::DecideNo { task, .. }
        | Point::Seal(task)
        | Point::Settle(task)
        | Point::Cancel(task) => task.target,
        _ => return ChangeUpdate::Nothing,
    };
    let is_good = match seen.doors.get(usize::from(tenant)) {
        Some(door) => !door.fault,
        None => true,
    };
    let status = match (point, seen.status(change.slot)) {
        (Point::DecideYes(_), Status::Open) => Status::YesDirty,
        (Point::DecideNo { entry, value, .. }, Status::Open) => Status::No { entry, value },
        (Point::Prepare(_), Status::Draft) if is_good => Status::Open,
        (Point::Seal(_), Status::YesDirty) if is_good => Status::Yes,
        (Point::Settle(_), Status::Yes) if is_good => Status::DoneYes,
        (Point::Cancel(_), Status::No { entry, value }) => Status::DoneNo { entry, value },
        _ => return ChangeUpdate::Nothing,
    };
    ChangeUpdate::Becomes(change, status)
}

//! Who waits for a tenant's file: workers, one of whose calls is made next, and changes, whose records a call on the
//! file writes along with its own bytes.
//!
//! Used by: mw_engine. No contract says who is there. A worker that nobody serves tries the lock itself. After a change
//! run scripts/check-wakes and scripts/check-waits, whose model (scripts/wait_parts/model.py) changes with it.
use crate::call_flag::CallFlag;
use crate::hints::Hints;
use crate::order::{Choosing, Waiter, next_of};
use arrayvec::ArrayVec;
use mw_book::{Book, Waiting};
use mw_disk::Disk;
use mw_look::Call;
use mw_words::{MAX_WORKERS, copy_of};
use std::sync::{Mutex, Wait};

/// The most that wait: one for each worker.
const MOST_WAITING: usize = MAX_WORKERS as usize;

/// How many of the workers whose calls others have made are woken at once. Each of these wakes another.
const WOKEN_FIRST: usize = 3;

/// How many of them a worker wakes before it syncs.
const WOKEN_BEFORE_SYNC: usize = 1;

/// Some of the changes that wait for a file, one for each worker at most.
pub type WaitingChanges = ArrayVec<Waiting, MOST_WAITING>;

/// The numbers of some workers.
pub type Workers = ArrayVec<u8, MOST_WAITING>;

/// Who is in a room.
#[derive(Drop)]
struct Waits {
    /// The changes that came since a holder of the lock last looked.
    changes: WaitingChanges,
    /// The workers that wait for a call, in the order in which they came.
    waiters: ArrayVec<Waiter, MOST_WAITING>,
    /// The workers whose changes others have sealed. They are woken when these are settled in the file.
    sealed: Workers,
    /// The workers whose calls others have made, and who are to be woken.
    served: Workers,
}

/// What a worker finds that may make a call for those that wait.
#[derive(Clone, Copy, PartialEq, Eq)]
pub enum Look {
    /// A call may be made now.
    Ready,
    /// None may be made yet.
    Later,
    /// Nobody waits.
    Nobody,
}

/// What a call did that was made, as far as is known.
#[derive(Clone, Copy)]
struct Made {
    /// Whether it synced. Only then it wrote records of changes that wait.
    has_synced: bool,
    /// Whether it settled all sealed changes.
    has_settled: bool,
}

/// The waiting room of a file. A method that takes its lock releases it before it returns.
#[derive(Drop)]
pub struct WaitingRoom {
    waits: Mutex<Waits>,
    hints: Hints,
}

impl WaitingRoom {
    /// Makes a room in which nobody waits.
    pub fn new() -> WaitingRoom {
        WaitingRoom {
            waits: Mutex::new(Waits {
                changes: WaitingChanges::new(),
                waiters: ArrayVec::new(),
                sealed: Workers::new(),
                served: Workers::new(),
            }),
            hints: Hints::new(),
        }
    }

    /// Whether a worker that comes to a call may try the file's lock at once. Else it waits here, so that its call goes
    /// along with another one's.
    pub fn may_try(&self, waiter: &Waiter) -> bool {
        self.hints.come(waiter.worker);
        if self.hints.is_syncing() {
            return false;
        }
        !waiter.syncs(&self.hints) || self.hints.is_nobody_waiting() && waiter.is_next(&self.hints)
    }

    /// Lets a worker wait here, and its change if it has one. Tells whether there was room for the worker. If there is
    /// none for the change, its own prepare writes its record.
    pub fn enter(&self, rt: &impl Wait, waiter: Waiter, change: Option<Waiting>) -> bool {
        let mut waits = self.waits.lock(rt);
        if waits.waiters.is_full() {
            return false;
        }
        waits.waiters.push(waiter);
        if let Some(change) = change {
            if !waits.changes.is_full() {
                waits.changes.push(change);
            }
        }
        self.count(&waits);
        true
    }

    /// Takes the worker out of the room whose call is made next, if one may be made, and adds the changes that wait
    /// here to a list. If the call syncs, the first worker that was served is woken meanwhile, and is added to
    /// `woken`. The caller has the file's lock.
    pub fn choose(
        &self,
        rt: &impl Wait,
        choosing: Choosing,
        called: &mut WaitingChanges,
        woken: &mut Workers,
    ) -> Option<Waiter> {
        if choosing == Choosing::Any {
            self.hints.give_up();
        }
        let mut waits = self.waits.lock(rt);
        let place = next_of(waits.waiters.as_slice(), choosing, &self.hints)?;
        let waiter = waits.waiters.pop_at(place)?;
        move_changes(&mut waits.changes, called);
        if waiter.syncs(&self.hints) {
            take_first(&mut waits.served, woken, WOKEN_BEFORE_SYNC);
        }
        self.count(&waits);
        Some(waiter)
    }

    /// Whether one of the calls that wait may be made now.
    pub fn look(&self, rt: &impl Wait, choosing: Choosing) -> Look {
        if self.hints.is_nobody_waiting() {
            return Look::Nobody;
        }
        let waits = self.waits.lock(rt);
        match next_of(waits.waiters.as_slice(), choosing, &self.hints) {
            Some(_) => Look::Ready,
            None => Look::Later,
        }
    }

    /// Notes that a call is about to be made. The caller has the file's lock.
    pub fn begin(&self, waiter: &Waiter) {
        if waiter.syncs(&self.hints) {
            self.hints.set_syncing(true);
        }
    }

    /// Notes that a worker's own thread made its call on this book. Strikes those off the list of changes that wait whose
    /// records the book has by now. The caller has the file's lock.
    pub fn end<D: Disk>(
        &self,
        rt: &impl Wait,
        waiter: &Waiter,
        book: &Book<D>,
        called: &mut WaitingChanges,
    ) {
        let made = self.note(waiter);
        let has_written = made.has_synced && !called.is_empty();
        let has_settled = made.has_settled && !self.hints.is_nobody_served();
        if !has_written && !has_settled {
            return;
        }
        let mut waits = self.waits.lock(rt);
        if has_settled {
            wake_sealed(&mut waits);
        }
        if has_written {
            strike_off_written(called, book, waits.waiters.as_mut_slice());
        }
        self.count(&waits);
    }

    /// Notes that another thread made a worker's call on this book, for the request in its box. Strikes off as
    /// [`WaitingRoom::end`] does. The box's flag then tells that the call was made. The worker is woken later, and
    /// whoever wakes it finds it in the room. The caller has the file's lock.
    pub fn end_for<D: Disk>(
        &self,
        rt: &impl Wait,
        waiter: &Waiter,
        book: &Book<D>,
        called: &mut WaitingChanges,
        flag: &CallFlag,
    ) {
        let made = self.note(waiter);
        let mut waits = self.waits.lock(rt);
        if made.has_settled {
            wake_sealed(&mut waits);
        }
        add_served(&mut waits, waiter);
        flag.end();
        if made.has_synced {
            strike_off_written(called, book, waits.waiters.as_mut_slice());
        }
        self.count(&waits);
    }

    /// Notes that a worker has taken its request back, whose call another one made. Gives a worker that it wakes.
    pub fn take_back(&self, rt: &impl Wait, worker: u8) -> Option<u8> {
        let mut waits = self.waits.lock(rt);
        remove(&mut waits.served, worker);
        remove(&mut waits.sealed, worker);
        let next = waits.served.pop_at(0);
        self.count(&waits);
        next
    }

    /// Gives the first three of the workers whose calls were made, to be woken.
    pub fn woken(&self, rt: &impl Wait) -> Workers {
        let mut woken = Workers::new();
        if self.hints.is_nobody_served() {
            return woken;
        }
        let mut waits = self.waits.lock(rt);
        take_first(&mut waits.served, &mut woken, WOKEN_FIRST);
        self.count(&waits);
        woken
    }

    /// Notes that a worker goes that comes back to the file soon. If others wait, it wakes none of them yet.
    pub fn owe(&self, worker: u8) {
        if !self.is_empty() {
            self.hints.owe(worker);
        }
    }

    /// Notes that a worker's request has its reply. If others waited for it to come back to the file, gives one that it
    /// wakes.
    pub fn depart(&self, rt: &impl Wait, worker: u8) -> Option<u8> {
        if self.hints.come(worker) {
            self.next(rt)
        } else {
            None
        }
    }

    /// Gives a worker to be woken when nobody else is to come: the first of those that wait here, else of those whose
    /// changes are sealed.
    pub fn next(&self, rt: &impl Wait) -> Option<u8> {
        if self.is_empty() || !self.hints.expects_nobody() {
            return None;
        }
        let waits = self.waits.lock(rt);
        match waits.waiters.as_slice().get(0) {
            Some(waiter) => Some(waiter.worker),
            None => waits.sealed.as_slice().get(0).copied(),
        }
    }

    /// Whether nobody is here.
    pub fn is_empty(&self) -> bool {
        self.hints.is_nobody_waiting() && self.hints.is_nobody_served()
    }

    /// Notes what a call that was made leaves.
    fn note(&self, waiter: &Waiter) -> Made {
        let has_synced = waiter.syncs(&self.hints);
        let has_settled = has_synced && matches!(waiter.call, Call::Settle);
        match waiter.call {
            Call::Prepare => self.hints.expect(waiter.worker),
            Call::Seal => self.hints.seal(waiter.slot),
            Call::Settle | Call::Cancel => {}
        }
        if has_settled {
            self.hints.settle();
        }
        self.hints.set_syncing(false);
        Made {
            has_synced,
            has_settled,
        }
    }

    /// Notes how many are here, for those who don't look.
    fn count(&self, waits: &Waits) {
        let served = waits.served.len().saturating_add(waits.sealed.len());
        self.hints.count(waits.waiters.len(), served);
    }
}

/// Adds a worker whose call another one made to those that are woken: that of a seal once its change is settled in the
/// file, that of a prepare before those that have only their replies left.
fn add_served(waits: &mut Waits, waiter: &Waiter) {
    if waits.served.is_full() || waits.sealed.is_full() {
        return;
    }
    match waiter.call {
        Call::Seal => waits.sealed.push(waiter.worker),
        Call::Prepare => waits.served.insert(0, waiter.worker),
        Call::Settle | Call::Cancel => waits.served.push(waiter.worker),
    }
}

/// Moves the changes that wait to a list, until it is full.
fn move_changes(changes: &mut WaitingChanges, called: &mut WaitingChanges) {
    for change in changes.as_slice() {
        add_copy(called, change);
    }
    changes.clear();
}

/// Adds a copy of a change to a list, unless it is full.
fn add_copy(called: &mut WaitingChanges, change: &Waiting) {
    if !called.is_full() {
        called.push(Waiting {
            slot: change.slot,
            entries: copy_of(&change.entries),
        });
    }
}

/// Strikes those off a list of changes that wait whose records a book has: their prepares need no sync.
fn strike_off_written<D: Disk>(
    called: &mut WaitingChanges,
    book: &Book<D>,
    waiters: &mut [Waiter],
) {
    for place in (0..called.len()).rev() {
        if let Some(slot) = written_slot(called.as_slice(), place, book) {
            note_written(waiters, slot);
            strike_off_at(called, place);
        }
    }
}

/// Strikes the change at a place off a list.
fn strike_off_at(called: &mut WaitingChanges, place: usize) {
    called.pop_at(place);
}

/// The slot of the change at a place of a list, if a book has its record.
fn written_slot<D: Disk>(called: &[Waiting], place: usize, book: &Book<D>) -> Option<u8> {
    let change = called.get(place)?;
    if book.has_written(change.slot, &change.entries) {
        Some(change.slot)
    } else {
        None
    }
}

/// Notes that the record of a slot's change is written, for the worker that waits with its prepare.
fn note_written(waiters: &mut [Waiter], slot: u8) {
    for waiter in waiters {
        if waiter.slot == slot && matches!(waiter.call, Call::Prepare) {
            waiter.is_written = true;
        }
    }
}

/// Strikes the change of a slot off a list of those that wait, if it is there.
pub fn strike_off(called: &mut WaitingChanges, slot: u8) {
    if let Some(index) = called.iter().position(|waiting| waiting.slot == slot) {
        strike_off_at(called, index);
    }
}

/// Has the workers be woken whose changes others have sealed.
fn wake_sealed(waits: &mut Waits) {
    for worker in waits.sealed.as_slice() {
        if !waits.served.is_full() {
            waits.served.push(*worker);
        }
    }
    waits.sealed.clear();
}

/// Moves the first workers to another list, at most so many.
fn take_first(served: &mut Workers, woken: &mut Workers, most: usize) {
    for _ in 0..most {
        if woken.is_full() {
            return;
        }
        if let Some(worker) = served.pop_at(0) {
            woken.push(worker);
        }
    }
}

/// Removes a worker from a list, if it is there.
fn remove(workers: &mut Workers, worker: u8) {
    if let Some(index) = workers.iter().position(|one| *one == worker) {
        workers.pop_at(index);
    }
}

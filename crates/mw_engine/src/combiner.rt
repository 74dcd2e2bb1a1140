//! Makes the calls of many requests on one file, one call at a time, so that they share syncs.
//!
//! A worker whose request comes to a call on its file tries the file's lock. If others wait for the file, or are
//! expected there, it leaves the request in its box (`errand_boxes`), enters the file's room, and sleeps. Whoever
//! gets the lock makes the call that is best made next (mw_turns), its own or another worker's, and no more. Then it
//! makes calls that are due and cheap, wakes others, and goes on with its own request. So a seal's sync writes the
//! records of all that wait, and a settle settles all sealed changes. This is flat combining (Hendler, Incze, Shavit,
//! Tzafrir, 2010) of calls, without a combiner that others depend on.
//!
//! # Why no worker sleeps for ever
//!
//! No sleep is longer than a fiftieth of a second, and then the worker tries the lock itself. Rings only make it
//! faster. A stopped worker holds nothing that others need, but while it has the file's lock or the room's. Others
//! wait for it once, for a fifth of a millisecond, if its change was prepared and its seal is expected.
//!
//! # Who wakes whom
//!
//! A worker enters the room, and tries the lock before each sleep. The lock's holder looks into the room after the
//! release. It makes calls there, or rings the bell of the one that came first, unless it comes back soon itself.
//! Before a sync it rings the first of the workers whose calls were made, before a sleep the first three, and each that
//! takes its request back rings the next: if all woke at once, the first reply would wait for a processor. A worker
//! whose change another one has sealed sleeps on until the settle of all.
//!
//! Used by: `one_call`, which takes the lock and sends requests here; `serving` calls `depart`, and `copies`
//! `wake_next`. Change it with `specs/Errands`. After a change run scripts/check-wakes, which reads `LONG_SLEEP` and
//! `SHORT_SLEEP` here, and scripts/check-waits, whose model of who wakes whom (scripts/wait_parts/model.py) changes
//! with it.
ghost use Rattle.std.specs.Prelude.{IfOk, IfErr};
ghost use Rattle.mw_loan.specs.Loans.{IsReceiptFor, IsReceiptOf};
ghost use Rattle.mw_engine.specs.declared.errand.Errand.{Errand as ErrandOf};
ghost use Rattle.mw_engine.specs.Errands.{GoesOn, IsCarriedHere};

use crate::brand::EngineBrand;
use crate::engine::Engine;
use crate::errand::Errand;
use crate::errand_boxes::ErrandBox;
use crate::file_calls::due_call;
use crate::file_lock::FileLock;
use crate::hold::Hold;
use mw_core::waiting_change;
use mw_disk::Disk;
use mw_loan::{Kept, Receipt};
use mw_turns::{Choosing, Heard, Look, Waiter, Workers};
use std::sync::Wait;

/// How many microseconds a worker sleeps at most before it tries the lock again.
const LONG_SLEEP: u64 = 20_000;

/// How many microseconds a worker waits at most for one that is expected with its seal.
const SHORT_SLEEP: u64 = 200;

/// How many calls of others a worker makes at most before it goes on with its own request.
const MOST_FOR_OTHERS: u32 = 128;

/// What a try to make a call of those that wait came to.
#[derive(Clone, Copy, PartialEq, Eq)]
enum Served {
    /// A call was made.
    One,
    /// Another worker has the lock.
    Busy,
    /// No call may be made yet.
    Later,
    /// Nobody waits.
    Nobody,
}

/// How a worker waits.
#[derive(Clone, Copy)]
struct Stay {
    /// Which calls it makes.
    choosing: Choosing,
    /// Whether it has made a call since it came.
    has_served: bool,
    /// Whether it slept to the end although nobody waited: then no other worker knows of its request.
    is_forgotten: bool,
}

impl<J: EngineBrand, D: Disk + Drop, H: Hold + Drop> Engine<J, D, H> {
    /// Leaves a request in its worker's box, and waits until its call is made.
    pub(crate) fn send(
        &self,
        rt: &impl Wait,
        lock: &FileLock<J, D>,
        own_box: &ErrandBox<J, D>,
        errand: Errand,
        waiter: Waiter,
    ) -> Errand
        requires here { IsCarriedHere J.identity errand }
        ensures { GoesOn D.facts J.identity errand result }
    {
        let change = waiting_change(&errand.actor);
        own_box.flag.begin();
        match own_box.loan.leave(errand) {
            Ok(receipt) => {
                lock.room.enter(rt, waiter, change);
                self.wait(rt, lock, own_box, &waiter, receipt)
            }
            Err(errand) => self.go_oneself(rt, errand),
        }
    }

    /// Makes the next call of a request on its file alone, and waits for the lock. It is for a box that isn't empty, and
    /// for a request of which no other worker knows. Neither happens, but no type says so.
    #[tactic(auto, using(crate::proofs::RequestsGoOn::called, crate::proofs::RequestsGoOn::stays))]
    fn go_oneself(&self, rt: &impl Wait, errand: Errand) -> Errand
        requires here { IsCarriedHere J.identity errand }
        ensures { GoesOn D.facts J.identity errand result }
    {
        let Errand {
            mut pass,
            mut actor,
        } = errand;
        if due_call(&actor).is_none() {
            return Errand { pass, actor };
        }
        self.file(rt, &mut pass, &mut actor);
        Errand { pass, actor }
    }

    /// Waits until the call of a request that was left in a box is made, by another thread or this one, and takes the
    /// request back.
    fn wait(
        &self,
        rt: &impl Wait,
        lock: &FileLock<J, D>,
        own_box: &ErrandBox<J, D>,
        waiter: &Waiter,
        receipt: Receipt<Errand>,
    ) -> Errand
        requires own { IsReceiptOf own_box.now.loan.table.shared.table_id receipt }
        ensures { (left : ErrandOf) → IsReceiptFor own_box.now.loan.table.shared.table_id left receipt → GoesOn D.facts J.identity left result }
    {
        let mut receipt = receipt;
        let mut stay = Stay {
            choosing: Choosing::Patient,
            has_served: false,
            is_forgotten: false,
        };
        for _ in rt.forever() {
            stay = self.serve_until_done(rt, lock, own_box, stay, waiter.worker);
            match self.fetch(rt, lock, own_box, waiter, receipt, stay.has_served) {
                Ok(errand) => return errand,
                Err(same) => receipt = same,
            }
        }
        unreachable!()
    }

    /// Takes a request back whose call was made, or that no other worker knows of. Else gives the receipt back.
    fn fetch(
        &self,
        rt: &impl Wait,
        lock: &FileLock<J, D>,
        own_box: &ErrandBox<J, D>,
        waiter: &Waiter,
        receipt: Receipt<Errand>,
        has_served: bool,
    ) -> Result<Errand, Receipt<Errand>>
        requires own { IsReceiptOf own_box.now.loan.table.shared.table_id receipt }
        ensures gone_on { (left : ErrandOf) → IsReceiptFor own_box.now.loan.table.shared.table_id left receipt → IfOk result (λ errand. GoesOn D.facts J.identity left errand) }
        ensures kept { (left : ErrandOf) → IsReceiptFor own_box.now.loan.table.shared.table_id left receipt → IfErr result (λ same. IsReceiptFor own_box.now.loan.table.shared.table_id left same) }
    {
        if !own_box.flag.is_done() {
            return self.reclaim(rt, own_box, receipt);
        }
        self.go(rt, lock, waiter, has_served);
        own_box.loan.take_back(receipt, Kept::Returned)
    }

    /// Takes a request back that no other worker knows of, and makes its call. If another one has it after all, gives
    /// the receipt back.
    fn reclaim(
        &self,
        rt: &impl Wait,
        own_box: &ErrandBox<J, D>,
        receipt: Receipt<Errand>,
    ) -> Result<Errand, Receipt<Errand>>
        requires own { IsReceiptOf own_box.now.loan.table.shared.table_id receipt }
        ensures gone_on { (left : ErrandOf) → IsReceiptFor own_box.now.loan.table.shared.table_id left receipt → IfOk result (λ errand. GoesOn D.facts J.identity left errand) }
        ensures kept { (left : ErrandOf) → IsReceiptFor own_box.now.loan.table.shared.table_id left receipt → IfErr result (λ same. IsReceiptFor own_box.now.loan.table.shared.table_id left same) }
    {
        match own_box.loan.take_back(receipt, Kept::Waiting) {
            Ok(errand) => Ok(self.go_oneself(rt, errand)),
            Err(same) => Err(same),
        }
    }
}

impl<J: EngineBrand, D: Disk + Drop, H: Hold + Drop> Engine<J, D, H> {
    /// Makes calls of those that wait, and sleeps, until the call of the worker's own request was made or no other
    /// worker knows of the request. Tells how the worker waits from then on. It has no request at hand, because a large
    /// local value would be cleared in each turn.
    fn serve_until_done(
        &self,
        rt: &impl Wait,
        lock: &FileLock<J, D>,
        own_box: &ErrandBox<J, D>,
        stay: Stay,
        worker: u8,
    ) -> Stay {
        let mut stay = stay;
        for _ in rt.forever() {
            let heard = own_box.bell.listen();
            if own_box.flag.is_done() {
                return stay;
            }
            stay = self.serve_or_sleep(rt, lock, own_box, heard, stay, worker);
            if stay.is_forgotten {
                return stay;
            }
        }
        unreachable!()
    }

    /// Makes a call of those that wait, if one may be made. Else sleeps, until the worker's bell is rung or a short
    /// time is over. Tells how the worker waits from then on.
    fn serve_or_sleep(
        &self,
        rt: &impl Wait,
        lock: &FileLock<J, D>,
        own_box: &ErrandBox<J, D>,
        heard: Heard,
        stay: Stay,
        worker: u8,
    ) -> Stay {
        let mut next = stay;
        match self.serve_one(rt, lock, stay.choosing, worker) {
            Served::One => {
                next.choosing = Choosing::Patient;
                next.has_served = true;
            }
            Served::Busy => {
                self.wake_served(rt, lock);
                own_box.bell.sleep(rt, heard, LONG_SLEEP);
            }
            Served::Later => {
                self.wake_served(rt, lock);
                if !own_box.bell.sleep(rt, heard, SHORT_SLEEP) {
                    next.choosing = Choosing::Any;
                }
            }
            Served::Nobody => {
                self.wake_served(rt, lock);
                next.is_forgotten = !own_box.bell.sleep(rt, heard, LONG_SLEEP);
            }
        }
        next
    }

    /// Makes the next call of those that wait, if the lock is free and one may be made. If it syncs, workers whose
    /// calls were made are woken before.
    fn serve_one(
        &self,
        rt: &impl Wait,
        lock: &FileLock<J, D>,
        choosing: Choosing,
        worker: u8,
    ) -> Served {
        for _ in rt.forever() {
            let Some(is_made) = self.try_next(rt, lock, choosing, worker) else {
                return Served::Busy;
            };
            if is_made {
                return Served::One;
            }
            // Whoever came meanwhile found the lock held, and sleeps. So this one looks again.
            match lock.room.look(rt, choosing) {
                Look::Ready => {}
                Look::Later => return Served::Later,
                Look::Nobody => return Served::Nobody,
            }
        }
        unreachable!()
    }

    /// A worker takes its request back, and goes: it wakes the next of those whose calls were made. If it made calls of
    /// others meanwhile, it looks once more.
    fn go(&self, rt: &impl Wait, lock: &FileLock<J, D>, waiter: &Waiter, has_served: bool) {
        if let Some(next) = lock.room.take_back(rt, waiter.worker) {
            self.ring(next);
        }
        if has_served {
            self.leave(rt, lock, waiter);
        }
    }

    /// A worker whose call was made goes, while others are in the room. It makes those of their calls that need no sync
    /// and, if it comes back soon, the seals. Else it wakes the one that came first.
    pub(crate) fn leave(&self, rt: &impl Wait, lock: &FileLock<J, D>, waiter: &Waiter) {
        let comes_back = waiter.comes_back();
        let choosing = if comes_back {
            Choosing::Seals
        } else {
            Choosing::WithoutSync
        };
        for _ in 0..MOST_FOR_OTHERS {
            if self.serve_one(rt, lock, choosing, waiter.worker) != Served::One {
                break;
            }
        }
        self.wake_served(rt, lock);
        if comes_back {
            lock.room.owe(waiter.worker);
        } else {
            self.wake_next(rt, lock);
        }
    }

    /// A worker's request has its reply. If others waited for the worker to come back to the file, it wakes one.
    pub(crate) fn depart(&self, rt: &impl Wait, worker: u8, tenant: u8) {
        if let Some(lock) = self.lock_of(tenant)
            && let Some(next) = lock.room.depart(rt, worker)
        {
            self.ring(next);
        }
    }
}

impl<J: EngineBrand, D: Disk, H> Engine<J, D, H> {
    /// The lock of a tenant's file, if it is at the tenant's number.
    pub(crate) fn lock_of(&self, tenant: u8) -> Option<&FileLock<J, D>> {
        let lock = self.books.get(usize::from(tenant))?;
        if lock.is_of(tenant) { Some(lock) } else { None }
    }

    /// Wakes the worker that came first of those that wait for a file. Whoever releases the file's lock calls this.
    pub(crate) fn wake_next(&self, rt: &impl Wait, lock: &FileLock<J, D>) {
        if let Some(worker) = lock.room.next(rt) {
            self.ring(worker);
        }
    }

    /// Wakes the first of the workers whose calls were made. Each of these wakes another.
    fn wake_served(&self, rt: &impl Wait, lock: &FileLock<J, D>) {
        self.ring_all(&lock.room.woken(rt));
    }

    /// Wakes some workers.
    pub(crate) fn ring_all(&self, workers: &Workers) {
        for worker in workers.as_slice() {
            self.ring(*worker);
        }
    }

    /// Wakes a worker, if it sleeps.
    fn ring(&self, worker: u8) {
        if let Some(own_box) = self.errands.get(usize::from(worker)) {
            own_box.bell.ring();
        }
    }
}

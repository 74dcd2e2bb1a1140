//! Makes one call on a tenant's file under its lock: the call of the worker's own request, or of another one's.
//!
//! Only functions here and in `file_lock` take a file's lock. Each releases it before it returns, and makes nothing
//! but calls on the file meanwhile (`specs/Errands`). So no other step is made under the lock.
//!
//! Used by: `serving`, which calls `combine`; `combiner`, which makes calls for others; it and tests call `file`.
//! Change it with `specs/Errands`, `specs/FileCalls`, `specs/History`, `specs/Passes`, `specs/Replies` and
//! `specs/Steps`. After a change run scripts/check-wakes.
ghost use Rattle.std.specs.Prelude.{◌≢◌, None};
ghost use Rattle.mw_world.specs.Definition.Calls.{called_at};
ghost use Rattle.mw_core.specs.FromTable.{IsCarried, IsSamePass, View as Knowledge, known};
ghost use Rattle.mw_engine.specs.Errands.{CarriesRequest, RequestGoesOn};
ghost use Rattle.mw_engine.specs.FileCalls.{FilesOne};
ghost use Rattle.mw_engine.specs.History.{IsInProgress};
ghost use Rattle.mw_engine.specs.Passes.{IsPassOf};
ghost use Rattle.mw_engine.specs.Replies.{IsOnItsWay};
ghost use Rattle.mw_engine.specs.Steps.{IsSameRequest};

use crate::brand::EngineBrand;
use crate::engine::Engine;
use crate::errand::Errand;
use crate::errand_boxes::ErrandBox;
use crate::file_calls::due_call;
use crate::file_lock::FileLock;
use crate::guarded_file::GuardedFile;
use crate::hold::Hold;
use core::mem::replace_with;
use mw_actor::Actor;
use mw_core::Pass;
use mw_disk::Disk;
use mw_loan::Kept;
use mw_turns::{Choosing, DueCall, FairGuard, Waiter, Workers};
use std::sync::Wait;

impl<J: EngineBrand, D: Disk + Drop, H: Hold + Drop> Engine<J, D, H> {
    /// Makes the call on its tenant's file to which the pass's request has come, or has another thread make it. No
    /// contract says that it is made: `serve` calls this again.
    #[tactic(auto, using(crate::proofs::RequestsGoOn::called))]
    pub(crate) fn combine(&self, rt: &impl Wait, pass: &mut Pass, actor: &mut Actor, due: DueCall)
        requires here { CarriesRequest J.identity pass.old actor.old }
        requires call { called_at actor.old.point ≢ None }
        ensures { RequestGoesOn D.facts J.identity pass.old actor.old pass.new actor.new }
    {
        let Some(lock) = self.lock_of(actor.tenant()) else {
            self.file(rt, pass, actor);
            return;
        };
        let waiter = Waiter::new(pass.worker(), due);
        if let Some(guard) = lock.lock_for(&waiter) {
            self.make_own(rt, lock, guard, pass, actor, &waiter);
            return;
        }
        let Some(own_box) = self.errands.get(usize::from(waiter.worker)) else {
            self.file(rt, pass, actor);
            return;
        };
        // `replace_with` moves one value out of a `&mut`. A pass can't be copied, so the machine is.
        let own = actor.copy();
        *actor = replace_with(pass, own, |pass, actor| {
            let Errand { pass, actor } = self.send(
                rt,
                lock,
                own_box,
                Errand { pass, actor },
                waiter,
            );
            (pass, actor)
        });
    }

    /// Makes the call of a worker's own request with the file's lock, and releases it. If others are there it then
    /// makes calls of theirs.
    fn make_own(
        &self,
        rt: &impl Wait,
        lock: &FileLock<J, D>,
        guard: FairGuard<'_, GuardedFile<J, D>>,
        pass: &mut Pass,
        actor: &mut Actor,
        waiter: &Waiter,
    )
        requires here { CarriesRequest J.identity pass.old actor.old }
        ensures { RequestGoesOn D.facts J.identity pass.old actor.old pass.new actor.new }
    {
        let mut guard = guard;
        self.make_with_lock(rt, lock, &mut guard.value, pass, actor, waiter);
        drop(guard);
        if !lock.room.is_empty() {
            self.leave(rt, lock, waiter);
        }
    }

    /// Makes the call of a worker's own request on this file, and notes it in the file's room.
    fn make_with_lock(
        &self,
        rt: &impl Wait,
        lock: &FileLock<J, D>,
        file: &mut GuardedFile<J, D>,
        pass: &mut Pass,
        actor: &mut Actor,
        waiter: &Waiter,
    )
        requires here { CarriesRequest J.identity pass.old actor.old }
        ensures { RequestGoesOn D.facts J.identity pass.old actor.old pass.new actor.new }
    {
        lock.room.begin(waiter);
        self.make(file, pass, actor);
        lock.room.end(rt, waiter, &file.book, &mut file.called);
    }

    /// Makes the call on this file to which a request has come. Does nothing if it has come to none, or the file is
    /// another tenant's.
    #[tactic(auto, using(crate::proofs::RequestsGoOn::stays))]
    fn make(&self, file: &mut GuardedFile<J, D>, pass: &mut Pass, actor: &mut Actor)
        requires here { CarriesRequest J.identity pass.old actor.old }
        ensures { RequestGoesOn D.facts J.identity pass.old actor.old pass.new actor.new }
    {
        let Some(due) = due_call(actor) else {
            return;
        };
        if file.is_of(actor) {
            file.strike_off(due);
            file.file(&self.words.core, pass, actor);
        }
    }

    /// Makes the call on its tenant's file to which the pass's request has come. Waits for the lock of that file. No
    /// other thread makes the call. Used by tests that make each step, and where `combine` can't use a box.
    pub fn file(&self, rt: &impl Wait, pass: &mut Pass, actor: &mut Actor)
        requires own { IsPassOf J.identity pass.old }
        requires carried { IsCarried pass.old actor.old }
        requires call { called_at actor.old.point ≢ None }
        ensures own { IsPassOf J.identity pass.new }
        ensures same { IsSamePass pass.old pass.new }
        ensures carried { IsCarried pass.new actor.new }
        ensures files { FilesOne D.facts J.identity pass.old pass.new actor.old actor.new }
        ensures request { IsSameRequest actor.old actor.new }
        ensures way { IsOnItsWay actor.old.job actor.old.point → IsOnItsWay actor.new.job actor.new.point }
        ensures call { (first : Knowledge) → IsInProgress first (known pass.old) actor.old → IsInProgress first (known pass.new) actor.new }
    {
        // The first lock that is taken is the tenant's own. The loop is needed because no type of an index can say
        // so: all locks of a list have one type, and it says the same of what each of them guards.
        let mut index = usize::from(actor.tenant());
        for _ in rt.forever() {
            if index >= self.books.len() {
                index = 0;
            }
            let mut guard = self.books[index].lock(rt);
            if guard.value.is_of(actor) {
                guard.value.file(&self.words.core, pass, actor);
                drop(guard);
                self.wake_next(rt, &self.books[index]);
                return;
            }
            index += 1;
        }
        unreachable!()
    }
}

impl<J: EngineBrand, D: Disk + Drop, H: Hold + Drop> Engine<J, D, H> {
    /// Makes the next call of those that wait, if the lock is free and one may be made. Tells whether it was made;
    /// None if another thread has the lock. If the call syncs, workers whose calls were made are woken before.
    pub(crate) fn try_next(
        &self,
        rt: &impl Wait,
        lock: &FileLock<J, D>,
        choosing: Choosing,
        worker: u8,
    ) -> Option<bool> {
        let mut guard = lock.try_lock()?;
        Some(self.make_next(rt, lock, &mut guard.value, choosing, worker))
    }

    /// Makes the next call of those that wait on this file, if one may be made. Tells whether it was chosen.
    fn make_next(
        &self,
        rt: &impl Wait,
        lock: &FileLock<J, D>,
        file: &mut GuardedFile<J, D>,
        choosing: Choosing,
        worker: u8,
    ) -> bool {
        let mut woken = Workers::new();
        let Some(waiter) = lock.room.choose(rt, choosing, &mut file.called, &mut woken) else {
            return false;
        };
        self.ring_all(&woken);
        lock.room.begin(&waiter);
        match self.make_for(file, waiter.worker) {
            Some(own_box) if waiter.worker != worker => {
                lock.room
                    .end_for(rt, &waiter, &file.book, &mut file.called, &own_box.flag);
            }
            Some(own_box) => {
                lock.room.end(rt, &waiter, &file.book, &mut file.called);
                own_box.flag.end();
            }
            None => lock.room.end(rt, &waiter, &file.book, &mut file.called),
        }
        true
    }

    /// Makes the call of the request that waits in a worker's box. Gives the box, if the request was there.
    fn make_for(&self, file: &mut GuardedFile<J, D>, worker: u8) -> Option<&ErrandBox<J, D>> {
        let own_box = self.errands.get(usize::from(worker))?;
        let is_lent = own_box.loan.lend(Kept::Waiting, |errand| {
            self.make(file, &mut errand.pass, &mut errand.actor)
        });
        if is_lent { Some(own_box) } else { None }
    }
}

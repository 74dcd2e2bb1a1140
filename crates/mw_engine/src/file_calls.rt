//! Makes a call on a tenant's file, under its lock.
//!
//! Used by: `one_call`, which takes the lock; `serving` and `combiner`, to ask for the call that is due. Change it
//! with `specs/Brand`, `specs/FileCalls` and `specs/Passes`.
ghost use Rattle.std.specs.Prelude.{◌≡◌, ◌≢◌, ◌↔◌, true, is_some, None, IsTrue};
ghost use Rattle.mw_world.specs.Definition.Calls.{called_at};
ghost use Rattle.mw_core.specs.FromTable.{IsCarried, IsSamePass};
ghost use Rattle.mw_engine.specs.Brand.{identity_on};
ghost use Rattle.mw_engine.specs.FileCalls.{FilesOne};
ghost use Rattle.mw_engine.specs.Passes.{IsOneOf};

use crate::brand::EngineBrand;
use crate::guarded_file::GuardedFile;
use mw_actor::{Actor, Point};
use mw_core::{Core, Pass};
use mw_disk::Disk;
use mw_look::Call;
use mw_turns::{DueCall, strike_off};

/// The call on its tenant's file at which a request is. None if its next step is another one.
pub(crate) fn due_call(actor: &Actor) -> Option<DueCall>
    ensures { is_some result ≡ true → called_at actor.now.point ≢ None }
{
    let (call, slot) = match actor.point() {
        Point::Prepare(own) => (Call::Prepare, own.slot),
        Point::Seal(task) => (Call::Seal, task.target.slot),
        Point::Settle(task) => (Call::Settle, task.target.slot),
        Point::Cancel(task) => (Call::Cancel, task.target.slot),
        _ => return None,
    };
    Some(DueCall { call, slot })
}

impl<J: EngineBrand, D: Disk> GuardedFile<J, D> {
    /// Whether this is the file of the request's tenant.
    pub(crate) fn is_of(&self, actor: &Actor) -> bool
        ensures { IsTrue result ↔ (self.now.tenant ≡ actor.now.tenant) }
    {
        self.tenant == actor.tenant()
    }

    /// Makes the call on this file to which the pass's request has come.
    pub(crate) fn file(&mut self, core: &Core, pass: &mut Pass, actor: &mut Actor)
        requires engine { identity_on core.now.shared J.identity.lines J.identity.disks ≡ J.identity }
        requires own { IsOneOf core.now.shared pass.old }
        requires carried { IsCarried pass.old actor.old }
        requires call { called_at actor.old.point ≢ None }
        requires whose { self.old.tenant ≡ actor.old.tenant }
        ensures own { IsOneOf core.now.shared pass.new }
        ensures same { IsSamePass pass.old pass.new }
        ensures carried { IsCarried pass.new actor.new }
        ensures files { FilesOne D.facts J.identity pass.old pass.new actor.old actor.new }
        ensures whose { self.new.tenant ≡ actor.new.tenant }
    {
        match self.file_pass.take() {
            Some(file_pass) => {
                let file_pass = core.file(pass, actor, &mut self.book, file_pass, &self.called);
                self.file_pass = Some(file_pass);
            }
            None => unreachable!(),
        }
    }

    /// Strikes the change of a request off the list of those that wait, if a prepare of it is next.
    pub(crate) fn strike_off(&mut self, due: DueCall)
        ensures { self.new.tenant ≡ self.old.tenant }
    {
        if matches!(due.call, Call::Prepare) && !self.called.is_empty() {
            strike_off(&mut self.called, due.slot);
        }
    }
}

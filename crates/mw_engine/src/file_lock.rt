//! The lock of a tenant's file, with a room for those that wait for it.
//!
//! Used by: `engine`; `start`, which makes it; `one_call`, which takes it; `combiner`; `copies`; `end`. No contract
//! is about the room. Whoever releases the lock looks into the room, or calls `wake_next`. Who takes the lock is
//! private here.
ghost use Rattle.std.specs.Prelude.{IfSome};
ghost use Rattle.mw_engine.specs.Copies.{CopiesOne};

use crate::brand::EngineBrand;
use crate::guarded_file::GuardedFile;
use mw_disk::Disk;
use mw_file::CopyFault;
use mw_turns::{FairGuard, FairLock, Waiter, WaitingRoom};
use std::alloc::Global;
use std::sync::Wait;

mod one_call;

/// A tenant's file under its lock, and who waits for it.
#[derive(Drop)]
pub(crate) struct FileLock<J: EngineBrand, D: Disk> {
    file: FairLock<GuardedFile<J, D>>,
    /// The tenant of the file, to be read without the lock. No contract says that it is the file's.
    tenant: u8,
    pub(crate) room: WaitingRoom,
}

impl<J: EngineBrand, D: Disk> FileLock<J, D> {
    /// Makes a lock of a file. It is free.
    pub(crate) fn new(file: GuardedFile<J, D>) -> FileLock<J, D> {
        let tenant = file.tenant;
        FileLock {
            file: FairLock::new(file),
            tenant,
            room: WaitingRoom::new(),
        }
    }

    /// Ends the lock and gives the file.
    pub(crate) fn into_inner(self) -> GuardedFile<J, D> {
        let FileLock {
            file,
            tenant: _,
            room: _,
        } = self;
        file.into_inner()
    }

    /// Whether it was made of this tenant's file.
    pub(crate) fn is_of(&self, tenant: u8) -> bool {
        self.tenant == tenant
    }

    /// Copies the bytes of the file between two calls on it, if it is that of this tenant. Gives None if it is another
    /// one's.
    pub(crate) fn copy_of(
        &self,
        rt: &impl Wait,
        alloc: Global,
        tenant: u8,
    ) -> Option<Result<Vec<u8>, CopyFault>>
        ensures { IfSome result (λ copied. CopiesOne D.facts J.identity tenant copied) }
    {
        let mut guard = self.lock(rt);
        guard.value.copy_of(tenant, alloc)
    }

    /// Takes the lock, and waits while another thread holds it.
    fn lock(&self, rt: &impl Wait) -> FairGuard<'_, GuardedFile<J, D>> {
        self.file.lock(rt)
    }

    /// Takes the lock for a worker that comes to a call, if its call may be made before others come, and the lock is
    /// free or gets free within some microseconds.
    fn lock_for(&self, waiter: &Waiter) -> Option<FairGuard<'_, GuardedFile<J, D>>> {
        if self.room.may_try(waiter) {
            self.file.try_lock_for_a_while()
        } else {
            None
        }
    }

    /// Takes the lock if it is free.
    fn try_lock(&self) -> Option<FairGuard<'_, GuardedFile<J, D>>> {
        self.file.try_lock()
    }
}

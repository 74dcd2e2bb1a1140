//! Copies the bytes of a tenant's file while the engine serves: a backup of it at one moment.
//!
//! Whoever serves operators calls `copy_file`. Change it with `specs/Copies`.
ghost use Rattle.std.specs.Prelude.{◌<◌, length, IfSome};
ghost use Rattle.mw_engine.specs.Copies.{CopiesOne};

use crate::brand::EngineBrand;
use crate::engine::Engine;
use crate::guarded_file::GuardedFile;
use mw_disk::Disk;
use mw_file::CopyFault;
use std::alloc::Global;
use std::sync::Wait;

impl<J: EngineBrand, D: Disk + Drop, H: Drop> Engine<J, D, H> {
    /// Copies the bytes of a tenant's file between two calls on it. Waits for the lock of that file, which a thread
    /// holds for one call. The number must be one of the engine's tenants.
    ///
    /// On a disk that keeps the model of [`Disk`], the copy is a file of just the words that the file pass tells at
    /// that moment. It has at most 86,848 bytes (`MAX_FILE` of mw_record). Nothing is written, and what the lock
    /// guards stays as it was but for the device's counts of calls.
    ///
    /// # Errors
    ///
    /// - [`CopyFault::Failed`] if the file had failed before, or didn't open. The call did nothing.
    /// - [`CopyFault::Disk`] if the device fails. The file doesn't fail by it.
    /// - [`CopyFault::Memory`] if memory is out.
    pub fn copy_file(&self, rt: &impl Wait, alloc: Global, tenant: u8) -> Result<Vec<u8>, CopyFault>
        requires there { tenant < length J.identity.lines }
        ensures { CopiesOne D.facts J.identity tenant result }
    {
        // As in `file`, the first lock that is taken is the tenant's own, and no type says so.
        let mut index = usize::from(tenant);
        for _ in rt.forever() {
            if index >= self.books.len() {
                index = 0;
            }
            let copied = self.books[index].copy_of(rt, alloc, tenant);
            self.wake_next(rt, &self.books[index]);
            if let Some(copied) = copied {
                return copied;
            }
            index += 1;
        }
        unreachable!()
    }
}

impl<J: EngineBrand, D: Disk> GuardedFile<J, D> {
    /// Copies the bytes of this file if it is that of this tenant. Gives None, and does nothing, if it is another
    /// one's.
    pub(crate) fn copy_of(
        &mut self,
        tenant: u8,
        alloc: Global,
    ) -> Option<Result<Vec<u8>, CopyFault>>
        ensures { IfSome result (λ copied. CopiesOne D.facts J.identity tenant copied) }
    {
        if self.tenant != tenant {
            return None;
        }
        Some(self.book.copy_bytes(alloc))
    }
}

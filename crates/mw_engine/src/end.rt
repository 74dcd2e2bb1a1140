//! Ends an engine and gives the disks of its tenants' files.
//!
//! Only tests call `into_disks`. `mwserve` drops its engine when it ends. Change it with
//! `specs/Brand`, `specs/DisksAtEnd` and `specs/Passes`.
ghost use Rattle.std.specs.Prelude.{◌≡◌, IfOk};
ghost use Rattle.mw_engine.specs.Brand.{identity_on};
ghost use Rattle.mw_core.specs.FromTable.{IsSamePass, known};
ghost use Rattle.mw_engine.specs.DisksAtEnd.{AreGivenSeen, GivenSeenAs, SeesMore};
ghost use Rattle.mw_engine.specs.Passes.{IsPassOf};

use crate::brand::EngineBrand;
use crate::engine::Engine;
use crate::guarded_file::GuardedFile;
use mw_core::{Core, Pass};
use mw_disk::Disk;
use std::alloc::Global;

/// Why an engine that ended gave no disks.
#[derive(PartialEq, Eq, Clone, Copy)]
pub enum NoDisks {
    /// Memory is out.
    Memory,
    /// A lock kept the file of a tenant that doesn't have the lock's number. This never happens, but no type says
    /// so.
    Misplaced,
}

impl<J: EngineBrand, D: Disk + Drop, H: Drop> Engine<J, D, H> {
    /// Ends the engine and gives the disks of the tenants' files, by the tenant's number; `None` for a file that
    /// didn't open. The pass sees all changes that were sealed in the files. On each disk that keeps the model, the file
    /// represents the words that it has in the world of the shared words, after some run that goes on from what its file pass
    /// knew. They are the words of the latest start, with all changes put over them that the pass had seen when it saw that
    /// file, in order. The change in doubt may be there too. Each change for which the pass was answered YES is one of
    /// these changes, at its place, and no request has two. If passes have met this one before, that holds of the requests of
    /// all of them.
    ///
    /// # Errors
    ///
    /// [`NoDisks`] says which. The disks are dropped. The pass stays the engine's. No clause says that disks are given.
    pub fn into_disks(self, alloc: Global, pass: &mut Pass) -> Result<Vec<Option<D>>, NoDisks>
        requires own { IsPassOf J.identity pass.old }
        ensures own { IsPassOf J.identity pass.new }
        ensures stays { IsSamePass pass.old pass.new }
        ensures sees { SeesMore (known pass.old) (known pass.new) }
        ensures given { IfOk result (λ disks. AreGivenSeen D.facts J.identity (known pass.old) (known pass.new) disks.items) }
    {
        let Engine {
            words,
            hold: _,
            books,
            errands: _,
        } = self;
        let Ok(mut disks) = Vec::with_capacity(alloc, books.len()) else {
            return Err(NoDisks::Memory);
        };
        for book in books {
            let kept = book.into_inner();
            if usize::from(kept.tenant) != disks.len() {
                return Err(NoDisks::Misplaced);
            }
            let Ok(()) = disks.push(kept.into_disk(&words.core, pass)) else {
                return Err(NoDisks::Memory);
            };
        }
        Ok(disks)
    }
}

impl<J: EngineBrand, D: Disk> GuardedFile<J, D> {
    /// The disk of the tenant's file; `None` if the file didn't open. The file pass is dropped, after the table
    /// confirms that what it tells is so in the world of the shared words, and the pass has seen all changes that were
    /// sealed in the file.
    fn into_disk(self, core: &Core, pass: &mut Pass) -> Option<D>
        requires engine { identity_on core.now.shared J.identity.lines J.identity.disks ≡ J.identity }
        requires own { IsPassOf J.identity pass.old }
        ensures own { IsPassOf J.identity pass.new }
        ensures stays { IsSamePass pass.old pass.new }
        ensures sees { SeesMore pass.old.seat.me.0 pass.new.seat.me.0 }
        ensures given { GivenSeenAs D.facts J.identity pass.old.seat.me.0 pass.new.seat.me.0 self.tenant result }
    {
        let GuardedFile {
            book,
            file_pass,
            tenant: _,
            called: _,
            brand: _,
        } = self;
        let Some(file_pass) = file_pass else {
            unreachable!()
        };
        core.shared().confirm_with(pass, file_pass);
        book.into_disk()
    }
}

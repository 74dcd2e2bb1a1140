//! Makes an engine of its parts.
//!
//! mw_programs calls `into_engine` once, before the first session. A new field of `Engine` or of `GuardedFile` gets
//! its value here. Change it with `specs/GuardedFile` and `specs/Parts`.
ghost use Rattle.std.specs.Prelude.{◌≡◌, length, IfOk};
ghost use Rattle.mw_engine.specs.GuardedFile.{AreKept};
ghost use Rattle.mw_engine.specs.Parts.{identity_of};

use crate::brand::EngineBrand;
use crate::engine::Engine;
use crate::errand_boxes::errand_boxes;
use crate::file_lock::FileLock;
use crate::guarded_file::GuardedFile;
use crate::parts::EngineParts;
use mw_book::Book;
use mw_core::FilePass;
use mw_disk::Disk;
use mw_turns::WaitingChanges;
use std::alloc::{AllocError, Global};
use std::marker::PhantomData;

impl<D: Disk + Drop, H: Drop> EngineParts<D, H> {
    /// Makes the engine of these parts. It serves from now on. Each lock keeps the book of its tenant's file, on the disk
    /// that the file opened on (`IsKept` of `specs/GuardedFile`).
    ///
    /// # Errors
    ///
    /// [`AllocError`] if memory is out. The parts are dropped.
    #[tactic(auto, using(crate::proofs::Branded::with_own_disks))]
    pub fn into_engine<J: EngineBrand>(self, alloc: Global) -> Result<Engine<J, D, H>, AllocError>
        requires { identity_of self ≡ J.identity }
        ensures words { IfOk result (λ engine. engine.words ≡ self.words) }
        ensures hold { IfOk result (λ engine. engine.hold ≡ self.hold) }
    {
        let EngineParts {
            words,
            hold,
            books,
            file_passes,
        } = self;
        let books = locked(alloc, books, file_passes)?;
        let errands = errand_boxes(alloc)?;
        Ok(Engine {
            words,
            hold,
            books,
            errands,
        })
    }
}

/// Each tenant's book and its file pass, under a lock.
fn locked<J: EngineBrand, D: Disk + Drop>(
    alloc: Global,
    books: Vec<Book<D>>,
    file_passes: Vec<FilePass>,
) -> Result<Vec<FileLock<J, D>>, AllocError>
    requires kept { AreKept D.facts J.identity books.items file_passes.items }
    requires even { length file_passes.items ≡ length books.items }
    ensures { IfOk result (λ made. length made.items ≡ length books.items) }
{
    let mut made = Vec::with_capacity(alloc, books.len())?;
    let mut file_passes = file_passes.into_iter();
    for book in books {
        let Some(file_pass) = file_passes.next() else {
            unreachable!()
        };
        let tenant = file_pass.tenant();
        let kept = GuardedFile {
            book,
            file_pass: Some(file_pass),
            tenant,
            called: WaitingChanges::new(),
            brand: PhantomData,
        };
        made.push(FileLock::new(kept))?;
    }
    Ok(made)
}

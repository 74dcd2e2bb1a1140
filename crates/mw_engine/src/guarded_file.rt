//! What the lock of a tenant's file guards: its book, and the file pass (the capability to call it).
//!
//! Used by: `file_lock`, `one_call`, `start`, `file_calls`, `copies`, `end`. Change it with `specs/GuardedFile`.
ghost use Rattle.mw_engine.specs.GuardedFile.{KeepsFor};

use crate::brand::EngineBrand;
use mw_book::Book;
use mw_core::FilePass;
use mw_disk::Disk;
use mw_turns::WaitingChanges;
use std::marker::PhantomData;

/// The book of a tenant's file, and the file pass of the table that the engine's identity names. The file pass is
/// away only while a call on the file is made.
#[derive(Drop)]
pub(crate) struct GuardedFile<J: EngineBrand, D: Disk> {
    pub(crate) book: Book<D>,
    pub(crate) file_pass: Option<FilePass>,
    pub(crate) tenant: u8,
    /// The changes that wait for the file, as far as whoever took its lock last knows.
    pub(crate) called: WaitingChanges,
    pub(crate) brand: PhantomData<J>,
    ghost kept: { KeepsFor D.facts J.identity book file_pass tenant },
}

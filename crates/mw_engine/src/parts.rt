//! The parts of an engine, before it has an identity of its own.
//!
//! `new_parts` makes them, and `start` an engine of them, for mw_programs. Change it with
//! `specs/Brand`, `specs/DisksAtStart`, `specs/GuardedFile` and `specs/TenantWords`.
ghost use Rattle.std.specs.Prelude.{◌≡◌, length};
ghost use Rattle.mw_engine.specs.Brand.{identity_on};
ghost use Rattle.mw_engine.specs.DisksAtStart.{disks_in};
ghost use Rattle.mw_engine.specs.GuardedFile.{AreKept};
ghost use Rattle.mw_engine.specs.TenantWords.{lines_told};

use crate::tenant_words::TenantWords;
use mw_book::Book;
use mw_core::FilePass;
use mw_disk::Disk;

/// The parts of an engine, which has no brand yet. [`EngineParts::into_engine`] gives it one.
#[derive(Drop)]
pub struct EngineParts<D: Disk, H> {
    pub(crate) words: TenantWords,
    pub(crate) hold: H,
    pub(crate) books: Vec<Book<D>>,
    pub(crate) file_passes: Vec<FilePass>,
    ghost kept: { AreKept D.facts (identity_on words.core.shared (lines_told words) (disks_in D.facts books.items)) books.items file_passes.items },
    ghost a_book_each: { length books.items ≡ length words.lines.items },
    ghost a_file_pass_each: { length file_passes.items ≡ length words.lines.items },
}

//! The engine: the shared words of all tenants, and each tenant's file under a lock of its own.
//!
//! Its methods are in `tenants`, `serving`, `steps`, `reads`, `notes`, `meet`, `figures`, `copies`, `end`, `combiner` and
//! `file_lock/one_call`.
//!
//! Used by: mw_service, mw_programs, tests. `start` makes it. Change it with `specs/Brand` and `specs/TenantWords`.
ghost use Rattle.std.specs.Prelude.{◌≡◌, length};
ghost use Rattle.mw_engine.specs.Brand.{identity_on};
ghost use Rattle.mw_engine.specs.TenantWords.{lines_told};

use crate::brand::EngineBrand;
use crate::errand_boxes::ErrandBox;
use crate::file_lock::FileLock;
use crate::tenant_words::TenantWords;
use mw_disk::Disk;

/// The tenants' words, which many workers change at once. The workers share atomic words, and the tenants' files,
/// each under a lock of its own.
#[derive(Drop)]
pub struct Engine<J: EngineBrand, D: Disk, H> {
    pub(crate) words: TenantWords,
    pub(crate) hold: H,
    pub(crate) books: Vec<FileLock<J, D>>,
    pub(crate) errands: Vec<ErrandBox<J, D>>,
    ghost same: { identity_on words.core.shared (lines_told words) J.identity.disks ≡ J.identity },
    ghost a_book_each: { length books.items ≡ length (lines_told words) },
}

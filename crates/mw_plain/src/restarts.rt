//! The law that a tenant's store alone may start again from what a crash left: the contract of an empty function.
//!
//! Nothing calls it. Change it with `specs/Restarts`, `specs/Answers`, `specs/Cases` and `specs/Parts`. docs/PROMISES
//! cites it.
ghost use Rattle.std.specs.Prelude.{◌≡◌, ℕ, Some, None, length, Result, Vec, IsTrue};
ghost use Rattle.std.specs.declared.alloc.Global.{Global};
ghost use Rattle.mw_disk.specs.Facts.{IsSynced, MayLeave};
ghost use Rattle.mw_words.specs.declared.jobs.Job.{Job};
ghost use Rattle.mw_record.specs.Layout.{pairs_of};
ghost use Rattle.mw_file.specs.declared.tenant_file.TenantFile.{TenantFile as File};
ghost use Rattle.mw_file.specs.declared.opening.OpenFault.{OpenFault};
ghost use Rattle.mw_file.specs.File.{disk_of, states_of};
ghost use Rattle.mw_file.specs.RecoveryInvariant.{IsBeforeOrAfter};
ghost use Rattle.mw_file.specs.OpeningEnds.{Opens};
ghost use Rattle.mw_lone.specs.Store.{Store, request, entries_of};
ghost use Rattle.mw_plain.specs.declared.loaded_file.LoadedFile.{LoadedFile};
ghost use Rattle.mw_plain.specs.declared.plain.Plain.{Plain};
ghost use Rattle.mw_plain.specs.Answers.{FileKeeps};
ghost use Rattle.mw_plain.specs.Cases.{CanChange, under_way};
ghost use Rattle.mw_plain.specs.Parts.{book_at};
ghost use Rattle.mw_plain.specs.Restarts.{RestartGoesOn};

use mw_disk::Disk;
use mw_file::crash_of_a_file;

/// A start of the tenant's store alone may go on from what a crash leaves of the tenant's file, if the file is
/// opened on an honest, synced disk. The start finds all or nothing of the change in doubt. If the crash came while
/// a change was sealed or settled, the start finds all or nothing of that change. It may give every quota that a
/// tenant may have. The opened file fits a line with the tenant's number of words and any quota up to the file's
/// places. If the opening fails, the file isn't damaged: a crash leaves a file of words that the store alone may
/// start with.
pub fn a_restart_goes_on<D: Disk, E: Disk>()
    ensures in_use { (plain : Plain D) (tenant : ℕ) (book : LoadedFile D) (s : Store) (disk : E) (opened : Result (File E × Vec ℕ Global) (OpenFault × E))
        → book_at plain tenant ≡ Some book → FileKeeps D.facts plain tenant s → IsTrue (D.facts (disk_of book.file)).honest
        → MayLeave (D.facts (disk_of book.file)) (E.facts disk).reads
        → IsTrue (E.facts disk).honest → IsSynced (E.facts disk) → Opens E.facts disk opened
        → RestartGoesOn E.facts s None (length (states_of book.file)) opened }
    ensures in_doubt { (places : ℕ) (s : Store) (disk : E) (opened : Result (File E × Vec ℕ Global) (OpenFault × E))
        → IsBeforeOrAfter places s.words (pairs_of s.in_doubt) (E.facts disk).reads
        → IsTrue (E.facts disk).honest → IsSynced (E.facts disk) → Opens E.facts disk opened
        → RestartGoesOn E.facts s None places opened }
    ensures in_a_change { (places n : ℕ) (job : Job) (s : Store) (disk : E) (opened : Result (File E × Vec ℕ Global) (OpenFault × E))
        → request s n ≡ Some (under_way job) → CanChange s job
        → IsBeforeOrAfter places s.words (pairs_of (entries_of job)) (E.facts disk).reads
        → IsTrue (E.facts disk).honest → IsSynced (E.facts disk) → Opens E.facts disk opened
        → RestartGoesOn E.facts s (Some n) places opened }
{
    crash_of_a_file::<D, E>();
}

//! Adds the second layout to a file that has its first layout alone.
//!
//! Only `opening.rt` calls it. Change it with `specs/Migration`, `specs/OpeningCalls`, `specs/RecoveryInvariant`,
//! `specs/RollForward` and `specs/Run`; docs/FILES has the bytes.
ghost use Rattle.std.specs.Prelude.{◌≡◌, ◌+◌, ◌*◌, ◌≤◌, ℕ, List, length, is_ok, IsTrue, OnOk};
ghost use Rattle.mw_disk.specs.DeviceCalls.{Makes};
ghost use Rattle.mw_disk.specs.Facts.{IsSynced, patched};
ghost use Rattle.mw_disk.specs.Runs.{Later, LeavesOnly};
ghost use Rattle.mw_record.specs.declared.layout.TheConstants.{SECOND_AT, WORD_SIZE, PLACES_GROW};
ghost use Rattle.mw_record.specs.Layout.{number_bytes};
ghost use Rattle.mw_file.specs.RecoveryInvariant.{IsFile};
ghost use Rattle.mw_file.specs.Migration.{migration_calls, InSwitch, Grown, given_second, IsLaid, CanMigrate, IsMigrated};
ghost use Rattle.mw_file.specs.OpeningCalls.{lay_list, migration_list};
ghost use Rattle.mw_file.specs.RollForward.{InRange};
ghost use Rattle.mw_file.specs.Run.{Ran};

use crate::tenant_file::write_and_sync;
use mw_disk::{Disk, DiskFault};
use mw_record::{COMMITTED, SECOND_AT, SWITCH_AT, home_word};

/// Gives the second layout to a file in its first one. It writes these bytes, which are the second layout,
/// after the first one, and their offset into the file's head, and syncs. Then it sets the switch byte, and
/// syncs. The file's words are in the first layout until the switch byte is set, and then in the second. A
/// crash at any moment leaves one or the other, so the words stay.
pub(crate) fn migrate<D: Disk>(disk: &mut D, second: &[u8], at: u64) -> Result<(), DiskFault>
    ensures calls { Ran migration_calls (D.facts disk.old) (D.facts disk.new) result }
    ensures made { Makes D.made (migration_list at second.now) (is_ok result) disk.old disk.new }
    ensures later { Later (D.facts disk.old) (D.facts disk.new) }
    ensures moments { (words places : ℕ) (contents : List ℕ) → CanMigrate (D.facts disk.old) at words places contents second.now
        → LeavesOnly (D.facts disk.old) (D.facts disk.new) (IsFile (PLACES_GROW * places) contents) }
    ensures read { (words places : ℕ) (contents : List ℕ) → CanMigrate (D.facts disk.old) at words places contents second.now
        → IsFile (PLACES_GROW * places) contents (D.facts disk.new).reads }
    ensures done { OnOk result ((words places : ℕ) (contents : List ℕ) → CanMigrate (D.facts disk.old) at words places contents second.now
        → IsMigrated (D.facts disk.new) at words (PLACES_GROW * places) contents) }
    ensures grown { (words places : ℕ) (contents : List ℕ) → CanMigrate (D.facts disk.old) at words places contents second.now
        → Grown InSwitch at (D.facts disk.old) (D.facts disk.new) }
    ensures given { OnOk result ((words places : ℕ) (contents : List ℕ) → CanMigrate (D.facts disk.old) at words places contents second.now
        → (D.facts disk.new).reads ≡ given_second at second.now (D.facts disk.old).reads) }
{
    lay(disk, second, at)?;
    write_and_sync(disk, SWITCH_AT as u64, &[COMMITTED])?;
    Ok(())
}

/// Writes a second layout at an offset and the offset into the file's head, and syncs.
fn lay<D: Disk>(disk: &mut D, second: &[u8], at: u64) -> Result<(), DiskFault>
    ensures calls { Ran 3 (D.facts disk.old) (D.facts disk.new) result }
    ensures made { Makes D.made (lay_list at second.now) (is_ok result) disk.old disk.new }
    ensures later { Later (D.facts disk.old) (D.facts disk.new) }
    ensures grown { IsTrue (D.facts disk.old).honest → Grown (InRange SECOND_AT WORD_SIZE) at (D.facts disk.old) (D.facts disk.new) }
    ensures rest { OnOk result (IsTrue (D.facts disk.old).honest → IsSynced (D.facts disk.new)) }
    ensures laid { OnOk result (IsTrue (D.facts disk.old).honest → SECOND_AT + WORD_SIZE ≤ at → at ≤ length (D.facts disk.old).reads
        → IsLaid at second.now (D.facts disk.new).reads) }
    ensures written { OnOk result (IsTrue (D.facts disk.old).honest → SECOND_AT + WORD_SIZE ≤ at → at ≤ length (D.facts disk.old).reads
        → (D.facts disk.new).reads ≡ patched (patched (D.facts disk.old).reads at second.now) SECOND_AT (number_bytes WORD_SIZE at)) }
{
    disk.write_at(at, second)?;
    disk.write_at(SECOND_AT as u64, &home_word(at))?;
    disk.sync()?;
    Ok(())
}

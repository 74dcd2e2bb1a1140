//! Prepares several changes by the sync of one call: writes their records, and sets the states of their places.
//!
//! `prepare_all`, `seal_with` and `settle_all` of `tenant_file.rt` use it; mw_book makes the [`NewChange`]s.
//! `specs/NewChanges`, `specs/DeviceCalls` and docs/FILES tell the device calls and their order: change them together.
ghost use Rattle.std.specs.Prelude.{◌≢◌, ◌+◌, ◌≤◌, ◌<◌, ◌^◌, ℕ, List, length, drop, is_ok, [], ◌∷◌, ◌++◌, OnOk, All};
ghost use Rattle.std.specs.List.{AllPairs};
ghost use Rattle.mw_disk.specs.DeviceCalls.{Sync, Makes};
ghost use Rattle.mw_disk.specs.Runs.{Later, Touched, LeavesOnly};
ghost use Rattle.mw_record.specs.declared.layout.TheConstants.{MAX_FIRST};
ghost use Rattle.mw_record.specs.Records.{put_pairs};
ghost use Rattle.mw_record.specs.Contents.{HasSecond};
ghost use Rattle.mw_file.specs.DeviceCalls.{record_calls, seal_calls, roll_device_calls};
ghost use Rattle.mw_file.specs.Run.{Ran};
ghost use Rattle.mw_file.specs.PlaceStates.{writes_of_place, roll_calls, IsStaged, AreFreed, MaySeal};
ghost use Rattle.mw_file.specs.declared.place_states.Stage.TheVariants.{Sealed};
ghost use Rattle.mw_file.specs.NewChanges.{AreWritten, CanPrepare, AreRecorded, IsDurableWith, ArePrepared};
ghost use Rattle.mw_file.specs.RecoveryInvariant.{IsBeforeOrAfter};

use crate::place_states::{PlaceState, Stage, writes_to};
use crate::roll::roll_forward;
use crate::tenant_file::{Place, write_and_sync};
use mw_disk::{Disk, DiskFault};
use mw_record::{COMMITTED, body, place_at};
use mw_words::Entries;

/// A change to be prepared.
#[derive(Default, Drop)]
pub struct NewChange {
    /// The place for the change's record.
    pub place: Place,
    /// The change's entries.
    pub entries: Entries,
}

/// Writes the record of each change into its place, in order. The second layout begins at the offset `at` and
/// has so many words. There is no sync: a crash may leave any bytes behind the places' commit bytes.
pub(crate) fn write_records<D: Disk>(
    disk: &mut D,
    at: u64,
    words: u16,
    changes: &[NewChange],
) -> Result<(), DiskFault>
    requires near { at ≤ MAX_FIRST }
    ensures calls { Ran (length changes.now) (D.facts disk.old) (D.facts disk.new) result }
    ensures made { Makes D.made (record_calls at words changes.now) (is_ok result) disk.old disk.new }
    ensures later { Later (D.facts disk.old) (D.facts disk.new) }
    ensures kept { (contents : List ℕ) (states : List PlaceState) → CanPrepare (D.facts disk.old) at words contents states changes.now
        → AreRecorded at words contents states (D.facts disk.old) (D.facts disk.new) }
    ensures written { OnOk result ((contents : List ℕ) (states : List PlaceState) → CanPrepare (D.facts disk.old) at words contents states changes.now
        → AreWritten (drop at (D.facts disk.new).reads) words changes.now) }
{
    for change in changes {
        let start = place_at(at, words, change.place.0) + 1;
        disk.write_at(start, &body(&change.entries))?;
    }
    Ok(())
}

/// Writes the record of each change into its place, and syncs.
pub(crate) fn sync_records<D: Disk>(
    disk: &mut D,
    at: u64,
    words: u16,
    changes: &[NewChange],
) -> Result<(), DiskFault>
    requires near { at ≤ MAX_FIRST }
    ensures calls { Ran (length changes.now + 1) (D.facts disk.old) (D.facts disk.new) result }
    ensures made { Makes D.made (record_calls at words changes.now ++ Sync ∷ []) (is_ok result) disk.old disk.new }
    ensures later { Later (D.facts disk.old) (D.facts disk.new) }
    ensures kept { (contents : List ℕ) (states : List PlaceState) → CanPrepare (D.facts disk.old) at words contents states changes.now
        → AreRecorded at words contents states (D.facts disk.old) (D.facts disk.new) }
    ensures done { OnOk result ((contents : List ℕ) (states : List PlaceState) → CanPrepare (D.facts disk.old) at words contents states changes.now
        → IsDurableWith (D.facts disk.new) at words contents states changes.now) }
{
    write_records(disk, at, words, changes)?;
    disk.sync()?;
    Ok(())
}

/// Writes the records of the changes `ahead`, sets the commit byte of a place, and syncs.
pub(crate) fn sync_commit<D: Disk>(
    disk: &mut D,
    at: u64,
    words: u16,
    place: Place,
    ahead: &[NewChange],
) -> Result<(), DiskFault>
    requires near { at ≤ MAX_FIRST }
    ensures calls { Ran (length ahead.now + 2) (D.facts disk.old) (D.facts disk.new) result }
    ensures made { Makes D.made (record_calls at words ahead.now ++ seal_calls at words place.0) (is_ok result) disk.old disk.new }
    ensures later { Later (D.facts disk.old) (D.facts disk.new) }
    ensures moments { (contents : List ℕ) (states : List PlaceState) → CanPrepare (D.facts disk.old) at words contents states ahead.now → MaySeal states place.0
        → LeavesOnly (D.facts disk.old) (D.facts disk.new) (IsBeforeOrAfter (length states) contents (writes_of_place states place.0)) }
    ensures touched { (contents : List ℕ) (states : List PlaceState) → CanPrepare (D.facts disk.old) at words contents states ahead.now → MaySeal states place.0
        → Touched (λ k. at ≤ k) (D.facts disk.old) (D.facts disk.new) }
    ensures done { OnOk result ((contents : List ℕ) (states next : List PlaceState) → CanPrepare (D.facts disk.old) at words contents states ahead.now → MaySeal states place.0
        → IsStaged states next place.0 Sealed (writes_of_place states place.0)
        → IsDurableWith (D.facts disk.new) at words (put_pairs (writes_of_place states place.0) contents) next ahead.now) }
{
    write_records(disk, at, words, ahead)?;
    write_and_sync(disk, place_at(at, words, place.0), &[COMMITTED])?;
    Ok(())
}

/// Writes the records of the changes `ahead`, and rolls the sealed places forward.
pub(crate) fn sync_rolled<D: Disk>(
    disk: &mut D,
    at: u64,
    words: u16,
    states: &[PlaceState],
    ahead: &[NewChange],
) -> Result<(), DiskFault>
    requires near { at ≤ MAX_FIRST }
    requires few { length states.now < 2 ^ 16 }
    ensures calls { Ran (length ahead.now + roll_calls states.now) (D.facts disk.old) (D.facts disk.new) result }
    ensures made { Makes D.made (record_calls at words ahead.now ++ roll_device_calls at words 0 states.now) (is_ok result) disk.old disk.new }
    ensures later { Later (D.facts disk.old) (D.facts disk.new) }
    ensures moments { (contents : List ℕ) → CanPrepare (D.facts disk.old) at words contents states.now ahead.now
        → LeavesOnly (D.facts disk.old) (D.facts disk.new) (HasSecond at words (length states.now) contents) }
    ensures touched { (contents : List ℕ) → CanPrepare (D.facts disk.old) at words contents states.now ahead.now
        → Touched (λ k. at ≤ k) (D.facts disk.old) (D.facts disk.new) }
    ensures done { OnOk result ((contents : List ℕ) (next : List PlaceState) → CanPrepare (D.facts disk.old) at words contents states.now ahead.now
        → AreFreed states.now next → IsDurableWith (D.facts disk.new) at words contents next ahead.now) }
{
    write_records(disk, at, words, ahead)?;
    roll_forward(disk, at, words, states, 0)?;
    Ok(())
}

/// Sets the states of the changes' places: they are prepared.
pub(crate) fn set_prepared(states: &mut [PlaceState], changes: &[NewChange])
    requires there { All (λ c. c.place.0 < length states.old) changes.now }
    requires apart { AllPairs (λ c d. c.place.0 ≢ d.place.0) changes.now }
    ensures { ArePrepared states.old states.new changes.now }
{
    for change in changes {
        states[change.place.0 as usize] = PlaceState {
            stage: Stage::Prepared,
            writes: writes_to(&change.entries),
        };
    }
}

//! Rolls sealed changes forward (redo): writes their values into the home words, then clears their commit bytes.
//!
//! Called by `settle`, `settle_all` and an opening. Callers don't see it: it may change with `specs/RollForward`.
ghost use Rattle.std.specs.Prelude.{◌≡◌, ◌+◌, ◌≤◌, ◌<◌, ◌^◌, ℕ, List, Some, length, drop, slice_index, map, is_ok, [], ◌∷◌, ◌++◌, IsTrue, OnOk, OnErr};
ghost use Rattle.arrayvec.specs.ArrayVec.{array_vec_len};
ghost use Rattle.mw_disk.specs.DeviceCalls.{Sync, Makes};
ghost use Rattle.mw_disk.specs.Facts.{IsSynced};
ghost use Rattle.mw_disk.specs.Runs.{Later, Touched, Fits, LeavesOnly};
ghost use Rattle.mw_record.specs.declared.layout.Layout.TheVariants.{Second};
ghost use Rattle.mw_record.specs.declared.layout.TheConstants.{MAX_FIRST};
ghost use Rattle.mw_record.specs.Layout as layout;
ghost use Rattle.mw_record.specs.Records.{home, over, record_over, all_over};
ghost use Rattle.mw_record.specs.Contents.{HasSecond};
ghost use Rattle.mw_file.specs.DeviceCalls.{home_call, home_calls_of, home_calls, clear_calls_of, clear_calls, roll_device_calls};
ghost use Rattle.mw_file.specs.Run.{Ran};
ghost use Rattle.mw_file.specs.RollForward.{Behind, InRecord, InHomes, AtCommit, AtCommits, HasHomes, IsBelow, AreBelow, CanRoll, IsRolled, record_of, kept_of};
ghost use Rattle.mw_file.specs.PlaceStates.{stage_of};
ghost use Rattle.mw_file.specs.declared.place_states.Stage.TheVariants.{Sealed};
ghost use Rattle.mw_file.specs.PlaceStates.{home_writes, home_writes_of, commit_writes, commit_writes_of, roll_calls};

use crate::place_states::{PlaceState, Stage, Writes};
use mw_disk::{Disk, DiskFault};
use mw_record::{NOT_COMMITTED, home_at, home_word, place_at};

/// Writes the values of the sealed places among `states` into their home words and syncs, then clears their
/// commit bytes and syncs. The first of `states` is that of place `first`. The second layout begins at the
/// offset `at` and has so many words. Before the second sync is done a crash may leave commit bytes set. This
/// does no harm, because the values are in the home words already.
pub(crate) fn roll_forward<D: Disk>(
    disk: &mut D,
    at: u64,
    words: u16,
    states: &[PlaceState],
    first: u16,
) -> Result<(), DiskFault>
    requires near { at ≤ MAX_FIRST }
    requires few { first + length states.now < 2 ^ 16 }
    ensures calls { Ran (roll_calls states.now) (D.facts disk.old) (D.facts disk.new) result }
    ensures made { Makes D.made (roll_device_calls at words first states.now) (is_ok result) disk.old disk.new }
    ensures later { Later (D.facts disk.old) (D.facts disk.new) }
    ensures moments { (places : ℕ) (contents : List ℕ) → CanRoll (D.facts disk.old) at words places first states.now contents
        → LeavesOnly (D.facts disk.old) (D.facts disk.new) (HasSecond at words places contents) }
    ensures read { (places : ℕ) (contents : List ℕ) → CanRoll (D.facts disk.old) at words places first states.now contents
        → HasSecond at words places contents (D.facts disk.new).reads }
    ensures done { OnOk result ((places : ℕ) (contents : List ℕ) → CanRoll (D.facts disk.old) at words places first states.now contents
        → IsRolled at words first states.now (D.facts disk.old) (D.facts disk.new)) }
    ensures touched { (places : ℕ) (contents : List ℕ) → CanRoll (D.facts disk.old) at words places first states.now contents
        → Touched (λ k. at ≤ k) (D.facts disk.old) (D.facts disk.new) }
{
    write_homes(disk, at, states)?;
    clear_commits(disk, at, words, states, first)?;
    Ok(())
}

fn write_homes<D: Disk>(disk: &mut D, at: u64, states: &[PlaceState]) -> Result<(), DiskFault>
    requires { at ≤ MAX_FIRST }
    ensures calls { Ran (home_writes states.now + 1) (D.facts disk.old) (D.facts disk.new) result }
    ensures made { Makes D.made (home_calls at states.now ++ Sync ∷ []) (is_ok result) disk.old disk.new }
    ensures later { Later (D.facts disk.old) (D.facts disk.new) }
    ensures touched { (words : ℕ) → HasHomes (D.facts disk.old) at words → AreBelow words states.now
        → Touched (Behind at (InHomes states.now)) (D.facts disk.old) (D.facts disk.new) }
    ensures rest { OnOk result (IsTrue (D.facts disk.old).honest → IsSynced (D.facts disk.new)) }
    ensures values { OnOk result ((words : ℕ) → HasHomes (D.facts disk.old) at words → AreBelow words states.now → (addr : ℕ) → addr < words
        → home (drop at (D.facts disk.new).reads) addr
        ≡ all_over (kept_of states.now) (length states.now) addr (home (drop at (D.facts disk.old).reads) addr)) }
{
    for state in states {
        write_home(disk, at, state)?;
    }
    disk.sync()?;
    Ok(())
}

fn write_home<D: Disk>(disk: &mut D, at: u64, state: &PlaceState) -> Result<(), DiskFault>
    requires { at ≤ MAX_FIRST }
    ensures calls { Ran (home_writes_of state.now) (D.facts disk.old) (D.facts disk.new) result }
    ensures made { Makes D.made (home_calls_of at state.now) (is_ok result) disk.old disk.new }
    ensures later { Later (D.facts disk.old) (D.facts disk.new) }
    ensures touched { (words : ℕ) → HasHomes (D.facts disk.old) at words → IsBelow words (record_of state.now)
        → Touched (Behind at (InRecord (record_of state.now))) (D.facts disk.old) (D.facts disk.new) }
    ensures values { OnOk result ((words : ℕ) → HasHomes (D.facts disk.old) at words → IsBelow words (record_of state.now) → (addr : ℕ) → addr < words
        → home (drop at (D.facts disk.new).reads) addr ≡ record_over (record_of state.now) addr (home (drop at (D.facts disk.old).reads) addr)) }
{
    match state.stage {
        Stage::Free | Stage::Prepared => Ok(()),
        Stage::Sealed => write_values(disk, at, &state.writes),
    }
}

fn write_values<D: Disk>(disk: &mut D, at: u64, writes: &Writes) -> Result<(), DiskFault>
    requires { at ≤ MAX_FIRST }
    ensures calls { Ran (array_vec_len writes.now) (D.facts disk.old) (D.facts disk.new) result }
    ensures made { Makes D.made (map (home_call at) writes.now.items) (is_ok result) disk.old disk.new }
    ensures later { Later (D.facts disk.old) (D.facts disk.new) }
    ensures touched { (words : ℕ) → HasHomes (D.facts disk.old) at words → IsBelow words (Some writes.now.items)
        → Touched (Behind at (InRecord (Some writes.now.items))) (D.facts disk.old) (D.facts disk.new) }
    ensures values { OnOk result ((words : ℕ) → HasHomes (D.facts disk.old) at words → IsBelow words (Some writes.now.items) → (addr : ℕ) → addr < words
        → home (drop at (D.facts disk.new).reads) addr ≡ over writes.now.items addr (home (drop at (D.facts disk.old).reads) addr)) }
{
    for write in writes.as_slice() {
        disk.write_at(home_at(at, write.0), &home_word(write.1))?;
    }
    Ok(())
}

fn clear_commits<D: Disk>(
    disk: &mut D,
    at: u64,
    words: u16,
    states: &[PlaceState],
    first: u16,
) -> Result<(), DiskFault>
    requires near { at ≤ MAX_FIRST }
    requires few { first + length states.now < 2 ^ 16 }
    ensures calls { Ran (commit_writes states.now + 1) (D.facts disk.old) (D.facts disk.new) result }
    ensures made { Makes D.made (clear_calls at words first states.now ++ Sync ∷ []) (is_ok result) disk.old disk.new }
    ensures later { Later (D.facts disk.old) (D.facts disk.new) }
    ensures touched { IsTrue (D.facts disk.old).honest → Fits (D.facts disk.old) (at + layout.place_at Second words (first + length states.now))
        → Touched (Behind at (AtCommits words first states.now)) (D.facts disk.old) (D.facts disk.new) }
    ensures rest { OnOk result (IsTrue (D.facts disk.old).honest → IsSynced (D.facts disk.new)) }
    ensures shut { OnOk result (IsTrue (D.facts disk.old).honest → Fits (D.facts disk.old) (at + layout.place_at Second words (first + length states.now))
        → (place : ℕ) → place < length states.now → stage_of states.now place ≡ Sealed
        → slice_index (drop at (D.facts disk.new).reads) (layout.place_at Second words (first + place)) ≡ 0) }
{
    let mut place = first;
    for state in states {
        clear_commit(disk, place_at(at, words, place), state)?;
        place += 1;
    }
    disk.sync()?;
    Ok(())
}

fn clear_commit<D: Disk>(disk: &mut D, commit: u64, state: &PlaceState) -> Result<(), DiskFault>
    ensures calls { Ran (commit_writes_of state.now) (D.facts disk.old) (D.facts disk.new) result }
    ensures made { Makes D.made (clear_calls_of commit state.now) (is_ok result) disk.old disk.new }
    ensures later { Later (D.facts disk.old) (D.facts disk.new) }
    ensures touched { IsTrue (D.facts disk.old).honest → Fits (D.facts disk.old) (commit + 1)
        → Touched (AtCommit commit state.now) (D.facts disk.old) (D.facts disk.new) }
    ensures shut { OnOk result (IsTrue (D.facts disk.old).honest → Fits (D.facts disk.old) (commit + 1) → state.now.stage ≡ Sealed
        → slice_index (D.facts disk.new).reads commit ≡ 0) }
{
    match state.stage {
        Stage::Free | Stage::Prepared => Ok(()),
        Stage::Sealed => disk.write_at(commit, &[NOT_COMMITTED]),
    }
}

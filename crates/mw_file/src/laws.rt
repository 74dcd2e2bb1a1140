//! Laws of a file: what an opening finds after a crash, how places are counted, which device calls a settle of all
//! changes makes for one, and at which call a device fails. Each is the contract of an empty function.
//!
//! The law `a_restart_goes_on` of mw_plain calls `crash_of_a_file`; proofs of mw_plain cite `proofs/TakenCounts`.
//! docs/PROMISES cites the laws of a crash.
ghost use Rattle.std.specs.Prelude.{◌≡◌, ◌⊎◌, ◌+◌, ◌<◌, ◌≤◌, ℕ, min, List, length, is_some, nat_lt, Vec, Result, IsTrue, []};
ghost use Rattle.std.specs.declared.alloc.Global.{Global};
ghost use Rattle.mw_disk.specs.Facts.{IsSynced, MayLeave, MayHaveLeft, most_counted};
ghost use Rattle.mw_record.specs.Records.{Pairs};
ghost use Rattle.mw_file.specs.declared.tenant_file.TenantFile.{TenantFile as File};
ghost use Rattle.mw_file.specs.declared.opening.OpenFault.{OpenFault};
ghost use Rattle.mw_file.specs.File.{disk_of, WentWell, MetFault};
ghost use Rattle.mw_file.specs.RecoveryInvariant.{RecoversTo, IsBeforeOrAfter};
ghost use Rattle.mw_file.specs.OpeningEnds.{Opens, disk_after, SameFile};
ghost use Rattle.mw_file.specs.Reopenings.{Holds};
ghost use Rattle.mw_file.specs.Run.{FailsAtCall};
ghost use Rattle.mw_file.specs.declared.place_states.PlaceState.{PlaceState};
ghost use Rattle.mw_file.specs.declared.place_states.Stage.{Stage};
ghost use Rattle.mw_file.specs.PlaceStates.{free_place, stage_of, writes_of_place, roll_calls, IsStaged, IsOnlySealed};
ghost use Rattle.mw_file.specs.NewChanges.{AreSettledWith};
ghost use Rattle.mw_file.specs.DeviceCalls.{settle_calls, roll_device_calls};
ghost use Rattle.mw_file.specs.Taken.{taken, if_taken};

use mw_disk::Disk;

/// A crash at any moment of an opening leaves a file of the same words and places, however the opening ends.
/// A second opening, on what that crash left, also keeps the words and places: in what a read gives after it,
/// and in what a crash at any moment of it leaves. Applied again, the law covers any number of openings.
pub fn crash_in_an_opening<D: Disk, E: Disk>()
    ensures { (first : D) (opened : Result (File D × Vec ℕ Global) (OpenFault × D)) (second : E) (again : Result (File E × Vec ℕ Global) (OpenFault × E))
        → IsTrue (D.facts first).honest → IsSynced (D.facts first) → Opens D.facts first opened
        → MayHaveLeft (D.facts (disk_after opened)) (D.facts first).moment (E.facts second).reads
        → IsTrue (E.facts second).honest → IsSynced (E.facts second) → Opens E.facts second again
        → SameFile (D.facts first).reads (E.facts (disk_after again)).reads
        × ((image : List ℕ) → MayHaveLeft (E.facts (disk_after again)) (E.facts second).moment image → SameFile (D.facts first).reads image) }
{}

/// What a crash leaves of a file in use is not damaged: it opens with the file's words, or with these and the
/// change in doubt. The same holds of what a crash within a call leaves, with the change of that call.
pub fn crash_of_a_file<D: Disk, E: Disk>()
    ensures in_use { (file : File D) (contents : List ℕ) (doubt : Pairs) (disk : E) (opened : Result (File E × Vec ℕ Global) (OpenFault × E))
        → RecoversTo D.facts file contents doubt → MayLeave (D.facts (disk_of file)) (E.facts disk).reads
        → IsTrue (E.facts disk).honest → IsSynced (E.facts disk) → Opens E.facts disk opened
        → Holds E.facts contents doubt opened }
    ensures in_a_call { (places : ℕ) (contents : List ℕ) (change : Pairs) (disk : E) (opened : Result (File E × Vec ℕ Global) (OpenFault × E))
        → IsBeforeOrAfter places contents change (E.facts disk).reads
        → IsTrue (E.facts disk).honest → IsSynced (E.facts disk) → Opens E.facts disk opened
        → Holds E.facts contents change opened }
{}

/// Some place is free exactly if fewer places have a change than there are places. A place has a change if
/// this was prepared, and neither settled nor canceled since. Preparing a change in a free place adds one to
/// their number. Settling or canceling it takes one away. A seal keeps the number.
pub fn places_are_counted()
    ensures free { (states : List PlaceState) → is_some (free_place states) ≡ nat_lt (taken states) (length states) }
    ensures staged { (old new : List PlaceState) (place : ℕ) (stage : Stage) (writes : Pairs) → place < length old → IsStaged old new place stage writes
        → taken new + if_taken (stage_of old place) ≡ taken old + if_taken stage }
{}

/// The device fails at the call that a test names. The disk is honest, and it is known that its next `k` calls
/// go well unless memory is refused, and that the call after them fails. Then a call on a file that went well
/// made at most `k` device calls. One that met a fault met it at the (k + 1)-th device call, or was refused
/// memory before.
pub fn the_device_fails_where_it_is_told<D: Disk>()
    ensures well { (calls k : ℕ) (old new : File D) → FailsAtCall (D.facts (disk_of old)) k → WentWell D.facts calls old new → calls ≤ k }
    ensures fault { (calls k : ℕ) (old new : File D) → IsTrue (D.facts (disk_of old)).honest → FailsAtCall (D.facts (disk_of old)) k
        → (met : MetFault D.facts calls old new)
        → ((met.made.well ≡ k) × (k < calls)) ⊎ ((D.facts (disk_of new)).refused ≡ min ((D.facts (disk_of old)).refused + 1) most_counted) }
{}

/// If just one place is sealed, and no change is prepared ahead, `settle_all` makes the device calls that
/// `settle` of this place makes, in the same order, and leaves the same states.
pub fn one_sealed_place_settles_alone()
    ensures calls { (at words : ℕ) (states : List PlaceState) (place : ℕ) → IsOnlySealed states place
        → roll_device_calls at words 0 states ≡ settle_calls at words place (writes_of_place states place) }
    ensures count { (states : List PlaceState) (place : ℕ) → IsOnlySealed states place
        → roll_calls states ≡ length (writes_of_place states place) + 3 }
    ensures freed { (old new : List PlaceState) (place : ℕ) → IsOnlySealed old place → AreSettledWith old new []
        → IsStaged old new place Stage.Free (writes_of_place old place) }
{}

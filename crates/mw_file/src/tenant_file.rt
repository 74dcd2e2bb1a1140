//! Defines a tenant's open file, and the calls that take changes through it: prepare, seal, settle and cancel of one
//! change, the settle of all, and the calls that also prepare changes ahead. A copy is a backup at one moment.
//!
//! What the calls say of crashes holds on a disk that keeps the model of [`mw_disk::Disk`]. Only mw_memory_disk calls `disk`,
//! `on_disk` and `swap_disk`, for tests.
//!
//! Used by: `migration`, `new_changes`, mw_memory_disk, mw_plain, mw_world_file, mw_book, mw_engine, mw_opening. `opening.rt` makes one.
//! Callers see `specs/File` and `specs/PlaceStates` in place of the fields. A new field needs a value in `opening.rt` and
//! in `on_disk`, and its name in `into_disk`. Change the calls with `specs/PlaceStates` and `specs/NewChanges` (which may be
//! made), `specs/File`, `specs/RecoveryInvariant`, `specs/RollForward` and `specs/Run` (how they end), `specs/DeviceCalls`
//! and docs/FILES (the order of the device calls), and `copy_bytes` with `specs/Copies`. docs/PROMISES cites
//! `prepare_all`, `seal_with`, `settle_all` and `copy_bytes`.
ghost use Rattle.std.specs.Prelude.{◌≡◌, ◌+◌, ◌≤◌, ◌<◌, ◌^◌, Some, length, IsTrue, IsSome, IfSome, is_some, is_ok, ℕ, List, [], ◌∷◌, ◌++◌, IfOk, OnOk, OnErr};
ghost use Rattle.mw_words.specs.declared.limits.TheConstants.{MAX_PLACES};
ghost use Rattle.mw_disk.specs.DeviceCalls.{WriteAt, Sync, Makes};
ghost use Rattle.mw_disk.specs.Facts.{IsSynced, patched};
ghost use Rattle.mw_disk.specs.Runs.{Later, Touched, Fits};
ghost use Rattle.mw_record.specs.declared.layout.TheConstants.{MAX_FIRST};
ghost use Rattle.mw_file.specs.RollForward.{InRange};
ghost use Rattle.mw_file.specs.Run.{Ran};
ghost use Rattle.mw_file.specs.PlaceStates as spec;
ghost use Rattle.mw_file.specs.PlaceStates.{AreFreed};

use crate::new_changes::{NewChange, set_prepared, sync_commit, sync_records, sync_rolled};
use crate::opening::front;
use crate::place_states::{PlaceState, Stage, copies};
use crate::roll::roll_forward;
use mw_disk::{Disk, DiskFault};
use mw_words::{Entries, copy_of};
use std::alloc::{AllocError, Global};
use std::{mem, slice};

/// Why a call on a file did nothing, or only a part.
#[derive(Clone, Copy, Debug, PartialEq, Eq)]
pub enum FileFault {
    /// The device failed in this call. From now on the file has failed.
    Disk,
    /// The device failed in an earlier call. This call did nothing.
    Failed,
}

/// Why a file could not be copied.
#[derive(Clone, Copy, Debug, PartialEq, Eq)]
pub enum CopyFault {
    /// The file had failed before. The call did nothing.
    Failed,
    /// The device failed in this call. The file has not failed by it.
    Disk,
    /// Memory is out. Nothing was read but the length.
    Memory,
}

/// The number of a place of a file.
#[derive(Clone, Copy, Debug, Default, PartialEq, Eq)]
pub struct Place(pub u16);

/// A tenant's open file on a disk. Its words and its places are in its second layout, and no call writes a
/// byte of the first. After a device call for a change has failed, the file has failed: no call touches it until
/// it is opened again. A copy that fails leaves it in use.
#[derive(Drop)]
pub struct TenantFile<D> {
    pub(crate) disk: D,
    /// The offset at which the second layout begins, in bytes.
    pub(crate) at: u64,
    pub(crate) words: u16,
    pub(crate) states: Vec<PlaceState>,
    pub(crate) failed: bool,
    ghost few: { length states.items ≤ MAX_PLACES },
    ghost near: { at ≤ MAX_FIRST },
}

impl<D: Disk> TenantFile<D> {
    ghost use Rattle.mw_words.specs.Change.{is_change};
    ghost use Rattle.mw_record.specs.Layout.{pairs_of};
    ghost use Rattle.mw_file.specs.PlaceStates.{stage_of, writes_of_place, roll_calls, IsStaged, MaySeal};
    ghost use Rattle.mw_file.specs.NewChanges.{MayPrepare, ArePrepared, IsSealedWith, AreSettledWith};
    ghost use Rattle.mw_file.specs.DeviceCalls.{prepare_calls, record_calls, seal_calls, settle_calls, roll_device_calls, MadeCalls};
    ghost use Rattle.mw_file.specs.File.{states_of, words_of, at_of, disk_of, Ends};
    ghost use Rattle.mw_file.specs.RecoveryInvariant.{ContentsStay, ChangeIsSealed, FirstStays};
    ghost use Rattle.mw_file.specs.Copies.{CopyEnds, IsOnlyRead};

    /// Returns how many words the file has.
    pub fn words(&self) -> u16
        ensures { result ≡ words_of self.now }
    {
        self.words
    }

    /// Returns the state of each place, in order of number.
    pub fn states(&self) -> &[PlaceState]
        ensures { result.now ≡ states_of self.now }
    {
        &self.states
    }

    /// Returns how many places the file has.
    pub fn places(&self) -> u16
        ensures { result ≡ length (states_of self.now) }
    {
        self.states.len() as u16
    }

    /// Tells whether some place is free.
    pub fn has_place(&self) -> bool
        ensures { result ≡ is_some (spec.free_place (states_of self.now)) }
    {
        free_place(&self.states).is_some()
    }

    /// Writes a change's record into the lowest free place, and syncs. The change isn't in the file yet: a
    /// crash at any moment of the call leaves the words as they were. Some place must be free, and the change
    /// must be well formed for the file's words.
    ///
    /// # Errors
    ///
    /// - [`FileFault::Disk`] if the device fails. The place stays free.
    /// - [`FileFault::Failed`] if the file had failed before. The call did nothing.
    pub fn prepare(&mut self, entries: &Entries) -> Result<Place, FileFault>
        requires room { IsSome (spec.free_place (states_of self.old)) }
        requires formed { IsTrue (is_change (words_of self.old) entries.now.items) }
        ensures ends { Ends D.facts 2 self.old self.new result }
        ensures lowest { IfOk result (λ p. spec.free_place (states_of self.old) ≡ Some p.0) }
        ensures staged { IfOk result (λ p. IsStaged (states_of self.old) (states_of self.new) p.0
            Stage.Prepared (pairs_of entries.now.items)) }
        ensures made { (place : ℕ) → spec.free_place (states_of self.old) ≡ Some place
            → MadeCalls D.made (prepare_calls (at_of self.old) (words_of self.old) place entries.now.items) self.old self.new result }
        ensures later { Later (D.facts (disk_of self.old)) (D.facts (disk_of self.new)) }
        // A crash at any moment of the call leaves the words from before it. A change in doubt stays in doubt.
        ensures safe { ContentsStay D.facts self.old self.new }
        ensures first { FirstStays D.facts self.old self.new }
    {
        let Some(place) = free_place(&self.states) else {
            unreachable!()
        };
        match self.prepare_at(Place(place), entries) {
            Ok(()) => Ok(Place(place)),
            Err(fault) => Err(fault),
        }
    }

    /// Writes a change's record into this place, and syncs. The change isn't in the file yet: a crash at any
    /// moment of the call leaves the words as they were. The place must be one of the file's and free, and the
    /// change must be well formed for the file's words.
    ///
    /// # Errors
    ///
    /// - [`FileFault::Disk`] if the device fails. The place stays free.
    /// - [`FileFault::Failed`] if the file had failed before. The call did nothing.
    pub fn prepare_at(&mut self, place: Place, entries: &Entries) -> Result<(), FileFault>
        requires there { place.0 < length (states_of self.old) }
        requires free { stage_of (states_of self.old) place.0 ≡ Stage.Free }
        requires formed { IsTrue (is_change (words_of self.old) entries.now.items) }
        ensures ends { Ends D.facts 2 self.old self.new result }
        ensures staged { OnOk result (IsStaged (states_of self.old) (states_of self.new) place.0
            Stage.Prepared (pairs_of entries.now.items)) }
        ensures made { MadeCalls D.made (prepare_calls (at_of self.old) (words_of self.old) place.0 entries.now.items) self.old self.new result }
        ensures later { Later (D.facts (disk_of self.old)) (D.facts (disk_of self.new)) }
        // A crash at any moment of the call leaves the words from before it. A change in doubt stays in doubt.
        ensures safe { ContentsStay D.facts self.old self.new }
        ensures first { FirstStays D.facts self.old self.new }
    {
        let change = NewChange {
            place,
            entries: copy_of(entries),
        };
        self.prepare_all(slice::from_ref(&change))
    }

    /// Writes the record of each change into its place, in order, and syncs once. The changes aren't in the file
    /// yet: a crash at any moment of the call leaves the words as they were. The places must be the file's, free
    /// and pairwise different, and each change must be well formed for the file's words.
    ///
    /// # Errors
    ///
    /// - [`FileFault::Disk`] if the device fails. The places stay free.
    /// - [`FileFault::Failed`] if the file had failed before. The call did nothing.
    pub fn prepare_all(&mut self, changes: &[NewChange]) -> Result<(), FileFault>
        requires { MayPrepare (words_of self.old) (states_of self.old) changes.now }
        ensures ends { Ends D.facts (length changes.now + 1) self.old self.new result }
        ensures staged { OnOk result (ArePrepared (states_of self.old) (states_of self.new) changes.now) }
        ensures made { MadeCalls D.made (record_calls (at_of self.old) (words_of self.old) changes.now ++ Sync ∷ []) self.old self.new result }
        ensures later { Later (D.facts (disk_of self.old)) (D.facts (disk_of self.new)) }
        // A crash at any moment of the call leaves the words from before it. A change in doubt stays in doubt.
        ensures safe { ContentsStay D.facts self.old self.new }
        ensures first { FirstStays D.facts self.old self.new }
    {
        if self.failed {
            return Err(FileFault::Failed);
        }
        if sync_records(&mut self.disk, self.at, self.words, changes).is_err() {
            self.failed = true;
            return Err(FileFault::Disk);
        }
        set_prepared(&mut self.states, changes);
        Ok(())
    }

    /// Commits a prepared change: sets its commit byte, and syncs. From then on the change is in the file for
    /// good. A crash at any moment of the call leaves the words before it, or these with the whole change. The
    /// change must be prepared, and must share no address with a sealed change.
    ///
    /// # Errors
    ///
    /// - [`FileFault::Disk`] if the device fails. The next opening may find the change, or may not.
    /// - [`FileFault::Failed`] if the file had failed before. The call did nothing.
    pub fn seal(&mut self, place: Place) -> Result<(), FileFault>
        requires { MaySeal (states_of self.old) place.0 }
        ensures ends { Ends D.facts 2 self.old self.new result }
        ensures staged { OnOk result (IsStaged (states_of self.old) (states_of self.new) place.0
            Stage.Sealed (writes_of_place (states_of self.old) place.0)) }
        ensures made { MadeCalls D.made (seal_calls (at_of self.old) (words_of self.old) place.0) self.old self.new result }
        ensures later { Later (D.facts (disk_of self.old)) (D.facts (disk_of self.new)) }
        // A crash at any moment of the call leaves the words from before it, or these with the change. After `Ok` the
        // words have the change, and after `Disk` it is in doubt. `Failed` leaves all as it was.
        ensures safe { ChangeIsSealed D.facts self.old self.new (writes_of_place (states_of self.old) place.0) result }
        ensures first { FirstStays D.facts self.old self.new }
    {
        self.seal_with(place, &[])
    }

    /// Commits a prepared change as `seal` does, and prepares the changes `ahead` by the same sync: writes their
    /// records first, as `prepare_all` does, then sets the commit byte of `place`, and syncs once. A crash at any
    /// moment of the call leaves the words before it, or these with the whole change of `place`. This change
    /// must be prepared, and must share no address with a sealed change. The places of `ahead` must be the
    /// file's, free and pairwise different, and each of its changes must be well formed for the file's words.
    ///
    /// # Errors
    ///
    /// - [`FileFault::Disk`] if the device fails. The next opening may find the change of `place`, or may not.
    ///   The places of `ahead` stay free.
    /// - [`FileFault::Failed`] if the file had failed before. The call did nothing.
    pub fn seal_with(&mut self, place: Place, ahead: &[NewChange]) -> Result<(), FileFault>
        requires seal { MaySeal (states_of self.old) place.0 }
        requires ahead { MayPrepare (words_of self.old) (states_of self.old) ahead.now }
        ensures ends { Ends D.facts (length ahead.now + 2) self.old self.new result }
        ensures staged { OnOk result (IsSealedWith (states_of self.old) (states_of self.new) place.0 ahead.now) }
        ensures made { MadeCalls D.made (record_calls (at_of self.old) (words_of self.old) ahead.now
            ++ seal_calls (at_of self.old) (words_of self.old) place.0) self.old self.new result }
        ensures later { Later (D.facts (disk_of self.old)) (D.facts (disk_of self.new)) }
        // A crash at any moment of the call leaves the words from before it, or these with the change of `place` alone.
        // After `Ok` the words have the change, and after `Disk` it is in doubt. `Failed` leaves all as it was.
        ensures safe { ChangeIsSealed D.facts self.old self.new (writes_of_place (states_of self.old) place.0) result }
        ensures first { FirstStays D.facts self.old self.new }
    {
        if self.failed {
            return Err(FileFault::Failed);
        }
        if sync_commit(&mut self.disk, self.at, self.words, place, ahead).is_err() {
            self.failed = true;
            return Err(FileFault::Disk);
        }
        self.states[place.0 as usize].stage = Stage::Sealed;
        set_prepared(&mut self.states, ahead);
        Ok(())
    }

    /// Writes a sealed change's values into their home words and syncs, then clears its commit byte and syncs.
    /// Then its place is free. A crash at any moment of the call leaves the words as they were, with this
    /// change.
    ///
    /// # Errors
    ///
    /// - [`FileFault::Disk`] if the device fails. The change stays sealed.
    /// - [`FileFault::Failed`] if the file had failed before. The call did nothing.
    pub fn settle(&mut self, place: Place) -> Result<(), FileFault>
        requires { stage_of (states_of self.old) place.0 ≡ Stage.Sealed }
        ensures ends { Ends D.facts (length (writes_of_place (states_of self.old) place.0) + 3) self.old self.new result }
        ensures staged { OnOk result (IsStaged (states_of self.old) (states_of self.new) place.0
            Stage.Free (writes_of_place (states_of self.old) place.0)) }
        ensures made { MadeCalls D.made (settle_calls (at_of self.old) (words_of self.old) place.0
            (writes_of_place (states_of self.old) place.0)) self.old self.new result }
        ensures later { Later (D.facts (disk_of self.old)) (D.facts (disk_of self.new)) }
        // A crash at any moment of the call leaves the words as they are. A change in doubt stays in doubt.
        ensures safe { ContentsStay D.facts self.old self.new }
        ensures first { FirstStays D.facts self.old self.new }
    {
        if self.failed {
            return Err(FileFault::Failed);
        }
        let alone = slice::from_ref(&self.states[place.0 as usize]);
        if roll_forward(&mut self.disk, self.at, self.words, alone, place.0).is_err() {
            self.failed = true;
            return Err(FileFault::Disk);
        }
        self.states[place.0 as usize].stage = Stage::Free;
        Ok(())
    }

    /// Writes the values of all sealed changes into their home words and syncs once, then clears their commit
    /// bytes and syncs once. Then their places are free. Prepared changes stay prepared. The first sync also
    /// prepares the changes `ahead`, whose records are written first, as `prepare_all` does. A crash at any
    /// moment of the call leaves the words as they were, with all sealed changes. If none is sealed, the call
    /// writes the records and syncs twice. The places of `ahead` must be the file's, free and pairwise
    /// different, and each of its changes must be well formed for the file's words.
    ///
    /// # Errors
    ///
    /// - [`FileFault::Disk`] if the device fails. The sealed changes stay sealed, the places of `ahead` free.
    /// - [`FileFault::Failed`] if the file had failed before. The call did nothing.
    pub fn settle_all(&mut self, ahead: &[NewChange]) -> Result<(), FileFault>
        requires { MayPrepare (words_of self.old) (states_of self.old) ahead.now }
        ensures ends { Ends D.facts (length ahead.now + roll_calls (states_of self.old)) self.old self.new result }
        ensures freed { OnOk result (AreSettledWith (states_of self.old) (states_of self.new) ahead.now) }
        ensures made { MadeCalls D.made (record_calls (at_of self.old) (words_of self.old) ahead.now
            ++ roll_device_calls (at_of self.old) (words_of self.old) 0 (states_of self.old)) self.old self.new result }
        ensures later { Later (D.facts (disk_of self.old)) (D.facts (disk_of self.new)) }
        // A crash at any moment of the call leaves the words as they are. A change in doubt stays in doubt.
        ensures safe { ContentsStay D.facts self.old self.new }
        ensures first { FirstStays D.facts self.old self.new }
    {
        if self.failed {
            return Err(FileFault::Failed);
        }
        if sync_rolled(&mut self.disk, self.at, self.words, &self.states, ahead).is_err() {
            self.failed = true;
            return Err(FileFault::Disk);
        }
        free_sealed(&mut self.states);
        set_prepared(&mut self.states, ahead);
        Ok(())
    }

    /// Gives up a prepared change. Its place is free then. This makes no device call, and always
    /// succeeds.
    pub fn cancel(&mut self, place: Place)
        requires { stage_of (states_of self.old) place.0 ≡ Stage.Prepared }
        ensures staged { IsStaged (states_of self.old) (states_of self.new) place.0
            Stage.Free (writes_of_place (states_of self.old) place.0) }
        ensures rest { self.new ≡ record self.old { states = self.new.states; few = self.new.few } }
        // A crash leaves the words from before the call. A change in doubt stays in doubt.
        ensures safe { ContentsStay D.facts self.old self.new }
    {
        self.states[place.0 as usize].stage = Stage::Free;
    }

    /// Copies the file's bytes: the first 86,848 (`MAX_FILE`), or as many as there are. No reader looks at more. On a
    /// disk that keeps the model of [`Disk`], the copy is a file of just the words that this file has now, with
    /// every sealed change and no prepared one.
    ///
    /// It writes nothing and syncs nothing. It asks for the length, takes memory once, and reads.
    ///
    /// # Errors
    ///
    /// - [`CopyFault::Failed`] if the file had failed before. The call did nothing.
    /// - [`CopyFault::Disk`] if the device fails. The file doesn't fail by it.
    /// - [`CopyFault::Memory`] if memory is out.
    ///
    /// After each of them the file is what it was.
    pub fn copy_bytes(&mut self, alloc: Global) -> Result<Vec<u8>, CopyFault>
        ensures ends { CopyEnds D.facts self.old self.new result }
        ensures read { IsOnlyRead D.facts self.old self.new }
        // A crash at any moment of the call leaves the words from before it. A change in doubt stays in doubt.
        ensures safe { ContentsStay D.facts self.old self.new }
    {
        if self.failed {
            return Err(CopyFault::Failed);
        }
        front(&mut self.disk, alloc)
    }

    /// The disk that the file is on.
    pub fn disk(&self) -> &D
        ensures { result.now ≡ disk_of self.now }
    {
        &self.disk
    }

    /// Puts the file on this disk, which has to have its bytes, and gives its own in exchange.
    pub fn swap_disk(&mut self, disk: &mut D)
        ensures file { self.new ≡ record self.old { disk = disk.old } }
        ensures given { disk.new ≡ disk_of self.old }
    {
        mem::swap(&mut self.disk, disk);
    }

    /// Gives the disk back.
    pub fn into_disk(self) -> D
        ensures { result ≡ disk_of self }
    {
        let TenantFile {
            disk,
            at: _,
            words: _,
            states: _,
            failed: _,
        } = self;
        disk
    }
}

impl<D: Disk + Drop> TenantFile<D> {
    ghost use Rattle.mw_file.specs.File.{IsCopy};

    /// Makes the same file on this disk, which has to have its bytes. The only error is that memory is out.
    pub fn on_disk(&self, alloc: Global, disk: D) -> Result<TenantFile<D>, AllocError>
        ensures { IfOk result (λ file. IsCopy (record self.now { disk = disk }) file) }
    {
        let states = copies(alloc, &self.states)?;
        Ok(TenantFile {
            disk,
            at: self.at,
            words: self.words,
            states,
            failed: self.failed,
        })
    }
}

fn free_place(states: &[PlaceState]) -> Option<u16>
    requires { length states.now < 2 ^ 16 }
    ensures lowest { result ≡ spec.free_place states.now }
    ensures within { IfSome result (λ place. place < length states.now) }
{
    for (place, state) in states.iter().enumerate() {
        if state.stage == Stage::Free {
            return Some(place as u16);
        }
    }
    None
}

fn free_sealed(states: &mut [PlaceState])
    ensures { AreFreed states.old states.new }
{
    for state in states.iter_mut() {
        state.stage = freed(state.stage);
    }
}

fn freed(stage: Stage) -> Stage
    ensures { result ≡ spec.freed stage }
{
    match stage {
        Stage::Free | Stage::Sealed => Stage::Free,
        Stage::Prepared => Stage::Prepared,
    }
}

pub(crate) fn write_and_sync<D: Disk>(disk: &mut D, at: u64, bytes: &[u8]) -> Result<(), DiskFault>
    ensures calls { Ran 2 (D.facts disk.old) (D.facts disk.new) result }
    ensures made { Makes D.made (WriteAt at bytes.now ∷ Sync ∷ []) (is_ok result) disk.old disk.new }
    ensures later { Later (D.facts disk.old) (D.facts disk.new) }
    ensures touched { IsTrue (D.facts disk.old).honest → Fits (D.facts disk.old) (at + length bytes.now)
        → Touched (InRange at (length bytes.now)) (D.facts disk.old) (D.facts disk.new) }
    ensures rest { OnOk result (IsTrue (D.facts disk.old).honest → IsSynced (D.facts disk.new)) }
    ensures written { OnOk result (IsTrue (D.facts disk.old).honest → at ≤ length (D.facts disk.old).reads
        → (D.facts disk.new).reads ≡ patched (D.facts disk.old).reads at bytes.now) }
{
    disk.write_at(at, bytes)?;
    disk.sync()?;
    Ok(())
}

//! A tenant's file after it has opened, with its words in memory, the slots in use, and whether it has faulted. It starts
//! and finishes the tenant's changes, and answers its reads.
//!
//! Used by: `plain`; `tenant`, which makes it. A new field needs a value in `tenant.rt`, its name in `into_disk`, and a
//! clause in `specs/Refinement` if the store alone knows of it. Change the calls with `specs/CallEnds`, `specs/Books`,
//! `specs/Cases` and `specs/Misses`.
ghost use Rattle.std.specs.Prelude.{◌≡◌, ◌≤◌, ℕ, false, Some, length, vec_len, IsTrue};
ghost use Rattle.mw_words.specs.Change.{is_change, is_well_formed, fits};
ghost use Rattle.mw_file.specs.declared.place_states.Stage.TheVariants.{Sealed};
ghost use Rattle.mw_file.specs.File.{words_of, states_of, has_failed};
ghost use Rattle.mw_file.specs.PlaceStates.{stage_of};
ghost use Rattle.mw_file.specs.Taken.{taken};
ghost use Rattle.mw_plain.specs.Misses.{IsFirstMiss};

use crate::changes::{first_miss, put};
use mw_disk::Disk;
use mw_file::{Place, TenantFile};
use mw_words::{Entries, Entry, Job, Reply, copy_of};

/// A tenant's open file with its words, how many slots the tenant uses, and whether it has faulted. It has faulted
/// if a call on its file has failed since the file was opened. Until then each change that uses a slot is prepared
/// in a place of the file.
#[derive(Drop)]
pub struct LoadedFile<D> {
    pub(crate) file: TenantFile<D>,
    pub(crate) words: Vec<u64>,
    pub(crate) used: u8,
    pub(crate) faulted: bool,
    ghost same_words: { vec_len words ≡ words_of file },
    ghost sound: { faulted ≡ false → has_failed file ≡ false },
    ghost counted: { faulted ≡ false → taken (states_of file) ≡ used },
    ghost unsealed: { faulted ≡ false → (place : ℕ) → stage_of (states_of file) place ≡ Sealed → ⊥ },
}

/// What a start of a job leaves to do.
#[derive(Drop)]
pub(crate) enum Begun {
    /// Nothing: the job is done, and this is its reply.
    Done(Reply),
    /// A change of these entries, which is prepared in this place of the file.
    Prepared(Place, Entries),
}

impl<D: Disk> LoadedFile<D> {
    ghost use Rattle.mw_file.specs.File.{disk_of};
    ghost use Rattle.mw_plain.specs.Books.{IsPrepared};
    ghost use Rattle.mw_plain.specs.Cases.{StartCase, FinishCase};
    ghost use Rattle.mw_plain.specs.CallEnds.{KeepsShape, StartEnds, FinishEnds};

    /// Starts a job: counts and prepares a change, answers any other job.
    pub(crate) fn start(&mut self, job: &Job, quota: u8) -> Begun
        requires formed { IsTrue (is_well_formed (words_of self.old.file) job.now) }
        requires within { self.old.used ≤ quota }
        requires room { quota ≤ length (states_of self.old.file) }
        ensures shape { KeepsShape quota self.old self.new }
        ensures ends { (case : StartCase) × StartEnds D.facts case quota (Some self.old) (Some self.new) job.now result }
    {
        if self.faulted {
            return Begun::Done(Reply::Fault);
        }
        match job {
            Job::Get(addr) => Begun::Done(Reply::Val(self.words[*addr as usize])),
            Job::Cas(entries) => self.admit(entries, quota),
        }
    }

    /// Gives a change a slot and prepares it, unless the quota is used up.
    fn admit(&mut self, entries: &Entries, quota: u8) -> Begun
        requires up { self.old.faulted ≡ false }
        requires formed { IsTrue (is_change (words_of self.old.file) entries.now.items) }
        requires within { self.old.used ≤ quota }
        requires room { quota ≤ length (states_of self.old.file) }
        ensures shape { KeepsShape quota self.old self.new }
        ensures ends { (case : StartCase) × StartEnds D.facts case quota (Some self.old) (Some self.new) (Job.Cas entries.now) result }
    {
        if self.used == quota {
            return Begun::Done(Reply::Busy);
        }
        let Ok(place) = self.file.prepare(entries) else {
            // Only the next start knows what the file has of the change. So its slot stays counted.
            self.used += 1;
            self.faulted = true;
            return Begun::Done(Reply::Fault);
        };
        self.used += 1;
        Begun::Prepared(place, copy_of(entries))
    }

    /// Finishes a change that was prepared.
    pub(crate) fn finish(&mut self, place: Place, entries: &Entries) -> Reply
        requires formed { IsTrue (is_change (words_of self.old.file) entries.now.items) }
        requires prepared { IsPrepared (Some self.old) place.0 entries.now.items }
        ensures shape { KeepsShape self.old.used self.old self.new }
        ensures ends { (case : FinishCase) × FinishEnds D.facts case (Some self.old) (Some self.new) place.0 entries.now result }
    {
        if self.faulted {
            return Reply::Fault;
        }
        match first_miss(&self.words, entries) {
            Some(entry) => self.refuse(place, entries, entry),
            None => self.change(place, entries),
        }
    }

    /// Gives up a change at an entry whose word doesn't have the expected value.
    fn refuse(&mut self, place: Place, entries: &Entries, entry: Entry) -> Reply
        requires up { self.old.faulted ≡ false }
        requires first { IsFirstMiss self.old.words.items entries.now.items entry }
        requires prepared { IsPrepared (Some self.old) place.0 entries.now.items }
        ensures shape { KeepsShape self.old.used self.old self.new }
        ensures ends { (case : FinishCase) × FinishEnds D.facts case (Some self.old) (Some self.new) place.0 entries.now result }
    {
        let value = self.words[entry.addr as usize];
        self.file.cancel(place);
        self.used -= 1;
        Reply::No(entry.addr, value)
    }

    /// Makes a change whose every word has the expected value.
    fn change(&mut self, place: Place, entries: &Entries) -> Reply
        requires up { self.old.faulted ≡ false }
        requires formed { IsTrue (is_change (words_of self.old.file) entries.now.items) }
        requires as_expected { IsTrue (fits self.old.words.items entries.now.items) }
        requires prepared { IsPrepared (Some self.old) place.0 entries.now.items }
        ensures shape { KeepsShape self.old.used self.old self.new }
        ensures ends { (case : FinishCase) × FinishEnds D.facts case (Some self.old) (Some self.new) place.0 entries.now result }
    {
        if self.file.seal(place).is_err() {
            self.faulted = true;
            return Reply::Fault;
        }
        // The seal ended well: no crash takes the change back.
        put(&mut self.words, entries);
        if self.file.settle(place).is_err() {
            self.faulted = true;
            return Reply::Yes;
        }
        self.used -= 1;
        Reply::Yes
    }

    pub(crate) fn into_disk(self) -> D
        ensures { result ≡ disk_of self.file }
    {
        let LoadedFile {
            file,
            words: _,
            used: _,
            faulted: _,
        } = self;
        file.into_disk()
    }
}

//! A tenant's open file (its *book*), as threads keep it under a lock, with the place of each slot's change.
//!
//! Used by: `place_table`; mw_core (`file_calls.rt`), which makes the calls; mw_turns, which asks `has_written`;
//! mw_engine, which keeps a book for each tenant from its start to its end, and copies its bytes under the tenant's
//! lock. Only tests (mw_file_tests) ask for the sizes, and whether the file has failed or has a vacant place.
//!
//! A new field needs a value in `new` and `unopened`, its name in `into_disk`, and a clause in `specs/Representation` if
//! the world knows of it. Change the calls with `specs/Permits` (when one may be made), `specs/CallOutcome` (what it
//! leaves), `specs/OpenFile`, `specs/PreparedAhead`, `specs/Representation` and `specs/SameFiles`. Change `copy_bytes`
//! with `specs/Copies`. docs/PROMISES cites `call` and its record, and `copy_bytes`.
ghost use Rattle.std.specs.Prelude.{◌≡◌, ◌≢◌, ◌≤◌, ◌&&◌, ℕ, List, [], length, true, false, Some, None, is_some, nat_lt, IsTrue};
ghost use Rattle.mw_words.specs.declared.jobs.Entry.{Entry as EntryAt};
ghost use Rattle.mw_file.specs.File.{disk_of, words_of, states_of, has_failed};
ghost use Rattle.mw_file.specs.PlaceStates.{all_free};
ghost use Rattle.mw_file.specs.RecoveryInvariant.{RecoversTo};
ghost use Rattle.mw_world.specs.Files.State.{File, empty_from, file_of};
ghost use Rattle.mw_book.specs.declared.waiting.Waiting.{Waiting as WaitingAt};
ghost use Rattle.mw_book.specs.FilePlaces.{IsPermutation};
ghost use Rattle.mw_book.specs.OpenFile.{words_in, places_in, has_failed_in};

use crate::answers::Filed;
use crate::place_table::{PlaceTable, in_order};
use crate::waiting::{Chosen, Waiting};
use mw_disk::Disk;
use mw_file::{CopyFault, NewChange, Place, TenantFile};
use mw_look::Call;
use mw_words::{Entries, MAX_PLACES, MAX_POOL, copy_of};
use std::alloc::Global;

/// The most slots that a server may have.
pub(crate) const SLOTS: usize = MAX_POOL as usize;

/// The most places that a file may have.
pub(crate) const PLACES: usize = MAX_PLACES as usize;

/// A tenant's file, and what is kept beside it: how many words the file has, how many of its places are used,
/// the place of each slot's change, where the file has each place and which changes it has ahead, what the latest call
/// chose to write ahead, and whether the file has failed. The used places are the first ones. The file has failed if a
/// call for a change has failed since it was opened, or if it didn't open. If it didn't open, no file is held.
#[derive(Drop)]
pub struct Book<D> {
    pub(crate) held: Option<TenantFile<D>>,
    pub(crate) words: u16,
    pub(crate) places: u16,
    pub(crate) place_of: [u16; SLOTS],
    pub(crate) table: PlaceTable,
    pub(crate) chosen: Chosen,
    pub(crate) has_failed: bool,
    ghost same_words: { words_in words held ≡ words },
    ghost room: { places ≤ places_in places held },
    ghost permuted: { IsPermutation table.file_place places },
    ghost same_failed: { has_failed_in held ≡ has_failed },
}

impl<D: Disk> Book<D> {
    ghost use Rattle.mw_book.specs.OpenFile.{disk_in, states_in};
    ghost use Rattle.mw_book.specs.Permits.{HasPlace, HasRoom, MayCall, vacant_place};
    ghost use Rattle.mw_book.specs.PreparedAhead.{HasNonePrepared};
    ghost use Rattle.mw_book.specs.PreparedAhead as ahead;
    ghost use Rattle.mw_book.specs.SettledAhead.{HasNoneAhead};
    ghost use Rattle.mw_book.specs.Representation.{Represents, is_prepared_ahead, unopened};
    ghost use Rattle.mw_book.specs.SameFiles.{HasMadeRoom, RepresentsSame};
    ghost use Rattle.mw_book.specs.CallOutcome.{IsFiled};
    ghost use Rattle.mw_book.specs.Copies.{CopyEnds, IsOnlyRead};

    /// Makes the book of a file that just opened: no device call has failed, and every place is free. It uses
    /// the first `places` places of the file.
    pub fn new(file: TenantFile<D>, places: u16) -> Book<D>
        requires sound { has_failed file ≡ false }
        requires room { places ≤ length (states_of file) }
        requires free { IsTrue (all_free (states_of file)) }
        ensures held { result.held ≡ Some file }
        ensures words { result.words ≡ words_of file }
        ensures places { result.places ≡ places }
        ensures none_ahead { HasNoneAhead result }
        ensures none_prepared { HasNonePrepared result }
        ensures shows { (words : List ℕ) → length words ≡ words_of file
            → (IsTrue (D.facts (disk_of file)).honest → RecoversTo D.facts file words []) → Represents D.facts result (file_of words) }
    {
        let words = file.words();
        let table = PlaceTable {
            file_place: in_order(),
            settled: [false; PLACES],
            ahead_for: [None; PLACES],
        };
        Book {
            held: Some(file),
            words,
            places,
            place_of: [0; SLOTS],
            table,
            chosen: Chosen::new(table),
            has_failed: false,
        }
    }

    /// Makes the book of a file that didn't open, with so many words and places. It has failed from the start.
    pub fn unopened(words: u16, places: u16) -> Book<D>
        ensures held { result.held ≡ None }
        ensures words { result.words ≡ words }
        ensures places { result.places ≡ places }
        ensures shows { (contents : List ℕ) → length contents ≡ words → Represents D.facts result (unopened contents) }
    {
        let table = PlaceTable {
            file_place: in_order(),
            settled: [false; PLACES],
            ahead_for: [None; PLACES],
        };
        Book {
            held: None,
            words,
            places,
            place_of: [0; SLOTS],
            table,
            chosen: Chosen::new(table),
            has_failed: true,
        }
    }

    /// Makes a call on the file for the change of a slot. A prepare writes these entries into the lowest vacant
    /// place, which then is the slot's. A seal, a settle and a cancel use the slot's place, and take no entries.
    /// If the file has failed the call does nothing, unless it is a cancel. A cancel makes no device call and
    /// always goes well.
    ///
    /// A settle settles all sealed changes in the file, by two syncs. The others are then settled ahead: their own
    /// settles make no device call, and go well unless the file has failed. Until then their places are not
    /// vacant.
    ///
    /// If the book represented a file, it now represents what this call, with this answer, makes of that file.
    /// On any disk the answer tells whether a device call failed. A disk that keeps the model of [`Disk`] also tells how
    /// many were made, and which one failed. The number that the world's file is told is that one's, if this call makes
    /// as many device calls for its own change as the world lists; the write of a waiting change's record counts as the first.
    ///
    /// On such a disk a crash at any moment since the call began leaves the words of each file that the book
    /// represented then, or these with the change at stake put over them. This is the change that the call
    /// seals, else the one that an earlier failed seal left in doubt. Nothing is said of a file that didn't open.
    ///
    /// A prepare, a seal and a settle that make device calls also write records of `waiting` changes, before their
    /// first sync. These changes are then prepared ahead: their own prepares make no device call, if they still write the
    /// same values to the same addresses, in the same order. A waiting change is ready if it is of another slot, is well
    /// formed for the file's words, and is not prepared ahead yet. The first ready ones are written: at most 15, and as
    /// many as free places are left.
    ///
    /// A change that is prepared ahead stays so until its own prepare, or until no place is free for another prepare.
    /// This one then gives up the change in the lowest vacant place. None of it makes a difference to what the book
    /// represents.
    pub fn call(&mut self, call: Call, slot: u8, entries: &Entries, waiting: &[Waiting]) -> Filed
        requires may { MayCall self.old call slot entries.now.items }
        // `IsFiled (moments)`: a crash in the call leaves the words from before it, with the change at stake or without.
        ensures { IsFiled D.facts call slot entries.now.items waiting.now self.old self.new result }
    {
        match call {
            Call::Prepare => self.prepare(slot, entries, waiting),
            Call::Seal => self.seal(slot, waiting),
            Call::Settle => self.settle(slot, waiting),
            Call::Cancel => self.cancel(slot),
        }
    }

    /// Writes the record of a change into the lowest vacant place, for a slot.
    fn prepare(&mut self, slot: u8, entries: &Entries, waiting: &[Waiting]) -> Filed
        requires may { MayCall self.old Call.Prepare slot entries.now.items }
        ensures { IsFiled D.facts Call.Prepare slot entries.now.items waiting.now self.old self.new result }
    {
        if self.has_failed {
            return Filed::Untouched;
        }
        if self.take_written(slot, entries) {
            return Filed::Made;
        }
        let place = self.make_room();
        self.write_down(place, slot, entries, waiting)
    }

    /// Takes the record of a change for a slot, if it is prepared ahead, and tells whether it is. Then the slot's place
    /// is the lowest vacant one, which has the record. Else nothing changes. It makes no device call.
    fn take_written(&mut self, slot: u8, entries: &Entries) -> bool
        requires sound { self.old.has_failed ≡ false }
        requires room { HasPlace (states_in self.old.held) self.old.table self.old.places }
        ensures taken { result ≡ true → (waiting : List WaitingAt) → IsFiled D.facts Call.Prepare slot entries.now.items waiting self.old self.new Filed.Made }
        ensures left { result ≡ false → self.new ≡ self.old }
        ensures none { result ≡ false → ahead.has_written self.old slot entries.now.items ≡ false }
    {
        let Some(file) = &self.held else {
            unreachable!()
        };
        let written = self
            .table
            .written_place(file.states(), slot, entries, self.places);
        if written == self.places {
            return false;
        }
        let place = self.table.vacant_place(file.states(), self.places);
        self.table.take(place, written);
        self.place_of[slot as usize] = place;
        true
    }

    /// Frees the lowest vacant place in the file, and returns it. A change that is prepared ahead in it moves to a free
    /// place, or is given up if no place is free.
    fn make_room(&mut self) -> u16
        requires sound { self.old.has_failed ≡ false }
        requires room { HasPlace (states_in self.old.held) self.old.table self.old.places }
        ensures lowest { result ≡ vacant_place (states_in self.new.held) self.new.table self.new.places }
        ensures room { HasPlace (states_in self.new.held) self.new.table self.new.places }
        ensures none_ahead { is_prepared_ahead self.new.table result ≡ false }
        ensures same { RepresentsSame D.facts self.old self.new }
        ensures made { HasMadeRoom self.old self.new }
    {
        let Some(file) = &mut self.held else {
            unreachable!()
        };
        let place = self.table.vacant_place(file.states(), self.places);
        if !self.table.is_prepared_ahead(place) {
            return place;
        }
        if let Some(free) = self.table.highest_free(file.states(), 0, self.places) {
            self.table.take(place, free);
            return place;
        }
        file.cancel(Place(self.table.file_place(place)));
        self.table.ahead_for[place as usize] = None;
        place
    }

    /// Writes the record of a change into a place, for a slot. It is the lowest vacant one, and has no change that is
    /// prepared ahead.
    fn write_down(&mut self, place: u16, slot: u8, entries: &Entries, waiting: &[Waiting]) -> Filed
        requires sound { self.old.has_failed ≡ false }
        requires room { HasRoom (states_in self.old.held) self.old.table self.old.places self.old.words entries.now.items }
        requires lowest { place ≡ vacant_place (states_in self.old.held) self.old.table self.old.places }
        requires none_ahead { is_prepared_ahead self.old.table place ≡ false }
        requires none_written { ahead.has_written self.old slot entries.now.items ≡ false }
        ensures filed { IsFiled D.facts Call.Prepare slot entries.now.items waiting.now self.old self.new result }
        ensures tried { result ≢ Filed.Untouched }
    {
        let number = self.table.file_place(place);
        let words = self.words;
        let Some(file) = &mut self.held else {
            unreachable!()
        };
        self.chosen.choose(
            &self.table,
            file.states(),
            words,
            self.places,
            place + 1,
            slot,
            waiting,
        );
        self.chosen.changes.push(NewChange {
            place: Place(number),
            entries: copy_of(entries),
        });
        if file.prepare_all(self.chosen.changes.as_slice()).is_err() {
            self.has_failed = true;
            return Filed::Broken;
        }
        self.place_of[slot as usize] = place;
        self.table = self.chosen.table;
        Filed::Made
    }

    /// Seals the prepared change of a slot.
    fn seal(&mut self, slot: u8, waiting: &[Waiting]) -> Filed
        requires may { MayCall self.old Call.Seal slot [] }
        ensures { (entries : List EntryAt) → IsFiled D.facts Call.Seal slot entries waiting.now self.old self.new result }
    {
        if self.has_failed {
            return Filed::Untouched;
        }
        let number = self.table.file_place(self.place_of[slot as usize]);
        let words = self.words;
        let Some(file) = &mut self.held else {
            unreachable!()
        };
        self.chosen.choose(
            &self.table,
            file.states(),
            words,
            self.places,
            0,
            slot,
            waiting,
        );
        if file
            .seal_with(Place(number), self.chosen.changes.as_slice())
            .is_err()
        {
            self.has_failed = true;
            return Filed::Broken;
        }
        self.table = self.chosen.table;
        Filed::Made
    }

    /// Settles the sealed change of a slot. Then its place is vacant. If the change was settled ahead, that is all.
    /// Else all sealed changes are settled in the file, the other ones ahead.
    fn settle(&mut self, slot: u8, waiting: &[Waiting]) -> Filed
        requires may { MayCall self.old Call.Settle slot [] }
        ensures { (entries : List EntryAt) → IsFiled D.facts Call.Settle slot entries waiting.now self.old self.new result }
    {
        if self.has_failed {
            return Filed::Untouched;
        }
        let place = self.place_of[slot as usize] as usize;
        if self.table.settled[place] {
            self.table.settled[place] = false;
            return Filed::Made;
        }
        let words = self.words;
        let Some(file) = &mut self.held else {
            unreachable!()
        };
        let mut settled = self.table.settled_with_sealed(file.states());
        settled[place] = false;
        self.chosen.choose(
            &self.table,
            file.states(),
            words,
            self.places,
            0,
            slot,
            waiting,
        );
        if file.settle_all(self.chosen.changes.as_slice()).is_err() {
            self.has_failed = true;
            return Filed::Broken;
        }
        self.table = self.chosen.table;
        self.table.settled = settled;
        Filed::Made
    }

    /// Cancels the prepared change of a slot. Then its place is free. It makes no device call.
    fn cancel(&mut self, slot: u8) -> Filed
        requires may { MayCall self.old Call.Cancel slot [] }
        ensures { (entries : List EntryAt) (waiting : List WaitingAt) → IsFiled D.facts Call.Cancel slot entries waiting self.old self.new result }
    {
        let number = self.table.file_place(self.place_of[slot as usize]);
        let Some(file) = &mut self.held else {
            unreachable!()
        };
        file.cancel(Place(number));
        Filed::Made
    }

    /// Returns how many words the file has.
    pub fn words(&self) -> u16
        ensures { result ≡ self.now.words }
    {
        self.words
    }

    /// Returns how many of the file's places are used.
    pub fn places(&self) -> u16
        ensures { result ≡ self.now.places }
    {
        self.places
    }

    /// Tells whether the file has failed: a call for a change has failed since it was opened, or it didn't open. Then
    /// only a cancel does anything until the next start.
    pub fn has_failed(&self) -> bool
        ensures { result ≡ self.now.has_failed }
    {
        self.has_failed
    }

    /// Tells whether one of the used places is vacant, so that a change can be prepared. A file that didn't open
    /// has no vacant place.
    pub fn has_place(&self) -> bool
        ensures is { result ≡ (is_some self.now.held && nat_lt (vacant_place (states_in self.now.held) self.now.table self.now.places) self.now.places) }
        ensures room { result ≡ true → HasPlace (states_in self.now.held) self.now.table self.now.places }
        ensures shown { (file : File) → Represents D.facts self.now file → file.has_failed ≡ false
            → result ≡ nat_lt (empty_from file 0 self.now.places) self.now.places }
    {
        match &self.held {
            Some(file) => self.table.vacant_place(file.states(), self.places) < self.places,
            None => false,
        }
    }

    /// Tells whether a change of a slot with these entries is prepared ahead. Then its prepare makes no device call. A
    /// file that didn't open has none.
    pub fn has_written(&self, slot: u8, entries: &Entries) -> bool
        ensures { result ≡ (is_some self.now.held && ahead.has_written self.now slot entries.now.items) }
    {
        match &self.held {
            Some(file) => {
                self.table
                    .written_place(file.states(), slot, entries, self.places)
                    < self.places
            }
            None => false,
        }
    }

    /// Copies the bytes of the file, as [`mw_file::TenantFile::copy_bytes`] does. On a disk that keeps the model of
    /// [`Disk`], they are a file of just the words of each file that the book represents. The book represents the same
    /// files afterwards, however the call ends.
    ///
    /// # Errors
    ///
    /// - [`CopyFault::Failed`] if the file had failed before, or didn't open. The call did nothing.
    /// - [`CopyFault::Disk`] if the device fails. The file doesn't fail by it.
    /// - [`CopyFault::Memory`] if memory is out.
    pub fn copy_bytes(&mut self, alloc: Global) -> Result<Vec<u8>, CopyFault>
        ensures ends { CopyEnds D.facts self.old self.new result }
        ensures read { IsOnlyRead D.facts self.old self.new }
        ensures represents { (file : File) → Represents D.facts self.old file → Represents D.facts self.new file }
    {
        if self.has_failed {
            return Err(CopyFault::Failed);
        }
        let Some(file) = &mut self.held else {
            unreachable!()
        };
        file.copy_bytes(alloc)
    }

    /// Gives the disk back, if a file was opened on it.
    pub fn into_disk(self) -> Option<D>
        ensures { result ≡ disk_in self.held }
    {
        let Book {
            held,
            words: _,
            places: _,
            place_of: _,
            table: _,
            chosen: _,
            has_failed: _,
        } = self;
        match held {
            Some(file) => Some(file.into_disk()),
            None => None,
        }
    }
}

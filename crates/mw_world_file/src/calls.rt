//! Makes a call on a simulated file: prepare, seal, settle or cancel.
//!
//! mw_simulator makes each call on a file by `SimulatedFile::work`. `stops` uses the tests here for a call that was
//! cut off. Change it with `specs/Devices`, `specs/Books`, `specs/CallEffects`, `specs/Calls`, `specs/Crashes` and
//! `specs/DeviceCalls`.
ghost use Rattle.std.specs.Prelude.{◌≡◌, ◌<◌, ◌≤◌, ℕ, List, length, true, false, IfOk, IsTrue, slice_set};
ghost use Rattle.mw_words.specs.Change.{is_change};
ghost use Rattle.mw_memory_disk.specs.Memory.{memory_facts, with_fault};
ghost use Rattle.mw_record.specs.Records.{Pairs};
ghost use Rattle.mw_file.specs.File.{disk_of, at_of, words_of, states_of, has_failed};
ghost use Rattle.mw_file.specs.RecoveryInvariant.{RecoversTo};
ghost use Rattle.mw_world_file.specs.declared.device.Device.TheVariants.{Open};
ghost use Rattle.mw_world_file.specs.Devices.{told, is_clear, AreKept, IsReady};
ghost use Rattle.std.specs.List.{list_all};
ghost use Rattle.mw_world_file.specs.Books.{HasParts, places_of_file};
ghost use Rattle.mw_world_file.specs.CallEffects as spec;
ghost use Rattle.mw_world.specs.Files.Calls as counts;

use crate::changes::{share_a_word, with_change};
use crate::device::Device;
use crate::faults::BookFault;
use crate::places::{Place, copies, has_empty, prepared_in, sealed_in};
use crate::simulated_file::SimulatedFile;
use mw_file::{Place as FilePlace, TenantFile};
use mw_look::Call;
use mw_memory_disk::{MemDisk, copy, fail_next, refused};
use mw_words::{Entries, Entry, copy_of};
use mw_world::Outcome;
use std::alloc::{AllocError, Global};

/// Returns how many device calls a call makes for a change with these entries.
pub(crate) fn device_calls(call: Call, entries: &[Entry]) -> u64
    requires { length entries.now < 256 }
    ensures { result ≡ counts.device_calls call entries.now }
{
    match call {
        Call::Prepare | Call::Seal => 2,
        Call::Settle => entries.len() as u64 + 3,
        Call::Cancel => 0,
    }
}

/// Whether a call of `calls` device calls makes one with this number. Numbers count from 1.
fn is_made(calls: u64, number: u64) -> bool
    ensures { result ≡ counts.is_made calls number }
{
    1 <= number && number <= calls
}

/// Whether a call of `calls` device calls may end like this: the one that fails, if any, is among them.
fn may_end(calls: u64, outcome: Outcome) -> bool
    ensures { result ≡ spec.may_end calls outcome }
{
    match outcome {
        Outcome::Good => true,
        Outcome::Fail(number) => is_made(calls, number),
    }
}

/// Copies a file. The copy's disk takes the next device calls as the outcome says. The only error is that
/// memory is out.
fn copy_for(
    alloc: Global,
    file: &TenantFile<MemDisk>,
    outcome: Outcome,
) -> Result<TenantFile<MemDisk>, AllocError>
    ensures states { IfOk result (λ copy. states_of copy ≡ states_of file.now) }
    ensures at { IfOk result (λ copy. at_of copy ≡ at_of file.now) }
    ensures words { IfOk result (λ copy. words_of copy ≡ words_of file.now) }
    ensures failed { IfOk result (λ copy. has_failed copy ≡ has_failed file.now) }
    ensures disk { IfOk result (λ copy. outcome ≡ Outcome.Good → disk_of copy ≡ disk_of file.now) }
    ensures failing { IfOk result (λ copy. (number : ℕ) → outcome ≡ Outcome.Fail number → disk_of copy ≡ spec.failing (disk_of file.now) number) }
    ensures plan { IfOk result (λ copy. (number j : ℕ) → outcome ≡ Outcome.Fail number
        → (memory_facts (disk_of copy)).plan j ≡ with_fault (disk_of file.now) number j) }
    ensures keeps { IfOk result (λ copy. (contents : List ℕ) (doubt : Pairs) → RecoversTo memory_facts file.now contents doubt
        → RecoversTo memory_facts copy contents doubt) }
{
    let mut copy = copy(file, alloc)?;
    match outcome {
        Outcome::Good => {}
        Outcome::Fail(number) => fail_next(&mut copy, number)?,
    }
    Ok(copy)
}

/// Whether no sealed change in these places has an entry for a word of these entries.
pub(crate) fn is_apart(places: &[Place], entries: &[Entry]) -> bool
    ensures { result ≡ list_all (λ place. is_clear entries.now (told place)) places.now }
{
    places.iter().all(|place| is_clear(place, entries))
}

fn is_clear(place: &Place, entries: &[Entry]) -> bool
    ensures { result ≡ is_clear entries.now (told place.now) }
{
    match place {
        Place::Empty | Place::Prepared(_) => true,
        Place::Sealed(those) => !share_a_word(entries, those),
    }
}

impl SimulatedFile {
    ghost use Rattle.mw_words.specs.declared.jobs.Entry.{Entry};
    ghost use Rattle.mw_world_file.specs.Crashes.{CrashesDoNoHarm};
    ghost use Rattle.mw_world_file.specs.CallEffects.{Works, CameOf};
    ghost use Rattle.mw_world_file.specs.DeviceCalls.{CameExactly};

    /// Makes a call on the file for the change of a slot, with these entries. Returns a new book, of the file
    /// after the call. Its disk is a copy of this book's disk, on which the call made its device calls, up to
    /// the one that fails. This book stays unchanged. The file hasn't failed, unless the call can't fail.
    ///
    /// # Errors
    ///
    /// [`BookFault::NotEnabled`]: the place of the change doesn't suit the call, or the call makes no device
    /// call with the number of the one that must fail. [`BookFault::Memory`]: memory is out.
    pub fn work(
        &self,
        alloc: Global,
        call: Call,
        slot: u8,
        entries: &Entries,
        outcome: Outcome,
    ) -> Result<SimulatedFile, BookFault>
        requires sound { (call ≡ Call.Cancel → ⊥) → self.now.has_failed ≡ false }
        requires formed { call ≡ Call.Prepare → IsTrue (is_change (length self.now.contents.items) entries.now.items) }
        ensures works { Works self.now call slot entries.now.items outcome result }
        ensures disk { CameOf self.now call slot outcome result }
        ensures exact { CameExactly self.now call slot entries.now.items outcome result }
        ensures moments { CrashesDoNoHarm self.now call slot result }
    {
        match call {
            Call::Prepare => self.prepare(alloc, slot, entries, outcome),
            Call::Seal => self.seal(alloc, slot, outcome),
            Call::Settle => self.settle(alloc, slot, outcome),
            Call::Cancel => self.cancel(alloc, slot, outcome),
        }
    }

    /// Writes a change down in the lowest empty place, for a slot.
    fn prepare(
        &self,
        alloc: Global,
        slot: u8,
        entries: &Entries,
        outcome: Outcome,
    ) -> Result<SimulatedFile, BookFault>
        requires sound { self.now.has_failed ≡ false }
        requires formed { IsTrue (is_change (length self.now.contents.items) entries.now.items) }
        ensures works { Works self.now Call.Prepare slot entries.now.items outcome result }
        ensures disk { CameOf self.now Call.Prepare slot outcome result }
        ensures exact { CameExactly self.now Call.Prepare slot entries.now.items outcome result }
        ensures moments { CrashesDoNoHarm self.now Call.Prepare slot result }
    {
        let Device::Open(held) = &self.device else {
            unreachable!()
        };
        if !has_empty(&self.places) {
            return Err(BookFault::NotEnabled);
        }
        if !may_end(device_calls(Call::Prepare, &[]), outcome) {
            return Err(BookFault::NotEnabled);
        }
        let mut file = copy_for(alloc, held, outcome)?;
        let made = file.prepare(entries);
        match outcome {
            Outcome::Good => match made {
                Ok(place) => Ok(self.prepared(alloc, file, slot, place.0, entries)?),
                Err(_) => Err(BookFault::Memory),
            },
            Outcome::Fail(_) => {
                if made.is_ok() || refused(&file) != refused(held) {
                    return Err(BookFault::Memory);
                }
                Ok(self.broken(alloc, file, Entries::new())?)
            }
        }
    }

    /// Makes the book with this file, after a change was prepared in a place of it for a slot.
    fn prepared(
        &self,
        alloc: Global,
        file: TenantFile<MemDisk>,
        slot: u8,
        place: u16,
        entries: &Entries,
    ) -> Result<SimulatedFile, AllocError>
        requires within { place < length self.now.places.items }
        requires sized { words_of file ≡ length self.now.contents.items }
        requires has { length (states_of file) ≡ places_of_file self.now }
        requires kept { AreKept (states_of file) (slice_set self.now.places.items place (Place.Prepared entries.now)) }
        requires failed { has_failed file ≡ self.now.has_failed }
        requires ready { self.now.has_failed ≡ false → IsReady (disk_of file) }
        ensures { IfOk result (λ book. HasParts book (Open file) self.now.contents.items
            (slice_set self.now.places.items place (Place.Prepared entries.now)) self.now.file_places (slice_set self.now.place_of slot place)
            self.now.has_failed self.now.doubt.items) }
    {
        let contents = self.contents.to_vec(alloc)?;
        let mut places = copies(alloc, &self.places)?;
        places[place as usize] = Place::Prepared(copy_of(entries));
        let mut place_of = self.place_of;
        place_of[slot as usize] = place;
        Ok(SimulatedFile {
            device: Device::Open(file),
            contents,
            places,
            file_places: self.file_places,
            place_of,
            has_failed: self.has_failed,
            doubt: copy_of(&self.doubt),
        })
    }

    /// Seals the prepared change of a slot.
    fn seal(&self, alloc: Global, slot: u8, outcome: Outcome) -> Result<SimulatedFile, BookFault>
        requires { self.now.has_failed ≡ false }
        ensures works { (entries : List Entry) → Works self.now Call.Seal slot entries outcome result }
        ensures disk { CameOf self.now Call.Seal slot outcome result }
        ensures exact { (entries : List Entry) → CameExactly self.now Call.Seal slot entries outcome result }
        ensures moments { CrashesDoNoHarm self.now Call.Seal slot result }
    {
        let place = self.place_of[slot as usize];
        let Some(entries) = prepared_in(&self.places, place) else {
            return Err(BookFault::NotEnabled);
        };
        if !is_apart(&self.places, entries) {
            return Err(BookFault::NotEnabled);
        }
        if !may_end(device_calls(Call::Seal, entries), outcome) {
            return Err(BookFault::NotEnabled);
        }
        let Device::Open(held) = &self.device else {
            unreachable!()
        };
        let mut file = copy_for(alloc, held, outcome)?;
        let made = file.seal(FilePlace(place));
        match outcome {
            Outcome::Good => {
                if made.is_err() {
                    return Err(BookFault::Memory);
                }
                let contents = with_change(alloc, &self.contents, entries)?;
                let sealed = Place::Sealed(copy_of(entries));
                Ok(self.with_place(alloc, file, contents, place, sealed)?)
            }
            Outcome::Fail(_) => {
                if made.is_ok() || refused(&file) != refused(held) {
                    return Err(BookFault::Memory);
                }
                Ok(self.broken(alloc, file, copy_of(entries))?)
            }
        }
    }

    /// Puts the sealed change of a slot into the home words. Its place is then empty.
    fn settle(&self, alloc: Global, slot: u8, outcome: Outcome) -> Result<SimulatedFile, BookFault>
        requires { self.now.has_failed ≡ false }
        ensures works { (entries : List Entry) → Works self.now Call.Settle slot entries outcome result }
        ensures disk { CameOf self.now Call.Settle slot outcome result }
        ensures exact { (entries : List Entry) → CameExactly self.now Call.Settle slot entries outcome result }
        ensures moments { CrashesDoNoHarm self.now Call.Settle slot result }
    {
        let place = self.place_of[slot as usize];
        let Some(entries) = sealed_in(&self.places, place) else {
            return Err(BookFault::NotEnabled);
        };
        if !may_end(device_calls(Call::Settle, entries), outcome) {
            return Err(BookFault::NotEnabled);
        }
        let Device::Open(held) = &self.device else {
            unreachable!()
        };
        let mut file = copy_for(alloc, held, outcome)?;
        let made = file.settle(FilePlace(place));
        match outcome {
            Outcome::Good => {
                if made.is_err() {
                    return Err(BookFault::Memory);
                }
                Ok(self.emptied(alloc, file, place)?)
            }
            Outcome::Fail(_) => {
                if made.is_ok() || refused(&file) != refused(held) {
                    return Err(BookFault::Memory);
                }
                Ok(self.broken(alloc, file, Entries::new())?)
            }
        }
    }

    /// Empties the place of a slot's prepared change. It makes no device call.
    fn cancel(&self, alloc: Global, slot: u8, outcome: Outcome) -> Result<SimulatedFile, BookFault>
        ensures works { (entries : List Entry) → Works self.now Call.Cancel slot entries outcome result }
        ensures disk { CameOf self.now Call.Cancel slot outcome result }
        ensures exact { (entries : List Entry) → CameExactly self.now Call.Cancel slot entries outcome result }
        ensures moments { CrashesDoNoHarm self.now Call.Cancel slot result }
    {
        let place = self.place_of[slot as usize];
        let Some(entries) = prepared_in(&self.places, place) else {
            return Err(BookFault::NotEnabled);
        };
        if !may_end(device_calls(Call::Cancel, entries), outcome) {
            return Err(BookFault::NotEnabled);
        }
        let Device::Open(held) = &self.device else {
            unreachable!()
        };
        let mut file = copy(held, alloc)?;
        file.cancel(FilePlace(place));
        Ok(self.emptied(alloc, file, place)?)
    }

    /// Makes the book with this file, after one of its places was emptied.
    fn emptied(
        &self,
        alloc: Global,
        file: TenantFile<MemDisk>,
        number: u16,
    ) -> Result<SimulatedFile, AllocError>
        requires within { number < length self.now.places.items }
        requires sized { words_of file ≡ length self.now.contents.items }
        requires has { length (states_of file) ≡ places_of_file self.now }
        requires kept { AreKept (states_of file) (slice_set self.now.places.items number Place.Empty) }
        requires failed { has_failed file ≡ self.now.has_failed }
        requires ready { self.now.has_failed ≡ false → IsReady (disk_of file) }
        ensures { IfOk result (λ book. HasParts book (Open file) self.now.contents.items (slice_set self.now.places.items number Place.Empty)
            self.now.file_places self.now.place_of self.now.has_failed self.now.doubt.items) }
    {
        let contents = self.contents.to_vec(alloc)?;
        self.with_place(alloc, file, contents, number, Place::Empty)
    }

    /// Makes the book with this file and these words, after one of its places changed.
    fn with_place(
        &self,
        alloc: Global,
        file: TenantFile<MemDisk>,
        contents: Vec<u64>,
        number: u16,
        place: Place,
    ) -> Result<SimulatedFile, AllocError>
        requires within { number < length self.now.places.items }
        requires sized { words_of file ≡ length contents.items }
        requires has { length (states_of file) ≡ places_of_file self.now }
        requires kept { AreKept (states_of file) (slice_set self.now.places.items number place) }
        requires failed { has_failed file ≡ self.now.has_failed }
        requires ready { self.now.has_failed ≡ false → IsReady (disk_of file) }
        ensures { IfOk result (λ book. HasParts book (Open file) contents.items (slice_set self.now.places.items number place)
            self.now.file_places self.now.place_of self.now.has_failed self.now.doubt.items) }
    {
        let mut places = copies(alloc, &self.places)?;
        places[number as usize] = place;
        Ok(SimulatedFile {
            device: Device::Open(file),
            contents,
            places,
            file_places: self.file_places,
            place_of: self.place_of,
            has_failed: self.has_failed,
            doubt: copy_of(&self.doubt),
        })
    }

    /// Makes the book with this file, after a device call of it failed, with the change that is then in doubt.
    fn broken(
        &self,
        alloc: Global,
        file: TenantFile<MemDisk>,
        doubt: Entries,
    ) -> Result<SimulatedFile, AllocError>
        requires sized { words_of file ≡ length self.now.contents.items }
        requires has { length (states_of file) ≡ places_of_file self.now }
        requires kept { AreKept (states_of file) self.now.places.items }
        requires failed { has_failed file ≡ true }
        ensures { IfOk result (λ book. HasParts book (Open file) self.now.contents.items self.now.places.items self.now.file_places self.now.place_of true
            doubt.items) }
    {
        Ok(SimulatedFile {
            device: Device::Open(file),
            contents: self.contents.to_vec(alloc)?,
            places: copies(alloc, &self.places)?,
            file_places: self.file_places,
            place_of: self.place_of,
            has_failed: true,
            doubt,
        })
    }
}

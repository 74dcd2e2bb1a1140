//! Where a book's file has the change of each place, and which changes are settled or prepared in the file before
//! their own slots settle or prepare them.
//!
//! `book.rt` and `waiting.rt` call these. Change it with `specs/Representation`, `specs/Permits`,
//! `specs/PreparedAhead`, `specs/RecordsAhead`, `specs/SettledAhead`, `specs/FilePlaces` and `specs/TakenPlaces`.
ghost use Rattle.std.specs.Prelude.{◌≡◌, ◌≤◌, ◌<◌, ◌||◌, ℕ, None, true, false, length, IfSome};
ghost use Rattle.mw_words.specs.declared.limits.TheConstants.{MAX_PLACES};
ghost use Rattle.mw_file.specs.PlaceStates as spec;
ghost use Rattle.mw_book.specs.Permits as permit;
ghost use Rattle.mw_book.specs.PreparedAhead as ahead;
ghost use Rattle.mw_book.specs.Representation as held;
ghost use Rattle.mw_book.specs.RecordsAhead.{is_free};
ghost use Rattle.mw_book.specs.TakenPlaces.{taken};
ghost use Rattle.mw_book.specs.SettledAhead.{is_sealed_stage};
ghost use Rattle.mw_book.specs.FilePlaces.{flag_of, place_in};

use crate::book::PLACES;
use mw_file::{PlaceState, Stage};
use mw_words::{Entries, Entry};

/// What a book keeps for each place that the world knows.
#[derive(Clone, Copy)]
pub struct PlaceTable {
    /// The file's place of it.
    pub(crate) file_place: [u16; PLACES],
    /// Its change is settled ahead, by the settle of another one, and its slot has not settled it yet.
    pub(crate) settled: [bool; PLACES],
    /// The slot of the change that is prepared ahead in it, which the slot has not prepared yet.
    pub(crate) ahead_for: [Option<u8>; PLACES],
}

impl PlaceTable {
    /// Returns the file's place of a place.
    pub(crate) fn file_place(&self, place: u16) -> u16
        ensures { result ≡ held.place_in_file self.now place }
    {
        match self.file_place.get(place as usize) {
            Some(number) => *number,
            None => place,
        }
    }

    /// Tells whether a change is prepared ahead in a place.
    pub(crate) fn is_prepared_ahead(&self, place: u16) -> bool
        requires { place < MAX_PLACES }
        ensures { result ≡ held.is_prepared_ahead self.now place }
    {
        self.ahead_for[place as usize].is_some()
    }

    /// Tells whether a place is vacant: it is free in the file, or has a change that is prepared ahead, and has none
    /// that is settled ahead.
    pub(crate) fn is_vacant(&self, states: &[PlaceState], place: u16) -> bool
        requires { place < MAX_PLACES }
        ensures { result ≡ permit.is_vacant states.now self.now place }
    {
        let stage = stage_of(states, self.file_place(place));
        is_left(self.is_prepared_ahead(place), stage) && !self.settled[place as usize]
    }

    /// Returns the lowest vacant place among the first `places` places, or `places` if none is vacant.
    pub(crate) fn vacant_place(&self, states: &[PlaceState], places: u16) -> u16
        requires few { places ≤ MAX_PLACES }
        ensures { result ≡ permit.vacant_place states.now self.now places }
    {
        for place in 0..places {
            if self.is_vacant(states, place) {
                return place;
            }
        }
        places
    }

    /// Returns the highest place from `low` on and below `top` that is free in the file and vacant, if there is one.
    pub(crate) fn highest_free(&self, states: &[PlaceState], low: u16, top: u16) -> Option<u16>
        requires few { top ≤ MAX_PLACES }
        ensures low { IfSome result (λ place. low ≤ place) }
        ensures top { IfSome result (λ place. place < top) }
        ensures vacant { IfSome result (λ place. permit.is_vacant states.now self.now place ≡ true) }
        ensures free { IfSome result (λ place. held.is_prepared_ahead self.now place ≡ false) }
        ensures highest { IfSome result (λ place. (k : ℕ) → place < k → k < top → is_free states.now self.now k ≡ false) }
        ensures none { result ≡ None → (k : ℕ) → low ≤ k → k < top → is_free states.now self.now k ≡ false }
    {
        for place in (low..top).rev() {
            if self.is_free(states, place) {
                return Some(place);
            }
        }
        None
    }

    /// Tells whether a place is vacant, and no change is prepared ahead in it.
    fn is_free(&self, states: &[PlaceState], place: u16) -> bool
        requires { place < MAX_PLACES }
        ensures { result ≡ is_free states.now self.now place }
    {
        !self.is_prepared_ahead(place) && self.is_vacant(states, place)
    }

    /// Returns the lowest place among the first `places` places in which a change of this slot with these entries is
    /// prepared ahead, or `places` if there is none.
    pub(crate) fn written_place(
        &self,
        states: &[PlaceState],
        slot: u8,
        entries: &Entries,
        places: u16,
    ) -> u16
        requires few { places ≤ MAX_PLACES }
        ensures { result ≡ ahead.written_place states.now self.now slot entries.now.items places }
    {
        for place in 0..places {
            if self.is_written(states, slot, entries, place) {
                return place;
            }
        }
        places
    }

    /// Tells whether a change of this slot with these entries is prepared ahead in a place.
    fn is_written(&self, states: &[PlaceState], slot: u8, entries: &Entries, place: u16) -> bool
        requires { place < MAX_PLACES }
        ensures { result ≡ ahead.is_written states.now self.now slot entries.now.items place }
    {
        is_for(self.ahead_for[place as usize], slot)
            && writes_just(states, self.file_place(place), entries)
    }

    /// Exchanges the places of the file that two places have. The first then has what the file had for the second, and
    /// no change is prepared ahead in it. A change that was prepared ahead in the first is now so in the second.
    pub(crate) fn take(&mut self, place: u16, written: u16)
        requires place { place < MAX_PLACES }
        requires written { written < MAX_PLACES }
        ensures { self.new ≡ taken self.old place written }
    {
        let number = self.file_place(place);
        let other = self.file_place(written);
        let slot = self.ahead_for[place as usize];
        self.file_place[place as usize] = other;
        self.file_place[written as usize] = number;
        self.ahead_for[written as usize] = slot;
        self.ahead_for[place as usize] = None;
    }

    /// Returns which places' changes are settled ahead if each sealed one is too.
    pub(crate) fn settled_with_sealed(&self, states: &[PlaceState]) -> [bool; PLACES]
        requires few { length states.now ≤ MAX_PLACES }
        ensures { (place : ℕ) → flag_of result place ≡ (held.is_settled self.now place || is_sealed_stage (held.stage_in_file states.now self.now place)) }
    {
        let mut flags = self.settled;
        for place in 0..PLACES {
            if stage_of(states, self.file_place(place as u16)) == Stage::Sealed {
                flags[place] = true;
            }
        }
        flags
    }
}

/// Returns how far the change in a place of a file is. A place that is not one of the file's is free.
fn stage_of(states: &[PlaceState], place: u16) -> Stage
    ensures { result ≡ spec.stage_of states.now place }
{
    match states.get(place as usize) {
        Some(state) => state.stage,
        None => Stage::Free,
    }
}

/// Tells whether this is the stage of a place that may be vacant, by whether a change is prepared ahead in it.
fn is_left(ahead: bool, stage: Stage) -> bool
    ensures { result ≡ permit.is_left ahead stage }
{
    match stage {
        Stage::Free => !ahead,
        Stage::Prepared => ahead,
        Stage::Sealed => false,
    }
}

/// Tells whether it is this slot.
fn is_for(found: Option<u8>, slot: u8) -> bool
    ensures { result ≡ ahead.is_for found slot }
{
    match found {
        Some(other) => other == slot,
        None => false,
    }
}

/// Tells whether a place of a file has just the writes of these entries.
fn writes_just(states: &[PlaceState], place: u16, entries: &Entries) -> bool
    ensures { result ≡ ahead.are_writes_of (spec.writes_of_place states.now place) entries.now.items }
{
    match states.get(place as usize) {
        Some(state) => are_writes_of(state.writes.as_slice(), entries.as_slice()),
        None => entries.is_empty(),
    }
}

/// Tells whether these are the writes of a change with these entries.
fn are_writes_of(writes: &[(u16, u64)], entries: &[Entry]) -> bool
    ensures { result ≡ ahead.are_writes_of writes.now entries.now }
{
    if writes.len() != entries.len() {
        return false;
    }
    for i in 0..writes.len() {
        if writes[i].0 != entries[i].addr || writes[i].1 != entries[i].new {
            return false;
        }
    }
    true
}

/// Returns the table in which each place is the file's place of the same number.
pub(crate) fn in_order() -> [u16; PLACES]
    ensures { (place : ℕ) → place_in result place ≡ place }
{
    let mut table = [0; PLACES];
    for place in 0..PLACES {
        table[place] = place as u16;
    }
    table
}

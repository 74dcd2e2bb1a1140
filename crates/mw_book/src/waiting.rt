//! Chooses which changes that wait for a file a call writes ahead, along with its own bytes, and into which places.
//!
//! Used by: `book`; mw_core; mw_turns, in whose room each [`Waiting`] waits (`waiting_room.rt`). `specs/ChosenPlaces`
//! says what is chosen. docs/FILES tells `MOST_AHEAD`; `MOST_CHANGES` is one more.
ghost use Rattle.std.specs.Prelude.{◌≡◌, ◌≤◌, ◌<◌, ◌+◌, ◌∷◌, ℕ, List, true, false, length, IsTrue, IfSome};
ghost use Rattle.mw_words.specs.Change.{is_change};
ghost use Rattle.mw_words.specs.declared.limits.TheConstants.{MAX_PLACES};
ghost use Rattle.mw_book.specs.declared.waiting.Waiting.{Waiting as WaitingAt};
ghost use Rattle.mw_book.specs.ChosenPlaces.{AreAhead, AreChosen, IsUnderWay, free_within, is_new_for};
ghost use Rattle.mw_book.specs.FilePlaces.{IsPermutation};
ghost use Rattle.mw_book.specs.Permits.{is_vacant};
ghost use Rattle.mw_book.specs.RecordsAhead.{first_ready};
ghost use Rattle.mw_book.specs.Representation.{is_prepared_ahead};

use crate::place_table::PlaceTable;
use arrayvec::ArrayVec;
use mw_file::{NewChange, Place, PlaceState};
use mw_words::{Entries, copy_of, is_change};

/// A change that waits for its tenant's file.
#[derive(Default, Drop)]
pub struct Waiting {
    /// The slot of the change.
    pub slot: u8,
    /// The entries of the change.
    pub entries: Entries,
}

/// The most changes that one call writes ahead.
pub const MOST_AHEAD: usize = 15;

/// The most changes that one call prepares: its own, and those that it writes ahead.
const MOST_CHANGES: usize = 16;

const _: () = prove!(MOST_AHEAD + 1 == MOST_CHANGES);

/// The changes that one call prepares.
pub(crate) type NewChanges = ArrayVec<NewChange, MOST_CHANGES>;

/// The changes that a call writes ahead. A book has one, and each call fills it anew. It is large, so that a new one in
/// each call would cost more than the rest of the call.
#[derive(Drop)]
pub(crate) struct Chosen {
    /// What the book keeps for each place after the call.
    pub(crate) table: PlaceTable,
    /// The changes, each with its place in the file.
    pub(crate) changes: NewChanges,
    /// Only places below this one are left to be chosen.
    pub(crate) top: u16,
}

impl Chosen {
    /// Makes one without changes.
    pub(crate) fn new(table: PlaceTable) -> Chosen {
        Chosen {
            table,
            changes: NewChanges::new(),
            top: 0,
        }
    }

    /// Chooses which of the waiting changes a call for this slot writes ahead: those of other slots that are well formed
    /// and are not prepared ahead yet, each into the highest free place that is left from `low` on. What was chosen
    /// before is forgotten.
    pub(crate) fn choose(
        &mut self,
        table: &PlaceTable,
        states: &[PlaceState],
        words: u16,
        places: u16,
        low: u16,
        slot: u8,
        waiting: &[Waiting],
    )
        requires few { places ≤ MAX_PLACES }
        requires there { places ≤ length states.now }
        requires permuted { IsPermutation table.now.file_place places }
        ensures chosen { AreChosen words states.now table.now places low self.new.table self.new.changes.items self.new.top }
        ensures waiting { length self.new.changes.items ≤ length waiting.now }
        ensures most { length self.new.changes.items ≤ MOST_AHEAD }
        ensures ahead { AreAhead table.now self.new.table places self.new.changes.items
            (first_ready words states.now table.now places slot (free_within states.now table.now low places) waiting.now) }
    {
        self.table = *table;
        self.changes.clear();
        self.top = places;
        for change in waiting {
            if self.changes.len() < MOST_AHEAD && is_new(table, states, places, slot, change) {
                self.add(states, words, low, change);
            }
        }
    }

    /// Chooses the highest place that is left for a change, if there is one from `low` on, and if the change is well
    /// formed.
    fn add(&mut self, states: &[PlaceState], words: u16, low: u16, change: &Waiting)
        requires top { self.old.top ≤ MAX_PLACES }
        requires room { length self.old.changes.items < MOST_AHEAD }
        ensures top { self.new.top ≤ self.old.top }
        ensures more { length self.new.changes.items ≤ length self.old.changes.items + 1 }
        ensures kept { (table : PlaceTable) (places : ℕ) → places ≤ length states.now → IsPermutation table.file_place places
            → AreChosen words states.now table places low self.old.table self.old.changes.items self.old.top
            → AreChosen words states.now table places low self.new.table self.new.changes.items self.new.top }
        ensures ahead { (table : PlaceTable) (places slot : ℕ) (all rest : List WaitingAt) → is_new_for states.now table places slot change.now.slot change.now.entries.items ≡ true
            → IsUnderWay words states.now table places low slot all self.old.table self.old.changes.items self.old.top (change.now ∷ rest)
            → IsUnderWay words states.now table places low slot all self.new.table self.new.changes.items self.new.top rest }
    {
        if !is_change(&change.entries, words as usize) {
            return;
        }
        let Some(place) = self.table.highest_free(states, low, self.top) else {
            return;
        };
        self.changes.push(NewChange {
            place: Place(self.table.file_place(place)),
            entries: copy_of(&change.entries),
        });
        self.table.ahead_for[place as usize] = Some(change.slot);
        self.top = place;
    }
}

/// Tells whether a change is of another slot than this one, and is not prepared ahead.
fn is_new(
    table: &PlaceTable,
    states: &[PlaceState],
    places: u16,
    slot: u8,
    change: &Waiting,
) -> bool
    requires few { places ≤ MAX_PLACES }
    ensures { result ≡ is_new_for states.now table.now places slot change.now.slot change.now.entries.items }
{
    change.slot != slot
        && table.written_place(states, change.slot, &change.entries, places) == places
}

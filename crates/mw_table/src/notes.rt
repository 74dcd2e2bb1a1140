//! Makes notes of what a pass has seen, and lets another pass learn from one.
//!
//! Used by: mw_engine. Change it with `specs/Meet`, `specs/Notes` and `specs/Passes`.
ghost use Rattle.std.specs.Prelude.{◌≡◌};
ghost use Rattle.mw_rule.specs.Splits.{note as said_by};
ghost use Rattle.mw_table.specs.Meet.{IsSamePass};
ghost use Rattle.mw_table.specs.Notes.{HasLearned, IsNoteOf, said_in};
ghost use Rattle.mw_table.specs.Passes.{IsOf, known};

use crate::note::Note;
use crate::shared::{Pass, Shared};

impl Shared {
    /// Makes a note of what a pass has seen, and of the run that it knows. The pass knows afterwards what it knew
    /// before.
    pub fn note(&self, pass: &mut Pass) -> Note
        requires own { IsOf self.now pass.old }
        ensures own { IsOf self.now pass.new }
        ensures stays { IsSamePass pass.old pass.new }
        ensures knows { pass.new.seat.me ≡ pass.old.seat.me }
        ensures its { IsNoteOf self.now result }
        ensures says { said_in result ≡ said_by (known pass.old) }
    {
        Note {
            seat: self.seat_note(&mut pass.seat),
        }
    }

    /// Lets a pass learn what a note of this table says. Afterwards the pass has seen that, and at least what it had
    /// seen before. It keeps its worker, its request and the requests that its worker finished. It is no step of a
    /// request, and adds no event to the run.
    pub fn learn(&self, pass: &mut Pass, note: Note)
        requires own { IsOf self.now pass.old }
        requires its { IsNoteOf self.now note }
        ensures own { IsOf self.now pass.new }
        ensures stays { IsSamePass pass.old pass.new }
        ensures learned { HasLearned (said_in note) (known pass.old) (known pass.new) }
    {
        self.seat_learn(&mut pass.seat, note.seat);
    }
}

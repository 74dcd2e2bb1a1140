//! Makes notes of what a pass has seen, and lets another pass learn from one.
//!
//! mw_service does so for a session that borrows passes. Change it with `specs/Notes` and `specs/Passes`.
ghost use Rattle.std.specs.Prelude.{◌≡◌};
ghost use Rattle.mw_core.specs.FromTable.{HasLearned, IsSamePass, known, note as said_by, said_in};
ghost use Rattle.mw_engine.specs.Notes.{IsNoteOf};
ghost use Rattle.mw_engine.specs.Passes.{IsPassOf};

use crate::brand::EngineBrand;
use crate::engine::Engine;
use mw_core::{Note, Pass};
use mw_disk::Disk;

impl<J: EngineBrand, D: Disk, H> Engine<J, D, H> {
    /// Makes a note of what a pass has seen. The pass knows afterwards what it knew before.
    pub fn note(&self, pass: &mut Pass) -> Note
        requires own { IsPassOf J.identity pass.old }
        ensures own { IsPassOf J.identity pass.new }
        ensures stays { IsSamePass pass.old pass.new }
        ensures knows { pass.new.seat.me ≡ pass.old.seat.me }
        ensures its { IsNoteOf J.identity result }
        ensures says { said_in result ≡ said_by (known pass.old) }
    {
        self.words.core.shared().note(pass)
    }

    /// Lets a pass learn what a note of this engine says. Afterwards it has seen that, and at least what it had seen
    /// before. It keeps its worker, its request and the requests that its worker finished. No event is added to
    /// the run.
    pub fn learn(&self, pass: &mut Pass, note: Note)
        requires own { IsPassOf J.identity pass.old }
        requires its { IsNoteOf J.identity note }
        ensures own { IsPassOf J.identity pass.new }
        ensures stays { IsSamePass pass.old pass.new }
        ensures learned { HasLearned (said_in note) (known pass.old) (known pass.new) }
    {
        self.words.core.shared().learn(pass, note);
    }
}

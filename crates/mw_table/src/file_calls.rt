//! Lets a pass take a tenant's file for a call and give it back.
//!
//! Used by: mw_core, in each call on a file; mw_engine, at its end. Change it with `specs/FileCalls`,
//! `specs/HeldFiles`, `specs/SeenFiles`, `specs/Meet`, `specs/Origins` and `specs/Passes`.
ghost use Rattle.std.specs.Prelude.{◌≡◌, []};
ghost use Rattle.mw_rule.specs.Splits.{without_file, takes_files, with_file_given};
ghost use Rattle.mw_rule.specs.Steps.{LearnsPlainLoad};
ghost use Rattle.mw_rule.specs.WordActions.{WentOn};
ghost use Rattle.mw_table.specs.FileCalls.{IsFree, IsFilePassOf, IsSoOfWorld, file_kept};
ghost use Rattle.mw_table.specs.HeldFiles.{HasFile, file_among};
ghost use Rattle.mw_table.specs.Meet.{IsSamePass};
ghost use Rattle.mw_table.specs.Origins.{config_of, openings_of};
ghost use Rattle.mw_table.specs.Passes.{IsOf, known};
ghost use Rattle.mw_table.specs.SeenFiles.{SeesFile};

use crate::file_pass::FilePass;
use crate::shared::{Pass, Shared};
use atomic_table::Play;
use mw_actor::Actor;
use mw_rule::{GivesFile, TakesFiles, View};

/// What a thread learns from a load that is no event: the bits that it found, and that what it knows is true in the
/// world of the table's run.
pub struct Confirms;

impl Play<Actor, View> for Confirms {
    ghost then = { λ step me found next. LearnsPlainLoad step.word found me.0 next.0 × WentOn [] me.0 next.0 };
}

impl FilePass {
    /// Returns the tenant whose file it is, by its index.
    pub fn tenant(&self) -> u8
        ensures { result ≡ self.now.tenant }
    {
        self.tenant
    }
}

impl Shared {
    /// Takes a file for a call. The pass must have none, and gives this one back after the call. That is no step of a
    /// request.
    pub fn take(&self, pass: &mut Pass, file_pass: FilePass)
        requires own { IsOf self.now pass.old }
        requires file_pass { IsFilePassOf self.now file_pass }
        requires free { IsFree pass.old }
        ensures own { IsOf self.now pass.new }
        ensures same { IsSamePass pass.old pass.new }
        ensures took { known pass.new ≡ takes_files (known pass.old) file_pass.seat.me.0 }
        ensures has { HasFile (known pass.new) file_pass.tenant }
    {
        self.table
            .shared
            .join_seat::<TakesFiles>(&mut pass.seat, file_pass.seat);
    }

    /// Gives this tenant's file back, with what is known of the file by now. The pass has no file then. That is no
    /// step of a request.
    pub fn give_back(&self, pass: &mut Pass, tenant: u8) -> FilePass
        requires own { IsOf self.now pass.old }
        requires has { HasFile (known pass.old) tenant }
        ensures own { IsOf self.now pass.new }
        ensures same { IsSamePass pass.old pass.new }
        ensures left { known pass.new ≡ without_file (known pass.old) }
        ensures free { IsFree pass.new }
        ensures file_pass { IsFilePassOf self.now result }
        ensures whose { result.tenant ≡ tenant }
        ensures is { result.seat.me.0 ≡ with_file_given (known pass.old) }
        ensures file { file_kept result ≡ file_among (known pass.old).files }
    {
        let seat = self.table.shared.split_seat::<GivesFile>(&mut pass.seat);
        FilePass { seat, tenant }
    }

    /// Confirms what is known of a file that nobody calls, and gives up its pass: it is true in a world of the table,
    /// after a run that extends the one known with the file. It loads a word to find that, which is no step of a
    /// request.
    pub fn confirm(&self, file_pass: FilePass)
        requires file_pass { IsFilePassOf self.now file_pass }
        ensures { IsSoOfWorld (config_of self.now.table.shared.key) (openings_of self.now.table.shared.key) file_pass.seat.me.0.known_run file_pass.tenant (file_kept file_pass) }
    {
        let FilePass {
            mut seat,
            tenant: _,
        } = file_pass;
        self.table.shared.load::<Confirms>(&mut seat, 0);
    }

    /// Confirms what is known of a file that nobody calls, as [`Shared::confirm`] does, and gives up its file pass. It
    /// lets a pass see all changes that were sealed in the file. The pass must have no file, and has none afterwards. No
    /// event is added to the run.
    pub fn confirm_with(&self, pass: &mut Pass, file_pass: FilePass)
        requires own { IsOf self.now pass.old }
        requires free { IsFree pass.old }
        requires file_pass { IsFilePassOf self.now file_pass }
        ensures own { IsOf self.now pass.new }
        ensures free { IsFree pass.new }
        ensures same { IsSamePass pass.old pass.new }
        ensures so { IsSoOfWorld (config_of self.now.table.shared.key) (openings_of self.now.table.shared.key) file_pass.seat.me.0.known_run file_pass.tenant (file_kept file_pass) }
        ensures sees { SeesFile file_pass (known pass.old) (known pass.new) }
    {
        let tenant = file_pass.tenant;
        self.take(pass, file_pass);
        self.load_any(pass);
        self.give_back(pass, tenant);
    }

    // Loads a word, so that the pass sees what is sealed by now. Returns its bits.
    fn load_any(&self, pass: &mut Pass) -> u64
        requires own { IsOf self.now pass.old }
        ensures own { IsOf self.now pass.new }
        ensures same { IsSamePass pass.old pass.new }
        ensures looked { LearnsPlainLoad 0 result pass.old.seat.me.0 pass.new.seat.me.0 }
        ensures event { WentOn [] pass.old.seat.me.0 pass.new.seat.me.0 }
    {
        self.table.shared.load::<Confirms>(&mut pass.seat, 0)
    }
}

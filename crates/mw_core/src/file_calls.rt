//! Makes one whole call on a tenant's file, for the request that a pass carries.
//!
//! mw_engine calls `Core::file` under the lock of the tenant's file. Change it with `specs/FileCalls` and
//! `specs/Books`.
ghost use Rattle.std.specs.Prelude.{◌≡◌, ◌≢◌, None, []};
ghost use Rattle.std.specs.Option.{option_map};
ghost use Rattle.mw_actor.specs.ActorState as acting;
ghost use Rattle.mw_actor.specs.Asks.{asks};
ghost use Rattle.mw_look.specs.Steps.{op_of};
ghost use Rattle.mw_world.specs.Definition.Calls.{called_at};
ghost use Rattle.mw_table.specs.CarriedRequest.{IsCarried};
ghost use Rattle.mw_table.specs.FromRule.{ExtendsKnownRun};
ghost use Rattle.mw_table.specs.FileCalls.{IsFree, IsFilePassOf, file_kept};
ghost use Rattle.mw_table.specs.HeldFiles.{HasFile};
ghost use Rattle.mw_table.specs.Meet.{IsSamePass};
ghost use Rattle.mw_table.specs.Passes.{IsOf, known};
ghost use Rattle.mw_core.specs.Books.{AgreesHeld, AgreesThere};
ghost use Rattle.mw_core.specs.FileCalls.{AreTaken, FilesOnce, MakesCall, prepares, slot_and_entries};

use crate::calls::Core;
use mw_actor::Actor;
use mw_book::{Book, Filed, Waiting};
use mw_disk::Disk;
use mw_look::{Call, Got, Op, Told};
use mw_table::{FilePass, Pass};
use mw_words::{Entries, Job, Status, copy_of};
use mw_world::starts_from;

impl Core {
    /// Makes the whole call on its tenant's file at which the pass's request is, on the tenant's book and with the
    /// file pass. The caller must keep both from all other threads meanwhile. It tells the machine how the call went,
    /// and returns the file pass with what is known of the file by now. The book agrees with that again.
    ///
    /// - A call that doesn't start from the status of its change does nothing, and counts as one that went well.
    /// - A call that starts is made on the book. If all its device calls go well, the status goes on. If one of them
    ///   fails, or the file had failed before, the tenant's door has the fault from then on.
    ///
    /// Records of the changes that are `waiting` for the file may be written along with what the call writes. Then their
    /// own prepares make no device call. No event of the world says so.
    ///
    /// The call extends a run of a world by one event, which says how the call ended; that run extends the one that
    /// the pass knew. Then the pass and the file pass know a run that extends what either knew before. So all calls
    /// on one file are of one run, whichever threads make them.
    pub fn file<D: Disk>(
        &self,
        pass: &mut Pass,
        actor: &mut Actor,
        book: &mut Book<D>,
        file_pass: FilePass,
        waiting: &[Waiting],
    ) -> FilePass
        requires own { IsOf self.now.shared pass.old }
        requires carried { IsCarried pass.old actor.old }
        requires call { called_at actor.old.point ≢ None }
        requires free { IsFree pass.old }
        requires file_pass { IsFilePassOf self.now.shared file_pass }
        requires whose { file_pass.tenant ≡ actor.old.tenant }
        requires agrees { AgreesThere D.facts self.now.shared book.old file_pass }
        ensures own { IsOf self.now.shared pass.new }
        ensures same { IsSamePass pass.old pass.new }
        ensures free { IsFree pass.new }
        ensures carried { IsCarried pass.new actor.new }
        ensures files { FilesOnce D.facts waiting.now pass.old pass.new actor.old actor.new book.old book.new (file_kept file_pass) (file_kept result) }
        ensures file_pass { IsFilePassOf self.now.shared result }
        ensures whose { result.tenant ≡ file_pass.tenant }
        ensures follows { ExtendsKnownRun file_pass.seat.me.0.known_run result.seat.me.0.known_run }
        ensures known { result.seat.me.0.known_run ≡ (known pass.new).known_run }
        ensures agrees { AgreesThere D.facts self.now.shared book.new result }
    {
        let tenant = file_pass.tenant();
        self.shared().take(pass, file_pass);
        let went_well = self.make_call(pass, actor, book, waiting);
        actor.tell(Told {
            got: Got::File(went_well),
            next: pass.attempt(),
        });
        self.shared().give_back(pass, tenant)
    }

    /// Makes the call itself, with a pass that has the file. Returns whether it went well.
    fn make_call<D: Disk>(
        &self,
        pass: &mut Pass,
        actor: &Actor,
        book: &mut Book<D>,
        waiting: &[Waiting],
    ) -> bool
        requires own { IsOf self.now.shared pass.old }
        requires carried { IsCarried pass.old actor.now }
        requires call { called_at actor.now.point ≢ None }
        requires has { HasFile pass.old.seat.me.0 actor.now.tenant }
        requires agrees { AgreesHeld D.facts book.old pass.old.seat.me.0 actor.now.tenant }
        ensures own { IsOf self.now.shared pass.new }
        ensures same { IsSamePass pass.old pass.new }
        ensures made { MakesCall D.facts waiting.now pass.old.worker pass.old.seat.me.0 pass.new.seat.me.0 actor.now book.old book.new result }
        ensures agrees { AgreesHeld D.facts book.new pass.new.seat.me.0 actor.now.tenant }
    {
        let Op::File { call, slot } = actor.ask() else {
            unreachable!()
        };
        let bits = self.shared().find_status(pass, slot);
        let Some(status) = Status::unpack(bits) else {
            unreachable!()
        };
        if !starts_from(call, status) {
            return true;
        }
        let none = Entries::new();
        match book.call(call, slot, entries_for(call, actor, &none), waiting) {
            Filed::Made => {
                self.shared().end_call(pass, call, slot, status);
                true
            }
            Filed::Broken | Filed::Untouched => {
                self.shared().fault(pass, actor.tenant());
                false
            }
        }
    }
}

/// Returns the change of a request whose next step is to prepare it. None if the next step is any other.
pub fn waiting_change(actor: &Actor) -> Option<Waiting>
    ensures { option_map slot_and_entries result ≡ prepares (op_of (asks actor.now)) (acting.own_entries actor.now) }
{
    match actor.ask() {
        Op::File {
            call: Call::Prepare,
            slot,
        } => Some(Waiting {
            slot,
            entries: own_entries(actor),
        }),
        _ => None,
    }
}

/// Returns the entries that a call takes: those of the request's own change for a prepare, these empty ones for any
/// other call.
fn entries_for<'a>(call: Call, actor: &'a Actor, none: &'a Entries) -> &'a Entries
    requires none { none.now.items ≡ [] }
    ensures { AreTaken call result.now.items (acting.own_entries actor.now) }
{
    match call {
        Call::Prepare => match actor.job() {
            Job::Get(_) => none,
            Job::Cas(entries) => entries,
        },
        Call::Seal | Call::Settle | Call::Cancel => none,
    }
}

/// Returns the entries of a request's own change; of a read none.
fn own_entries(actor: &Actor) -> Entries
    ensures { result.items ≡ acting.own_entries actor.now }
{
    match actor.job() {
        Job::Get(_) => Entries::new(),
        Job::Cas(entries) => copy_of(entries),
    }
}

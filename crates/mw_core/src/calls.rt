//! Makes one atomic step of a request at a time.
//!
//! mw_engine serves requests by these calls; tests use them without an engine. Change it with `specs/Steps`.
ghost use Rattle.std.specs.Prelude.{◌≡◌, false, None};
ghost use Rattle.mw_table.specs.FromRule.{MayCome};
ghost use Rattle.mw_table.specs.CarriedRequest.{IsCarried};
ghost use Rattle.mw_table.specs.Passes.{IsOf, IsOfSameWorker, known};
ghost use Rattle.mw_actor.specs.Program.{replied};
ghost use Rattle.mw_core.specs.Steps.{Advances, Begins, Steps, answer_of};

use mw_actor::Actor;
use mw_look::{Call, Got, Op, Told};
use mw_table::{Pass, Shared};

/// What a call of [`Core::advance`] did.
#[derive(Clone, Copy, PartialEq, Eq)]
pub enum Advance {
    /// It made one step, and the request has no reply yet.
    Stepped,
    /// It did nothing, because a call on the tenant's file is next.
    NeedsFile,
    /// The request has its reply. The call made the one step that brought it, or no step if the reply was there
    /// before.
    Finished,
}

/// The shared words, on which threads drive requests. It has no file.
#[derive(Drop)]
pub struct Core {
    shared: Shared,
}

impl Core {
    /// Makes a core on these shared words.
    pub fn new(shared: Shared) -> Core
        ensures { result.shared ≡ shared }
    {
        Core { shared }
    }

    /// Returns the shared words.
    pub fn shared(&self) -> &Shared
        ensures { result.now ≡ self.now.shared }
    {
        &self.shared
    }

    /// Brings a request to the pass's worker, which has none, and makes its first step: a load of its tenant's door,
    /// which it tells the machine. From then on the pass carries the request, and isn't idle.
    pub fn begin(&self, pass: &mut Pass, actor: &mut Actor)
        requires own { IsOf self.now.shared pass.old }
        requires may { MayCome (known pass.old) pass.old.worker actor.old }
        ensures own { IsOf self.now.shared pass.new }
        ensures worker { IsOfSameWorker pass.old pass.new }
        ensures busy { pass.new.idle ≡ false }
        ensures begins { Begins pass.old pass.new actor.old actor.new }
        ensures carried { IsCarried pass.new actor.new }
    {
        let found = self.shared.begin(pass, actor);
        actor.tell(Told {
            got: Got::Word(found),
            next: pass.attempt(),
        });
    }

    /// Makes one atomic step, on one shared word, of the request that the pass carries, which has no reply yet. It
    /// tells the machine what the step found. It asks the machine for its step once. If a call on the tenant's file
    /// is next, it does nothing and returns that call.
    pub fn step(&self, pass: &mut Pass, actor: &mut Actor) -> Option<Call>
        requires own { IsOf self.now.shared pass.old }
        requires carried { IsCarried pass.old actor.old }
        requires running { replied actor.old ≡ None }
        ensures own { IsOf self.now.shared pass.new }
        ensures worker { IsOfSameWorker pass.old pass.new }
        ensures steps { Steps pass.old pass.new actor.old actor.new result }
        ensures carried { IsCarried pass.new actor.new }
    {
        let op = actor.ask();
        if let Op::File { call, .. } = op {
            return Some(call);
        }
        let got = self.shared.step(pass, op);
        actor.tell_of(
            op,
            Told {
                got,
                next: pass.attempt(),
            },
        );
        None
    }

    /// Makes one step as [`Core::step`] does, of a request that may have its reply. If it has its reply, nothing is
    /// done. While there is no reply the pass stays as idle as it was, which is not idle.
    pub fn advance(&self, pass: &mut Pass, actor: &mut Actor) -> Advance
        requires own { IsOf self.now.shared pass.old }
        requires carried { IsCarried pass.old actor.old }
        ensures own { IsOf self.now.shared pass.new }
        ensures worker { IsOfSameWorker pass.old pass.new }
        ensures idle { replied actor.new ≡ None → pass.new.idle ≡ pass.old.idle }
        ensures advances { Advances pass.old pass.new actor.old actor.new result }
        ensures carried { IsCarried pass.new actor.new }
    {
        if actor.reply().is_some() {
            return Advance::Finished;
        }
        if self.step(pass, actor).is_some() {
            return Advance::NeedsFile;
        }
        ended(actor)
    }
}

/// Returns what a call did that made a step, by the reply that is there after it.
fn ended(actor: &Actor) -> Advance
    ensures { result ≡ answer_of (replied actor.now) }
{
    match actor.reply() {
        Some(_) => Advance::Finished,
        None => Advance::Stepped,
    }
}

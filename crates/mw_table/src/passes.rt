//! Tells a pass's worker, its next attempt number and whether it is idle; makes it idle again.
//!
//! Used by: mw_core, mw_engine, mw_service. Change it with `specs/CarriedRequest`, `specs/Passes` and `specs/Idleness`.
ghost use Rattle.std.specs.Prelude.{◌≡◌, ◌≢◌, true, None};
ghost use Rattle.mw_actor.specs.Program.{replied};
ghost use Rattle.mw_table.specs.CarriedRequest.{IsCarried};
ghost use Rattle.mw_table.specs.Passes.{IsIdleAfter, known};
ghost use Rattle.mw_table.specs.Idleness.{IsIdle};

use crate::shared::Pass;
use mw_actor::Actor;

impl Pass {
    /// Returns the worker whose steps the pass makes.
    pub fn worker(&self) -> u8
        ensures { result ≡ self.now.worker }
    {
        self.worker
    }

    /// Returns the number of the worker's next attempt to hold a word.
    pub fn attempt(&self) -> u64
        ensures { result ≡ self.now.attempt }
    {
        self.attempt
    }

    /// Returns whether the pass is idle. An idle pass carries no request, so one may come. A pass is idle from the
    /// start if its worker has no request then. It is not idle from when a request comes until [`Pass::rest`] says
    /// that the request has its reply.
    pub fn idle(&self) -> bool
        ensures is { result ≡ self.now.idle }
        ensures rests { result ≡ true → IsIdle (known self.now) }
    {
        self.idle
    }

    /// Makes the pass idle again. The request that it carried must have its reply.
    pub fn rest(&mut self, actor: &Actor)
        requires carried { IsCarried self.old actor.now }
        requires replied { replied actor.now ≢ None }
        ensures rested { IsIdleAfter self.old self.new }
        ensures carried { IsCarried self.new actor.now }
    {
        self.idle = true;
    }
}

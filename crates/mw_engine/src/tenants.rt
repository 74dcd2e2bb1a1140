//! Finds a tenant by its name, and makes the requests that it may have.
//!
//! Used by: mw_service (`find`), `serving`, `reads` (`request`). Change it with `specs/Identity`, `specs/Passes` and
//! `specs/Requests`.
ghost use Rattle.std.specs.Prelude.{◌≡◌, length, IfSome, MatchOption};
ghost use Rattle.mw_engine.specs.Identity.{HasNone, HasWords, IsFirst, IsFor};
ghost use Rattle.mw_engine.specs.Passes.{IsPassOf};
ghost use Rattle.mw_engine.specs.Requests.{request_of};

use crate::brand::EngineBrand;
use crate::engine::Engine;
use mw_actor::Actor;
use mw_core::Pass;
use mw_disk::Disk;
use mw_words::{Job, Name};

impl<J: EngineBrand, D: Disk, H> Engine<J, D, H> {
    /// Finds the first tenant with this name: its number, and how many words it has. `None` if no tenant has the
    /// name.
    pub fn find(&self, name: &Name) -> Option<(u8, u16)>
        ensures first { MatchOption result (HasNone J.identity.lines (length J.identity.lines) name.now.items) (IsFirst J.identity.lines name.now.items) }
        ensures words { IfSome result (λ found. HasWords J.identity.lines found.0 found.1) }
    {
        for (tenant, line) in self.words.lines.iter().enumerate() {
            if line.name.as_slice() == name.as_slice() {
                return Some((tenant as u8, line.words));
            }
        }
        None
    }

    /// Makes a tenant's request for a job, at its first step, for the worker of a pass.
    pub fn request(&self, pass: &Pass, tenant: u8, job: Job) -> Actor
        requires own { IsPassOf J.identity pass.now }
        requires formed { IsFor J.identity.lines tenant job }
        ensures { result ≡ request_of J.identity pass.now.worker tenant job }
    {
        let quota = self.words.lines[usize::from(tenant)].quota;
        Actor::new(pass.worker(), tenant, quota, self.words.pool, job)
    }
}

//! Makes the steps of a request one by one, from outside the engine.
//!
//! Used by: `workers`.
ghost use Rattle.std.specs.Prelude.{◌≡◌, true};
ghost use Rattle.mw_engine.specs.Identity.{IsFor};
ghost use Rattle.mw_engine.specs.Passes.{IsPassOf};

use mw_disk::Disk;
use mw_engine::{Advance, Engine, EngineBrand, Hold, Pass};
use mw_words::{Job, Reply};
use std::sync::Wait;

/// Gives the reply to a tenant's job. It makes each step, and each call on the tenant's file, here.
pub(crate) fn by_steps<J: EngineBrand, D: Disk + Drop, H: Hold + Drop>(
    engine: &Engine<J, D, H>,
    rt: &impl Wait,
    pass: &mut Pass,
    tenant: u8,
    job: &Job,
) -> Reply
    requires own { IsPassOf J.identity pass.old }
    requires formed { IsFor J.identity.lines tenant job.now }
    requires idle { pass.old.idle ≡ true }
    ensures own { IsPassOf J.identity pass.new }
    ensures idle { pass.new.idle ≡ true }
{
    let mut actor = engine.request(pass, tenant, job.copy());
    for _ in rt.forever() {
        if let Advance::NeedsFile = engine.advance(pass, &mut actor) {
            engine.file(rt, pass, &mut actor);
        } else if let Some(reply) = actor.reply() {
            return reply;
        }
    }
    unreachable!()
}

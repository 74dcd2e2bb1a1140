//! Reads a tenant's word without a lock, one round at a time or until it has its value.
//!
//! Only tests call these; `mwserve` reads by `Engine::serve`. Change it with `specs/History`, `specs/Identity`,
//! `specs/Passes`, `specs/Replies` and `specs/Requests`.
ghost use Rattle.std.specs.Prelude.{◌≡◌, true, false, IfOk};
ghost use Rattle.mw_words.specs.declared.jobs.Job.TheVariants.{Get};
ghost use Rattle.mw_actor.specs.ActorState.{ActorState};
ghost use Rattle.mw_core.specs.ReadRounds.{Looks, is_over};
ghost use Rattle.mw_core.specs.FromTable.{IsCarried, IsOfSameWorker, View as Knowledge, known};
ghost use Rattle.mw_engine.specs.History.{IsAnswered, IsSince, ReadOutcome};
ghost use Rattle.mw_engine.specs.Identity.{IsFor};
ghost use Rattle.mw_engine.specs.Passes.{IsPassOf};
ghost use Rattle.mw_engine.specs.Replies.{IsReplyTo};
ghost use Rattle.mw_engine.specs.Requests.{read_of};

use crate::brand::EngineBrand;
use crate::engine::Engine;
use mw_core::{Pass, WhyAgain};
use mw_disk::Disk;
use mw_words::{Job, Reply};
use std::sync::Wait;

impl<J: EngineBrand, D: Disk, H> Engine<J, D, H> {
    /// Makes one round of a read of a tenant's word: its steps up to its reply, or until it is back at its first
    /// step. With the reply the pass is idle, and the read is noted at a place that is right. If the read began
    /// again, the pass still carries it, and the next call for the same word goes on with it.
    ///
    /// # Errors
    ///
    /// [`WhyAgain`] says why the read began again. The read holds nothing then.
    pub fn try_look(&self, pass: &mut Pass, tenant: u8, address: u16) -> Result<Reply, WhyAgain>
        requires own { IsPassOf J.identity pass.old }
        requires formed { IsFor J.identity.lines tenant (Get address) }
        requires goes_on { pass.old.idle ≡ false → IsCarried pass.old (read_of J.identity pass.old tenant address) }
        ensures own { IsPassOf J.identity pass.new }
        ensures worker { IsOfSameWorker pass.old pass.new }
        ensures looks { (next : ActorState) × Looks pass.old pass.new (read_of J.identity pass.old tenant address) next result }
        ensures call { (first : Knowledge) → IsSince pass.old.idle first (known pass.old) (read_of J.identity pass.old tenant address)
            → ReadOutcome result first (known pass.new) (read_of J.identity pass.old tenant address) }
        ensures goes_on { pass.new.idle ≡ false → IsCarried pass.new (read_of J.identity pass.new tenant address) }
        ensures answers { IfOk result (IsReplyTo (Get address)) }
        ensures idle { pass.new.idle ≡ is_over result }
    {
        let mut read = self.request(pass, tenant, Job::Get(address));
        self.words.core.try_look(pass, &mut read)
    }

    /// Reads a tenant's word, round after round until there is a reply. The read is noted at a place that is right,
    /// and no smaller than what the pass had seen when the read came.
    pub fn look(&self, rt: &impl Wait, pass: &mut Pass, tenant: u8, address: u16) -> Reply
        requires own { IsPassOf J.identity pass.old }
        requires formed { IsFor J.identity.lines tenant (Get address) }
        requires goes_on { pass.old.idle ≡ false → IsCarried pass.old (read_of J.identity pass.old tenant address) }
        ensures own { IsPassOf J.identity pass.new }
        ensures worker { IsOfSameWorker pass.old pass.new }
        ensures call { (first : Knowledge) → IsSince pass.old.idle first (known pass.old) (read_of J.identity pass.old tenant address)
            → IsAnswered first (known pass.new) tenant (Get address) result }
        ensures answers { IsReplyTo (Get address) result }
        ensures idle { pass.new.idle ≡ true }
    {
        for _ in rt.forever() {
            if let Ok(reply) = self.try_look(pass, tenant, address) {
                return reply;
            }
        }
        unreachable!()
    }
}

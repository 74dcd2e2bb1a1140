//! Passes, each in a lock of its own.
//!
//! `pass_pool` and `read_pool` choose one of them for each request. Change it with `specs/Borrowed` and
//! `specs/OwnReplies`.
ghost use Rattle.std.specs.Prelude.{◌≡◌, ◌<◌, All, Some, IfOk, vec_len};
ghost use Rattle.mw_engine.specs.Identity.{IsFor};
ghost use Rattle.mw_engine.specs.Notes.{IsNoteOf};
ghost use Rattle.mw_engine.specs.Passes.{IsNew};
ghost use Rattle.mw_report.specs.Table.{AreWithinLimits};
ghost use Rattle.mw_service.specs.Borrowed.{AreCountedWith, IsNoteOfEngine};
ghost use Rattle.mw_service.specs.OwnReplies.{IsAnsweredOwnWith};

use crate::idle_pass::IdlePass;
use crate::request_tokens::{OwnTokens, TokenBrand, TokenTable};
use mw_disk::Disk;
use mw_engine::{Engine, EngineBrand, Hold, Note, Pass};
use mw_report::Figures;
use mw_words::{Job, Reply};
use std::alloc::{AllocError, Global};
use std::marker::{Brand, PhantomData};
use std::sync::{Mutex, Wait};

/// Passes of an engine, each in a lock. A pass stays in its lock while it serves, so each lock always has an idle pass of
/// this engine, however a session ends. They are told apart by numbers: pass 0 is also the one of the number that is
/// their count, and so on.
#[derive(Drop)]
pub(crate) struct LockedPasses<J: EngineBrand, K: TokenBrand> {
    passes: Vec<Mutex<IdlePass<J, K>>>,
    ghost some: { 0 < vec_len passes },
}

impl<J: EngineBrand, K: TokenBrand> LockedPasses<J, K> {
    /// Puts each of these passes into a lock, with the source of its worker's tokens.
    ///
    /// # Errors
    ///
    /// [`AllocError`] if memory is out, or the source of a worker's tokens was given before. The passes are dropped.
    pub(crate) fn new(
        alloc: Global,
        tokens: &TokenTable<K>,
        passes: Vec<Pass>,
    ) -> Result<Self, AllocError>
        requires new { All (IsNew J.identity) passes.items }
        requires some { 0 < vec_len passes }
        ensures { IfOk result (λ made. vec_len made.passes ≡ vec_len passes) }
    {
        let passes = locked(alloc, tokens, passes)?;
        Ok(LockedPasses { passes })
    }

    /// Serves a job of a session that has seen what the note says, with the pass of this number. Gives the reply, a note
    /// of what the session has seen then, and the token of the request. It waits while the pass serves another.
    pub(crate) fn serve<D: Disk + Drop, H: Hold + Drop, R: Wait>(
        &self,
        rt: &R,
        engine: &Engine<J, D, H>,
        tokens: &TokenTable<K>,
        number: usize,
        note: Option<Note>,
        tenant: u8,
        job: &Job,
    ) -> (Reply, Note, OwnTokens<K>)
        requires its { IsNoteOfEngine J.identity note }
        requires formed { IsFor J.identity.lines tenant job.now }
        ensures answered { IsAnsweredOwnWith J.identity note tenant job.now result.0 (Some result.1) result.2.seat.me.0.tokens }
        ensures its { IsNoteOf J.identity result.1 }
    {
        let mut lent = self.of_number(number).lock(rt);
        lent.serve(engine, rt, tokens, note, tenant, job)
    }

    /// Gives the figures for a session that has seen what the note says, with the pass of this number, and a note of what
    /// the session has seen then. It waits while the pass serves another.
    pub(crate) fn figures<D: Disk, H, R: Wait>(
        &self,
        rt: &R,
        engine: &Engine<J, D, H>,
        number: usize,
        note: Option<Note>,
    ) -> (Figures, Note)
        requires its { IsNoteOfEngine J.identity note }
        ensures counted { AreCountedWith J.identity note result.0 (Some result.1) }
        ensures limits { AreWithinLimits result.0.tenants.items result.0.pool_free }
        ensures its { IsNoteOf J.identity result.1 }
    {
        let mut lent = self.of_number(number).lock(rt);
        lent.figures(engine, note)
    }

    /// Gives the lock of the pass of this number.
    fn of_number(&self, number: usize) -> &Mutex<IdlePass<J, K>> {
        let index = number % self.passes.len();
        &self.passes[index]
    }
}

/// Puts each of these passes into a lock, with the source of its worker's tokens.
///
/// # Errors
///
/// [`AllocError`] if memory is out, or the source of a worker's tokens was given before. The passes are dropped.
fn locked<J: EngineBrand, K: TokenBrand>(
    alloc: Global,
    tokens: &TokenTable<K>,
    passes: Vec<Pass>,
) -> Result<Vec<Mutex<IdlePass<J, K>>>, AllocError>
    requires new { All (IsNew J.identity) passes.items }
    ensures { IfOk result (λ made. vec_len made ≡ vec_len passes) }
{
    let mut made = Vec::with_capacity(alloc, passes.len())?;
    for pass in passes {
        let Some(source) = tokens.source::<Brand>(&pass) else {
            return Err(AllocError);
        };
        let idle = IdlePass {
            pass,
            source,
            brand: PhantomData,
        };
        if made.push(Mutex::new(idle)).is_err() {
            return Err(AllocError);
        }
    }
    Ok(made)
}

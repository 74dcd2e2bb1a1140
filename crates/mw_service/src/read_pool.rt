//! A pool of passes with which nothing but reads and reports is done.
//!
//! mw_programs makes it, and `borrower` borrows from it. Change it with `specs/Borrowed` and `specs/OwnReplies`.
ghost use Rattle.std.specs.Prelude.{◌≡◌, ◌<◌, All, Some, IfOk, vec_len};
ghost use Rattle.mw_words.specs.declared.jobs.Job.TheVariants.{Get};
ghost use Rattle.mw_engine.specs.Identity.{IsFor};
ghost use Rattle.mw_engine.specs.Notes.{IsNoteOf};
ghost use Rattle.mw_engine.specs.Passes.{IsNew};
ghost use Rattle.mw_report.specs.Table.{AreWithinLimits};
ghost use Rattle.mw_service.specs.Borrowed.{AreCountedWith, IsNoteOfEngine};
ghost use Rattle.mw_service.specs.OwnReplies.{IsAnsweredOwnWith};

use crate::locked_passes::LockedPasses;
use crate::request_tokens::{OwnTokens, TokenBrand, TokenTable};
use mw_disk::Disk;
use mw_engine::{Engine, EngineBrand, Hold, Note, Pass};
use mw_report::Figures;
use mw_words::{Job, Reply};
use std::alloc::{AllocError, Global};
use std::sync::Wait;

/// Passes for reads and reports. It takes no change, so none of its passes waits for a disk, and a read keeps one for a
/// microsecond or two. So each session has its pass, which it shares with few others, and there are no tickets to wait for.
#[derive(Drop)]
pub struct ReadPool<J: EngineBrand, K: TokenBrand> {
    passes: LockedPasses<J, K>,
}

impl<J: EngineBrand, K: TokenBrand> ReadPool<J, K> {
    /// Makes a pool of these passes, which only read.
    ///
    /// # Errors
    ///
    /// [`AllocError`] if memory is out, or the source of a worker's tokens was given before. The passes are dropped.
    pub fn new(alloc: Global, tokens: &TokenTable<K>, passes: Vec<Pass>) -> Result<Self, AllocError>
        requires new { All (IsNew J.identity) passes.items }
        requires some { 0 < vec_len passes }
        ensures { IfOk result (λ pool. vec_len pool.passes.passes ≡ vec_len passes) }
    {
        let passes = LockedPasses::new(alloc, tokens, passes)?;
        Ok(ReadPool { passes })
    }

    /// Reads a tenant's word for the session of this number, which has seen what the note says. Gives the reply, a note
    /// of what the session has seen then, and the token of the request. It waits while the session's pass serves another.
    pub(crate) fn read<D: Disk + Drop, H: Hold + Drop, R: Wait>(
        &self,
        rt: &R,
        engine: &Engine<J, D, H>,
        tokens: &TokenTable<K>,
        number: usize,
        note: Option<Note>,
        tenant: u8,
        address: u16,
    ) -> (Reply, Note, OwnTokens<K>)
        requires its { IsNoteOfEngine J.identity note }
        requires formed { IsFor J.identity.lines tenant (Get address) }
        ensures answered { IsAnsweredOwnWith J.identity note tenant (Get address) result.0 (Some result.1) result.2.seat.me.0.tokens }
        ensures its { IsNoteOf J.identity result.1 }
    {
        self.passes.serve(rt, engine, tokens, number, note, tenant, &Job::Get(address))
    }

    /// Gives the figures for the session of this number, which has seen what the note says, and a note of what the session
    /// has seen then. It waits while the session's pass serves another.
    pub(crate) fn figures<D: Disk, H, R: Wait>(
        &self,
        rt: &R,
        engine: &Engine<J, D, H>,
        number: usize,
        note: Option<Note>,
    ) -> (Figures, Note)
        requires its { IsNoteOfEngine J.identity note }
        ensures counted { AreCountedWith J.identity note result.0 (Some result.1) }
        ensures limits { AreWithinLimits result.0.tenants.items result.0.pool_free }
        ensures its { IsNoteOf J.identity result.1 }
    {
        self.passes.figures(rt, engine, number, note)
    }
}

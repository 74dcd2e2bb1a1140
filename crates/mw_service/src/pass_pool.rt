//! A pool of passes, from which sessions borrow one for each request.
//!
//! mw_programs makes it; `borrower` borrows from it. Change it with `specs/Borrowed` and `specs/OwnReplies`.
ghost use Rattle.std.specs.Prelude.{◌≡◌, ◌<◌, All, Some, IfOk, vec_len};
ghost use Rattle.mw_engine.specs.Identity.{IsFor};
ghost use Rattle.mw_engine.specs.Notes.{IsNoteOf};
ghost use Rattle.mw_engine.specs.Passes.{IsNew};
ghost use Rattle.mw_report.specs.Table.{AreWithinLimits};
ghost use Rattle.mw_service.specs.Borrowed.{AreCountedWith, IsNoteOfEngine};
ghost use Rattle.mw_service.specs.OwnReplies.{IsAnsweredOwnWith};

use crate::locked_passes::LockedPasses;
use crate::request_tokens::{OwnTokens, TokenBrand, TokenTable};
use crossbeam_channel::{Receiver, Sender};
use mw_disk::Disk;
use mw_engine::{Engine, EngineBrand, Hold, Note, Pass};
use mw_metrics::ServerCounters;
use mw_report::Figures;
use mw_words::{Job, Reply};
use std::alloc::{AllocError, Global};
use std::sync::Wait;

/// Passes of an engine, which sessions borrow. Who has a pass's ticket takes its lock without waiting; while all tickets
/// are out, sessions wait for one. If there are counters, they count the passes that are in use and the waits.
#[derive(Drop)]
pub struct PassPool<'a, J: EngineBrand, K: TokenBrand> {
    passes: LockedPasses<J, K>,
    /// The tickets of the passes that are free: their numbers.
    free: Receiver<usize>,
    /// Where tickets are returned.
    returned: Sender<usize>,
    counters: Option<&'a ServerCounters>,
}

impl<'a, J: EngineBrand, K: TokenBrand> PassPool<'a, J, K> {
    /// Makes a pool of these passes, which these counters count.
    ///
    /// # Errors
    ///
    /// [`AllocError`] if memory is out, or the source of a worker's tokens was given before. The passes are dropped.
    pub fn new<R: Wait>(
        rt: &R,
        alloc: Global,
        tokens: &TokenTable<K>,
        passes: Vec<Pass>,
        counters: Option<&'a ServerCounters>,
    ) -> Result<Self, AllocError>
        requires new { All (IsNew J.identity) passes.items }
        requires some { 0 < vec_len passes }
        ensures { IfOk result (λ pool. vec_len pool.passes.passes ≡ vec_len passes) }
    {
        let count = passes.len();
        let Ok((returned, free)) = crossbeam_channel::bounded(alloc, count) else {
            return Err(AllocError);
        };
        let passes = LockedPasses::new(alloc, tokens, passes)?;
        give_tickets(rt, &returned, count)?;
        Ok(PassPool {
            passes,
            free,
            returned,
            counters,
        })
    }

    /// Serves a job of a session that has seen what the note says, with a pass of this pool. Gives the reply, a note of
    /// what the session has seen then, and the token of the request. It waits until a pass is free.
    pub(crate) fn serve<D: Disk + Drop, H: Hold + Drop, R: Wait>(
        &self,
        rt: &R,
        engine: &Engine<J, D, H>,
        tokens: &TokenTable<K>,
        note: Option<Note>,
        tenant: u8,
        job: &Job,
    ) -> (Reply, Note, OwnTokens<K>)
        requires its { IsNoteOfEngine J.identity note }
        requires formed { IsFor J.identity.lines tenant job.now }
        ensures answered { IsAnsweredOwnWith J.identity note tenant job.now result.0 (Some result.1) result.2.seat.me.0.tokens }
        ensures its { IsNoteOf J.identity result.1 }
    {
        let ticket = self.take(rt);
        let answered = self
            .passes
            .serve(rt, engine, tokens, ticket, note, tenant, job);
        self.give_back(rt, ticket);
        answered
    }

    /// Gives the figures for a session that has seen what the note says, with a pass of this pool, and a note of what the
    /// session has seen then. It waits until a pass is free.
    pub(crate) fn figures<D: Disk, H, R: Wait>(
        &self,
        rt: &R,
        engine: &Engine<J, D, H>,
        note: Option<Note>,
    ) -> (Figures, Note)
        requires its { IsNoteOfEngine J.identity note }
        ensures counted { AreCountedWith J.identity note result.0 (Some result.1) }
        ensures limits { AreWithinLimits result.0.tenants.items result.0.pool_free }
        ensures its { IsNoteOf J.identity result.1 }
    {
        let ticket = self.take(rt);
        let counted = self.passes.figures(rt, engine, ticket, note);
        self.give_back(rt, ticket);
        counted
    }

    /// Takes a ticket, and waits for it if none is there. It is counted as in use from then on.
    fn take<R: Wait>(&self, rt: &R) -> usize {
        let (ticket, waited) = match self.free.try_recv(rt) {
            Ok(ticket) => (ticket, false),
            Err(_) => (self.wait(rt), true),
        };
        if let Some(counters) = self.counters {
            counters.record_pass_taken(waited);
        }
        ticket
    }

    /// Waits for a ticket.
    fn wait<R: Wait>(&self, rt: &R) -> usize {
        // The pool keeps a sender and a receiver, so the channel doesn't end. If it did, all would share the first pass.
        self.free.recv(rt).unwrap_or(0)
    }

    /// Returns a ticket. There is room for each.
    fn give_back<R: Wait>(&self, rt: &R, ticket: usize) {
        if let Some(counters) = self.counters {
            counters.record_pass_left();
        }
        let _ = self.returned.send(rt, ticket);
    }
}

/// Gives a ticket for each of so many passes.
///
/// # Errors
///
/// [`AllocError`] if one couldn't be given.
fn give_tickets<R: Wait>(rt: &R, returned: &Sender<usize>, count: usize) -> Result<(), AllocError> {
    for ticket in 0..count {
        if returned.send(rt, ticket).is_err() {
            return Err(AllocError);
        }
    }
    Ok(())
}

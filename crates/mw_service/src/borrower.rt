//! A session's service that borrows a pass for each request.
//!
//! mw_programs makes one for each client that a server with `--clients` serves at once. `specs/Borrowed` and
//! `specs/OwnReplies` say what it answers: change them together. A new question of a session needs a call here and in `served`.
ghost use Rattle.mw_service.specs.Borrowed.{IsNoteOfEngine};

use crate::pass_pool::PassPool;
use crate::read_pool::ReadPool;
use crate::request_tokens::{OwnTokens, TokenBrand, TokenTable};
use mw_disk::Disk;
use mw_engine::{Engine, EngineBrand, Hold, Note};
use mw_report::Figures;
use mw_session::{FaultWatch, Service};
use mw_words::{Job, Name, Reply};
use std::sync::Wait;

/// Serves a session's requests, each with a pass that it borrows for this request alone. So it holds none while it
/// waits for its client.
#[derive(Drop)]
pub struct Borrower<'a, J: EngineBrand, K: TokenBrand, D: Disk, H, R, T> {
    engine: &'a Engine<J, D, H>,
    tokens: &'a TokenTable<K>,
    /// The passes for reads and reports. None: these take from `passes` too.
    reads: Option<&'a ReadPool<J, K>>,
    /// The passes for changes.
    passes: &'a PassPool<'a, J, K>,
    /// Its number among the sessions, which says which pass it reads with.
    number: usize,
    /// What its sessions have seen. None before the first reply to a job and the first figures.
    note: Option<Note>,
    /// The tokens of the requests that its sessions were answered.
    own: OwnTokens<K>,
    rt: &'a R,
    watch: &'a T,
    ghost its: { IsNoteOfEngine J.identity note },
}

impl<'a, J: EngineBrand, K: TokenBrand, D: Disk, H, R, T> Borrower<'a, J, K, D, H, R, T> {
    /// Makes the service of the session of this number, which borrows from these pools. It tells the watch of each request
    /// that is answered FAULT.
    pub fn new(
        number: usize,
        engine: &'a Engine<J, D, H>,
        tokens: &'a TokenTable<K>,
        reads: Option<&'a ReadPool<J, K>>,
        passes: &'a PassPool<'a, J, K>,
        rt: &'a R,
        watch: &'a T,
    ) -> Self {
        Borrower {
            engine,
            tokens,
            reads,
            passes,
            number,
            note: None,
            own: tokens.none(),
            rt,
            watch,
        }
    }
}

impl<J: EngineBrand, K: TokenBrand, D: Disk + Drop, H: Hold + Drop, R: Wait, T: FaultWatch> Service
    for Borrower<'_, J, K, D, H, R, T> {
    ghost use Rattle.mw_engine.specs.Identity.{HasWords};
    ghost use Rattle.mw_service.specs.OwnReplies.{AnswersOwn};

    ghost answered = { λ old call new. AnswersOwn J.identity (record { note = old.note; tokens = old.own.seat.me.0.tokens }) call (record { note = new.note; tokens = new.own.seat.me.0.tokens }) };

    ghost has_words = { λ _. HasWords J.identity.lines };

    fn find(&self, name: &Name) -> Option<(u8, u16)> {
        self.engine.find(name)
    }

    fn ask(&mut self, tenant: u8, job: &Job) -> Reply {
        let note = self.note.take();
        let (reply, note, token) = match (self.reads, job) {
            (Some(reads), Job::Get(address)) => reads.read(
                self.rt,
                self.engine,
                self.tokens,
                self.number,
                note,
                tenant,
                *address,
            ),
            _ => self
                .passes
                .serve(self.rt, self.engine, self.tokens, note, tenant, job),
        };
        self.note = Some(note);
        self.tokens.add(&mut self.own, token);
        if let Reply::Fault = reply {
            self.watch.fault(tenant);
        }
        reply
    }

    fn figures(&mut self) -> Figures {
        let note = self.note.take();
        let (figures, note) = match self.reads {
            Some(reads) => reads.figures(self.rt, self.engine, self.number, note),
            None => self.passes.figures(self.rt, self.engine, note),
        };
        self.note = Some(note);
        figures
    }
}

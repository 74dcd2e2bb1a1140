//! A service that records what it is asked.
//!
//! Used by: `session_tests`.
use arrayvec::ArrayVec;
use mw_report::Figures;
use mw_session::Service;
use mw_words::{Job, Name, Reply};
use std::alloc::Global;

/// A job that a notebook was asked for.
#[derive(Drop)]
pub struct Note {
    pub tenant: u8,
    pub job: Job,
    pub reply: Reply,
}

/// A service that records the jobs that it is asked for, and answers that it is busy.
#[derive(Drop)]
pub struct Notebook {
    pub notes: Vec<Note>,
    /// Whether every call was recorded.
    pub complete: bool,
}

impl Notebook {
    pub fn new(alloc: Global) -> Self {
        Notebook {
            notes: Vec::new(alloc),
            complete: true,
        }
    }

    /// Tells whether it was asked for the words at these addresses, in order, and for no more.
    pub fn was_asked_for(&self, addresses: &[u16]) -> bool {
        for (at, note) in self.notes.iter().enumerate() {
            let is_right = match (&note.job, addresses.get(at)) {
                (Job::Get(found), Some(address)) => found == address,
                _ => false,
            };
            if !is_right {
                return false;
            }
        }
        self.complete && self.notes.len() == addresses.len()
    }
}

impl Service for Notebook {
    ghost use Rattle.std.specs.Prelude.{map};
    ghost use Rattle.mw_session.specs.Talk.{Asks};
    ghost use Rattle.mw_serving_tests.specs.NotebookCalls.{Notes};
    ghost use Rattle.mw_serving_tests.specs.declared.notebook.Note.{Note as NoteRead};

    ghost answered = { λ old call new. Notes
        old.complete (map (λ (n : NoteRead). Asks n.tenant n.job n.reply) old.notes.items) call
        new.complete (map (λ (n : NoteRead). Asks n.tenant n.job n.reply) new.notes.items) };

    ghost has_words = { λ _ _ _. Unit {0} };

    fn find(&self, _: &Name) -> Option<(u8, u16)> {
        Some((0, 2))
    }

    fn ask(&mut self, tenant: u8, job: &Job) -> Reply {
        let note = Note {
            tenant,
            job: job.copy(),
            reply: Reply::Busy,
        };
        if self.notes.push(note).is_err() {
            self.complete = false;
        }
        Reply::Busy
    }

    #[tactic(auto, using(crate::proofs::Figured::none_within))]
    fn figures(&mut self) -> Figures {
        self.complete = false;
        Figures {
            tenants: ArrayVec::new(),
            pool_free: 0,
        }
    }
}

//! The trait of a service: what a session asks of the server (to find a tenant, to serve a job, to report).
//!
//! Used by: many crates from mw_connections on. mw_service implements it (`served.rt`, `borrower.rt`), mw_server (`metered.rt`),
//! and so do five services of tests. A new call needs a body in each, and a `Call` in `specs/Talk`.
ghost use Rattle.std.specs.Prelude.{ℕ, IfSome, IsTrue};
ghost use Rattle.mw_words.specs.Change.{is_well_formed};
ghost use Rattle.mw_report.specs.Table.{AreWithinLimits};
ghost use Rattle.mw_session.specs.Talk.{Call, Finds, Asks, Counts};

use mw_report::Figures;
use mw_words::{Job, Name, Reply};

/// The server, as a session sees it. A session calls it; a program implements it.
pub trait Service {
    // A call with its answer leads from one state of the service to another: what the service promises of its
    // answers.
    ghost answered: { Self → Call → Self → Type 0 };

    // The tenant of this number has so many words.
    ghost has_words: { Self → ℕ → ℕ → Type 0 };

    /// Finds the tenant with this name: its number, and how many words it has, at most [`mw_words::MAX_WORDS`].
    fn find(&self, name: &Name) -> Option<(u8, u16)>
        ensures answered { answered self.now (Finds name.now.items result) self.now }
        ensures words { IfSome result (λ r. has_words self.now r.0 r.1) };

    /// Answers a tenant's job, which is well formed for the tenant's words.
    fn ask(&mut self, tenant: u8, job: &Job) -> Reply
        requires { (words : ℕ) × has_words self.old tenant words × IsTrue (is_well_formed words job.now) }
        ensures answered { answered self.old (Asks tenant job.now result) self.new }
        ensures words { (number words : ℕ) → has_words self.old number words → has_words self.new number words };

    /// Gives the figures of all tenants, within the limits of a report.
    fn figures(&mut self) -> Figures
        ensures limits { AreWithinLimits result.tenants.items result.pool_free }
        ensures answered { answered self.old (Counts result) self.new }
        ensures words { (number words : ℕ) → has_words self.old number words → has_words self.new number words };
}

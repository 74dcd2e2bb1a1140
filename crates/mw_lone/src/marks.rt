//! Defines the marks: the events that may happen to a store alone, such as a request, its reply, or a restart.
//!
//! mw_world's labels enter them into a tenant's history, and mw_plain's cases name them. mw_table, mw_world_memory,
//! mw_simulator and mw_world_trials have lists of them. CONTRIBUTING lists under *A mark* what a new one needs.

use mw_words::Job;

/// An event of one tenant's history: how far a request has come, what the tenant's own file did, or which quota a
/// start gave. It says nothing of other tenants. No mark tells a word's present value, a slot or a worker.
///
/// `n` is a request's number within its tenant. Requests are numbered in the order of the asking, from 0. The
/// numbers go on when all stops and starts again.
#[derive(Drop)]
pub enum Mark {
    /// Request `n` comes, with its job.
    Ask(u64, Job),
    /// A change is admitted: it uses one of the tenant's slots.
    Admit(u64),
    /// A change finds the quota used up.
    Busy(u64),
    /// A read of a word takes place.
    Look(u64),
    /// A change is refused at the entry with this index, counted from 0: its word doesn't have the expected value.
    Miss(u64, u8),
    /// A change takes place, durably.
    Seal(u64),
    /// The file failed while a change was made durable. The next start may find the change.
    SealFail(u64),
    /// The file failed in another call, which leaves no change in doubt.
    FileFail,
    /// A request is answered that the file has failed.
    GiveUp(u64),
    /// A change that has its reply gives its slot back.
    Retire(u64),
    /// A reply is handed out.
    Reply(u64),
    /// All stops and starts again.
    Restart {
        /// The change that was being made durable when all stopped.
        interrupted: Option<u64>,
        /// Whether the start finds the change in doubt: the interrupted one, else the one that a failed file left
        /// in doubt.
        take: bool,
        /// Whether the file opened.
        opened: bool,
        /// How many slots the tenant may use at a time from then on, 1 to `MAX_QUOTA`. No other mark changes that.
        quota: u8,
    },
}

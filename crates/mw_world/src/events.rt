//! The events of a world: a request comes, a worker makes a step or a call on a file, a reply is handed out, a
//! restart.
//!
//! Used by: mw_simulator, mw_schedule, mw_world_trials, mwreplay, tests. `specs/Definition/Events` has the same
//! events for proofs: a new kind needs a case there, in `specs/Definition/World`, and in `World::step` of
//! mw_simulator.

use crate::outcomes::Outcome;
use mw_words::Job;

/// A call on a file that was interrupted: it never came to its end.
#[derive(Clone, Copy, PartialEq, Eq)]
pub struct Interrupted {
    /// The worker whose next step is the call.
    pub worker: u8,
    /// How many of the call's device calls were made before the stop.
    pub made: u64,
}

/// How one tenant's file is stopped and opened again at a restart, and the tenant's quota from then on.
#[derive(Drop)]
pub struct Stop {
    /// The tenant's number.
    pub tenant: u8,
    /// The call on the file that was under way, if one was.
    pub interrupted: Option<Interrupted>,
    /// The bytes that the stop leaves in place of bytes that were written and not synced, in rising order of
    /// offset. If they are too few, the rest has the bytes that a read gives. Bytes too many are ignored.
    pub torn: Vec<u8>,
    /// The device call of the opening that fails, counted from 1. `None`: none fails.
    pub fails_at: Option<u64>,
    /// How many slots the tenant may use at a time from then on: 1 to `MAX_QUOTA`, and at most the number of
    /// places that its file has once it is open. `None`: as many as before.
    pub quota: Option<u8>,
}

/// An event of a world. An event that can't happen in the present state is refused.
#[derive(Drop)]
pub enum Event {
    /// An idle worker begins a request. The fields: the worker, the tenant that asks, and the job, which is
    /// well formed for that tenant.
    Come(u8, u8, Job),
    /// A worker makes the next step of its request. That step isn't a call on a file.
    Step(u8),
    /// A worker makes the next step of its request, which is a call on its tenant's file. The device does as
    /// told.
    File(u8, Outcome),
    /// A worker hands out the reply to its request, and is idle afterwards.
    Hand(u8),
    /// The whole server stops and starts again. If a tenant isn't named, it had no call under way and no torn
    /// bytes, its file opens, and its quota stays. No tenant is named twice. The quotas of all tenants together
    /// are at most the pool.
    Restart(Vec<Stop>),
}

//! Ghost types of what a thread knows of the world: its view. Proofs use them; the program makes no value of them.
//!
//! Used by: `rule`, mw_table. `specs/Rule` says when a view is true: change it with a field.

use crate::file_token::FileToken;
use mw_actor::Actor;
use mw_look::{Got, Op};
use mw_words::{Entry, Job, Reply, Status};
use mw_world::Config;
use std::collections::LinkedList;
use std::marker::Model;

/// One thing that a worker did, as its token keeps it.
pub enum WorkerEvent {
    /// A request came to the worker.
    Came,
    /// Its request made a step, which was no call on a file.
    Stepped,
    /// Its request's call on a file was made.
    Called,
    /// Its request's reply was handed out.
    Handed,
}

/// A step of a request, and what the step found.
pub struct Finding {
    /// The step.
    pub op: Op,
    /// What the step found.
    pub got: Got,
}

/// The capability to make one worker's steps, and what its owner knows of that worker. One thread has it at a time.
pub struct WorkerToken {
    /// The worker.
    pub worker: u8,
    /// The worker's request and how far it has come. `None`: the worker has no request.
    pub actor: Option<Actor>,
    /// The number of the worker's next attempt.
    pub attempt: u64,
    /// What the worker did since the table was made, in order.
    pub made: LinkedList<WorkerEvent>,
    /// The number of the worker's latest request, among the requests of its tenant.
    pub request: u64,
    /// At least so many of the tenant's changes were sealed when the request came. It is 0 if the request came before
    /// the table was made.
    pub begun: u64,
    /// What the request's steps found, in order. If the request came before the table was made, the steps before that
    /// are missing.
    pub found: LinkedList<Finding>,
    /// Whether the request came after the table was made, so that `found` has all its steps.
    pub is_whole: bool,
}

/// What a start gave one tenant.
pub struct KnownStart {
    /// The tenant's quota: how many slots it may use at a time.
    pub quota: u8,
    /// How many places for changes its file has.
    pub places: u8,
    /// Its words at that start.
    pub words: LinkedList<u64>,
    /// Whether its file opened.
    pub is_up: bool,
}

impl Model for KnownStart {
    ghost use Rattle.mw_world.specs.Definition.State.{TenantStart};

    ghost Value = { TenantStart };

    ghost view = { λ o. record { quota = o.quota; places = o.places; words = o.words; is_up = o.is_up } };
}

/// A sealed change of a tenant.
pub struct Sealed {
    /// The number of the request that made it.
    pub request: u64,
    /// Its entries.
    pub entries: LinkedList<Entry>,
}

impl Model for Sealed {
    ghost use Rattle.mw_rule.specs.FromLaws.{SealedChange};

    ghost Value = { SealedChange };

    ghost view = { λ s. record { request = s.request; entries = s.entries } };
}

/// A request that has its reply, and where in the history of its tenant the reply is right.
pub struct Finished {
    /// The worker that worked on it.
    pub worker: u8,
    /// The tenant that asked.
    pub tenant: u8,
    /// The request's number, among the requests of its tenant.
    pub request: u64,
    /// What the tenant asked for.
    pub job: Job,
    /// The reply.
    pub reply: Reply,
    /// The position of the reply: the reply is right after so many of the tenant's sealed changes. For YES, the
    /// change with this index, from 0, is the request's own. BUSY, FAULT and WORN rest on no word: for them the
    /// position says nothing. If no step is missing, their evidence is in `found` or, for WORN, in `attempt`.
    pub place: u64,
    /// What its steps found, in order, from its worker's token.
    pub found: LinkedList<Finding>,
    /// Whether `found` has all its steps.
    pub is_whole: bool,
    /// The number of its worker's next attempt, when the reply was there.
    pub attempt: u64,
}

/// The status that a request found for its call on a file. The call starts from this status and is under way.
pub struct FoundStatus {
    /// The worker whose request it is.
    pub worker: u8,
    /// The status.
    pub status: Status,
}

/// The capability to make the calls on one tenant's file, and what its owner knows of the file. One thread has it at
/// a time.
pub struct HeldFile {
    /// The file token: what is known of the file.
    pub file: FileToken,
    /// The status that was found for the call under way. `None`: no call is under way.
    pub found: Option<FoundStatus>,
}

/// A load that was no step of a request.
pub struct PlainLoad {
    /// The index of the loaded word in the table.
    pub index: usize,
    /// The bits that it found.
    pub bits: u64,
}

/// The table's run of the world, as far as a thread knows it: what its first start gave, the events before the table
/// was made, and the events since. It doesn't tell which device call failed in a call on a file.
pub struct KnownRun;

impl Model for KnownRun {
    ghost use Rattle.mw_rule.specs.KnownRuns as known_runs;

    ghost Value = { known_runs.KnownRun };

    ghost view = { λ c. known_runs.no_known_run };
}

/// All that a thread knows. It stays true, whatever other threads do.
pub struct View {
    /// What the world is made of.
    pub config: Config,
    /// What the latest start gave each tenant, in the order of the tenants.
    pub openings: LinkedList<KnownStart>,
    /// The tokens of the workers whose steps this thread may make.
    pub tokens: LinkedList<WorkerToken>,
    /// For each tenant, a prefix of the changes that were sealed since the latest start, in order: those that this
    /// thread has seen.
    pub seen: LinkedList<LinkedList<Sealed>>,
    /// The same, as another thread told it.
    pub told: LinkedList<LinkedList<Sealed>>,
    /// The table's run at the latest step or load of this thread, or of a thread that it met. Before any of these, it
    /// is the run when the table was made, as the table's maker told it. `None`: no run was told.
    pub known_run: Option<KnownRun>,
    /// The same, as another thread told it, or as it was known with a file that this thread took.
    pub learned_run: Option<KnownRun>,
    /// The requests that this thread's workers finished, in order, each with a position among the changes in `seen`.
    /// If the thread took over another thread's knowledge, its own requests come first.
    pub mine: LinkedList<Finished>,
    /// The files on which this thread may make calls.
    pub files: LinkedList<HeldFile>,
    /// The loads of this thread that were no steps of a request, in order. Each such load adds itself; nothing else
    /// adds any. When a thread's knowledge is split, both parts keep the list. A thread that merges another keeps its
    /// own list.
    pub plain_loads: LinkedList<PlainLoad>,
    /// Whether all this was given to another thread. What is left says nothing.
    pub is_spent: bool,
}

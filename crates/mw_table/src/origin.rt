//! What a table is made of: what the files gave at a start, or a run from a new world.
//!
//! Used by: `new_table`, `shared`, `at_start`, `after_run`; mw_core, which passes on [`FileOpening`]; mw_table_tests.
//! Change it with `specs/Origins`.
ghost use Rattle.mw_table.specs.Origins.{begun_of, config_of, first_of};

use crate::run_before::RunBefore;
use mw_actor::Actor;
use mw_lone::Mark;
use mw_rule::Begins;
use mw_world::Config;
use std::snapshot::Snapshot;

/// What a tenant's file gave when it was opened at a start.
#[derive(Drop)]
pub struct FileOpening {
    /// The tenant's quota: how many slots it may use at a time.
    pub quota: u8,
    /// How many places for changes the file has, at least the quota. If the file didn't open, that isn't known; then
    /// the quota itself will do.
    pub places: u8,
    /// The tenant's words. `None`: the file didn't open.
    pub words: Option<Vec<u64>>,
}

/// A tenant after a run: what says of its last start all that a table needs.
#[derive(Drop)]
pub struct TenantSoFar {
    /// The tenant's quota: how many slots it may use at a time.
    pub quota: u8,
    /// How many places for changes its file has. If no start has opened it, how many it has when one does.
    pub places: u16,
    /// Its marks up to and including the last start.
    pub closed: Vec<Mark>,
}

/// A worker after a run.
#[derive(Drop)]
pub struct WorkerSoFar {
    /// Its request. `None`: it has none.
    pub actor: Option<Actor>,
    /// The request's number, among the requests of its tenant.
    pub request: u64,
    /// The number of its next attempt to hold a word.
    pub attempt: u64,
    /// The place that it reserved last among its tenant's marks.
    pub kept: usize,
    /// The request whose slot it freed last.
    pub retiring: u64,
}

/// What a table was made of. Contracts name it; a running table keeps nothing of it.
#[derive(Drop)]
pub enum Origin {
    /// A start: what the world is made of, and what each tenant's file gave.
    Start(Snapshot<Config>, Snapshot<Vec<FileOpening>>),
    /// A run from a new world: what the world is made of, its tenants and workers after the run, and the run.
    Run(
        Snapshot<Config>,
        Snapshot<Vec<TenantSoFar>>,
        Snapshot<Vec<WorkerSoFar>>,
        Snapshot<RunBefore>,
    ),
}

impl Begins for Origin {
    ghost config = { config_of };

    ghost begun = { begun_of };

    ghost first = { first_of };
}

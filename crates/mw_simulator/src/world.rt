//! A simulated world: a server's tenants, workers and files as one value in memory.
//!
//! Used by: mwreplay, mw_table_tests, mw_world_trials. `specs/Representation` says which world of the definition it
//! represents: change it with a field.
ghost use Rattle.std.specs.Prelude.{◌≡◌, length};
ghost use Rattle.mw_world.specs.Definition.State.{IsConfig};
ghost use Rattle.mw_world_memory.specs.BitPlaces.{HasPlacesOf};
ghost use Rattle.mw_world_memory.specs.TenantBooks.{AreSound};

use mw_world::Config;
use mw_world_memory::{Cells, ClaimLog, TenantState, WorkerState};
use std::alloc::Global;

mod calls;
mod events;
mod halts;
mod new_worlds;
mod restarts;
mod stopped_calls;
mod turns;

/// A server with its tenants, workers and files, as one value. Events change it one at a time. Two worlds are
/// in the same state if they have the same configuration, the same events happened to both, and each start
/// found the same of their files.
#[derive(Drop)]
pub struct World {
    pub(crate) alloc: Global,
    pub(crate) config: Config,
    pub(crate) cells: Cells,
    pub(crate) worker_states: Vec<WorkerState>,
    pub(crate) tenant_states: Vec<TenantState>,
    pub(crate) claims: ClaimLog,
    ghost configured: { IsConfig config },
    ghost workers: { length worker_states.items ≡ config.workers },
    ghost tenants: { length tenant_states.items ≡ length config.tenants.items },
    ghost places: { HasPlacesOf config cells },
    ghost books: { AreSound config tenant_states.items },
}

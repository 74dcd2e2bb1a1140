//! Copies the tenants and the workers of a simulated world, for a table.
//!
//! Used by: `of_world`. Change it with `specs/Worlds`.
ghost use Rattle.std.specs.Prelude.{◌≡◌, IfOk, map};
ghost use Rattle.mw_simulator.specs.FromMemory.{worker_state_of};
ghost use Rattle.mw_table.specs.Runs.{last_start, worker_state_so_far};
ghost use Rattle.mw_table_tests.specs.Worlds.{actor_of, last_start_of};

use mw_actor::Actor;
use mw_simulator::{TenantState, WorkerState};
use mw_table::{TenantSoFar, WorkerSoFar};
use std::alloc::{AllocError, Global};

/// Copies what a table needs of the tenants: their quotas and places, and their marks up to and including the
/// last start. The only error is that memory is out.
pub(crate) fn tenants_of(
    alloc: Global,
    tenant_states: &[TenantState],
) -> Result<Vec<TenantSoFar>, AllocError>
    ensures { IfOk result (λ tenants. map last_start tenants.items ≡ map last_start_of tenant_states.now) }
{
    let mut tenants = Vec::with_capacity(alloc, tenant_states.len())?;
    for tenant_state in tenant_states {
        tenants.push(TenantSoFar {
            quota: tenant_state.quota,
            places: tenant_state.book.file_places(),
            closed: tenant_state.lines.closed(alloc)?,
        })?;
    }
    Ok(tenants)
}

/// Copies the workers. The only error is that memory is out.
pub(crate) fn workers_of(
    alloc: Global,
    worker_states: &[WorkerState],
) -> Result<Vec<WorkerSoFar>, AllocError>
    ensures { IfOk result (λ workers. map worker_state_so_far workers.items ≡ map worker_state_of worker_states.now) }
{
    let mut workers = Vec::with_capacity(alloc, worker_states.len())?;
    for worker_state in worker_states {
        workers.push(worker_of(worker_state))?;
    }
    Ok(workers)
}

/// Copies a worker.
fn worker_of(worker_state: &WorkerState) -> WorkerSoFar
    ensures { worker_state_so_far result ≡ worker_state_of worker_state.now }
{
    WorkerSoFar {
        actor: copy(&worker_state.actor),
        request: worker_state.request,
        attempt: worker_state.attempt,
        kept: worker_state.kept,
        retiring: worker_state.retiring,
    }
}

/// Copies the workers' requests. The only error is that memory is out.
pub(crate) fn actors_of(
    alloc: Global,
    worker_states: &[WorkerState],
) -> Result<Vec<Option<Actor>>, AllocError>
    ensures { IfOk result (λ actors. actors.items ≡ map actor_of worker_states.now) }
{
    let mut actors = Vec::with_capacity(alloc, worker_states.len())?;
    for worker_state in worker_states {
        actors.push(copy(&worker_state.actor))?;
    }
    Ok(actors)
}

/// Copies a request.
fn copy(actor: &Option<Actor>) -> Option<Actor>
    ensures { result ≡ actor.now }
{
    match actor {
        Some(actor) => Some(actor.copy()),
        None => None,
    }
}

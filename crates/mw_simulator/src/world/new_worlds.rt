//! Makes a new world: no worker has a request, and each file is new or an old one.
//!
//! mwreplay and tests begin with `World::new`. `restarts.rt` uses the rest. Change it with `specs/Invariant`,
//! `specs/Events`, `specs/ServiceAlone` and `specs/Starts`.
ghost use Rattle.std.specs.Prelude.{◌≡◌, ℕ, ◌≤◌, [], All, Bool, IfOk, IsTrue, List, length};
ghost use Rattle.mw_world.specs.Definition.State as spec;
ghost use Rattle.mw_world.specs.Definition.State.{IsConfig, may_be_old};
ghost use Rattle.mw_world.specs.Files.FirstPlaces.{first_places};
ghost use Rattle.mw_world_file.specs.Books.{Represents as ShowsFile, places_of_file, quota_of};
ghost use Rattle.mw_world_memory.specs.BitPlaces.{HasPlacesOf};
ghost use Rattle.mw_simulator.specs.Invariant.{Holds};
ghost use Rattle.mw_simulator.specs.Events.{IsAfterRun};
ghost use Rattle.mw_simulator.specs.ServiceAlone.{Serves};
ghost use Rattle.mw_simulator.specs.Starts.{AreFresh, AreGiven, AreIdle, AreTenants, HaveWords, IsFresh, fresh};
ghost use Rattle.mw_world_memory.specs.BitsMatch.{BitsMatch};

use crate::world::World;
use mw_words::{MAX_QUOTA, MAX_WORDS};
use mw_world::{Config, Tenant};
use mw_world_file::SimulatedFile;
use mw_world_memory::{Cells, ClaimLog, Lines, TenantState, WorkerState};
use std::alloc::{AllocError, Global};

impl World {
    /// Makes a new world of this configuration, in which no worker has a request. Each tenant's file is open
    /// and has zeros, with places for twice the tenant's quota, or `MAX_PLACES` if that is fewer. If the
    /// configuration names a change for the tenant, the file is an old one instead: no start has opened it yet,
    /// and the record of that change is open in it. The only error is that memory is out.
    pub fn new(alloc: Global, config: Config) -> Result<World, AllocError>
        requires { IsConfig config }
        ensures config { IfOk result (λ world. world.config ≡ config) }
        ensures stands { IfOk result (λ world. IsAfterRun world []) }
        ensures holds { IfOk result Holds }
        ensures serves { IfOk result Serves }
    {
        let tenant_states = fresh_tenant_states(alloc, &config.tenants)?;
        let cells = first_cells(alloc, &config, &tenant_states)?;
        let worker_states = idle_worker_states(alloc, config.workers)?;
        Ok(World {
            alloc,
            config,
            cells,
            worker_states,
            tenant_states,
            claims: ClaimLog::new(alloc),
        })
    }
}

/// Makes the tenants of a new world.
fn fresh_tenant_states(alloc: Global, tenants: &[Tenant]) -> Result<Vec<TenantState>, AllocError>
    requires words { All (λ tenant. (1 ≤ tenant.words) × (tenant.words ≤ MAX_WORDS)) tenants.now }
    requires quotas { All (λ tenant. (1 ≤ tenant.quota) × (tenant.quota ≤ MAX_QUOTA)) tenants.now }
    requires old { All (λ tenant. IsTrue (may_be_old tenant.words tenant.quota tenant.old)) tenants.now }
    ensures { IfOk result (λ tenant_states. AreFresh tenants.now tenant_states.items) }
{
    let mut tenant_states = Vec::with_capacity(alloc, tenants.len())?;
    for tenant in tenants {
        tenant_states.push(fresh_tenant_state(alloc, tenant)?)?;
    }
    Ok(tenant_states)
}

/// Makes a tenant of a new world.
fn fresh_tenant_state(alloc: Global, tenant: &Tenant) -> Result<TenantState, AllocError>
    requires words { (1 ≤ tenant.now.words) × (tenant.now.words ≤ MAX_WORDS) }
    requires quota { (1 ≤ tenant.now.quota) × (tenant.now.quota ≤ MAX_QUOTA) }
    requires old { IsTrue (may_be_old tenant.now.words tenant.now.quota tenant.now.old) }
    ensures { IfOk result (IsFresh tenant.now) }
{
    Ok(TenantState {
        book: first_book(alloc, tenant)?,
        quota: tenant.quota,
        lines: Lines::new(alloc),
        asked: 0,
    })
}

/// Makes the book of a tenant's first file.
fn first_book(alloc: Global, tenant: &Tenant) -> Result<SimulatedFile, AllocError>
    requires words { (1 ≤ tenant.now.words) × (tenant.now.words ≤ MAX_WORDS) }
    requires quota { (1 ≤ tenant.now.quota) × (tenant.now.quota ≤ MAX_QUOTA) }
    requires old { IsTrue (may_be_old tenant.now.words tenant.now.quota tenant.now.old) }
    ensures shows { IfOk result (λ book. ShowsFile book (fresh tenant.now).file) }
    ensures places { IfOk result (λ book. quota_of book ≡ tenant.now.quota) }
    ensures has { IfOk result (λ book. places_of_file book ≡ first_places tenant.now.quota) }
    ensures words { IfOk result (λ book. length book.contents.items ≡ tenant.now.words) }
{
    match &tenant.old {
        None => SimulatedFile::new(alloc, tenant.words, tenant.quota),
        Some(change) => SimulatedFile::unopened(alloc, tenant.words, tenant.quota, change),
    }
}

/// Makes workers that have no requests.
pub(crate) fn idle_worker_states(alloc: Global, workers: u8) -> Result<Vec<WorkerState>, AllocError>
    ensures { IfOk result (λ worker_states. AreIdle workers worker_states.items) }
{
    let mut worker_states = Vec::with_capacity(alloc, usize::from(workers))?;
    for _ in 0..workers {
        worker_states.push(WorkerState::idle())?;
    }
    Ok(worker_states)
}

/// Makes the shared words at a start, from the tenants' files. A tenant has the words of its file. If the file
/// has failed, its words are zeros and its door has the fault.
pub(crate) fn first_cells(
    alloc: Global,
    config: &Config,
    tenant_states: &[TenantState],
) -> Result<Cells, AllocError>
    requires config { IsConfig config.now }
    requires tenant_states { AreTenants config.now tenant_states.now }
    ensures places { IfOk result (HasPlacesOf config.now) }
    ensures tie { IfOk result (λ cells. (words : ℕ → List ℕ) (is_up : ℕ → Bool) → HaveWords tenant_states.now words is_up → BitsMatch cells (spec.first_cells config.now words is_up)) }
{
    let openings = openings(alloc, tenant_states)?;
    Cells::new(alloc, config, &openings)
}

/// Makes the opening that each tenant's file gives.
fn openings(
    alloc: Global,
    tenant_states: &[TenantState],
) -> Result<Vec<Option<Vec<u64>>>, AllocError>
    ensures { IfOk result (λ openings. AreGiven tenant_states.now openings.items) }
{
    let mut openings = Vec::with_capacity(alloc, tenant_states.len())?;
    for tenant_state in tenant_states {
        openings.push(tenant_state.book.opening(alloc)?)?;
    }
    Ok(openings)
}

//! Makes a restart: all stops, and starts again.
//!
//! `World::step` calls it for an event that is a restart (`events.rt`). Change it with `specs/Quotas`, `specs/Events`,
//! `specs/Representation`, `specs/Stops` and `specs/UnchangedParts`.
ghost use Rattle.std.specs.Prelude.{◌≡◌, ◌≤◌, ◌&&◌, true, IfOk, OnErr, Some, None, MatchOption, length, nat_le, slice_get};
ghost use Rattle.std.specs.List.{list_any};
ghost use Rattle.mw_lone.specs.Store.{is_quota};
ghost use Rattle.mw_world_file.specs.Books.{places_of_file};
ghost use Rattle.mw_world_file.specs.SoundBooks.{HasSound};
ghost use Rattle.mw_world.specs.Definition.State.{State, each_fits, may_be_quotas, places_of, quotas_together, tenant_at};
ghost use Rattle.mw_simulator.specs.Quotas.{HaveRoom, places_in, quota_after, quotas_in};
ghost use Rattle.mw_simulator.specs.Events as spec;
ghost use Rattle.mw_simulator.specs.Events.{Restarts};
ghost use Rattle.mw_simulator.specs.Representation.{Represents};
ghost use Rattle.mw_simulator.specs.UnchangedParts.{IsUnchanged};
ghost use Rattle.mw_simulator.specs.Stops.{AllFollow, AllReopen, EachHasRoom, Follows, Reopens, SameBooksIn};
ghost use Rattle.mw_world_memory.specs.Lines.{OneHasRoom};
ghost use Rattle.mw_world_memory.specs.TenantBooks.{AreSound};

use crate::faults::WorldFault;
use crate::world::World;
use crate::world::new_worlds::{first_cells, idle_worker_states};
use mw_lone::Mark;
use mw_words::{MAX_QUOTA, MAX_TENANTS};
use mw_world::{Interrupted, Stop};
use mw_world_file::BookFault;
use mw_world_memory::TenantState;

impl World {
    /// Stops all, and starts again.
    pub(crate) fn restart(&mut self, stops: &[Stop]) -> Result<(), WorldFault>
        ensures config { self.new.config ≡ self.old.config }
        ensures unchanged { OnErr result (IsUnchanged self.old self.new) }
        ensures ends { (state : State) → Represents self.old state → Restarts self.old self.new state stops.now result }
    {
        if !are_named(self.tenant_states.len(), stops) {
            return Err(WorldFault::NotEnabled);
        }
        if !self.may_give(stops) {
            return Err(WorldFault::NotEnabled);
        }
        let mut tenant_states = match self.all_reopened(stops) {
            Ok(tenant_states) => tenant_states,
            Err(fault) => return Err(WorldFault::from(fault)),
        };
        let Ok(cells) = first_cells(self.alloc, &self.config, &tenant_states) else {
            return Err(WorldFault::Memory);
        };
        let Ok(worker_states) = idle_worker_states(self.alloc, self.config.workers) else {
            return Err(WorldFault::Memory);
        };
        follow(&mut self.tenant_states, &mut tenant_states);
        self.tenant_states = tenant_states;
        self.cells = cells;
        self.worker_states = worker_states;
        self.claims.clear();
        Ok(())
    }

    /// Whether the start can give the quotas that the stops say: each is 1 to `MAX_QUOTA` and at most the
    /// places of the tenant's file, and together they are at most the pool.
    fn may_give(&self, stops: &[Stop]) -> bool
        ensures room { result ≡ true → HaveRoom self.now.tenant_states.items stops.now }
        ensures shown { (state : State) → Represents self.now state
            → result ≡ may_be_quotas self.now.config (spec.quotas_told state stops.now) (places_of state) }
    {
        if !each_can_be(&self.tenant_states, stops) {
            return false;
        }
        all_together(&self.tenant_states, stops) <= self.config.pool
    }

    /// Makes the tenants after the start, whose quotas fit their files. Each has only its marks since the last
    /// start; it must still take over those before.
    fn all_reopened(&self, stops: &[Stop]) -> Result<Vec<TenantState>, BookFault>
        requires room { HaveRoom self.now.tenant_states.items stops.now }
        ensures reopen { AllReopen self.now stops.now result }
        ensures sound { IfOk result (λ tenant_states. AreSound self.now.config tenant_states.items) }
        ensures lines { IfOk result (λ tenant_states. EachHasRoom self.now.tenant_states.items tenant_states.items) }
    {
        let Ok(mut tenant_states) = Vec::with_capacity(self.alloc, self.tenant_states.len()) else {
            return Err(BookFault::Memory);
        };
        for (tenant, tenant_state) in self.tenant_states.iter().enumerate() {
            match self.stopped(tenant, tenant_state, stops) {
                Ok(reopened) => {
                    let Ok(()) = tenant_states.push(reopened) else {
                        return Err(BookFault::Memory);
                    };
                }
                Err(fault) => return Err(fault),
            }
        }
        Ok(tenant_states)
    }

    /// Makes a tenant after the start, with only its marks since the last one.
    fn stopped(
        &self,
        tenant: usize,
        tenant_state: &TenantState,
        stops: &[Stop],
    ) -> Result<TenantState, BookFault>
        requires there { slice_get self.now.tenant_states.items tenant ≡ Some tenant_state.now }
        requires room { quota_after (spec.outage_of stops.now tenant).quota tenant_state.now ≤ places_of_file tenant_state.now.book }
        ensures sound { IfOk result (λ new. HasSound (tenant_at self.now.config tenant).words new.book) }
        ensures lines { IfOk result (λ new. OneHasRoom tenant_state.now.lines new.lines) }
        ensures reopens { (state : State) → Represents self.now state
            → Reopens self.now state tenant tenant_state.now (spec.outage_of stops.now tenant) result }
    {
        match stop_of(stops, tenant) {
            Some(stop) => self.reopened(
                tenant,
                tenant_state,
                stop.interrupted,
                &stop.torn,
                stop.fails_at,
                stop.quota,
            ),
            None => self.reopened(tenant, tenant_state, None, &[], None, None),
        }
    }

    /// Makes a tenant after the start. `interrupted` is the call on its file that was under way. `torn` are the
    /// bytes at places that were written and not synced. `fails_at` is the device call of the opening that
    /// fails. `told` is the quota that its stop says. The tenant has only its marks since the last start.
    fn reopened(
        &self,
        tenant: usize,
        tenant_state: &TenantState,
        interrupted: Option<Interrupted>,
        torn: &[u8],
        fails_at: Option<u64>,
        told: Option<u8>,
    ) -> Result<TenantState, BookFault>
        requires there { slice_get self.now.tenant_states.items tenant ≡ Some tenant_state.now }
        requires room { quota_after told tenant_state.now ≤ places_of_file tenant_state.now.book }
        ensures sound { IfOk result (λ new. HasSound (tenant_at self.now.config tenant).words new.book) }
        ensures lines { IfOk result (λ new. OneHasRoom tenant_state.now.lines new.lines) }
        ensures reopens { (state : State) → Represents self.now state → Reopens self.now state tenant tenant_state.now (record { interrupted = interrupted; torn = torn.now; fails_at = fails_at; quota = told }) result }
    {
        let Some(halt) = self.halt(tenant, tenant_state, interrupted) else {
            return Err(BookFault::NotEnabled);
        };
        let quota = quota_of(tenant_state, told);
        let (book, take) = match tenant_state
            .book
            .restart(self.alloc, halt.cut, torn, fails_at, quota)
        {
            Ok(restarted) => restarted,
            Err(fault) => return Err(fault),
        };
        let mark = Mark::Restart {
            interrupted: halt.sealing,
            take,
            opened: fails_at.is_none(),
            quota,
        };
        let Ok(lines) = tenant_state.lines.since(self.alloc, mark) else {
            return Err(BookFault::Memory);
        };
        Ok(TenantState {
            book,
            quota,
            lines,
            asked: tenant_state.asked,
        })
    }
}

/// Moves the marks up to and including the last start from each old tenant to the new one.
fn follow(before: &mut Vec<TenantState>, tenant_states: &mut Vec<TenantState>)
    requires count { length tenant_states.old.items ≡ length before.old.items }
    requires lines { EachHasRoom before.old.items tenant_states.old.items }
    ensures count { length tenant_states.new.items ≡ length tenant_states.old.items }
    ensures books { SameBooksIn tenant_states.old.items tenant_states.new.items }
    ensures follow { AllFollow before.old.items tenant_states.old.items tenant_states.new.items }
{
    for tenant in 0..tenant_states.len() {
        take_over(&mut before[tenant], &mut tenant_states[tenant]);
    }
}

/// Moves the marks up to and including the last start from the old tenant to the new one.
fn take_over(before: &mut TenantState, tenant_state: &mut TenantState)
    requires { OneHasRoom before.old.lines tenant_state.old.lines }
    ensures { Follows before.old tenant_state.old tenant_state.new }
{
    tenant_state.lines.follow(&mut before.lines);
}

/// Whether each tenant's quota after the start is 1 to `MAX_QUOTA`, and at most the places of its file.
fn each_can_be(tenant_states: &[TenantState], stops: &[Stop]) -> bool
    ensures { result ≡ each_fits (quotas_in tenant_states.now stops.now) (places_in tenant_states.now) (length tenant_states.now) }
{
    for (tenant, tenant_state) in tenant_states.iter().enumerate() {
        if !can_be(tenant_state, quota_told(tenant_state, stops, tenant)) {
            return false;
        }
    }
    true
}

/// Whether a tenant can have this quota: it is 1 to `MAX_QUOTA`, and at most the places of its file.
fn can_be(tenant_state: &TenantState, quota: u8) -> bool
    ensures { result ≡ (is_quota quota && nat_le quota (places_of_file tenant_state.now.book)) }
{
    if quota == 0 || quota > MAX_QUOTA {
        return false;
    }
    u16::from(quota) <= tenant_state.book.file_places()
}

/// Returns the sum of all tenants' quotas after the start.
fn all_together(tenant_states: &[TenantState], stops: &[Stop]) -> u16
    requires { length tenant_states.now ≤ MAX_TENANTS }
    ensures { result ≡ quotas_together (quotas_in tenant_states.now stops.now) (length tenant_states.now) }
{
    let mut together: u16 = 0;
    for (tenant, tenant_state) in tenant_states.iter().enumerate() {
        together += u16::from(quota_told(tenant_state, stops, tenant));
    }
    together
}

/// Returns a tenant's quota after the start.
fn quota_told(tenant_state: &TenantState, stops: &[Stop], tenant: usize) -> u8
    ensures { result ≡ quota_after (spec.outage_of stops.now tenant).quota tenant_state.now }
{
    match stop_of(stops, tenant) {
        Some(stop) => quota_of(tenant_state, stop.quota),
        None => tenant_state.quota,
    }
}

/// Returns a tenant's quota after the start: `told`, if there is one, else the one before.
fn quota_of(tenant_state: &TenantState, told: Option<u8>) -> u8
    ensures { result ≡ quota_after told tenant_state.now }
{
    match told {
        Some(quota) => quota,
        None => tenant_state.quota,
    }
}

/// Whether each stop is of a tenant below `tenants`, and no two are of one tenant.
fn are_named(tenants: usize, stops: &[Stop]) -> bool
    ensures { result ≡ spec.are_named tenants stops.now }
{
    for (index, stop) in stops.iter().enumerate() {
        if usize::from(stop.tenant) >= tenants || is_named(&stops[index + 1..], stop.tenant) {
            return false;
        }
    }
    true
}

/// Whether one of the stops is of this tenant.
fn is_named(stops: &[Stop], tenant: u8) -> bool
    ensures { result ≡ list_any (spec.is_of tenant) stops.now }
{
    stops.iter().any(|stop| stop.tenant == tenant)
}

/// Returns the stop of a tenant, if there is one.
fn stop_of(stops: &[Stop], tenant: usize) -> Option<&Stop>
    ensures { MatchOption result (spec.stop_of stops.now tenant ≡ None) (λ stop. spec.stop_of stops.now tenant ≡ Some stop.now) }
{
    for stop in stops {
        if usize::from(stop.tenant) == tenant {
            return Some(stop);
        }
    }
    None
}

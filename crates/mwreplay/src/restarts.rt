//! Tells which part of a restart can't be.
//!
//! Used by: `reasons`. It decides the text of a reason alone. `specs/RestartReasons` says when each reason comes: change
//! both together.
ghost use Rattle.std.specs.Prelude.{◌≡◌};
ghost use Rattle.mw_world.specs.Definition.State.{State};
ghost use Rattle.mw_simulator.specs.Events.{outage_of};
ghost use Rattle.mw_simulator.specs.Quotas.{places_in, quotas_in};
ghost use Rattle.mw_simulator.specs.Representation.{Represents};
ghost use Rattle.mwreplay.specs.RestartReasons as spec;

use crate::reasons::{Position, Reason, position_of};
use mw_schedule::StepKind;
use mw_simulator::World;
use mw_words::MAX_QUOTA;
use mw_world::{Interrupted, Stop};

/// Gives the reason why a restart with these stops can't be, if it can't. Quotas come first, then the workers at calls
/// that were under way, in the order of the items, and then the numbers of device calls.
pub fn restart_reason(world: &World, stops: &[Stop]) -> Reason
    ensures { (state : State) → Represents world.now state → result ≡ spec.restart_reason world.now state stops.now }
{
    if let Some(reason) = quota_reason(world, stops) {
        return reason;
    }
    if sum_after(world, stops) > world.config().pool {
        return Reason::Pool;
    }
    match call_reason(world, stops) {
        Some(reason) => reason,
        None => Reason::FewCalls,
    }
}

// Gives the reason for the first item that gives a quota which its tenant may not have.
fn quota_reason(world: &World, stops: &[Stop]) -> Option<Reason>
    ensures { result ≡ spec.quota_reason world.now 1 stops.now }
{
    for (index, stop) in stops.iter().enumerate() {
        if !may_have(world, stop.tenant, stop.quota) {
            return Some(Reason::Quota(index + 1));
        }
    }
    None
}

// Tells whether a quota, if one is given, is 1 to `MAX_QUOTA`, and at most the places of the tenant's file.
fn may_have(world: &World, tenant: u8, given: Option<u8>) -> bool
    ensures { result ≡ spec.may_have world.now tenant given }
{
    let Some(quota) = given else {
        return true;
    };
    if quota == 0 || quota > MAX_QUOTA {
        return false;
    }
    u16::from(quota) <= places_of(world, tenant)
}

// Gives how many places a tenant's file has; 0 for a tenant that isn't there.
fn places_of(world: &World, tenant: u8) -> u16
    ensures { result ≡ places_in world.now.tenant_states.items tenant }
{
    match world.tenant_states().get(usize::from(tenant)) {
        Some(tenant_state) => tenant_state.book.file_places(),
        None => 0,
    }
}

// Gives the sum of all tenants' quotas after a start with these stops.
fn sum_after(world: &World, stops: &[Stop]) -> u16
    ensures { result ≡ spec.sum_after world.now stops.now }
{
    let mut together: u16 = 0;
    for tenant in 0..world.config().tenants.len() {
        together += u16::from(quota_after(world, stops, tenant));
    }
    together
}

// Gives a tenant's quota after a start with these stops; 0 for a tenant that isn't there.
fn quota_after(world: &World, stops: &[Stop], tenant: usize) -> u8
    ensures { result ≡ quotas_in world.now.tenant_states.items stops.now tenant }
{
    match world.tenant_states().get(tenant) {
        Some(tenant_state) => quota_told(stops, tenant).unwrap_or(tenant_state.quota),
        None => 0,
    }
}

// Gives the quota that these stops tell for a tenant, if one does.
fn quota_told(stops: &[Stop], tenant: usize) -> Option<u8>
    ensures { result ≡ (outage_of stops.now tenant).quota }
{
    for stop in stops {
        if usize::from(stop.tenant) == tenant {
            return stop.quota;
        }
    }
    None
}

// Gives the reason for the first item whose worker is not at a call on the tenant's file.
fn call_reason(world: &World, stops: &[Stop]) -> Option<Reason>
    ensures { (state : State) → Represents world.now state → result ≡ spec.call_reason world.now.config state 1 stops.now }
{
    for (index, stop) in stops.iter().enumerate() {
        if let Some(reason) = item_reason(world, index + 1, stop.tenant, stop.interrupted) {
            return Some(reason);
        }
    }
    None
}

// Gives the reason for an item whose worker is not at a call on the tenant's file.
fn item_reason(
    world: &World,
    item: usize,
    tenant: u8,
    interrupted: Option<Interrupted>,
) -> Option<Reason>
    ensures { (state : State) → Represents world.now state → result ≡ spec.item_reason world.now.config state item tenant interrupted }
{
    let Some(Interrupted { worker, .. }) = interrupted else {
        return None;
    };
    if !is_at_call(position_of(world, worker)) {
        return Some(Reason::NoCall(item, worker));
    }
    if serves(world, worker, tenant) {
        return None;
    }
    Some(Reason::OtherFile(item, worker))
}

// Tells whether a worker there is at a call on the file.
fn is_at_call(position: Position) -> bool
    ensures { result ≡ spec.is_at_call position }
{
    matches!(position, Position::At(StepKind::File(_)))
}

// Tells whether a worker has a request of a tenant.
fn serves(world: &World, worker: u8, tenant: u8) -> bool
    ensures { (state : State) → Represents world.now state → result ≡ spec.serves tenant (state.worker_states worker).actor }
{
    if worker >= world.config().workers {
        return false;
    }
    match world.actor(worker) {
        Some(actor) => actor.tenant() == tenant,
        None => false,
    }
}

//! Tells which calls on the tenants' files may have been under way when all stopped.
//!
//! Used by: `restarts.rt`. Change it with `specs/CallEnds`, `specs/Representation` and `specs/Stops`.
ghost use Rattle.std.specs.Prelude.{◌≡◌, ◌≤◌, IfSome, Some, None, length, slice_get};
ghost use Rattle.mw_world_file.specs.Recovery.{PreparesChange};
ghost use Rattle.mw_world.specs.Definition.State.{State};
ghost use Rattle.mw_simulator.specs.CallEnds.{called_of};
ghost use Rattle.mw_simulator.specs.Representation.{Represents};
ghost use Rattle.mw_simulator.specs.Stops as spec;

use crate::world::World;
use crate::world::calls::{Called, called_at, entries_of, is_formed};
use crate::world::halts::StoppedCall;
use mw_actor::Actor;
use mw_look::Call;
use mw_world::{Interrupted, starts_from};
use mw_world_file::Cut;
use mw_world_memory::TenantState;

impl World {
    /// Returns what was under way on a tenant's file. `None`: it can't have been interrupted so.
    pub(crate) fn halt(
        &self,
        tenant: usize,
        tenant_state: &TenantState,
        interrupted: Option<Interrupted>,
    ) -> Option<StoppedCall>
        requires { slice_get self.now.tenant_states.items tenant ≡ Some tenant_state.now }
        ensures formed { IfSome result (λ halt. PreparesChange (length tenant_state.now.book.contents.items) halt.cut) }
        ensures shown { (state : State) → Represents self.now state → spec.Halts self.now.config state tenant interrupted result }
    {
        let Some(interrupted) = interrupted else {
            return Some(at_rest());
        };
        let Some(actor) = self.actor_of(interrupted.worker) else {
            return None;
        };
        let Some(called) = called_at(actor.point()) else {
            return None;
        };
        if usize::from(actor.tenant()) != tenant {
            return None;
        }
        if interrupted.made == 0 {
            return Some(at_rest());
        }
        self.cut(tenant_state, &actor, called, interrupted.made)
    }

    /// Returns what was under way after a request's call had made `made` device calls, at least one. `None`:
    /// the call makes fewer.
    fn cut(
        &self,
        tenant_state: &TenantState,
        actor: &Actor,
        called: Called,
        made: u64,
    ) -> Option<StoppedCall>
        requires some { 1 ≤ made }
        requires there { slice_get self.now.tenant_states.items actor.now.tenant ≡ Some tenant_state.now }
        ensures formed { IfSome result (λ halt. PreparesChange (length tenant_state.now.book.contents.items) halt.cut) }
        ensures shown { (state : State) → Represents self.now state → spec.Cuts self.now.config state actor.now (called_of called) made result }
    {
        let Some(status) = self.status(called.change.slot) else {
            return None;
        };
        if !starts_from(called.call, status) {
            return None;
        }
        let entries = entries_of(actor.job());
        if !is_formed(called.call, tenant_state.book.words(), &entries) {
            return None;
        }
        Some(StoppedCall {
            cut: Some(Cut {
                call: called.call,
                slot: called.change.slot,
                entries,
                made,
            }),
            sealing: sealed_request(called.call, self.claims.request(called.change)),
        })
    }
}

/// Makes the halt at which no call was under way.
fn at_rest() -> StoppedCall
    ensures cut { result.cut ≡ None }
    ensures sealing { result.sealing ≡ None }
{
    StoppedCall {
        cut: None,
        sealing: None,
    }
}

/// Returns the request whose change was being sealed, if the call is a seal.
fn sealed_request(call: Call, request: u64) -> Option<u64>
    ensures { result ≡ spec.sealed_request call request }
{
    match call {
        Call::Seal => Some(request),
        Call::Prepare | Call::Settle | Call::Cancel => None,
    }
}

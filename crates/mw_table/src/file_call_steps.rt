//! Makes the two steps of a call on a tenant's file: the load of its change's status, and the step on a shared word
//! with which the call ends. Between the two the caller makes its device calls, of which a table knows nothing: the
//! caller says by which step the call ends.
//!
//! Used by: mw_core (`file_calls.rt`). Change it with `specs/FileCalls`, `specs/Meet` and `specs/Passes`.
ghost use Rattle.std.specs.Prelude.{◌≡◌};
ghost use Rattle.mw_table.specs.FileCalls.{EndsInFault, EndsWell, FindsStatus, AddsCallEvent, AddsFaultEvent, AddsLoadEvent, MayExchange, MayFault, MayFind};
ghost use Rattle.mw_table.specs.Meet.{IsSamePass};
ghost use Rattle.mw_table.specs.Passes.{IsOf, known};

use crate::shared::{Pass, Shared};
use atomic_table::Play;
use mw_actor::Actor;
use mw_look::Call;
use mw_rule::{View, index_of};
use mw_words::{At, Status};
use mw_world::status_after;

/// The bit of a door that says that its tenant's file has failed.
const FAULT: u64 = 1 << 63;

/// What a thread learns from the load of a status: whether the call starts from it.
pub struct LoadsStatus;

impl Play<Actor, View> for LoadsStatus {
    ghost then = { λ step me found next. FindsStatus found me.0 next.0 × AddsLoadEvent found me.0 next.0 };
}

/// What a thread learns from the exchange of a status: the call went well.
pub struct EndsCall;

impl Play<Actor, View> for EndsCall {
    ghost then = { λ step me found next. EndsWell me.0 next.0 × AddsCallEvent me.0 next.0 };
}

/// What a thread learns from the fault at a door: the call failed.
pub struct SetsFault;

impl Play<Actor, View> for SetsFault {
    ghost then = { λ step me found next. EndsInFault me.0 next.0 × AddsFaultEvent me.0 next.0 };
}

impl Shared {
    /// Loads the status of a slot's change, for the pass's request, which is at a call on its file for that change.
    /// Returns the status's bits. If the call doesn't start from that status, this load is the whole call, which does
    /// nothing: it extends a run of the world by this call, and the caller must tell the request that the call went
    /// well. Else nothing has happened yet, and the call can be made if the file hasn't failed.
    pub fn find_status(&self, pass: &mut Pass, slot: u8) -> u64
        requires own { IsOf self.now pass.old }
        requires may { MayFind pass.old slot }
        ensures own { IsOf self.now pass.new }
        ensures same { IsSamePass pass.old pass.new }
        ensures found { FindsStatus result (known pass.old) (known pass.new) }
        ensures event { AddsLoadEvent result (known pass.old) (known pass.new) }
    {
        self.table
            .shared
            .load::<LoadsStatus>(&mut pass.seat, index_of(self.pool, At::Status(slot)))
    }

    /// Ends the pass's call as one that went well; the caller says that its device calls did. It exchanges the status
    /// of the change, which was found before, for the one after the call. The exchange wins, because only this call
    /// may change that status. It extends a run of the world by this call. The caller must tell the request that the
    /// call went well.
    pub fn end_call(&self, pass: &mut Pass, call: Call, slot: u8, status: Status)
        requires own { IsOf self.now pass.old }
        requires may { MayExchange pass.old call slot status }
        ensures own { IsOf self.now pass.new }
        ensures same { IsSamePass pass.old pass.new }
        ensures went { EndsWell (known pass.old) (known pass.new) }
        ensures event { AddsCallEvent (known pass.old) (known pass.new) }
    {
        let from = status.pack();
        let to = status_after(call, status).pack();
        self.table.shared.compare_exchange::<EndsCall>(
            &mut pass.seat,
            index_of(self.pool, At::Status(slot)),
            from,
            to,
        );
    }

    /// Ends the pass's call as one that failed: one of its device calls failed, or the file had failed before. It
    /// sets the fault at the tenant's door. It extends a run of the world by this call, with whichever failed device
    /// call the caller names, or with none if the file had failed before. The caller must tell the request that the
    /// call failed.
    pub fn fault(&self, pass: &mut Pass, tenant: u8)
        requires own { IsOf self.now pass.old }
        requires may { MayFault pass.old tenant }
        ensures own { IsOf self.now pass.new }
        ensures same { IsSamePass pass.old pass.new }
        ensures went { EndsInFault (known pass.old) (known pass.new) }
        ensures event { AddsFaultEvent (known pass.old) (known pass.new) }
    {
        self.table.shared.fetch_or::<SetsFault>(
            &mut pass.seat,
            index_of(self.pool, At::Door(tenant)),
            FAULT,
        );
    }
}

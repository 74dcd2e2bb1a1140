//! Checks what must hold of each slot, and of each tenant's share of the slots, at every moment.
//!
//! Used by: `clauses`, which says what each group is, and what may change here.

use crate::larger::clauses::Group;
use crate::larger::pins::{frees, pins_held};
use crate::larger::seen::Seen;
use mw_actor::{Point, Slot};
use mw_look::Point as ReadPoint;
use mw_words::{Gate, Status};

/// Tells whether a group holds of all slots.
pub(super) fn slots_hold(seen: &Seen, group: Group) -> bool {
    let mut slot: u8 = 0;
    for written in &seen.slots {
        let gate = written.gate;
        let seq = gate.seq;
        let holds = match (group, seen.past.find(Slot { slot, seq })) {
            (Group::Claims, change) => !gate.taken || change.is_some(),
            (_, Some(change)) => counts_pins(seen, slot, gate, change.stays),
            (_, None) => counts_pins(seen, slot, gate, false),
        };
        if !holds {
            return false;
        }
        slot = slot.saturating_add(1);
    }
    true
}

/// Tells whether a gate counts the pins that requests hold and the one that was left behind, and one request will
/// free the slot if it is taken and has no pin.
fn counts_pins(seen: &Seen, slot: u8, gate: Gate, is_left: bool) -> bool {
    let mut pins = u16::from(is_left);
    let mut freeing: u16 = 0;
    for worker_state in &seen.worker_states {
        if let Some(actor) = &worker_state.actor {
            let point = actor.point();
            pins = pins.saturating_add(pins_held(slot, &point));
            freeing = freeing.saturating_add(u16::from(frees(slot, &point)));
        }
    }
    gate.pins == pins && freeing == u16::from(gate.taken && gate.pins == 0)
}

/// Tells whether a group holds of all tenants' shares.
pub(super) fn shares_hold(seen: &Seen, group: Group) -> bool {
    let mut tenant: u8 = 0;
    for share in &seen.shares {
        let (taken, placed) = slots_of(seen, tenant);
        let holds = match (group, seen.doors.get(usize::from(tenant))) {
            (Group::Places, _) => placed <= u16::from(share.quota),
            (_, Some(door)) => {
                let used = taken.saturating_add(waiting(seen, tenant));
                door.used == used && used <= u16::from(share.quota)
            }
            (_, None) => false,
        };
        if !holds {
            return false;
        }
        tenant = tenant.saturating_add(1);
    }
    true
}

/// Gives how many slots are taken for a tenant, and how many of these have a change that is in the tenant's file.
fn slots_of(seen: &Seen, tenant: u8) -> (u16, u16) {
    let mut taken: u16 = 0;
    let mut placed: u16 = 0;
    for change in &seen.past.changes {
        if change.tenant == tenant && seen.is_taken(change.slot) {
            taken = taken.saturating_add(1);
            placed = match change.fate {
                Status::Draft | Status::DoneYes | Status::DoneNo { .. } => placed,
                _ => placed.saturating_add(1),
            };
        }
    }
    (taken, placed)
}

/// Gives how many requests of a tenant wait, or will lower its door: for these the door counts a slot that they have
/// not taken, or have freed.
fn waiting(seen: &Seen, tenant: u8) -> u16 {
    let mut waiting: u16 = 0;
    for worker_state in &seen.worker_states {
        if let Some(actor) = &worker_state.actor {
            let waits = match actor.point() {
                Point::Read(look) => matches!(look.point(), ReadPoint::LowerDoor(_)),
                Point::ScanGate { .. } | Point::Claim { .. } | Point::LowerDoor(_) => true,
                _ => false,
            };
            if actor.tenant() == tenant && waits {
                waiting = waiting.saturating_add(1);
            }
        }
    }
    waiting
}

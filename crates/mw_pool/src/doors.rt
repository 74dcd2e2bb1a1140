//! Tells whether a tenant's door admits one change more: it does, or the answer is BUSY or FAULT.
//!
//! Used by: mw_actor. Change it with `specs/Moves`.
ghost use Rattle.std.specs.Prelude.{◌≡◌};
ghost use Rattle.mw_pool.specs.Moves.{Says, after_admit};

use mw_words::Door;

/// The answer of a tenant's door to one change more.
#[derive(Clone, Copy, PartialEq, Eq)]
pub enum Admission {
    /// The tenant's file has failed.
    Fault,
    /// The tenant uses all slots of its quota.
    Busy,
    /// The change may have a slot. The door is the one that counts it.
    To(Door),
}

/// Returns what this door says to one change more of a tenant with this quota of slots.
pub fn admit(door: Door, quota: u8) -> Admission
    ensures is { result ≡ after_admit door quota }
    ensures says { Says door quota result }
{
    if door.fault {
        Admission::Fault
    } else if door.used < u16::from(quota) {
        Admission::To(Door {
            used: door.used + 1,
            ..door
        })
    } else {
        Admission::Busy
    }
}

//! A tenant's door (its admission counter), in 64 bits: how many slots the tenant uses, and whether its file has
//! failed.
//!
//! Used by: many crates from mw_pool on. Another pattern of bits needs a change in `specs/Patterns`, and in the
//! crates that have one of its bits as a number: mw_rule (`ways.rt`) and mw_table (`file_call_steps.rt`). No file has
//! these bits.
ghost use Rattle.std.specs.Prelude.{◌≡◌, ◌≢◌, IfSome, None};
ghost use Rattle.mw_words.specs.declared.doors.Door.{Door as DoorModel};
ghost use Rattle.mw_words.specs.Patterns.{IsDoorInRange, IsDoorOf, packed_door, unpacked_door};

/// The bit of the fault.
const FAULT: u32 = 63;

/// The door of a tenant.
#[derive(Clone, Copy, PartialEq, Eq)]
pub struct Door {
    /// Whether the tenant's file has failed.
    pub fault: bool,
    /// How many slots the tenant uses.
    pub used: u16,
}

impl Door {
    /// Returns the door's 64 bits.
    pub fn pack(self) -> u64
        ensures { result ≡ packed_door self }
    {
        (u64::from(self.fault) << FAULT) + u64::from(self.used)
    }

    /// Returns the door with these bits. `None`: no door has them, because a bit between the fault and the
    /// slots in use isn't 0.
    pub fn unpack(bits: u64) -> Option<Door>
        ensures is { result ≡ unpacked_door bits }
        ensures some { IfSome result (IsDoorOf bits) }
        ensures none { result ≡ None → (door : DoorModel) → IsDoorInRange door → packed_door door ≢ bits }
    {
        let used = bits % (1 << FAULT);
        if used <= u64::from(u16::MAX) {
            Some(Door {
                fault: bits >> FAULT == 1,
                used: used as u16,
            })
        } else {
            None
        }
    }
}

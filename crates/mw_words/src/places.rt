//! Names each place of 64 bits that workers share: a tenant's door or word, a worker's row, a slot's gate, status or
//! change.
//!
//! Used by: many crates from mw_look on. A new place needs its values in `specs/Places` of mw_look, its index in the
//! table (`index_of` of mw_rule), and a case in mw_look (`observations.rt`), mw_table (`places.rt`, `at_start.rt`),
//! mw_world_memory (`cells.rt`) and mwreplay (`player.rt`).

/// The place of a shared word: its owner, and which of the owner's words it is.
#[derive(Clone, Copy, PartialEq, Eq)]
pub enum At {
    /// The door of a tenant.
    Door(u8),
    /// The gate of a slot.
    Gate(u8),
    /// The row of a worker.
    Row(u8),
    /// A word of a tenant.
    Data {
        /// The tenant.
        tenant: u8,
        /// The word's address.
        address: u16,
    },
    /// The status of a slot.
    Status(u8),
    /// The number of entries of a slot's change.
    Count(u8),
    /// The address of an entry of a slot's change.
    Addr {
        /// The slot.
        slot: u8,
        /// The entry's index.
        entry: u8,
    },
    /// The value that an entry of a slot's change expects.
    Expected {
        /// The slot.
        slot: u8,
        /// The entry's index.
        entry: u8,
    },
    /// The value that an entry of a slot's change writes.
    New {
        /// The slot.
        slot: u8,
        /// The entry's index.
        entry: u8,
    },
}

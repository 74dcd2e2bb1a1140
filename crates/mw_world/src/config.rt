//! The configuration of a world: its workers, its tenants and its pool of slots.
//!
//! Used by: many crates from mw_rule on. `IsConfig`, in `specs/Definition/State`, says which are valid. A new field
//! needs a clause there, and a value wherever a `Config` is made.

use arrayvec::ArrayVec;
use mw_words::{Entries, MAX_TENANTS, Name};

/// A tenant of a world.
#[derive(Default, Drop)]
pub struct Tenant {
    /// Its name.
    pub name: Name,
    /// How many words it has, 1 to `MAX_WORDS`.
    pub words: u16,
    /// How many slots it may use at a time, 1 to `MAX_QUOTA`. A later start may give it another quota. Its file
    /// has twice as many places for changes, and at most `MAX_PLACES`. An old file has half of that until a
    /// start opens it.
    pub quota: u8,
    /// The change whose record is open in its first file, if that file has the first layout and no start has
    /// opened it yet. The change has 1 to `OLD_ENTRIES` entries, and nothing looks at their expected values.
    /// The quota is then at most `OLD_PLACES`. `None`: the file is new and open.
    pub old: Option<Entries>,
}

/// The configuration of a world. In a new world each tenant has the quota that its [`Tenant`] tells, and its
/// first file. The quotas together are at most `pool`, here and after each start.
#[derive(Drop)]
pub struct Config {
    /// How many slots there are, 1 to `MAX_POOL`.
    pub pool: u16,
    /// How many workers there are, 1 to `MAX_WORKERS`.
    pub workers: u8,
    /// The number under which each slot is used first. It is below `WORN_NUMBER`.
    pub seq: u64,
    /// The tenants, at least one. A tenant's number is its index, from 0.
    pub tenants: ArrayVec<Tenant, MAX_TENANTS>,
}

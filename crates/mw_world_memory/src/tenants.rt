//! The tenants of a world in memory, each with its marks, its file and its quota.
//!
//! Used by: mw_simulator. `specs/Representation` there says which tenant it represents: change it with a field.

use crate::lines::Lines;
use mw_world_file::SimulatedFile;

/// A tenant, without its words and its door, which are shared words.
#[derive(Drop)]
pub struct TenantState {
    /// Its file.
    pub book: SimulatedFile,
    /// How many slots it may use at a time, as the last start gave it.
    pub quota: u8,
    /// Its marks.
    pub lines: Lines,
    /// The number of its next request.
    pub asked: u64,
}

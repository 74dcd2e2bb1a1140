//! The figures of an administrator's report: those of each tenant, and how many slots of the pool are free.
//!
//! Used by: many crates from mw_metrics on. A new figure needs a column in `specs/Table` and `table.rt`, its value in
//! mw_engine and mw_plain, and its reader in mw_client and in each language of clients/.

use arrayvec::ArrayVec;
use mw_words::{MAX_TENANTS, Name};

/// The figures of one tenant.
#[derive(Default, PartialEq, Eq, Drop)]
pub struct TenantFigures {
    /// The tenant's name.
    pub name: Name,
    /// How many words it has, at most [`mw_words::MAX_WORDS`].
    pub words: u16,
    /// How many slots it may use at a time, at most [`mw_words::MAX_QUOTA`].
    pub quota: u8,
    /// How many record places its file has, at most [`mw_words::MAX_PLACES`]; 0 if its file didn't open, or doesn't
    /// fit its line.
    pub places: u8,
    /// How many slots it uses, at most [`mw_words::MAX_QUOTA`].
    pub used: u8,
    /// Whether its file takes changes: it has opened, and hasn't failed since.
    pub up: bool,
}

/// The figures of all tenants, in their order, and of the pool.
#[derive(PartialEq, Eq, Drop)]
pub struct Figures {
    /// The figures of each tenant.
    pub tenants: ArrayVec<TenantFigures, MAX_TENANTS>,
    /// How many slots of the pool are free, at most [`mw_words::MAX_POOL`].
    pub pool_free: u16,
}

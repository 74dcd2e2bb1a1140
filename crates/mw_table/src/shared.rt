//! The table of shared words, and the passes with which threads make steps on it.
//!
//! The methods of `Shared` are in `at_start`, `after_run`, `new_table` (making a table), `first_steps`, `next_step`,
//! `steps`, `steps_by_kind` (steps), `file_calls`, `file_call_steps` (calls on a file), `meet` and `notes`; those of
//! `Pass` in `passes`.
//!
//! Used by: nearly all modules of this crate, mw_table_tests; mw_core passes both types on. Change it with
//! `specs/Numbers`, `specs/Origins` and `specs/Idleness`.
ghost use Rattle.std.specs.Prelude.{◌≡◌, true, [], ◌∷◌};
ghost use Rattle.mw_world.specs.Definition.State.{IsConfig};
ghost use Rattle.mw_rule.specs.Layout.{words_of};
ghost use Rattle.mw_table.specs.Numbers.{numbers};
ghost use Rattle.mw_table.specs.Origins.{config_of};
ghost use Rattle.mw_table.specs.Idleness.{IsIdle};

use crate::origin::Origin;
use atomic_table::{Seat, Table};
use mw_actor::Actor;
use mw_rule::{View, WorldRule};
use std::alloc::Global;

/// The shared words: a door for each tenant, a row for each worker, the words of each slot, and the tenants' words.
/// Threads share it by reference.
#[derive(Drop)]
pub struct Shared {
    pub(crate) table: Table<Actor, View, Origin, WorldRule, Global>,
    pub(crate) pool: u16,
    ghost pool_is: { pool ≡ (config_of table.shared.key).pool },
    ghost made: { IsConfig (config_of table.shared.key) },
    ghost long: { table.shared.table_id.words ≡ words_of (config_of table.shared.key) },
}

/// The capability to make one worker's steps, with what its thread knows. It can't be copied, and a table gives one
/// for each worker, so no two threads make steps of one worker. If it is dropped, nobody makes that worker's steps
/// any more.
#[derive(Drop)]
pub struct Pass {
    pub(crate) seat: Seat<Actor, View>,
    pub(crate) worker: u8,
    pub(crate) attempt: u64,
    pub(crate) idle: bool,
    ghost numbered: { numbers seat.me.0 ≡ (worker, attempt) ∷ [] },
    ghost rests: { idle ≡ true → IsIdle seat.me.0 },
}

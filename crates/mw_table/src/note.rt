//! A note of what a pass has seen. It lasts while others use the pass.
//!
//! Used by: `notes`, which makes and reads notes; mw_core, which passes the type on to mw_engine. Its ghost field
//! says that a note has no token: change it with `notes`.
ghost use Rattle.std.specs.Prelude.{◌≡◌, []};
ghost use Rattle.mw_rule.specs.Splits.{note};

use atomic_table::Seat;
use mw_actor::Actor;
use mw_rule::View;

/// What a pass had seen when the note was made. Whoever has it can make no step by it.
#[derive(Drop)]
pub struct Note {
    pub(crate) seat: Seat<Actor, View>,
    ghost bare: { seat.me ≡ (note seat.me.0, []) },
}

//! The run before a table, as contracts read it. At run time it takes no memory.
//!
//! Used by: `origin`, `after_run`, mw_table_tests, which gives the run to a world in memory.
ghost use Rattle.std.specs.Prelude.{◌≡◌, List, []};
ghost use Rattle.std.specs.Borrow.{ftrue};
ghost use Rattle.mw_world.specs.Definition.Events.{WorldEvent};

use std::marker::Model;

/// The events of a run from a new world, in order: those that happened before a table was made.
#[derive(Drop)]
pub struct RunBefore {
    pub ghost events: { List WorldEvent },
}

impl Model for RunBefore {
    ghost also_owns = { λ _. ftrue };
}

impl RunBefore {
    /// Returns the run to a new world: nothing has happened.
    pub fn none() -> RunBefore
        ensures { result.events ≡ [] }
    {
        RunBefore {}
    }
}

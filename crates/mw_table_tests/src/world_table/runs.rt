//! Gives the run that led to a simulated world, for a table.
//!
//! Used by: the tests of mw_table_tests, which give it to `of_world`.
ghost use Rattle.std.specs.Prelude.{List};
ghost use Rattle.mw_world.specs.Definition.Events.{WorldEvent};
ghost use Rattle.mw_simulator.specs.Events.{IsAfterRun};

use mw_simulator::World;
use mw_table::RunBefore;

/// Returns a run from a new world that led to this world. There must be one. Only contracts read it: at run time it
/// takes no memory, and nothing is computed.
pub(crate) fn run_before(_world: &World) -> RunBefore
    requires { (before : List WorldEvent) × IsAfterRun _world.now before }
    ensures { IsAfterRun _world.now result.events }
{
    RunBefore {}
}

//! Makes a table (array of shared words) of a simulated world, so that threads go on from it.
//!
//! Used by: the tests of mw_table_tests. Change it with `specs/Worlds`.
ghost use Rattle.std.specs.Prelude.{◌≡◌, All, IfOk, length};
ghost use Rattle.mw_world.specs.Definition.State.{State};
ghost use Rattle.mw_simulator.specs.Events.{IsAfterRun};
ghost use Rattle.mw_simulator.specs.Representation.{Represents};
ghost use Rattle.mw_table.specs.NewPasses.{AreActors, AreInOrder, IsDealt};
ghost use Rattle.mw_table.specs.Origins.{basis_of};
ghost use Rattle.mw_table_tests.specs.Worlds.{basis_of_world};

use crate::world_table::copies::{actors_of, tenants_of, workers_of};
use crate::world_table::words::words_of;
use mw_actor::Actor;
use mw_simulator::World;
use mw_table::{Pass, RunBefore, Shared};
use std::alloc::{AllocError, Global};

/// Makes the table of [`of_world`] and its passes. The only error is that memory is out.
fn table_of(
    alloc: Global,
    world: &World,
    run: &RunBefore,
) -> Result<(Shared, Vec<Pass>), AllocError>
    requires { IsAfterRun world.now run.now.events }
    ensures table { IfOk result (λ made. basis_of made.0.table.shared.key ≡ basis_of_world world.now run.now.events) }
    ensures count { IfOk result (λ made. length made.1.items ≡ world.now.config.workers) }
    ensures passes { IfOk result (λ made. All (IsDealt made.0 (basis_of_world world.now run.now.events)) made.1.items) }
    ensures order { IfOk result (λ made. AreInOrder made.1.items) }
{
    let tenants = tenants_of(alloc, world.tenant_states())?;
    let workers = workers_of(alloc, world.worker_states())?;
    let words = words_of(alloc, world)?;
    let (shared, passes) = Shared::of_run(alloc, world.config(), &tenants, &workers, &words, run)?;
    Ok((shared, passes))
}

/// Makes a table with the shared words of a world, after a run from a new world. It takes that run, for contracts
/// alone: [`RunBefore::none`] for a new world, [`run_before`] for any other. It returns the table, a pass for each
/// worker, and each worker's request, both in the order of the workers. Each pass and request is at the point of its
/// worker in the world: a worker with a request has a pass that carries it, at the request's next step, and the
/// other passes are idle. So play a world to its point with a request for each thread, and go on with threads. No
/// file passes are given: a request that comes to a call on its file stays there. Each pass knows the run.
///
/// If a worker has a reply in the world that wasn't handed out, its pass is of no use: it isn't idle, and its
/// request has no step left. Hand the reply out in the world first. The only error is that memory is out. There
/// is then no table, and the world is unchanged.
///
/// [`run_before`]: crate::run_before
pub(crate) fn of_world(
    alloc: Global,
    world: &World,
    run: &RunBefore,
) -> Result<(Shared, Vec<Pass>, Vec<Option<Actor>>), AllocError>
    requires { IsAfterRun world.now run.now.events }
    ensures table { IfOk result (λ made. basis_of made.0.table.shared.key ≡ basis_of_world world.now run.now.events) }
    ensures count { IfOk result (λ made. length made.1.items ≡ world.now.config.workers) }
    ensures passes { IfOk result (λ made. All (IsDealt made.0 (basis_of_world world.now run.now.events)) made.1.items) }
    ensures order { IfOk result (λ made. AreInOrder made.1.items) }
    ensures actors { IfOk result (λ made. (state : State) → Represents world.now state → AreActors state world.now.config.workers made.2.items) }
{
    let actors = actors_of(alloc, world.worker_states())?;
    let (shared, passes) = table_of(alloc, world, run)?;
    Ok((shared, passes, actors))
}

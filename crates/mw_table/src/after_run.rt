//! Makes a table (array of shared words) that goes on from a run of a world: `Shared::of_run`.
//!
//! mw_table_tests uses it; the server doesn't. Change it with `specs/NewPasses`, `specs/Origins` and `specs/Runs`.
ghost use Rattle.std.specs.Prelude.{◌≡◌, All, IfOk, length, map};
ghost use Rattle.mw_world.specs.Definition.State.{IsConfig, tenants_of};
ghost use Rattle.mw_rule.specs.Layout.{words_of};
ghost use Rattle.mw_table.specs.NewPasses.{AreInOrder, IsDealt, pass_state_of};
ghost use Rattle.mw_table.specs.Origins.{basis_of};
ghost use Rattle.mw_table.specs.Runs.{AreAfterRun, basis_of_run, last_start, worker_state_so_far};

use crate::new_table::PassState;
use crate::origin::{Origin, TenantSoFar, WorkerSoFar};
use crate::run_before::RunBefore;
use crate::shared::{Pass, Shared};
use mw_world::Config;
use std::alloc::{AllocError, Global};
use std::snapshot::Snapshot;

impl Shared {
    /// Makes a table after a run from a new world, with a pass for each worker, in their order. It takes the tenants
    /// and workers after that run, and the bits of the shared words, each at its index in a table ([`place_at`]). At
    /// an index without a shared word the bits don't matter. The pass of a worker that has a request carries it, at
    /// the step to which it has come; the other passes are idle. There are no file passes: a request that comes to a
    /// call on its file stays there. Each pass knows the events of that run as those before the table.
    ///
    /// If a request has its reply and the reply hasn't been handed out, its worker's pass is of no use: it isn't
    /// idle, and the request has no step left.
    ///
    /// The only error is that memory is out; then there is no table.
    ///
    /// [`place_at`]: crate::place_at
    pub fn of_run(
        alloc: Global,
        config: &Config,
        tenants: &Vec<TenantSoFar>,
        workers: &Vec<WorkerSoFar>,
        words: &[u64],
        run: &RunBefore,
    ) -> Result<(Shared, Vec<Pass>), AllocError>
        requires config { IsConfig config.now }
        requires tenants { length tenants.now.items ≡ tenants_of config.now }
        requires workers { length workers.now.items ≡ config.now.workers }
        requires words { length words.now ≡ words_of config.now }
        requires run { AreAfterRun config.now (map last_start tenants.now.items) (map worker_state_so_far workers.now.items) run.now.events words.now }
        ensures table { IfOk result (λ made. basis_of made.0.table.shared.key ≡ basis_of_run config.now (map last_start tenants.now.items) (map worker_state_so_far workers.now.items) run.now.events) }
        ensures count { IfOk result (λ made. length made.1.items ≡ config.now.workers) }
        ensures passes { IfOk result (λ made. All (IsDealt made.0 (basis_of_run config.now (map last_start tenants.now.items) (map worker_state_so_far workers.now.items) run.now.events)) made.1.items) }
        ensures order { IfOk result (λ made. AreInOrder made.1.items) }
    {
        let pass_states = pass_states_of(alloc, workers)?;
        let origin = Origin::Run(
            Snapshot::of(config),
            Snapshot::of(tenants),
            Snapshot::of(workers),
            Snapshot::of(run),
        );
        let (shared, passes, _) = Shared::open(alloc, words, &origin, config, &pass_states)?;
        Ok((shared, passes))
    }
}

/// Returns what each worker's pass says of its worker.
fn pass_states_of(alloc: Global, workers: &[WorkerSoFar]) -> Result<Vec<PassState>, AllocError>
    ensures { IfOk result (λ pass_states. pass_states.items ≡ map (λ worker. pass_state_of (worker_state_so_far worker)) workers.now) }
{
    let mut pass_states = Vec::with_capacity(alloc, workers.len())?;
    for worker in workers {
        pass_states.push(PassState {
            attempt: worker.attempt,
            idle: worker.actor.is_none(),
        })?;
    }
    Ok(pass_states)
}

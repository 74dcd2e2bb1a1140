//! The workers of a world in memory, each with its request.
//!
//! Used by: `lines`, mw_simulator. Change it with `specs/Claims` and `specs/Workers`.
ghost use Rattle.std.specs.Prelude.{◌≡◌, List, Option, length};
ghost use Rattle.mw_lone.specs.declared.marks.Mark.{Mark};
ghost use Rattle.mw_world.specs.Definition.History.{History};
ghost use Rattle.mw_world.specs.Definition.LabelEffects.{with_labels};
ghost use Rattle.mw_world.specs.Definition.State.{idle_worker_state};
ghost use Rattle.mw_world_memory.specs.Claims.{Recalls};
ghost use Rattle.mw_world_memory.specs.Workers.{worker_state_of};

use crate::claims::ClaimLog;
use mw_actor::Actor;
use mw_world::StepLabel;

/// A worker.
#[derive(Drop)]
pub struct WorkerState {
    /// Its request, if it has one.
    pub actor: Option<Actor>,
    /// The request's number among its tenant's.
    pub request: u64,
    /// The number of its next attempt to hold a word.
    pub attempt: u64,
    /// The place that it reserved last among its tenant's marks.
    pub kept: usize,
    /// The request whose slot it freed last.
    pub retiring: u64,
}

impl WorkerState {
    /// Makes a worker without a request, whose next attempt is its first.
    pub fn idle() -> WorkerState
        ensures { worker_state_of result ≡ idle_worker_state }
    {
        WorkerState {
            actor: None,
            request: 0,
            attempt: 0,
            kept: 0,
            retiring: 0,
        }
    }

    /// Takes in the label of the worker's step. `claims` is what was known before the step, and `lines` how
    /// many lines the tenant had.
    pub fn label(&mut self, label: StepLabel, claims: &ClaimLog, lines: usize)
        ensures { (past : History) (marks : List (Option Mark)) → Recalls claims.now past → length marks ≡ lines → worker_state_of self.new ≡ with_labels label past marks (worker_state_of self.old) }
    {
        match label {
            StepLabel::Reserved => self.kept = lines,
            StepLabel::Freed(slot) => self.retiring = claims.request(slot),
            _ => {}
        }
    }
}

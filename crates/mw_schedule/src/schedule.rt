//! The types of a schedule: the configuration of a world, and what happens to it, line by line.
//!
//! Used by: `reader`, `commands`, mwreplay. A new command needs a case in `commands` and in `Player::obey` of
//! mwreplay.

use crate::steps::StepKind;
use mw_words::Job;
use mw_world::{Config, Outcome, Stop};
use std::alloc::AllocError;

/// A schedule: the configuration of a world, and what happens to it.
#[derive(Drop)]
pub struct Schedule {
    /// The configuration of the world.
    pub config: Config,
    /// What happens to it, line by line.
    pub lines: Vec<ScheduleLine>,
}

/// A line of a schedule that says what happens.
#[derive(Drop)]
pub struct ScheduleLine {
    /// Its number in the text, from 1.
    pub number: u64,
    /// What happens.
    pub command: Command,
}

/// What happens to a world. A worker is below [`mw_words::MAX_WORKERS`]. The world may have no such worker.
#[derive(Drop)]
pub enum Command {
    /// A worker that has no request begins one: the worker, the number of the tenant that asks, and the job.
    Come(u8, u8, Job),
    /// A worker makes one step that is no call on a file.
    Step(u8),
    /// A worker makes its call on a file.
    File(u8, Outcome),
    /// A worker makes steps, and no device call fails, until its next step is of this kind.
    Before(u8, StepKind),
    /// A worker makes steps, and no device call fails, until it has made one of this kind.
    To(u8, StepKind),
    /// A worker makes steps, and no device call fails, until it has a reply, which is handed out.
    End(u8),
    /// All stops and starts again. Each stop says how one tenant's file is stopped; no two are of one tenant.
    Restart(Vec<Stop>),
}

/// Why a text is no schedule.
#[derive(Clone, Copy, Debug, PartialEq, Eq)]
pub enum ScheduleFault {
    /// The line with this number, from 1, is the first that is wrong, or is missing after the last.
    Wrong(u64),
    /// Memory is out.
    Memory,
}

impl From<AllocError> for ScheduleFault {
    ghost use Rattle.std.specs.Prelude.{◌≡◌};
    ghost use Rattle.mw_schedule.specs.declared.schedule.ScheduleFault.TheVariants.{Memory};

    ghost from_gives = { λ fault answer. answer ≡ Memory };

    fn from(_: AllocError) -> Self {
        ScheduleFault::Memory
    }
}

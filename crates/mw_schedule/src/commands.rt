//! Reads the lines of a schedule that say what happens.
//!
//! Used by: `reader`; `restarts`, for the numbers of tenants and workers. A new command needs a case here, in
//! `schedule`, `forms`, `first_words`, `specs/Forms` and `specs/Playable`, in mwreplay, and in docs/SCHEDULES.
ghost use Rattle.std.specs.Prelude.{◌≡◌, ◌<◌, IfOk, IfSome};
ghost use Rattle.mw_words.specs.declared.limits.TheConstants.{MAX_WORKERS as most_workers};
ghost use Rattle.mw_world.specs.Definition.State.{tenants_of};
ghost use Rattle.mw_schedule.specs.Playable.{IsPlayable};

use crate::fields::{number, number_within};
use crate::restarts::read_stops;
use crate::schedule::Command;
use crate::steps::StepKind;
use mw_line::{Request, field, read_line};
use mw_words::{Job, MAX_WORKERS};
use mw_world::{Config, Outcome};
use std::alloc::{AllocError, Global};

/// Reads the command of a line, for a world of this configuration. `None`: the line is no command. The only
/// error is that memory is out.
pub fn read_command(
    alloc: Global,
    line: &[u8],
    config: &Config,
) -> Result<Option<Command>, AllocError>
    ensures { IfOk result (λ read. IfSome read (IsPlayable config.now)) }
{
    match line.strip_prefix(b"restart") {
        Some(items) => Ok(read_stops(alloc, items, config)?.map(Command::Restart)),
        None => Ok(worker_command(line, config)),
    }
}

// Reads the command of a line that begins with a word and a worker.
fn worker_command(line: &[u8], config: &Config) -> Option<Command>
    ensures { IfSome result (IsPlayable config.now) }
{
    let (word, rest) = field(b' ', line)?;
    match word {
        b"step" => Some(Command::Step(worker_of(rest)?)),
        b"end" => Some(Command::End(worker_of(rest)?)),
        _ => {
            let (worker, rest) = field(b' ', rest)?;
            longer_command(word, worker_of(worker)?, rest, config)
        }
    }
}

// Reads the command of a line that has more after its worker.
fn longer_command(word: &[u8], worker: u8, rest: &[u8], config: &Config) -> Option<Command>
    requires { worker < most_workers }
    ensures { IfSome result (IsPlayable config.now) }
{
    match word {
        b"come" => come(worker, rest, config),
        b"file" => Some(Command::File(worker, outcome_of(rest)?)),
        b"before" => Some(Command::Before(worker, StepKind::named(rest)?)),
        b"to" => Some(Command::To(worker, StepKind::named(rest)?)),
        _ => None,
    }
}

// Reads the rest of a `come` line: the tenant's name and the line of the request that the worker begins.
fn come(worker: u8, rest: &[u8], config: &Config) -> Option<Command>
    requires { worker < most_workers }
    ensures { IfSome result (IsPlayable config.now) }
{
    let (name, line) = field(b' ', rest)?;
    let tenant = tenant_of(config, name)?;
    let words = config.tenants[usize::from(tenant)].words;
    match read_line(line) {
        Ok(Request::Job(job)) if job.is_well_formed(usize::from(words)) => {
            Some(Command::Come(worker, tenant, job))
        }
        _ => None,
    }
}

fn outcome_of(text: &[u8]) -> Option<Outcome> {
    match text {
        b"good" => Some(Outcome::Good),
        _ => Some(Outcome::Fail(number(text)?)),
    }
}

/// Returns the worker whose number is the whole text, below [`MAX_WORKERS`].
pub fn worker_of(text: &[u8]) -> Option<u8>
    ensures { IfSome result (λ worker. worker < most_workers) }
{
    let worker = number_within(0, u64::from(MAX_WORKERS) - 1, text)?;
    Some(worker as u8)
}

/// Returns the number of the tenant with this name.
pub fn tenant_of(config: &Config, name: &[u8]) -> Option<u8>
    ensures { IfSome result (λ tenant. tenant < tenants_of config.now) }
{
    let tenant = config
        .tenants
        .iter()
        .position(|tenant| tenant.name.as_slice() == name)?;
    Some(tenant as u8)
}

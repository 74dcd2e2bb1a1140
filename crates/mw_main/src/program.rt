//! Runs a program from its start to its exit status.
//!
//! Used by: mwbench, mwinit, mwserve, mwreplay, mwshow, whose `main` calls `run`. docs/OPERATING and docs/SCHEDULES
//! tell the texts and the statuses, and scripts/closed-streams expects one: change them together.
ghost use Rattle.std.specs.Prelude.{◌≡◌};
ghost use Rattle.std.specs.Process.{exit_status};

use crate::streams::hold_streams;
use std::env;
use std::fs::File;
use std::io::{self, ErrorKind};
use std::process::ExitCode;
use std::rt::{Env, Files};

/// What a program says if it can't begin. Each text comes after its name, as `mwserve: memory`.
#[derive(Clone, Copy)]
pub struct Program {
    /// The program's name.
    pub name: &'static str,
    /// The text if an argument is no text.
    pub no_text: &'static str,
    /// The text if memory is refused.
    pub no_memory: &'static str,
}

/// Runs a program: holds its standard streams by [`hold_streams`], and calls `work` with the command line,
/// the program's own name first. Gives the exit status that `work` gives.
///
/// It doesn't call `work` if `/dev/null` can't be opened or memory is refused, and gives 1; or if an
/// argument is no text, and gives 2. Then it writes what went wrong to the standard error, and why `/dev/null` can't be opened.
pub fn run<R, F: FnOnce(&[String]) -> u8>(rt: &R, program: &Program, work: F) -> ExitCode
where
    R: Files<File = File> + Env + Eprint + AllocGlobal,
    requires { F.IsAlwaysCallable work }
    ensures { exit_status result ≡ 0 → (args : _) × F.post work args 0 }
{
    let _held = match hold_streams(rt) {
        Ok(held) => held,
        Err(fault) => return program.refuse_without_streams(rt, &fault),
    };
    match args(rt) {
        Ok(args) => ExitCode::from(work(&args)),
        Err(fault) if fault.kind() == ErrorKind::InvalidData => {
            program.refuse(rt, program.no_text, 2)
        }
        Err(_) => program.refuse(rt, program.no_memory, 1),
    }
}

impl Program {
    /// Writes that `/dev/null` can't be opened, and on the next line why. Gives the exit status 1.
    fn refuse_without_streams<R: Eprint>(&self, rt: &R, fault: &io::Error) -> ExitCode
        ensures { exit_status result ≡ 1 }
    {
        let status = self.refuse(rt, "cannot open /dev/null", 1);
        let name = self.name;
        let _ = eprintln!(rt; "{name}: {fault}");
        status
    }

    /// Writes what went wrong after the program's name. Gives this exit status.
    fn refuse<R: Eprint>(&self, rt: &R, text: &str, status: u8) -> ExitCode
        ensures { exit_status result ≡ status }
    {
        let name = self.name;
        let _ = eprintln!(rt; "{name}: {text}");
        ExitCode::from(status)
    }
}

fn args<R: Env + AllocGlobal>(rt: &R) -> io::Result<Vec<String>> {
    Ok(env::args(rt)?.collect(rt.alloc())?)
}

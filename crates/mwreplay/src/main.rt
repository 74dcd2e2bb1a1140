//! `mwreplay [--trace] FILE` plays a schedule: each line on a world in memory, and prints the replies.
//!
//! `program` does the work. Here are only the program's name, and what it says if it can't begin: change that with
//! docs/SCHEDULES and scripts/text_parts, and `memory` with `scripts/fail-each-allocation` too.
#![tactic(auto)]

mod lines;
mod player;
mod program;
mod reasons;
mod restarts;

use crate::program::replay_args;
use mw_main::{Program, run};
use std::process::ExitCode;

const PROGRAM: Program = Program {
    name: "mwreplay",
    no_text: "the command line is no text",
    no_memory: "memory",
};

fn main(rt: HostRuntime) -> ExitCode {
    run(&rt, &PROGRAM, |args| {
        replay_args(&rt, args, &mut rt.stdout(), &mut rt.stderr())
    })
}

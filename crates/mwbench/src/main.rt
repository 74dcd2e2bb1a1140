//! `mwbench --connect ADDR --tenant NAME --clients N --words K --seconds S` loads a server and measures how long its
//! replies take.
//!
//! Each client adds 1 to each of its words by one change, again and again. So afterwards each word must be its old
//! value plus the number of replies `YES` to changes of it. Change it with docs/BENCH.
#![tactic(auto)]

mod client;
mod command_line;
mod crowd;
mod latencies;
mod replies;
mod report;
mod run;
mod sums;

use crate::run::load;
use mw_main::Program;
use std::process::ExitCode;

const PROGRAM: Program = Program {
    name: "mwbench",
    no_text: "refused 1 command\nmwbench: an argument is no text",
    no_memory: "memory",
};

fn main(rt: HostRuntime) -> ExitCode {
    mw_main::run(&rt, &PROGRAM, |args| {
        load(&rt, args, &mut rt.stdout(), &mut rt.stderr())
    })
}

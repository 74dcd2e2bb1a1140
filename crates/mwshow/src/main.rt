//! `mwshow [--words] FILE` shows what a tenant's file says, in lines. It only reads the file.
//!
//! Of a file without damage it prints what mw_file_text writes. A damaged file has one line, `damage N byte B`: the
//! damage's number, and the byte at which the damaged part begins, counted from the beginning of the file.
//!
//! `program` does the work. Here are only the program's name, and what it says if it can't begin: change that with
//! docs/OPERATING and scripts/text_parts, and `memory` with `scripts/fail-each-allocation` too.
#![tactic(auto)]

mod damaged;
mod input;
mod lines;
mod program;
mod sized;

use crate::program::show_args;
use mw_main::{Program, run};
use std::process::ExitCode;

const PROGRAM: Program = Program {
    name: "mwshow",
    no_text: "the command line is no text",
    no_memory: "memory",
};

fn main(rt: HostRuntime) -> ExitCode {
    run(&rt, &PROGRAM, |args| {
        show_args(&rt, args, &mut rt.stdout(), &mut rt.stderr())
    })
}

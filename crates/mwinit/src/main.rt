//! `mwinit [--from DUMP] PATH WORDS PLACES` makes a tenant's file.
//!
//! - *What a contract says*: `file_of_zeros` and `file_of_dump` give only bytes that are read as just the file that
//!   was asked for.
//! - *Proved*: a text that is read as a dump is one (`specs/Dump`).
//! - *Tested only*: that the file has these bytes, and is durable before `made` is told (`scripts/check-new-file`);
//!   paths, exit statuses and messages (`scripts/check-stories`, `scripts/check-refusals`).
//!
//! `new_file` does the work. Here are only the program's name, and what it says if it can't begin: change that with
//! docs/OPERATING, and `cannot make` with `scripts/fail-each-allocation` too.
#![tactic(auto)]

mod dump;
mod dumped_file;
mod new_file;

use crate::new_file::init;
use mw_main::{Program, run};
use std::process::ExitCode;

const PROGRAM: Program = Program {
    name: "mwinit",
    no_text: "the command line is no text",
    no_memory: "cannot make",
};

fn main(rt: HostRuntime) -> ExitCode {
    run(&rt, &PROGRAM, |args| {
        init(&rt, args, &mut rt.stdout(), &mut rt.stderr())
    })
}

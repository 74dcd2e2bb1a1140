//! Begins every program: holds the standard streams open, makes its command line from a table of its arguments, reads it
//! as texts, and gives the exit status. Of a program that takes one file and may be given one switch,
//! `NAME [--SWITCH] FILE`, it reads all, and opens that file. It has the version that all programs tell.
//!
//! Used by: mw_config, mw_programs, and the programs mwbench, mwinit, mwreplay, mwserve and mwshow, which change with
//! it. Change [`VERSION`] with the clients' own (clients/), docs/OPERATING, CHANGELOG and
//! scripts/story_parts/operating.stories; scripts/package reads it.
#![tactic(auto)]

mod command_line;
mod file_command;
mod plain_file;
mod program;
mod streams;

pub use command_line::{Argument, CommandLine, FLAG, PLACE, TEXT};
pub use file_command::{AskedFile, FILE};
pub use plain_file::{FileFault, open_plain};
pub use program::{Program, run};

/// The version that each program tells at `--version`. Between two versions it is the last one, and `+unreleased`.
pub const VERSION: &str = "0.2.0+unreleased";

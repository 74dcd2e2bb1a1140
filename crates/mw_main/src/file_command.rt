//! Reads the command line of a program that takes one file and may be given one switch, and tells what is wrong with
//! it.
//!
//! Used by: mwshow, mwreplay. Change it with docs/OPERATING and docs/SCHEDULES, and `memory` with
//! scripts/fail-each-allocation.
ghost use Rattle.std.specs.Prelude.{◌≡◌, IfOk};

use crate::command_line::{Argument, CommandLine, PLACE};
use std::alloc::Global;
use std::io::Write;

/// The argument for the path of a file. A table's row says what the file is.
pub const FILE: Argument = Argument {
    name: FILE_NAME,
    ..PLACE
};

const FILE_NAME: &str = "FILE";

/// What a command line asks for.
#[derive(Clone, Copy, Drop)]
pub struct AskedFile<'a> {
    /// The path of the file.
    pub path: &'a str,
    /// Whether the switch was given.
    pub is_switched: bool,
}

impl CommandLine {
    /// Reads the command line `args`, which has the argument [`FILE`] and the switch of this name. Its first argument is
    /// the program's own name. Nothing is written if there is a file.
    ///
    /// # Errors
    ///
    /// The exit status, if there is no file to go on with. It is 0 if help or the version is asked for and
    /// `out` got its text, or 1 if `out` failed. It is 2 for a wrong command line, and 1 if memory was
    /// refused; then `err` got the text.
    pub fn read_file<'a, O: Write, E: Write>(
        &self,
        alloc: Global,
        switch: &str,
        args: &'a [String],
        out: &mut O,
        err: &mut E,
    ) -> Result<AskedFile<'a>, u8>
        ensures unwritten { IfOk result (λ asked. O.contents out.new ≡ O.contents out.old) }
        ensures unsaid { IfOk result (λ asked. E.contents err.new ≡ E.contents err.old) }
    {
        match self.matches(alloc, args) {
            Ok(matches) => Ok(AskedFile {
                path: matches.get_str(FILE_NAME).unwrap_or(""),
                is_switched: matches.get_flag(switch),
            }),
            Err(fault) => Err(self.tell(&fault, out, err)),
        }
    }
}

//! Implements `mwshow`: shows what a tenant's file says.
//!
//! `mwshow` calls `show_args`. docs/OPERATING tells its options and statuses: change both together.
ghost use Rattle.std.specs.Prelude.{◌≡◌, ◌≤◌, IfOk, true};
ghost use Rattle.mwshow.specs.Statuses.{status_of};
ghost use Rattle.mwshow.specs.Text.{IsShown};

use crate::input::{ShowFault, read_file};
use crate::lines::show;
use mw_main::{Argument, AskedFile, CommandLine, FILE, FLAG};
use std::fs::File;
use std::io::Write;
use std::rt::Files;

/// The switch that has the words that are 0 shown too.
const WORDS: &str = "words";

/// What the help ends with.
const AFTER_HELP: &str = "\
Example: mwshow --words t.mw
Documents: docs/OPERATING.md beside README.md, or below /usr/share/doc/mondlexi";

/// The command line of `mwshow`.
fn command_line() -> CommandLine {
    CommandLine {
        name: "mwshow",
        about: "Shows what a tenant's file says.",
        arguments: &ARGUMENTS,
        after_help: AFTER_HELP,
    }
}

static ARGUMENTS: [Argument; 2] = [
    Argument {
        name: WORDS,
        help: "tells the words that are 0 too",
        ..FLAG
    },
    Argument {
        help: "the file of a tenant",
        ..FILE
    },
];

/// Shows the file that the command line `args` names, by [`show_file`]. The form is `mwshow [--words]
/// FILE`; the first argument is the program's own name. If help or the version is asked for, writes its
/// text to `out`.
///
/// Gives the exit status: that of [`show_file`]; 2 for a wrong command line; 1 if memory was refused before
/// the file was looked at. For help and the version it is 0, or 1 if `out` failed. It writes what went
/// wrong to `err`.
pub fn show_args<R: Files<File = File> + AllocGlobal, O: Write, E: Write>(
    rt: &R,
    args: &[String],
    out: &mut O,
    err: &mut E,
) -> u8 {
    match command_line().read_file(rt.alloc(), WORDS, args, out, err) {
        Ok(AskedFile { path, is_switched }) => show_file(rt, path, is_switched, out, err),
        Err(status) => status,
    }
}

/// Shows the file at `path`, as [`show`] does: all its words, or those that aren't 0. It only reads the
/// file, and only if no server has it.
///
/// Gives the exit status: 0 if the file was shown and has no damage; 1 if it has a damage, which is shown,
/// if it can't be read, if memory was refused or if `out` failed. It writes what went wrong to `err`, but
/// neither a damage nor a failure of `out`.
///
/// The contract says that at 0 the text of some file without damage was written. It can't say that it is
/// the file at `path`.
pub fn show_file<R: Files<File = File> + AllocGlobal, O: Write, E: Write>(
    rt: &R,
    path: &str,
    all_words: bool,
    out: &mut O,
    err: &mut E,
) -> u8
    ensures { result ≡ 0 → IsShown all_words (O.contents out.old) (O.contents out.new) true }
{
    match read_and_show(rt, path, all_words, out) {
        Ok(true) => 0,
        Ok(false) => 1,
        Err(fault) => tell(&fault, err),
    }
}

/// Reads and shows a file. Gives whether it has no damage.
fn read_and_show<R: Files<File = File> + AllocGlobal, O: Write>(
    rt: &R,
    path: &str,
    all_words: bool,
    out: &mut O,
) -> Result<bool, ShowFault>
    ensures { IfOk result (λ sound. IsShown all_words (O.contents out.old) (O.contents out.new) sound) }
{
    let bytes = read_file(rt, path)?;
    show(rt.alloc(), &bytes, all_words, out)
}

/// Writes to `err` what went wrong. Gives its exit status.
fn tell<E: Write>(fault: &ShowFault, err: &mut E) -> u8
    ensures status { result ≡ status_of fault.now }
    ensures not_shown { 1 ≤ result }
{
    let _ = match fault {
        ShowFault::Output => Ok(()),
        _ => writeln!(err, "{fault}"),
    };
    fault.status()
}

//! Says what is wrong with a command line, or what it asks to be told.
//!
//! Used by: mw_programs. docs/OPERATING tells the texts and statuses: change them together.
ghost use Rattle.std.specs.Prelude.{◌≡◌};
ghost use Rattle.mw_config.specs.CommandLine.{IsRefused};

use crate::console::Console;
use mw_config::ArgFault;
use std::io::Write;

/// Gives what stands before the text on a wrong command line: the level of an error, if it asks for levels.
fn front_of(args: &[String]) -> &'static str {
    for word in args {
        if word.as_str() == "--journal" {
            return "<3>";
        }
    }
    ""
}

/// Writes why these words of a command line aren't served, or what they ask to be told. Gives the exit status.
pub fn refuse<C: Console, E: Write>(
    fault: &ArgFault,
    args: &[String],
    console: &mut C,
    err: &mut E,
) -> u8
    ensures { result ≡ 0 → IsRefused fault.now }
{
    let front = front_of(args);
    match fault {
        ArgFault::Refused(text) if !text.use_stderr() => u8::from(console.help(fault).is_err()),
        ArgFault::Refused(_) => {
            let _ = write!(err, "{front}{fault}");
            2
        }
        ArgFault::Mode(_) => {
            let _ = writeln!(err, "{front}{fault}");
            2
        }
        ArgFault::Memory => {
            let _ = writeln!(err, "{front}{fault}");
            1
        }
    }
}

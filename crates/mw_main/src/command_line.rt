//! Makes the command line of a program from a table of its arguments, reads it, and tells what is wrong with it.
//!
//! Used by: `file_command`, mw_config, mwinit, mwbench, mwshow, mwreplay. The texts are clap's: scripts/check-texts and
//! scripts/check-refusals expect some. What clap reads of a table is in specs/Commands.
ghost use Rattle.std.specs.List.{AllByRecursion};
ghost use Rattle.std.specs.Prelude.{◌≡◌, ◌++◌, [], IfErr, IfOk, OnOk, false, map, string_bytes, true};
ghost use Rattle.clap.specs.Simple.{on_top};
ghost use Rattle.clap.specs.Words.{HasMatchesOf, app_of, fault_of, is_simple_and_free, kind_of, new_app, rule_of, takes};
ghost use Rattle.clap.specs.declared.error.kind.ErrorKind.TheVariants.{OutOfMemory};
ghost use Rattle.mw_main.specs.Commands.{command_of, rule_of_argument};

use crate::VERSION;
use clap::builder::ValueParser;
use clap::error::ErrorKind;
use clap::{Arg, ArgAction, ArgMatches, Command, Error};
use std::alloc::{AllocError, Global};
use std::io::Write;

/// What a command line may have, or must.
#[derive(Clone, Copy)]
pub struct Argument {
    /// Its name. That of an option is without the two dashes.
    pub name: &'static str,
    /// Whether it is an option, `--NAME`. If not, it is known by its place.
    pub is_option: bool,
    /// What the help calls the text or number that is given: one word, or none for its name.
    pub value: &'static [&'static str],
    /// Whether it must be given.
    pub is_needed: bool,
    /// What one more use of it does.
    pub action: ArgAction,
    /// Which texts are accepted.
    pub parser: ValueParser<'static>,
    /// The text that counts if none is given: one, or none.
    pub usual: &'static [&'static str],
    /// What it is for, as the help says it.
    pub help: &'static str,
}

/// An option after which a text is given. A table's row says what differs.
pub const TEXT: Argument = Argument {
    name: "",
    is_option: true,
    value: &[],
    is_needed: false,
    action: ArgAction::Set,
    parser: ValueParser::String,
    usual: &[],
    help: "",
};

/// An option after which nothing is given.
pub const FLAG: Argument = Argument {
    action: ArgAction::SetTrue,
    parser: ValueParser::Bool,
    ..TEXT
};

/// A text that has no name in front of it. It must be given.
pub const PLACE: Argument = Argument {
    is_option: false,
    is_needed: true,
    ..TEXT
};

/// The command line of a program, as its help tells it.
#[derive(Clone, Copy)]
pub struct CommandLine {
    /// The program's name.
    pub name: &'static str,
    /// What the program does.
    pub about: &'static str,
    /// Its arguments, in the order of the help.
    pub arguments: &'static [Argument],
    /// What the help ends with.
    pub after_help: &'static str,
}

impl CommandLine {
    /// Reads the command line `args`. Its first argument is the program's own name.
    ///
    /// - `matches`: it gives what clap reads of just these words for the table's arguments.
    /// - `taken`: it refuses words that clap takes only if memory was refused.
    /// - `faultless`: it gives something only of words in which clap finds no fault.
    ///
    /// They are of a table that clap's contracts can read (`is_simple`, `is_simple_and_free`).
    ///
    /// # Errors
    ///
    /// Clap's, with the text to show. It is one too if the help or the version is asked for, or memory was refused.
    pub fn matches<'a>(&self, alloc: Global, args: &'a [String]) -> Result<ArgMatches<'a>, Error>
        ensures matches { IfOk result (HasMatchesOf (command_of self.now) (map string_bytes args.now)) }
        ensures taken { IfErr result (λ fault. takes (command_of self.now) (map string_bytes args.now) ≡ true → kind_of fault ≡ OutOfMemory) }
        ensures faultless { IfOk result (λ _. is_simple_and_free (command_of self.now) ≡ true → fault_of (command_of self.now) (map string_bytes args.now) ≡ []) }
    {
        match self.command(alloc) {
            Ok(command) => command.try_get_matches_from(args),
            Err(fault) => Err(Error::from(fault)),
        }
    }

    /// Makes clap's form of it.
    fn command<'a>(&self, alloc: Global) -> Result<Command<'a>, AllocError>
        ensures { IfOk result (λ command. app_of command ≡ command_of self.now) }
    {
        let mut args = Vec::new(alloc);
        push_all(alloc, &mut args, self.arguments)?;
        self.head(alloc).args(args)
    }

    /// Makes the command without its arguments.
    fn head<'a>(&self, alloc: Global) -> Command<'a>
        ensures { app_of result ≡ on_top (λ top. record top { has_version = true }) (new_app self.now.name.now) }
    {
        Command::new(alloc, self.name)
            .version(VERSION)
            .about(self.about)
            .after_help(self.after_help)
    }

    /// Writes why a command line was not read, or the help or the version, if it asks for one. Gives the exit status. It
    /// is 0 if `out` got that text, or 1 if `out` failed. It is 2 for a wrong command line, and 1 if memory was
    /// refused; then `err` got the text.
    pub fn tell<O: Write, E: Write>(&self, fault: &Error, out: &mut O, err: &mut E) -> u8 {
        if fault.kind() == ErrorKind::OutOfMemory {
            let _ = writeln!(err, "{}: memory", self.name);
            1
        } else if fault.use_stderr() {
            // The text that clap makes ends with a line feed.
            let _ = write!(err, "{fault}");
            2
        } else {
            u8::from(write!(out, "{fault}").is_err())
        }
    }
}

/// Appends clap's form of these arguments.
fn push_all<'a>(
    alloc: Global,
    args: &mut Vec<Arg<'a>>,
    arguments: &[Argument],
) -> Result<(), AllocError>
    ensures rules { OnOk result (map rule_of args.new.items ≡ map rule_of args.old.items ++ map rule_of_argument arguments.now) }
    ensures local { OnOk result (AllByRecursion (λ arg. arg.global ≡ false) args.old.items → AllByRecursion (λ arg. arg.global ≡ false) args.new.items) }
{
    for argument in arguments {
        args.push(arg_of(alloc, argument))?;
    }
    Ok(())
}

/// Makes clap's form of an argument.
fn arg_of<'a>(alloc: Global, argument: &Argument) -> Arg<'a>
    ensures rule { rule_of result ≡ rule_of_argument argument.now }
    ensures local { result.global ≡ false }
{
    let arg = Arg::new(alloc, argument.name)
        .value_names(argument.value)
        .required(argument.is_needed)
        .action(argument.action)
        .value_parser(argument.parser)
        .default_values(argument.usual)
        .help(argument.help);
    if argument.is_option {
        arg.long(argument.name)
    } else {
        arg
    }
}

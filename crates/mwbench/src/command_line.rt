//! Reads the command line of `mwbench`: the server, the tenant, and how many clients do what.
//!
//! Used by: `client`, `crowd`, `run`. docs/BENCH tells the options and their limits: change both together.
use arrayvec::ArrayVec;
use clap::ArgMatches;
use clap::builder::ValueParser;
use mw_main::{Argument, CommandLine, FLAG, TEXT};
use mw_words::{MAX_ENTRIES, Name};
use std::alloc::{AllocError, Global};

/// The most clients: as many as a server serves at once.
const MAX_CLIENTS: u64 = 64;

/// The longest run, in seconds.
const MAX_SECONDS: u64 = 60_000;

/// The most lines that a client sends before it reads a reply.
pub const MAX_PIPELINE: usize = 64;

/// What is run.
#[derive(Drop)]
pub struct Settings {
    /// Where the server listens.
    pub address: String,
    /// The tenant's name.
    pub tenant: Name,
    /// How many clients there are.
    pub clients: u16,
    /// How many words each change has.
    pub words: u16,
    /// For how many seconds they work.
    pub seconds: u64,
    /// Whether all clients change the same words. If not, each changes its own.
    pub shared: bool,
    /// How many of a hundred requests are reads.
    pub reads: u64,
    /// How many lines a client sends before it reads their replies.
    pub pipeline: u16,
    /// Whether the figures are written as JSON.
    pub json: bool,
}

/// Reads a command line. Its first argument is the program's own name.
///
/// # Errors
///
/// Clap's, with the text to show; also if help or the version is asked for, or memory was refused.
pub fn read_args(alloc: Global, args: &[String]) -> Result<Settings, clap::Error> {
    let matches = command_line().matches(alloc, args)?;
    Ok(settings_of(alloc, &matches)?)
}

/// Gives what the options ask for.
fn settings_of(alloc: Global, matches: &ArgMatches<'_>) -> Result<Settings, AllocError> {
    Ok(Settings {
        address: String::from_str(alloc, matches.get_str("connect").unwrap_or(""))?,
        tenant: name_of(matches.get_str("tenant").unwrap_or("")),
        clients: number_of(matches, "clients"),
        words: number_of(matches, "words"),
        seconds: u64::from(number_of(matches, "seconds")),
        shared: matches.get_flag("shared"),
        reads: u64::from(number_of(matches, "reads")),
        pipeline: number_of(matches, "pipeline"),
        json: matches.get_flag("json"),
    })
}

/// Gives a tenant's name, or none if the text is longer than any is.
fn name_of(text: &str) -> Name {
    ArrayVec::try_from(text.as_bytes()).unwrap_or(ArrayVec::new())
}

/// Gives the number of an option, which its parser has checked.
fn number_of(matches: &ArgMatches<'_>, name: &str) -> u16 {
    matches.get_one::<u16>(name).unwrap_or(0)
}

/// What the help ends with.
const AFTER_HELP: &str = "\
Example: mwbench --connect 127.0.0.1:7000 --tenant t --clients 16 --words 2 --seconds 10
Documents: docs/BENCH.md beside README.md, or below /usr/share/doc/mondlexi";

/// The command line of `mwbench`.
pub fn command_line() -> CommandLine {
    CommandLine {
        name: "mwbench",
        about: "Loads a server and measures how long its replies take.",
        arguments: &ARGUMENTS,
        after_help: AFTER_HELP,
    }
}

static ARGUMENTS: [Argument; 9] = [
    Argument {
        name: "connect",
        value: &["ADDR"],
        is_needed: true,
        help: "where the server listens: HOST:PORT or unix:PATH",
        ..TEXT
    },
    Argument {
        name: "tenant",
        value: &["NAME"],
        is_needed: true,
        help: "the tenant whose words are changed; nobody else may change them meanwhile",
        ..TEXT
    },
    Argument {
        name: "clients",
        value: &["1..64"],
        is_needed: true,
        parser: ValueParser::Unsigned(1, MAX_CLIENTS),
        help: "how many clients there are",
        ..TEXT
    },
    Argument {
        name: "words",
        value: &["1..16"],
        is_needed: true,
        parser: ValueParser::Unsigned(1, MAX_ENTRIES as u64),
        help: "how many words each change has",
        ..TEXT
    },
    Argument {
        name: "seconds",
        value: &["1..60000"],
        is_needed: true,
        parser: ValueParser::Unsigned(1, MAX_SECONDS),
        help: "for how many seconds they work",
        ..TEXT
    },
    Argument {
        name: "shared",
        help: "all clients change the same words, and not each its own",
        ..FLAG
    },
    Argument {
        name: "reads",
        value: &["0..100"],
        parser: ValueParser::Unsigned(0, 100),
        usual: &["0"],
        help: "how many of a hundred requests are reads",
        ..TEXT
    },
    Argument {
        name: "pipeline",
        value: &["1..64"],
        parser: ValueParser::Unsigned(1, MAX_PIPELINE as u64),
        usual: &["1"],
        help: "how many lines a client sends before it reads their replies",
        ..TEXT
    },
    Argument {
        name: "json",
        help: "write the figures as one JSON object in one line, and no line a second",
        ..FLAG
    },
];

//! The options of `mwserve`, as its help tells them.
//!
//! Used by: `command_line`, which reads them. A new one needs its row in docs/OPERATING.

ghost use Rattle.std.specs.Prelude.{◌≡◌, codes, map};
ghost use Rattle.mw_main.specs.Commands.{rule_of_argument};
ghost use Rattle.mw_config.specs.ServerOptions.{server_rules};

use crate::command_line::{MAX_CLIENTS, MAX_FAULTS, MAX_IDLE};
use clap::ArgAction;
use clap::builder::ValueParser;
use mw_main::{Argument, CommandLine, FLAG, TEXT};
use mw_words::{MAX_CONNECTIONS, MAX_POOL, MAX_WORKERS};

/// What the help ends with.
const AFTER_HELP: &str = "\
Each line of the tenants file: name words quota path
Example: mwinit t.mw 1000 4 && echo 't 1000 4 t.mw' > tenants && mwserve --tenants tenants --listen 127.0.0.1:7000
Documents: docs/OPERATING.md beside README.md, or below /usr/share/doc/mondlexi";

// The names of numbers in the help have these limits.
const _: () = prove!(MAX_POOL == 256);

const _: () = prove!(MAX_WORKERS == 64);

const _: () = prove!(MAX_CLIENTS == 4096);

const _: () = prove!(MAX_CONNECTIONS == 1_000_000);

const _: () = prove!(MAX_FAULTS == 1_000_000);

const _: () = prove!(MAX_IDLE == 86_400);

/// The command line of `mwserve`.
pub fn command_line() -> CommandLine
    ensures name { result.name.now ≡ codes "mwserve" }
    ensures rules { map rule_of_argument result.arguments.now ≡ server_rules }
{
    CommandLine {
        name: "mwserve",
        about: "Serves tenants' words.",
        arguments: &OPTIONS,
        after_help: AFTER_HELP,
    }
}

/// The options, in the order of the help. Those behind `--listen` need it.
static OPTIONS: [Argument; 24] = [
    Argument {
        name: "tenants",
        value: &["FILE"],
        is_needed: true,
        help: "which tenants are served, and from which files",
        ..TEXT
    },
    Argument {
        name: "pool",
        value: &["1..256"],
        parser: ValueParser::Unsigned(1, MAX_POOL as u64),
        usual: &["256"],
        help: "how many changes of all tenants may be under way at a time",
        ..TEXT
    },
    Argument {
        name: "workers",
        value: &["1..64"],
        parser: ValueParser::Unsigned(1, MAX_WORKERS as u64),
        usual: &["4"],
        help: "how many requests are worked on at once; without --clients each client has a worker",
        ..TEXT
    },
    Argument {
        name: "strict",
        help: "serve nothing if a tenant's file doesn't open",
        ..FLAG
    },
    Argument {
        name: "verbose",
        help: "say after each note which file or address it is about, and what the system told",
        ..FLAG
    },
    Argument {
        name: "journal",
        help: "begin each note with its level, as the journal of systemd reads it: <3>, <4> or <6>",
        ..FLAG
    },
    Argument {
        name: "times",
        help: "begin each note with the time in UTC, as 2026-11-28T06:30:00.125Z",
        ..FLAG
    },
    Argument {
        name: "script",
        value: &["FILE"],
        help: "the lines of one session, in place of connections",
        ..TEXT
    },
    Argument {
        name: "listen",
        value: &["ADDR"],
        help: "where to wait for connections, each of them a session: HOST:PORT or unix:PATH",
        ..TEXT
    },
    Argument {
        name: "admin",
        value: &["ADDR"],
        help: "where to wait for the administrator, who then has a worker beside the others",
        ..TEXT
    },
    Argument {
        name: "http",
        value: &["ADDR"],
        help: "where to show the server's pages and figures over HTTP: HOST:PORT or unix:PATH; without it, nowhere",
        ..TEXT
    },
    Argument {
        name: "http-name",
        value: &["NAME"],
        action: ArgAction::Append,
        help: "a name by which the pages may be called, beside addresses and localhost; it may be given 16 times",
        ..TEXT
    },
    Argument {
        name: "connections",
        value: &["1..1000000"],
        parser: ValueParser::Unsigned(1, MAX_CONNECTIONS as u64),
        help: "after how many connections to end; without it, never",
        ..TEXT
    },
    Argument {
        name: "clients",
        value: &["1..4096"],
        parser: ValueParser::Unsigned(1, MAX_CLIENTS as u64),
        help: "how many clients are served at once, sharing the workers; without it, as many as there are workers",
        ..TEXT
    },
    Argument {
        name: "readers",
        value: &["1..64"],
        parser: ValueParser::Unsigned(1, MAX_WORKERS as u64),
        help: "how many of the workers only read, with --clients; without it, a quarter of them",
        ..TEXT
    },
    Argument {
        name: "wait",
        value: &["1..86400"],
        parser: ValueParser::Unsigned(1, MAX_IDLE as u64),
        help: "after how many seconds to close a connection for which no session is free; without it, never",
        ..TEXT
    },
    Argument {
        name: "idle",
        value: &["1..86400"],
        parser: ValueParser::Unsigned(1, MAX_IDLE as u64),
        help: "after how many seconds of silence to end a session; without it, never",
        ..TEXT
    },
    Argument {
        name: "line-time",
        value: &["1..86400"],
        parser: ValueParser::Unsigned(1, MAX_IDLE as u64),
        help: "how many seconds a line or a reply may take from its first byte to its last; without it, as --idle",
        ..TEXT
    },
    Argument {
        name: "faults",
        value: &["1..1000000"],
        parser: ValueParser::Unsigned(1, MAX_FAULTS as u64),
        help: "after how many lines that are answered ERR to end a session; without it, never",
        ..TEXT
    },
    Argument {
        name: "end-on-failure",
        help: "end with status 3 when a tenant's file fails or is given up, so that another server may take its lock",
        ..FLAG
    },
    Argument {
        name: "lease",
        value: &["FILE"],
        help: "a file to lock, and to write to again and again; replies that tell of words need it; without it, none does",
        ..TEXT
    },
    Argument {
        name: "lease-time",
        value: &["1..86400"],
        parser: ValueParser::Unsigned(1, MAX_IDLE as u64),
        help: "how many seconds a write to the file of --lease counts; needs --lease",
        ..TEXT
    },
    Argument {
        name: "open",
        help: "say no note on an address at which other machines may connect",
        ..FLAG
    },
    Argument {
        name: "mode",
        value: &["0..777"],
        help: "the file mode of a local socket, in octal digits; without it, 600",
        ..TEXT
    },
];

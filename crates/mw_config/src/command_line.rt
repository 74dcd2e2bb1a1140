//! Reads the command line of `mwserve`.
//!
//! Used by: `lease_terms`, `options`, mw_upkeep, mw_server, mw_programs. A new option needs a field here, its row in `options`, its use in
//! mw_server or mw_programs, a clause in `specs/CommandLine` if it has limits, and its row in docs/OPERATING. Change a limit there and in
//! docs/PROTOCOL too, an option's name in contrib and scripts (`git grep`), a text of [`ArgFault`] in scripts/text_parts
//! and scripts/check-sockets.
ghost use Rattle.std.specs.Option.{option_map};
ghost use Rattle.std.specs.Prelude.{ℕ, ◌≡◌, ◌≤◌, codes, IfErr, IfOk, IfSome, length, map, string_bytes, vec_len};
ghost use Rattle.clap.specs.Words.{first_value, found_of, kind_of, one_text};
ghost use Rattle.clap.specs.declared.error.kind.ErrorKind.TheVariants.{OutOfMemory};
ghost use Rattle.mw_config.specs.CommandLine.{AreAsked, AreAskedBy, ArePermittedArgs, AreSharedWell, AreTaken, IsModeAsked};
ghost use Rattle.mw_config.specs.CommandLine.{IsNumberOf, IsPermittedMode, IsRefused, IsUpTo, SuitsWorkers};
ghost use Rattle.mw_config.specs.declared.command_line.Mode.TheVariants.{Listen};

use crate::lease_terms::{LeaseTerms, lease_of};
use crate::options::command_line;
use clap::ArgMatches;
use clap::error::ErrorKind;
use clap::parser::ValueSource;
use mw_words::{MAX_CONNECTIONS, MAX_POOL, MAX_WORKERS};
use std::alloc::{AllocError, Global};
use std::fmt;

/// What the command line of a server asks for.
#[derive(Drop)]
pub struct Args {
    /// The path of the tenants file.
    pub tenants: String,
    /// How many slots all tenants share, 1 to [`MAX_POOL`].
    pub pool: u16,
    /// How many workers there are, 1 to [`MAX_WORKERS`]. So many requests are worked on at once.
    pub workers: u8,
    /// If set, nothing is served if a tenant's file doesn't open.
    pub strict: bool,
    /// If set, each note is followed by one that says which file or address it is about, and what the
    /// system told.
    pub verbose: bool,
    /// If set, each note begins with its level, as the journal of systemd reads it.
    pub journal: bool,
    /// If set, each note begins with the time.
    pub times: bool,
    /// Where the sessions come from.
    pub mode: Mode,
}

/// Says where a server's sessions come from.
#[derive(Drop)]
pub enum Mode {
    /// They come from connections.
    Listen(Listening),
    /// The one session is the script at this path.
    Script(String),
}

/// How a server takes connections.
#[derive(Drop)]
pub struct Listening {
    /// The address.
    pub address: String,
    /// A second address, for the administrator. Its clients have a worker of their own.
    pub admin: Option<String>,
    /// The address at which a browser and a scraper find the server's pages over HTTP. None: it has no pages.
    pub http: Option<String>,
    /// The names by which clients may call the pages, beside addresses and `localhost`: at most [`MAX_HTTP_NAMES`], and each one
    /// has letters, digits, dots and hyphens. There are none without an address for the pages.
    pub http_names: Vec<String>,
    /// The server ends after so many connections to the first address, 1 to [`MAX_CONNECTIONS`]. None: it
    /// serves on.
    pub connections: Option<u32>,
    /// How many clients share the workers, each in a session that takes a worker for each request. None: each client
    /// has a worker for its whole session.
    pub shared: Option<SharedWorkers>,
    /// A connection is closed if no session becomes free for it in so many seconds, 1 to [`MAX_IDLE`]. None: it
    /// waits for ever.
    pub wait: Option<u32>,
    /// A session ends after so many seconds in which its client sends nothing, or takes nothing of a reply,
    /// 1 to [`MAX_IDLE`]. None: it waits for ever.
    pub idle: Option<u32>,
    /// A session ends if a line takes its client more than so many seconds from the first byte to the last, or
    /// if a reply does, 1 to [`MAX_IDLE`]. None: they may take for ever.
    pub line_time: Option<u32>,
    /// A session ends after so many lines that are answered by `ERR`, 1 to [`MAX_FAULTS`]. None: it doesn't end for this.
    pub faults: Option<u32>,
    /// If set, the server ends when a tenant's file fails or is given up.
    pub end_on_failure: bool,
    /// The lease by which the server tells what its tenants have. None: it tells it without one.
    pub lease: Option<LeaseTerms>,
    /// If set, it is meant that clients of other machines may connect, and no note says that they may.
    pub open: bool,
    /// The file mode of each local socket, at most [`MAX_SOCKET_MODE`]. Who may write to the socket's file
    /// may connect.
    pub socket_mode: u32,
}

/// Workers that clients share.
#[derive(Clone, Copy, Drop)]
pub struct SharedWorkers {
    /// How many clients are served at once, 1 to [`MAX_CLIENTS`].
    pub clients: u16,
    /// How many of the workers only read: at least one, and fewer than there are workers.
    pub readers: u8,
}

/// The largest number of clients that are served at once.
pub const MAX_CLIENTS: u16 = 4096;

/// How many workers there are for each one that only reads, if the command line doesn't say how many do.
const WORKERS_A_READER: u8 = 4;

/// The largest limit of silence, of a line's time and of waiting, in seconds: a day.
pub const MAX_IDLE: u32 = 86_400;

/// The largest number of lines with a fault after which a session ends.
pub const MAX_FAULTS: u32 = 1_000_000;

/// How many names for the pages may be given.
pub const MAX_HTTP_NAMES: usize = 16;

/// The most bytes of such a name.
pub const MAX_HTTP_NAME: usize = 253;

/// The file mode of local sockets if none is given: only the server's own user may connect.
const OWNERS_MODE: u32 = 0o600;

/// The largest file mode of a local socket: everybody may do everything.
pub const MAX_SOCKET_MODE: u32 = 0o777;

/// The option that the options for connections come after.
const LISTEN: &str = "listen";

/// The rules of how the options of a command line go together, of which clap knows nothing, as a refusal says them.
const ONE_MODE: &str = "give exactly one of --listen and --script";

const OF_LISTEN: &str = "--script takes no option of --listen";

const FILE_MODE: &str = "--mode is 0 to 777, in octal digits";

const PAGES: &str = "--http-name needs --http";

const HTTP_NAME: &str =
    "--http-name is a name of letters, digits, dots and hyphens, without a port, and comes at most 16 times";

const _: () = prove!(MAX_HTTP_NAMES == 16);

const SHARED: &str = "--readers needs --clients";

const SOME_CHANGE: &str = "--clients needs more --workers than --readers, and so at least 2";

/// Clap refuses first what breaks this rule.
const IN_RANGE: &str = "give --tenants, and each number in its range";

/// Tells why a command line is not served.
#[derive(Drop)]
pub enum ArgFault {
    /// It isn't of the form that the help tells, a number is out of range, or it asks for the help or the
    /// version.
    Refused(clap::Error),
    /// Its options break this rule.
    Mode(&'static str),
    /// Memory was refused.
    Memory,
}

impl fmt::Display for ArgFault {
    fn fmt<W: fmt::Write>(&self, f: &mut fmt::Formatter<W>) -> fmt::Result {
        match self {
            ArgFault::Refused(fault) => fault.fmt(f),
            ArgFault::Mode(rule) => write!(f, "mwserve: refused 1 command\nmwserve: {rule}"),
            ArgFault::Memory => f.write_str("mwserve: memory"),
        }
    }
}

impl From<clap::Error> for ArgFault {
    ghost from_gives = { λ fault told. kind_of fault ≡ OutOfMemory → IsRefused told → ⊥ };

    fn from(fault: clap::Error) -> Self {
        match fault.kind() {
            ErrorKind::OutOfMemory => ArgFault::Memory,
            _ => ArgFault::Refused(fault),
        }
    }
}

/// Tells why options ask for nothing, though clap takes each of them.
#[derive(Drop)]
pub(crate) enum OptionFault {
    /// They break this rule.
    Rule(&'static str),
    /// Memory was refused.
    Memory,
}

impl From<AllocError> for OptionFault {
    fn from(_: AllocError) -> Self {
        OptionFault::Memory
    }
}

impl From<OptionFault> for ArgFault {
    ghost from_gives = { λ _ told. IsRefused told → ⊥ };

    fn from(fault: OptionFault) -> Self {
        match fault {
            OptionFault::Rule(rule) => ArgFault::Mode(rule),
            OptionFault::Memory => ArgFault::Memory,
        }
    }
}

/// Reads the command line `args`. Its first argument is the program's own name.
///
/// The form is `mwserve --tenants FILE [--pool P] [--workers N] [--strict] [--verbose] [--journal] [--times]` with either
/// `--listen ADDR` or `--script FILE`. After `--listen` there may be `[--admin ADDR] [--http ADDR [--http-name NAME ..]]
/// [--connections C] [--clients M [--readers R]] [--wait SECONDS] [--idle SECONDS] [--line-time SECONDS] [--faults F]
/// [--end-on-failure] [--lease FILE --lease-time SECONDS] [--open] [--mode MODE]`.
/// - P is 1 to [`MAX_POOL`], and [`MAX_POOL`] if it isn't given.
/// - N is 1 to [`MAX_WORKERS`], and 4 if it isn't given.
/// - C is 1 to [`MAX_CONNECTIONS`], and SECONDS 1 to [`MAX_IDLE`]. `--line-time` is `--idle` if it isn't given.
/// - F is 1 to [`MAX_FAULTS`]. A NAME has 1 to [`MAX_HTTP_NAME`] letters, digits, dots and hyphens, and there are at most
///   [`MAX_HTTP_NAMES`] of them.
/// - M is 1 to [`MAX_CLIENTS`]. R is at least 1 and below N; if it isn't given, a quarter of N, and at least 1.
/// - MODE has octal digits, is at most [`MAX_SOCKET_MODE`], and 0600 if it isn't given.
///
/// - `asked`: the words ask for the tenants file, the pool, the workers, and the script or the addresses that it gives. The
///   path of the tenants file is in the word after `--tenants`, or `--tenants=PATH` is a word.
/// - `taken`: if clap takes the words, the fault is another one than clap's.
///
/// # Errors
///
/// [`ArgFault::Refused`] if clap refuses them, or they ask for the help or the version. [`ArgFault::Mode`], with the
/// rule that they break, if they haven't exactly one of `--listen` and `--script`, have an option of `--listen` with
/// `--script`, have a `--mode` that is no file mode, have `--http-name` without `--http`, with no name, or too often, have
/// `--readers` without `--clients`, have one of `--lease` and `--lease-time` without the other, or would leave no worker for changes. [`ArgFault::Memory`] if memory was refused. `args` is only read.
pub fn read_args(alloc: Global, args: &[String]) -> Result<Args, ArgFault>
    ensures permitted { IfOk result (λ args. ArePermittedArgs args) }
    ensures asked { IfOk result (λ read. AreAsked (map string_bytes args.now) read) }
    ensures taken { IfErr result (λ fault. AreTaken (map string_bytes args.now) → IsRefused fault → ⊥) }
{
    match command_line().matches(alloc, args) {
        Ok(matches) => match args_of(alloc, &matches) {
            Ok(args) => Ok(args),
            Err(fault) => Err(ArgFault::from(fault)),
        },
        Err(fault) => Err(ArgFault::from(fault)),
    }
}

/// Gives what the options ask for.
fn args_of(alloc: Global, matches: &ArgMatches<'_>) -> Result<Args, OptionFault>
    ensures permitted { IfOk result (λ args. ArePermittedArgs args) }
    ensures asked { IfOk result (λ args. AreAskedBy (first_value (found_of matches.now)) (one_text (found_of matches.now)) args) }
{
    let (Some(tenants), Some(pool), Some(workers)) = (
        matches.get_str("tenants"),
        number_of(matches, "pool", u32::from(MAX_POOL)),
        number_of(matches, "workers", u32::from(MAX_WORKERS)),
    ) else {
        return Err(OptionFault::Rule(IN_RANGE));
    };
    Ok(Args {
        tenants: String::from_str(alloc, tenants)?,
        pool: pool as u16,
        workers: workers as u8,
        strict: matches.get_flag("strict"),
        verbose: matches.get_flag("verbose"),
        journal: matches.get_flag("journal"),
        times: matches.get_flag("times"),
        mode: mode_of(alloc, matches, workers as u8)?,
    })
}

fn mode_of(alloc: Global, matches: &ArgMatches<'_>, workers: u8) -> Result<Mode, OptionFault>
    requires { 1 ≤ workers }
    ensures asked { IfOk result (λ mode. IsModeAsked (first_value (found_of matches.now)) mode) }
    ensures permitted { IfOk result (λ mode. IsPermittedMode mode) }
    ensures suits { IfOk result (λ mode. SuitsWorkers workers mode) }
{
    match (matches.get_str(LISTEN), matches.get_str("script")) {
        (Some(address), None) => listen_mode(alloc, matches, address, workers),
        (None, Some(script)) if !tell_of_connections(matches) => {
            Ok(Mode::Script(String::from_str(alloc, script)?))
        }
        (None, Some(_)) => Err(OptionFault::Rule(OF_LISTEN)),
        _ => Err(OptionFault::Rule(ONE_MODE)),
    }
}

/// Tells whether there is an option for connections only, other than `--listen`: they come after it in the table.
fn tell_of_connections(matches: &ArgMatches<'_>) -> bool {
    let mut is_after_listen = false;
    for option in command_line().arguments {
        if is_after_listen && is_given(matches, option.name) {
            return true;
        }
        is_after_listen |= option.name == LISTEN;
    }
    false
}

/// Tells whether an option was given.
fn is_given(matches: &ArgMatches<'_>, name: &str) -> bool {
    matches!(matches.value_source(name), Some(ValueSource::CommandLine))
}

/// Gives the mode for connections to this address, with what the other options say of them.
fn listen_mode(
    alloc: Global,
    matches: &ArgMatches<'_>,
    address: &str,
    workers: u8,
) -> Result<Mode, OptionFault>
    requires { 1 ≤ workers }
    ensures listens { IfOk result (λ mode. (listening : _) × (mode ≡ Listen listening) × (string_bytes listening.address ≡ address.now)
        × (first_value (found_of matches.now) (codes "admin") ≡ option_map string_bytes listening.admin)
        × (first_value (found_of matches.now) (codes "http") ≡ option_map string_bytes listening.http)) }
    ensures permitted { IfOk result (λ mode. IsPermittedMode mode) }
    ensures suits { IfOk result (λ mode. SuitsWorkers workers mode) }
{
    let socket_mode = socket_mode_of(matches.get_str("mode"))?;
    let names = names_of(matches)?;
    let shared = shared_of(matches, workers)?;
    let lease = lease_of(alloc, matches)?;
    let Places {
        address,
        admin,
        http,
        http_names,
    } = places_of(alloc, matches, address, names)?;
    let idle = number_of(matches, "idle", MAX_IDLE);
    Ok(Mode::Listen(Listening {
        address,
        admin,
        http,
        http_names,
        connections: number_of(matches, "connections", MAX_CONNECTIONS),
        shared,
        wait: number_of(matches, "wait", MAX_IDLE),
        idle,
        line_time: number_of(matches, "line-time", MAX_IDLE).or(idle),
        faults: number_of(matches, "faults", MAX_FAULTS),
        end_on_failure: matches.get_flag("end-on-failure"),
        lease,
        open: matches.get_flag("open"),
        socket_mode,
    }))
}

/// The addresses at which a server listens, and the names for its pages.
#[derive(Drop)]
struct Places {
    address: String,
    admin: Option<String>,
    http: Option<String>,
    http_names: Vec<String>,
}

/// Copies this address, those that the other options say, and these names.
fn places_of(
    alloc: Global,
    matches: &ArgMatches<'_>,
    address: &str,
    names: &[&str],
) -> Result<Places, AllocError>
    ensures names { IfOk result (λ places. vec_len places.http_names ≡ length names.now) }
    ensures address { IfOk result (λ places. string_bytes places.address ≡ address.now) }
    ensures admin { IfOk result (λ places. first_value (found_of matches.now) (codes "admin") ≡ option_map string_bytes places.admin) }
    ensures http { IfOk result (λ places. first_value (found_of matches.now) (codes "http") ≡ option_map string_bytes places.http) }
{
    Ok(Places {
        address: String::from_str(alloc, address)?,
        admin: copy_of(alloc, matches.get_str("admin"))?,
        http: copy_of(alloc, matches.get_str("http"))?,
        http_names: copies_of(alloc, names)?,
    })
}

/// Gives the names for the pages.
fn names_of<'m, 'a>(matches: &'m ArgMatches<'a>) -> Result<&'m [&'a str], OptionFault>
    ensures { IfOk result (λ names. length names.now ≤ MAX_HTTP_NAMES) }
{
    let Some(names) = matches.get_strs("http-name") else {
        return Ok(&[]);
    };
    if matches.get_str("http").is_none() {
        return Err(OptionFault::Rule(PAGES));
    }
    if names.len() > MAX_HTTP_NAMES || !are_host_names(names) {
        return Err(OptionFault::Rule(HTTP_NAME));
    }
    Ok(names)
}

/// Copies these names.
fn copies_of(alloc: Global, names: &[&str]) -> Result<Vec<String>, AllocError>
    ensures { IfOk result (λ copies. vec_len copies ≡ length names.now) }
{
    let mut copies = Vec::new(alloc);
    for name in names {
        if copies.push(String::from_str(alloc, name)?).is_err() {
            return Err(AllocError);
        }
    }
    Ok(copies)
}

fn are_host_names(names: &[&str]) -> bool {
    names.iter().all(|name| is_host_name(name.as_bytes()))
}

/// Tells whether a text is a name by which the pages may be called.
fn is_host_name(text: &[u8]) -> bool {
    (1..=MAX_HTTP_NAME).contains(&text.len()) && text.iter().all(|byte| is_name_byte(*byte))
}

fn is_name_byte(byte: u8) -> bool {
    byte.is_ascii_alphanumeric() || byte == b'-' || byte == b'.'
}

/// Gives how many clients share the passes of so many workers, if the command line says it.
fn shared_of(matches: &ArgMatches<'_>, workers: u8) -> Result<Option<SharedWorkers>, OptionFault>
    ensures { IfOk result (λ shared. IfSome shared (AreSharedWell workers)) }
{
    let readers = number_of(matches, "readers", u32::from(MAX_WORKERS));
    let Some(clients) = number_of(matches, "clients", u32::from(MAX_CLIENTS)) else {
        return if readers.is_none() {
            Ok(None)
        } else {
            Err(OptionFault::Rule(SHARED))
        };
    };
    let usual = u32::from((workers / WORKERS_A_READER).max(1));
    let readers = readers.unwrap_or(usual);
    if readers >= u32::from(workers) {
        return Err(OptionFault::Rule(SOME_CHANGE));
    }
    Ok(Some(SharedWorkers {
        clients: clients as u16,
        readers: readers as u8,
    }))
}

/// Gives the file mode of a text of octal digits, or that of the owner alone if there is no text.
fn socket_mode_of(text: Option<&str>) -> Result<u32, OptionFault>
    ensures { IfOk result (λ mode. mode ≤ MAX_SOCKET_MODE) }
{
    let Some(text) = text else {
        return Ok(OWNERS_MODE);
    };
    match u32::from_str_radix(text, 8) {
        Ok(mode) if mode <= MAX_SOCKET_MODE => Ok(mode),
        _ => Err(OptionFault::Rule(FILE_MODE)),
    }
}

/// Copies a text, if there is one.
fn copy_of(alloc: Global, text: Option<&str>) -> Result<Option<String>, AllocError>
    ensures { IfOk result (λ copy. option_map (λ bytes. bytes.now) text.entry ≡ option_map string_bytes copy) }
{
    match text {
        Some(text) => Ok(Some(String::from_str(alloc, text)?)),
        None => Ok(None),
    }
}

/// Gives the number of an option, if it was given or has a default: that of the text which clap has for it. It is 1 to `most`;
/// the option's parser checks the range too.
pub(crate) fn number_of(matches: &ArgMatches<'_>, name: &str, most: u32) -> Option<u32>
    ensures range { IfSome result (λ number. IsUpTo most number) }
    ensures read { IfSome result (λ number. IsNumberOf (one_text (found_of matches.now) name.now) number) }
{
    match matches.get_one::<u32>(name) {
        Some(number) if (1..=most).contains(&number) => Some(number),
        _ => None,
    }
}

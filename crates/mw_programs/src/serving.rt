//! Implements `mwserve`: reads the command line, opens the files, and serves the tenants' words.
//!
//! mwserve calls `serve`. docs/OPERATING tells its options, notes and statuses: change them
//! together. Scripts expect notes (`git grep`).
ghost use Rattle.std.specs.Prelude.{◌≡◌, ◌+◌, ◌<◌, ◌≤◌, All, IfOk, IsOk, OnOk, length, map, string_bytes, vec_len};
ghost use Rattle.mw_config.specs.CommandLine.{ArePermittedArgs, AreTaken, IsRefused};
ghost use Rattle.mw_config.specs.Limits.{ArePermitted};
ghost use Rattle.mw_config.specs.declared.command_line.Mode.TheVariants.{Listen, Script};
ghost use Rattle.mw_words.specs.declared.limits.TheConstants.{MAX_TENANTS, MAX_WORKERS};
ghost use Rattle.mw_engine.specs.Passes.{IsNew};
ghost use Rattle.mw_engine.specs.Parts.{identity_of};
ghost use Rattle.mw_opening.specs.TenantsAtPath.{AreReadAt};
ghost use Rattle.mw_programs.specs.Promised.{HasServed, Promises, PromisesOfArgs, PromisesOfStart, ServesScript};
ghost use Rattle.mw_programs.specs.ScriptSession.{RunsScript};

use crate::console::ScriptConsole;
use crate::opened_parts::{OpenedParts, are_all_open, open_parts};
use crate::promise::{EngineNetwork, ServerNetwork, ServerPromise};
use crate::scripts::run_script;
use crate::services::serve_all_clients;
use arrayvec::ArrayVec;
use log::{Log, warn};
use mw_config::{Args, Mode, TenantLine, read_args};
use mw_connections::OpensSockets;
use mw_disk::Disk;
use mw_engine::{Engine, EngineBrand, EngineParts, NoHold, Pass};
use mw_metrics::Meters;
use mw_notes::{NoteForm, Notes};
use mw_opening::{
    FileStates, LockedFiles, OpensDisks, OpensPaths, SeesPaths, SyncsFolders, TenantDisk,
    read_tenants_file, sync_folders,
};
use mw_server::{Server, counted_in, has_room, has_stack_for, workers_of};
use mw_session::FaultWatch;
use mw_upkeep::{FileLook, HeldLease, OpensLeases, ServeFault, ServerEnd, TenantNotes, refuse};
use mw_words::MAX_TENANTS;
use std::io::Write;
use std::marker::Brand;
use std::sync::Wait;
use std::thread::Threads;
use std::time::Clock;

/// Serves what the command line `args` asks for. Its first argument is the program's own name.
///
/// The form is `mwserve --tenants FILE [--pool P] [--workers N] [--strict] [--verbose] [--journal] [--times]`, with one of these:
/// - `--script FILE` runs one session from the script to the console.
/// - `--listen ADDR [--admin ADDR] [--http ADDR [--http-name NAME ..]] [--connections C] [--clients M [--readers R]]
///   [--wait SECONDS] [--idle SECONDS] [--line-time SECONDS] [--faults F] [--end-on-failure]
///   [--lease FILE --lease-time SECONDS] [--open] [--mode MODE]` tells
///   `ready PORT`, or `ready unix:PATH`, to the console. Then N workers serve clients, or M clients share the N workers' passes, until C connections are
///   served. With `--admin`,
///   one worker more is for the clients of that address, if N is below [`MAX_WORKERS`]; else one of the N is. `admin
///   PORT`, or `admin unix:PATH`, is written before `ready`. With `--http`, a thread shows the server's pages there until
///   the server ends, and one worker more is for them in the same way. `http PORT`, or `http unix:PATH`, is written first.
///
/// Gives the exit status:
/// - 0 if the session ended by `QUIT`, with the script, or at a line that was too long, or if all
///   connections were served;
/// - 1 if the session ended otherwise, if a tenant's file didn't open or the limit of descriptors is too low
///   and `--strict` was given, if the limit of the stack is too low for clients, if the script couldn't be opened, if nobody
///   can listen at an address, or if memory was refused;
/// - 2 if the command line or the tenants file is wrong.
///
/// `script`: if clap takes the words of the command line, and they ask for a script, it gives 0 only after a session of that script ended
/// well, of an engine that begins with files which a start opened. Where its bytes are known, the console printed what this session
/// wrote, and nothing else.
///
/// `network` is where it listens. `promise`: what its clients were promised is kept if one engine serves them all that begins with
/// files which a start opened, for the tenants file, the pool and the workers that the words ask for. Of other services nothing is
/// known, so no other can serve them.
///
/// Writes to `err` what went wrong before the first session, and why. It also writes a note on each tenant whose
/// file doesn't open, is in use or fails, and a note when there is no room for connections. With `--listen` it tells before
/// `ready` how many tenants are down, and writes a note on each tenant whose file is replaced, one if the limit of descriptors
/// is too low, and one for each address at which other machines may connect, if `--open` wasn't given. No note keeps a client waiting, if no write to `err`
/// waits. The files stay locked until it returns.
///
/// With `--end-on-failure` it gives `end` the exit status 3 after a note on a tenant whose file fails, or is given up, while
/// it is served. It goes on, and whoever waits for `end` ends the program.
pub fn serve<'a, R, N, Q: ServerPromise, C: ScriptConsole<Q>, E: Write + Send>(
    rt: &R,
    network: ServerNetwork<'a, N, Q>,
    args: &[String],
    console: &mut C,
    err: &mut E,
    end: &'a ServerEnd,
) -> u8
where
    R: AllocGlobal
        + Threads
        + Wait
        + Clock
        + Sync
        + SeesPaths
        + OpensPaths
        + OpensLeases
        + SyncsFolders
        + 'a,
    N: OpensSockets + Clock + Sync,
    requires promise { PromisesOfStart ⟦<TenantDisk<'a, R> as Disk>⟧.facts ⟦<TenantDisk<'a, R> as Disk>⟧.made ⟦<LockedFiles<'a, R> as OpensDisks>⟧.is_over ⟦<LockedFiles<'a, R> as OpensDisks>⟧.is_refused R.is_text (map string_bytes args.now) Q.kept_by Q.shown_by }
    ensures script { result ≡ 0 → AreTaken (map string_bytes args.now)
        → HasServed ⟦<TenantDisk<'a, R> as Disk>⟧.facts ⟦<TenantDisk<'a, R> as Disk>⟧.made ⟦<LockedFiles<'a, R> as OpensDisks>⟧.is_over ⟦<LockedFiles<'a, R> as OpensDisks>⟧.is_refused R.is_text R.is_plain R.Plain.remaining (map string_bytes args.now) (C.printed console.old) (C.printed console.new) }
{
    let args = match read_args(rt.alloc(), args) {
        Ok(args) => args,
        Err(fault) => return refuse(&fault, args, console, err),
    };
    let form = NoteForm {
        verbose: args.verbose,
        levels: args.journal,
        times: args.times,
    };
    let notes = Notes::new(rt, err, form);
    let ended = serve_args(rt, network, args, console, &notes, end);
    let status = status_of(&notes, ended);
    notes.finish();
    status
}

/// Gives the exit status of a server that ended so. Writes a note if memory was refused.
fn status_of<L: Log>(notes: &L, ended: Result<(), ServeFault>) -> u8
    ensures { result ≡ 0 → IsOk ended }
{
    match ended {
        Ok(()) => 0,
        Err(fault) => fault.tell(notes),
    }
}

/// What a server is started with.
#[derive(Drop)]
struct Setup<'a> {
    /// What the command line asks for.
    args: Args,
    /// The tenants of the tenants file.
    lines: ArrayVec<TenantLine, MAX_TENANTS>,
    /// The end of the server.
    end: &'a ServerEnd,
}

impl<'a> Setup<'a> {
    /// Reads the tenants file that the arguments name. Writes a note if it is refused, or the limit of the stack is too low.
    fn read<R: OpensPaths, L: Log>(
        rt: &R,
        args: Args,
        notes: &L,
        end: &'a ServerEnd,
    ) -> Result<Self, ServeFault>
        requires { ArePermittedArgs args }
        ensures args { IfOk result (λ setup. ArePermittedArgs setup.args) }
        ensures given { IfOk result (λ setup. setup.args ≡ args) }
        ensures lines { IfOk result (λ setup. ArePermitted setup.args.pool setup.lines.items) }
        ensures read { IfOk result (λ setup. AreReadAt R.is_text (string_bytes setup.args.tenants) setup.args.pool setup.lines.items) }
    {
        if !has_stack_for(notes, &args.mode) {
            return Err(ServeFault::Failed);
        }
        match read_tenants_file(rt, args.tenants.as_str(), args.pool) {
            Ok(lines) => Ok(Setup { args, lines, end }),
            Err(fault) => {
                fault.tell(notes, args.tenants.as_str());
                Err(ServeFault::Refused)
            }
        }
    }
}

/// Opens what the arguments name, and serves it. It looks for faults in this order: the tenants file, the
/// tenants' files, the script or the listeners. Notes tell them.
fn serve_args<'a, R, N, Q: ServerPromise, C: ScriptConsole<Q>, L: Log + Sync>(
    rt: &R,
    network: ServerNetwork<'a, N, Q>,
    args: Args,
    console: &mut C,
    notes: &L,
    end: &'a ServerEnd,
) -> Result<(), ServeFault>
where
    R: AllocGlobal
        + Threads
        + Wait
        + Clock
        + Sync
        + SeesPaths
        + OpensPaths
        + OpensLeases
        + SyncsFolders
        + 'a,
    N: OpensSockets + Clock + Sync,
    requires args { ArePermittedArgs args }
    requires promise { PromisesOfArgs ⟦<TenantDisk<'a, R> as Disk>⟧.facts ⟦<TenantDisk<'a, R> as Disk>⟧.made ⟦<LockedFiles<'a, R> as OpensDisks>⟧.is_over ⟦<LockedFiles<'a, R> as OpensDisks>⟧.is_refused R.is_text args Q.kept_by Q.shown_by }
    ensures script { (path : _) → args.mode ≡ Script path → OnOk result (ServesScript ⟦<TenantDisk<'a, R> as Disk>⟧.facts ⟦<TenantDisk<'a, R> as Disk>⟧.made ⟦<LockedFiles<'a, R> as OpensDisks>⟧.is_over ⟦<LockedFiles<'a, R> as OpensDisks>⟧.is_refused R.is_text R.is_plain R.Plain.remaining args (string_bytes path) (C.printed console.old) (C.printed console.new)) }
{
    match Setup::read(rt, args, notes, end) {
        Ok(setup) => {
            let (states, meters) = (FileStates::new(setup.args.strict), Meters::new(rt));
            let disks = LockedFiles::new(rt, &states, counted_in(&setup.args.mode, &meters));
            serve_files(
                rt, &disks, network, &setup, console, notes, &states, &meters,
            )
        }
        Err(fault) => Err(fault),
    }
}

/// Opens the tenants' files on these disks, and serves the tenants by an engine of just these files. A tenant whose file isn't open
/// answers FAULT. If `--strict` was given, it serves only if all files are open and the limit of descriptors leaves room. It
/// knows no more of the disks than any code that opens some.
fn serve_files<D, P, R, N, Q, C, L>(
    rt: &R,
    disks: &P,
    network: ServerNetwork<'_, N, Q>,
    setup: &Setup<'_>,
    console: &mut C,
    notes: &L,
    states: &FileStates,
    meters: &Meters,
) -> Result<(), ServeFault>
where
    D: Disk + Drop + Send + Sync,
    P: OpensDisks<Device = D>,
    R: AllocGlobal
        + Threads
        + Wait
        + Clock
        + Sync
        + SeesPaths
        + OpensPaths
        + OpensLeases
        + SyncsFolders,
    N: OpensSockets + Clock + Sync,
    Q: ServerPromise,
    C: ScriptConsole<Q>,
    L: Log + Sync,
    requires args { ArePermittedArgs setup.now.args }
    requires lines { ArePermitted setup.now.args.pool setup.now.lines.items }
    requires read { AreReadAt R.is_text (string_bytes setup.now.args.tenants) setup.now.args.pool setup.now.lines.items }
    requires promise { PromisesOfArgs D.facts D.made P.is_over P.is_refused R.is_text setup.now.args Q.kept_by Q.shown_by }
    ensures script { (path : _) → setup.now.args.mode ≡ Script path → OnOk result (ServesScript D.facts D.made P.is_over P.is_refused R.is_text R.is_plain R.Plain.remaining setup.now.args (string_bytes path) (C.printed console.old) (C.printed console.new)) }
{
    let opened = open_parts(
        rt.alloc(),
        notes,
        &setup.lines,
        disks,
        setup.args.pool,
        workers_of(&setup.args),
        NoHold,
    )?;
    if !may_serve(notes, setup, &opened.are_open) {
        return Err(ServeFault::Failed);
    }
    let lines = setup.lines.as_slice();
    let OpenedParts { are_open, made } = opened;
    sync_folders(rt, notes, lines, &are_open);
    let (parts, passes) = made?;
    let watch = TenantNotes::new(
        rt,
        notes,
        lines,
        states,
        meters,
        &are_open,
        setup.args.strict,
        end_on_failure(setup),
    );
    serve_engine::<Brand, _, _, _, _, _, _, _>(
        rt, parts, passes, network, setup, console, notes, &watch, meters,
    )
}

/// Tells whether the tenants may be served, of whose files these are open. Writes a note if the limit of descriptors is too low,
/// and before clients are served one on how many tenants are down.
fn may_serve<L: Log>(notes: &L, setup: &Setup<'_>, are_open: &[bool]) -> bool
    requires args { ArePermittedArgs setup.now.args }
    requires tenants { length setup.now.lines.items ≤ MAX_TENANTS }
{
    let args = &setup.args;
    if args.strict && !are_all_open(are_open) {
        return false;
    }
    if !has_room(notes, args, setup.lines.len()) && args.strict {
        return false;
    }
    if let Mode::Listen(_) = &args.mode {
        note_down(notes, are_open);
    }
    true
}

/// Gives the end of a server that ends when a tenant's file fails.
fn end_on_failure<'a>(setup: &Setup<'a>) -> Option<&'a ServerEnd> {
    match &setup.args.mode {
        Mode::Listen(listening) if listening.end_on_failure => Some(setup.end),
        _ => None,
    }
}

/// Writes a note on how many tenants are down, if some are.
fn note_down<L: Log>(notes: &L, are_open: &[bool]) {
    let (mut down, all) = (0usize, are_open.len());
    for is_open in are_open {
        if !*is_open {
            down = down.saturating_add(1);
        }
    }
    if down > 0 {
        warn!(notes; "mwserve: {down} of {all} tenants down");
    }
}

/// Starts the engine, uses the network up for it, and serves what the command line asks for.
fn serve_engine<
    J: EngineBrand + Send + Sync,
    D: Disk + Drop + Send + Sync,
    R,
    N,
    Q: ServerPromise,
    C: ScriptConsole<Q>,
    L: Log + Sync,
    T: FaultWatch + FileLook + Sync,
>(
    rt: &R,
    parts: EngineParts<D, NoHold>,
    passes: Vec<Pass>,
    network: ServerNetwork<'_, N, Q>,
    setup: &Setup<'_>,
    console: &mut C,
    notes: &L,
    watch: &T,
    meters: &Meters,
) -> Result<(), ServeFault>
where
    R: AllocGlobal + Threads + Wait + Clock + Sync + OpensPaths + OpensLeases,
    N: OpensSockets + Clock + Sync,
    requires identity { identity_of parts ≡ J.identity }
    requires new { All (IsNew J.identity) passes.items }
    requires some { 0 < vec_len passes }
    requires args { ArePermittedArgs setup.now.args }
    requires promise { Promises D.facts J.identity (Q.kept_by J.identity) (Q.shown_by J.identity) }
    ensures script { (path : _) → setup.now.args.mode ≡ Script path
        → OnOk result (RunsScript R.is_plain R.Plain.remaining (string_bytes path) (C.printed console.old) (C.printed console.new) J.identity) }
{
    match parts.into_engine::<J>(rt.alloc()) {
        Ok(engine) => serve_started(
            rt,
            &engine,
            passes,
            &network.for_engine::<J>(),
            setup,
            console,
            notes,
            watch,
            meters,
        ),
        Err(_) => Err(ServeFault::Memory),
    }
}

/// Serves what the command line asks for, by a started engine.
fn serve_started<
    'e,
    J: EngineBrand + Send + Sync,
    D: Disk + Drop + Send + Sync,
    R,
    N,
    Q: ServerPromise,
    C: ScriptConsole<Q>,
    L: Log + Sync,
    T: FaultWatch + FileLook + Sync,
>(
    rt: &'e R,
    engine: &'e Engine<J, D, NoHold>,
    passes: Vec<Pass>,
    network: &'e EngineNetwork<'e, N, Q, J>,
    setup: &'e Setup<'e>,
    console: &mut C,
    notes: &'e L,
    watch: &'e T,
    meters: &'e Meters,
) -> Result<(), ServeFault>
where
    R: AllocGlobal + Threads + Wait + Clock + Sync + OpensPaths + OpensLeases,
    N: OpensSockets + Clock + Sync,
    requires new { All (IsNew J.identity) passes.items }
    requires some { 0 < vec_len passes }
    requires args { ArePermittedArgs setup.now.args }
    requires promise { Promises D.facts J.identity (Q.kept_by J.identity) (Q.shown_by J.identity) }
    ensures script { (path : _) → setup.now.args.mode ≡ Script path
        → OnOk result (RunsScript R.is_plain R.Plain.remaining (string_bytes path) (C.printed console.old) (C.printed console.new) J.identity) }
{
    match &setup.args.mode {
        Mode::Script(path) => run_script(
            rt,
            engine,
            passes,
            network,
            path.as_str(),
            console,
            notes,
            watch,
        ),
        Mode::Listen(listening) => {
            let held = HeldLease::take(rt, listening.lease.as_ref(), meters, notes)?;
            let server = Server {
                rt,
                network: network.network(),
                listening,
                notes,
                watch,
                meters,
                held: held.as_ref(),
            };
            serve_all_clients(&server, engine, passes, console)
        }
    }
}

//! Finds out whether the limits of descriptors and of the stack leave room for what a server needs.
//!
//! mw_programs asks before it serves clients. `specs/Descriptors`, docs/OPERATING and scripts/check-limits (`NEEDED`,
//! `WITH_ADMIN`, `STACK`) have the same numbers: change them together.
ghost use Rattle.std.specs.Prelude.{◌≡◌, ◌≤◌};
ghost use Rattle.mw_server.specs.Descriptors.{needed, needed_to_wait};
ghost use Rattle.mw_config.specs.CommandLine.{ArePermittedArgs};
ghost use Rattle.mw_words.specs.declared.limits.TheConstants.{MAX_TENANTS};

use crate::worker_count::served_at_once;
use log::{Log, error, warn};
use mw_config::{Args, Mode};
use mw_words::MAX_TENANTS;
use mw_workers::{DESK_QUEUE, QUEUE, WAITING};

/// How many standard streams a program has.
const STREAMS: u64 = 3;

/// How many more are needed to look at the tenants' files: one is opened at a time.
const FOR_LOOKS: u64 = 1;

/// How many more are needed for the administrator's address: its listener, what ends the wait there, the connections that
/// wait for their turn, and one that is being accepted.
const FOR_ADMIN: u64 = 3 + DESK_QUEUE as u64;

/// How many more are needed for the address of the pages: its listener, and what ends the wait there.
const FOR_PAGES: u64 = 2;

/// How many are needed for connections that no session serves yet: those that wait for one, and one that is being accepted.
/// If they wait for a limited time, one more is on its way to a session.
fn needed_to_wait(is_limited: bool) -> u64
    ensures { result ≡ needed_to_wait is_limited }
{
    if is_limited {
        WAITING as u64 + 2
    } else {
        QUEUE as u64 + 1
    }
}

/// Gives how many descriptors a server needs: for the standard streams, the tenants' files and a look at them, the listener,
/// each connection that is served at once, and the connections that wait for a session, for ever or for a limited time. With an address for
/// the administrator it needs more, and with one for the pages too. A lease needs one.
fn needed(
    tenants: usize,
    served: u16,
    is_limited: bool,
    has_admin: bool,
    has_pages: bool,
    has_lease: bool,
) -> u64
    requires { tenants ≤ MAX_TENANTS }
    ensures { result ≡ needed tenants served is_limited has_admin has_pages has_lease }
{
    let connections = u64::from(served) + needed_to_wait(is_limited);
    let clients = STREAMS + tenants as u64 + FOR_LOOKS + 1 + connections;
    let admin = if has_admin { FOR_ADMIN } else { 0 };
    let pages = if has_pages { FOR_PAGES } else { 0 };
    clients + admin + pages + u64::from(has_lease)
}

/// Tells whether the limit of descriptors leaves room for the clients of so many tenants, and writes a note if not. A
/// script has no clients.
pub fn has_room<L: Log>(notes: &L, args: &Args, tenants: usize) -> bool
    requires args { ArePermittedArgs args.now }
    requires tenants { tenants ≤ MAX_TENANTS }
{
    match &args.mode {
        Mode::Script(_) => true,
        Mode::Listen(listening) => {
            let served = served_at_once(args, listening);
            let needed = needed(
                tenants,
                served,
                listening.wait.is_some(),
                listening.admin.is_some(),
                listening.http.is_some(),
                listening.lease.is_some(),
            );
            has_descriptors(notes, needed)
        }
    }
}

/// How large the stack of a thread must be, in bytes. The system gives each the limit of the stack.
const STACK: u64 = 524_288;

/// Gives how much the system lets this program have of a resource, or None if it doesn't tell.
fn limit_of(resource: i32) -> Option<u64> {
    let mut limit = libc::types::rlimit {
        rlim_cur: 0,
        rlim_max: 0,
    };
    if libc::getrlimit(resource, &mut limit) == 0 {
        Some(limit.rlim_cur)
    } else {
        None
    }
}

/// Tells whether the program may have so many descriptors, and writes a note if not.
fn has_descriptors<L: Log>(notes: &L, needed: u64) -> bool {
    match limit_of(libc::RLIMIT_NOFILE) {
        Some(limit) if limit < needed => {
            warn!(notes; "mwserve: too few descriptors");
            warn!(notes; "limit {limit}, needed {needed}");
            false
        }
        _ => true,
    }
}

/// Tells whether the limit of the stack is large enough for a thread, and writes a note if not.
fn has_stack<L: Log>(notes: &L) -> bool {
    match limit_of(libc::RLIMIT_STACK) {
        Some(limit) if limit < STACK => {
            error!(notes; "mwserve: small stack");
            error!(notes; "limit {limit}, needed {STACK}");
            false
        }
        _ => true,
    }
}

/// Tells whether the limit of the stack is large enough for the threads of a server, and writes a note if not. A script has none.
pub fn has_stack_for<L: Log>(notes: &L, mode: &Mode) -> bool {
    match mode {
        Mode::Listen(_) => has_stack(notes),
        Mode::Script(_) => true,
    }
}

//! How many workers a server has, and how many connections it serves at once, by its command line.
//!
//! Used by: `descriptors`; mw_programs, which makes so many. Change it with `specs/WorkerCount` and docs/OPERATING.
ghost use Rattle.std.specs.Prelude.{◌≡◌, ◌+◌, ◌≤◌};
ghost use Rattle.mw_config.specs.CommandLine.{ArePermittedArgs};
ghost use Rattle.mw_config.specs.declared.command_line.Mode.TheVariants.{Listen};
ghost use Rattle.mw_words.specs.declared.limits.TheConstants.{MAX_WORKERS};
ghost use Rattle.mw_server.specs.WorkerCount.{one_for, own_workers, served_count, worker_count};

use mw_config::{Args, Listening, Mode};
use mw_server_pages::Capacity;
use mw_words::MAX_WORKERS;

/// Gives the number of workers: as many as were asked for, and one for each further address, but at most [`MAX_WORKERS`].
pub fn workers_of(args: &Args) -> u8
    requires { ArePermittedArgs args.now }
    ensures range { (1 ≤ result) × (result ≤ MAX_WORKERS) }
    ensures count { result ≡ worker_count args.now }
{
    MAX_WORKERS.min(args.workers + own_workers(&args.mode))
}

/// Gives how many workers there are for further addresses. A script has none.
fn own_workers(mode: &Mode) -> u8
    ensures count { result ≡ own_workers mode.now }
    ensures few { result ≤ 2 }
{
    match mode {
        Mode::Listen(listening) => for_further(listening),
        Mode::Script(_) => 0,
    }
}

/// Gives how many connections are served at once, those of the administrator and of the pages included.
pub(crate) fn served_at_once(args: &Args, listening: &Listening) -> u16
    requires args { ArePermittedArgs args.now }
    requires mode { args.now.mode ≡ Listen listening.now }
    ensures count { result ≡ served_count args.now listening.now }
{
    match &listening.shared {
        Some(shared) => shared.clients + u16::from(for_further(listening)),
        None => u16::from(workers_of(args)),
    }
}

/// Gives how many workers there are for further addresses: one for the administrator's, and one for that of the pages.
fn for_further(listening: &Listening) -> u8
    ensures count { result ≡ one_for listening.now.admin + one_for listening.now.http }
    ensures few { result ≤ 2 }
{
    u8::from(listening.admin.is_some()) + u8::from(listening.http.is_some())
}

/// Gives how much a server can do at once that has so many passes beside that of the pages, as mw_programs deals them out.
pub fn capacity(listening: &Listening, passes: usize) -> Capacity {
    let Some(shared) = &listening.shared else {
        return Capacity {
            workers: 0,
            sessions: passes as u64,
        };
    };
    let admin = usize::from(listening.admin.is_some());
    let left = passes.saturating_sub(admin);
    let reads = left.saturating_sub(1).min(usize::from(shared.readers));
    Capacity {
        workers: left.saturating_sub(reads) as u64,
        sessions: u64::from(shared.clients) + admin as u64,
    }
}

//! Runs one session, from a script to the console.
//!
//! Used by: `serving`, for `--script`. docs/OPERATING tells its note and its statuses: change them together.
ghost use Rattle.std.specs.Prelude.{All, IfOk, OnOk, vec_len, ◌<◌};
ghost use Rattle.mw_engine.specs.Passes.{IsNew};
ghost use Rattle.mw_programs.specs.Promised.{Promises};
ghost use Rattle.mw_programs.specs.ScriptSession.{EndedWell, RunsScript};

use crate::console::ScriptConsole;
use crate::promise::{EngineNetwork, ServerPromise};
use crate::services::first_worker;
use log::{Log, error};
use mw_disk::Disk;
use mw_engine::{Engine, EngineBrand, NoHold, Pass};
use mw_notes::note_why;
use mw_opening::OpensPaths;
use mw_session::{Ended, FaultWatch};
use mw_upkeep::ServeFault;
use std::sync::Wait;
use std::time::Clock;

/// Runs one session, from the script to the console, by the first worker.
pub(crate) fn run_script<
    'e,
    J: EngineBrand,
    K: EngineBrand,
    D: Disk + Drop,
    R,
    N,
    Q: ServerPromise,
    C: ScriptConsole<Q>,
    L: Log,
    T: FaultWatch,
>(
    rt: &'e R,
    engine: &'e Engine<J, D, NoHold>,
    passes: Vec<Pass>,
    network: &EngineNetwork<'_, N, Q, K>,
    path: &str,
    console: &mut C,
    notes: &L,
    watch: &'e T,
) -> Result<(), ServeFault>
where
    R: OpensPaths + AllocGlobal + Wait + Clock,
    requires new { All (IsNew J.identity) passes.items }
    requires some { 0 < vec_len passes }
    requires promise { Promises D.facts J.identity (Q.kept_by K.identity) (Q.shown_by K.identity) }
    ensures script { OnOk result (RunsScript R.is_plain R.Plain.remaining path.now (C.printed console.old) (C.printed console.new) J.identity) }
{
    let script = open_script(rt, path, notes)?;
    let mut worker = first_worker(rt, engine, passes, watch)?;
    outcome(console.run(rt.alloc(), network, script, &mut worker))
}

/// Opens a script. Writes a note if it can't be read.
fn open_script<R: OpensPaths, L: Log>(rt: &R, path: &str, notes: &L) -> Result<R::Plain, ServeFault>
    ensures { IfOk result (λ script. R.is_plain path.now script) }
{
    match rt.open_plain(path) {
        Ok(script) => Ok(script),
        Err(fault) => {
            error!(notes; "mwserve: cannot read");
            note_why(notes, path, "", &fault);
            Err(ServeFault::Failed)
        }
    }
}

/// Tells whether a script's session ended well. A fault that ended it has no note.
fn outcome(ended: Ended) -> Result<(), ServeFault>
    ensures { OnOk result (EndedWell ended) }
{
    match ended {
        Ended::Quit | Ended::PeerEnd | Ended::TooLong => Ok(()),
        Ended::ReadFault | Ended::WriteFault(_) | Ended::Memory => Err(ServeFault::Failed),
    }
}

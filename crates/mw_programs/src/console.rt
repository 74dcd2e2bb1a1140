//! The standard output of a server: where it listens, or what a script's session is told.
//!
//! Used by: `serving`, `scripts`; mwserve, which gives `serve` a [`Printed`]. docs/OPERATING tells what is printed: change
//! both together.
ghost use Rattle.std.specs.Prelude.{◌≡◌, ℕ, List, Option};
ghost use Rattle.mw_session.specs.Talk.{Call};
ghost use Rattle.mw_service.specs.EngineAnswers.{ByWorker};
ghost use Rattle.mw_programs.specs.ScriptSession.{IsOfScript};

use crate::lent_writer::LentWriter;
use crate::promise::{EngineNetwork, ServerPromise};
use mw_config::ArgFault;
use mw_disk::Disk;
use mw_engine::{EngineBrand, NoHold};
use mw_service::Worker;
use mw_session::{Duplex, Ended, FaultWatch, RecordedStream};
use mw_upkeep::{Address, Console};
use std::alloc::Global;
use std::fmt::Display;
use std::io::{self, Read, Write};
use std::sync::Wait;

/// A console that can run a script, which is answered as `Q` promises.
pub trait ScriptConsole<Q: ServerPromise>: Console {
    // The bytes that it has printed, where they are known.
    ghost printed: { Self → Option (List ℕ) };

    /// Serves one session, which reads the script and prints the replies, by this worker. Gives how the session ended. `keeps`: the
    /// worker keeps what was promised of the engine `K`, for which the server's network was used up. `session`: the worker served
    /// this session, and the console printed what it wrote, and nothing else, where their bytes are known. A script may never end,
    /// so this may wait for ever.
    fn run<N, K, I, J, D, R, T>(
        &mut self,
        alloc: Global,
        network: &EngineNetwork<'_, N, Q, K>,
        script: I,
        worker: &mut Worker<'_, J, D, NoHold, R, T>,
    ) -> Ended
    where
        K: EngineBrand,
        I: Read + Drop,
        J: EngineBrand,
        D: Disk + Drop,
        R: Wait,
        T: FaultWatch,
        requires keeps { (calls : List Call) → ByWorker J.identity calls → Q.kept_by K.identity calls }
        ensures session { IsOfScript (I.remaining script) (printed self.old) (printed self.new) J.identity worker.old.pass worker.new.pass result };
}

/// A console that prints by a writer, which it owns.
#[derive(Drop)]
pub struct Printed<W> {
    out: W,
}

impl<W: Write> Printed<W> {
    /// Makes a console that prints here.
    pub fn new(out: W) -> Self
        ensures { result.out ≡ out }
    {
        Printed { out }
    }
}

impl<W: Write> Console for Printed<W> {
    fn tell(&mut self, which: Address, port: Option<u16>, address: &str) -> io::Result<()> {
        match port {
            Some(port) => tell_line(&mut self.out, which.word(), &port),
            None => tell_line(&mut self.out, which.word(), &address),
        }
    }

    // The text that clap makes ends with a line feed.
    fn help(&mut self, asked: &ArgFault) -> io::Result<()> {
        write!(self.out, "{asked}")
    }
}

impl<W: Write, Q: ServerPromise> ScriptConsole<Q> for Printed<W> {
    ghost printed = { λ console. W.contents console.out };

    fn run<N, K, I, J, D, R, T>(
        &mut self,
        alloc: Global,
        _network: &EngineNetwork<'_, N, Q, K>,
        script: I,
        worker: &mut Worker<'_, J, D, NoHold, R, T>,
    ) -> Ended
    where
        K: EngineBrand,
        I: Read + Drop,
        J: EngineBrand,
        D: Disk + Drop,
        R: Wait,
        T: FaultWatch,
    {
        // The script is lent too: of a stream that owns it, the proof doesn't know at the end what the writer took.
        let mut script = script;
        let mut stream = RecordedStream::new(Duplex {
            reader: &mut script,
            writer: LentWriter { out: &mut self.out },
        });
        worker.run(alloc, &mut stream)
    }
}

/// Writes this word and a place after it, and flushes.
fn tell_line<O: Write, P: Display>(out: &mut O, word: &str, place: &P) -> io::Result<()> {
    writeln!(out, "{word} {place}")?;
    out.flush()
}

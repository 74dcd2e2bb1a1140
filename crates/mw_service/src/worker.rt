//! A worker: it serves sessions with its pass, its handle to the engine.
//!
//! Used by: `served`, mw_programs, for a script and for each client of a server without `--clients`. Change it with
//! `specs/Served`. docs/PROMISES cites `Worker::run`.
ghost use Rattle.std.specs.Prelude.{◌≡◌, true};
ghost use Rattle.std.specs.Io.KnownBytes.{IsAtEnd};
ghost use Rattle.mw_session.specs.KnownStreams.{IsTied, inner_of, reads_of, writes_of};
ghost use Rattle.mw_session.specs.RecordedCalls.{HasMade};
ghost use Rattle.mw_session.specs.declared.session.Ended.TheVariants.{PeerEnd};
ghost use Rattle.mw_engine.specs.Passes.{IsPassOf};
ghost use Rattle.mw_service.specs.Served.{IsSession};

use mw_disk::Disk;
use mw_engine::{Engine, EngineBrand, Hold, Pass};
use mw_session::{Ended, FaultWatch, NoOthers, PeerStream, RecordedStream, Session};
use std::alloc::Global;
use std::sync::Wait;

/// A worker of an engine. Its pass is idle between two requests.
#[derive(Drop)]
pub struct Worker<'a, J: EngineBrand, D: Disk, H, R, T> {
    pub(crate) engine: &'a Engine<J, D, H>,
    pub(crate) pass: Pass,
    pub(crate) rt: &'a R,
    pub(crate) watch: &'a T,
    ghost own: { IsPassOf J.identity pass },
    ghost idle: { pass.idle ≡ true },
}

impl<'a, J: EngineBrand, D: Disk, H, R, T> Worker<'a, J, D, H, R, T> {
    /// Makes a worker with this pass. It tells the watch of each request that is answered FAULT.
    pub fn new(engine: &'a Engine<J, D, H>, pass: Pass, rt: &'a R, watch: &'a T) -> Self
        requires own { IsPassOf J.identity pass }
        requires idle { pass.idle ≡ true }
        ensures { result.pass ≡ pass }
    {
        Worker {
            engine,
            pass,
            rt,
            watch,
        }
    }
}

impl<J: EngineBrand, D: Disk + Drop, H: Hold + Drop, R: Wait, T: FaultWatch> Worker<
    '_,
    J,
    D,
    H,
    R,
    T,
> {
    /// Serves one session: reads its lines and writes the reply to each, until it ends.
    ///
    /// Each reply to a job is right at a position in its tenant's history, or has its evidence. The
    /// position is no earlier than what the worker had seen when it asked. A stream may never end, so this
    /// may wait for ever.
    pub fn run<I: PeerStream>(&mut self, alloc: Global, stream: &mut RecordedStream<I>) -> Ended
        ensures session { IsSession J.identity (reads_of stream.old) (reads_of stream.new) (writes_of stream.old) (writes_of stream.new)
            self.old.pass self.new.pass result }
        ensures tied { IsTied I.remaining I.contents stream.old stream.new }
        ensures made { HasMade I.called stream.old stream.new }
        ensures at_end { result ≡ PeerEnd → IsAtEnd (I.remaining (inner_of stream.new)) }
    {
        let rt = self.rt;
        Session::run(alloc, rt, &NoOthers, stream, self)
    }
}

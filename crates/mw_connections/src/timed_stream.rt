//! The stream of a client's socket, within the limits of its waits, which `time_limits.rt` calculates.
//!
//! `sockets.rt` makes one for each client's session, and `brief.rt` one for each client that stays for one request.
//! Nothing is proved of sockets. [`FAREWELL`] may have another number; docs/PROTOCOL and docs/OPERATING tell it.
ghost use Rattle.std.specs.Prelude.{◌≡◌, None, IfSome};
ghost use Rattle.std.specs.Io.{ReadsAtMost, WritesAtMost};

use crate::time_limits::{Times, WaitLimits, left_of, lesser};
use mw_metrics::ServerCounters;
use mw_session::{Others, PeerStream};
use std::io::{self, ErrorKind, Read, Write};
use std::net::{Shutdown, TcpStream};
use std::sync::Wait;
use std::time::{Clock, Duration, Instant};

/// How long a client that was told all is still read before its connection is closed, in seconds.
const FAREWELL: u64 = 1;

/// A client's socket, what limits its waits, and what counts its bytes. A call fails if a limit is over, or the clock can't be
/// read. When its writing has ended it is read for [`FAREWELL`] at most.
#[derive(Drop)]
pub struct TimedStream<'a, K> {
    stream: TcpStream,
    clock: &'a K,
    /// The limits of a session whose worker nobody waits for.
    limits: WaitLimits,
    reading: Pace,
    writing: Pace,
    /// What counts the bytes, if they are counted.
    counters: Option<&'a ServerCounters>,
}

/// The times of one direction, and the limit of a wait that the socket has now.
#[derive(Clone, Copy)]
struct Pace {
    times: Times,
    set: Option<Duration>,
    /// The time for all calls of this direction, if that is limited. Then nothing else limits them.
    all: Option<Span>,
}

/// A time of so long from a moment on.
#[derive(Clone, Copy)]
pub(crate) struct Span {
    pub(crate) begun: Instant,
    pub(crate) long: Duration,
}

impl Pace {
    /// Gives the pace of a direction in which nothing was sent. The socket has the limit `set`.
    fn new(set: Option<Duration>, all: Option<Span>) -> Pace {
        Pace {
            times: Times::new(),
            set,
            all,
        }
    }

    /// Tells whether a call that begins now has to ask a clock. If not, it may wait for a whole silence.
    fn needs_clock(&self, limits: &WaitLimits) -> bool {
        self.all.is_some() || self.times.need_clock(limits)
    }

    /// Gives how long a call that began at `called` may still wait at `now`, by whether others wait for the worker. None: it
    /// may wait for ever.
    ///
    /// # Errors
    ///
    /// A limit is over.
    fn wait_left(
        &self,
        limits: &WaitLimits,
        called: Instant,
        now: Instant,
        others: bool,
    ) -> io::Result<Option<Duration>> {
        let left = match self.all {
            Some(all) => left_of(Some(all.long), all.begun, now),
            None => self.times.wait_left(limits, called, now, others),
        };
        if left == Some(Duration::ZERO) {
            return Err(io::Error::from(ErrorKind::TimedOut));
        }
        Ok(left)
    }
}

impl<'a, K> TimedStream<'a, K> {
    /// Makes the stream of a session that begins. The socket has these limits: a read waits for a whole silence, and a
    /// write as [`WaitLimits::write_wait`] says.
    pub(crate) fn new(
        stream: TcpStream,
        clock: &'a K,
        limits: WaitLimits,
        counters: Option<&'a ServerCounters>,
    ) -> Self {
        TimedStream {
            stream,
            clock,
            limits,
            reading: Pace::new(limits.silence, None),
            writing: Pace::new(limits.write_wait(), None),
            counters,
        }
    }

    /// Makes the stream of a client that stays for one request. All reads have one of these times, and all writes the other.
    /// The socket has no limits yet.
    pub(crate) fn brief(stream: TcpStream, clock: &'a K, request: Span, whole: Span) -> Self {
        TimedStream {
            stream,
            clock,
            limits: WaitLimits::NONE,
            reading: Pace::new(None, Some(request)),
            writing: Pace::new(None, Some(whole)),
            counters: None,
        }
    }

    /// Counts bytes that the client sent.
    fn count_received(&self, count: usize) {
        if let Some(counters) = self.counters {
            counters.record_received(count as u64);
        }
    }

    /// Counts bytes that the client was sent.
    fn count_sent(&self, count: usize) {
        if let Some(counters) = self.counters {
            counters.record_sent(count as u64);
        }
    }

    /// Notes what a read gave: counts the bytes, and goes on with the times.
    fn note_read(&mut self, answer: &io::Result<usize>, piece: &[u8])
        requires { ReadsAtMost answer.now piece.now }
    {
        if let Ok(count) = answer {
            self.count_received(*count);
            self.reading.times = self.reading.times.after_piece(&piece[..*count]);
        }
    }

    /// Notes what a write took: counts the bytes, and goes on with the times.
    fn note_write(&mut self, answer: &io::Result<usize>, text: &[u8]) {
        if let Ok(count) = answer {
            self.count_sent(*count);
            self.writing.times = self.writing.times.after_write(*count == text.len());
        }
    }

    /// Gives the limits while these others may wait for the worker.
    fn limits_beside<O: Others>(&self, others: &O) -> WaitLimits {
        WaitLimits {
            silence: self.limits.silence,
            line: self.limits.line,
            turn: others.turn(),
        }
    }

    /// Limits the waits of the socket's reads so, if they have another limit.
    fn limit_reads(&mut self, wait: Option<Duration>) -> io::Result<()> {
        if wait == self.reading.set {
            return Ok(());
        }
        self.stream.set_read_timeout(wait)?;
        self.reading.set = wait;
        Ok(())
    }

    /// Reads once, and waits at most for so long.
    fn read_within(&mut self, wait: Option<Duration>, piece: &mut [u8]) -> io::Result<usize>
        ensures { ReadsAtMost result piece.new }
    {
        match self.limit_reads(wait) {
            Ok(()) => self.stream.read(piece),
            Err(fault) => Err(fault),
        }
    }

    /// Limits the waits of the socket's writes so, if they have another limit.
    fn limit_writes(&mut self, wait: Option<Duration>) -> io::Result<()> {
        if wait == self.writing.set {
            return Ok(());
        }
        self.stream.set_write_timeout(wait)?;
        self.writing.set = wait;
        Ok(())
    }

    /// Writes once, and waits at most for so long.
    fn write_within(&mut self, wait: Option<Duration>, text: &[u8]) -> io::Result<usize>
        ensures { WritesAtMost result text.now }
    {
        match self.limit_writes(wait) {
            Ok(()) => self.stream.write(text),
            Err(fault) => Err(fault),
        }
    }
}

impl<K: Clock> TimedStream<'_, K> {
    /// Reads once within the limits, by the clock only if it must.
    fn read_in_time<R: Wait, O: Others>(
        &mut self,
        rt: &R,
        others: &O,
        piece: &mut [u8],
    ) -> io::Result<usize>
        ensures { ReadsAtMost result piece.new }
    {
        let limits = self.limits_beside(others);
        if self.reading.needs_clock(&limits) {
            self.read_by_clock(rt, others, &limits, piece)
        } else {
            self.read_at_first(rt, others, &limits, piece)
        }
    }

    /// Writes once within the limits, by the clock only if it must.
    fn write_in_time<R: Wait, O: Others>(
        &mut self,
        rt: &R,
        others: &O,
        text: &[u8],
    ) -> io::Result<usize>
        ensures { WritesAtMost result text.now }
    {
        let limits = self.limits_beside(others);
        if self.writing.needs_clock(&limits) {
            self.write_by_clock(rt, others, &limits, text)
        } else {
            self.write_at_first(rt, others, &limits, text)
        }
    }

    /// Reads until a limit is over, which the clock tells.
    fn read_by_clock<R: Wait, O: Others>(
        &mut self,
        rt: &R,
        others: &O,
        limits: &WaitLimits,
        piece: &mut [u8],
    ) -> io::Result<usize>
        ensures { ReadsAtMost result piece.new }
    {
        let called = Instant::now(self.clock)?;
        self.reading.times = self.reading.times.started(called);
        self.read_from(rt, others, limits, called, piece)
    }

    /// Reads until a limit of a call that began at `called` is over.
    fn read_from<R: Wait, O: Others>(
        &mut self,
        rt: &R,
        others: &O,
        limits: &WaitLimits,
        called: Instant,
        piece: &mut [u8],
    ) -> io::Result<usize>
        ensures { ReadsAtMost result piece.new }
    {
        let mut now = called;
        for _ in rt.forever() {
            let left = self.reading.wait_left(limits, called, now, others.wait());
            if let Some(answer) = self.read_for(left, piece) {
                return answer;
            }
            now = Instant::now(self.clock)?;
        }
        unreachable!()
    }

    /// Reads once, if a wait is left. None: nothing came meanwhile, and it may be read again.
    fn read_for(
        &mut self,
        left: io::Result<Option<Duration>>,
        piece: &mut [u8],
    ) -> Option<io::Result<usize>>
        ensures { IfSome result (λ answer. ReadsAtMost answer piece.new) }
    {
        match left {
            Ok(wait) => unless_no_end(self.read_within(wait, piece)),
            Err(fault) => Some(Err(fault)),
        }
    }

    /// Reads once for a whole silence. If a signal cuts that short, it reads on by the clock.
    fn read_at_first<R: Wait, O: Others>(
        &mut self,
        rt: &R,
        others: &O,
        limits: &WaitLimits,
        piece: &mut [u8],
    ) -> io::Result<usize>
        ensures { ReadsAtMost result piece.new }
    {
        match self.read_within(limits.silence, piece) {
            Err(fault) if fault.kind() == ErrorKind::Interrupted => {
                self.read_by_clock(rt, others, limits, piece)
            }
            answer => answer,
        }
    }

    /// Writes until a limit is over, which the clock tells.
    fn write_by_clock<R: Wait, O: Others>(
        &mut self,
        rt: &R,
        others: &O,
        limits: &WaitLimits,
        text: &[u8],
    ) -> io::Result<usize>
        ensures { WritesAtMost result text.now }
    {
        let called = Instant::now(self.clock)?;
        self.writing.times = self.writing.times.started(called);
        self.write_from(rt, others, limits, called, text)
    }

    /// Writes until a limit of a call that began at `called` is over.
    fn write_from<R: Wait, O: Others>(
        &mut self,
        rt: &R,
        others: &O,
        limits: &WaitLimits,
        called: Instant,
        text: &[u8],
    ) -> io::Result<usize>
        ensures { WritesAtMost result text.now }
    {
        let mut now = called;
        for _ in rt.forever() {
            let left = self.writing.wait_left(limits, called, now, others.wait());
            if let Some(answer) = self.write_for(left, limits, text) {
                return answer;
            }
            now = Instant::now(self.clock)?;
        }
        unreachable!()
    }

    /// Writes once, if a wait is left. None: nothing was taken meanwhile, and it may be written again.
    fn write_for(
        &mut self,
        left: io::Result<Option<Duration>>,
        limits: &WaitLimits,
        text: &[u8],
    ) -> Option<io::Result<usize>>
        ensures { IfSome result (λ answer. WritesAtMost answer text.now) }
    {
        match left {
            Ok(wait) => unless_no_end(self.write_within(lesser(wait, limits.write_wait()), text)),
            Err(fault) => Some(Err(fault)),
        }
    }

    /// Writes once for a while. If nothing was taken meanwhile, it writes on by the clock.
    fn write_at_first<R: Wait, O: Others>(
        &mut self,
        rt: &R,
        others: &O,
        limits: &WaitLimits,
        text: &[u8],
    ) -> io::Result<usize>
        ensures { WritesAtMost result text.now }
    {
        match self.write_within(limits.write_wait(), text) {
            Err(fault) if is_no_end(&fault) => self.write_by_clock(rt, others, limits, text),
            answer => answer,
        }
    }
}

/// Gives the answer of a call. None: it may be made again.
fn unless_no_end(answer: io::Result<usize>) -> Option<io::Result<usize>>
    ensures { IfSome result (λ given. given ≡ answer) }
{
    match answer {
        Err(fault) if is_no_end(&fault) => None,
        answer => Some(answer),
    }
}

/// Tells whether a call gave nothing because its time was over or a signal came, and may be made again.
fn is_no_end(fault: &io::Error) -> bool {
    matches!(fault.kind(), ErrorKind::WouldBlock | ErrorKind::Interrupted)
}

impl<K: Clock> PeerStream for TimedStream<'_, K> {
    ghost remaining = { λ _. None };

    ghost contents = { λ _. None };

    fn read<R: Wait, O: Others>(
        &mut self,
        rt: &R,
        others: &O,
        piece: &mut [u8],
    ) -> io::Result<usize> {
        let answer = self.read_in_time(rt, others, piece);
        self.note_read(&answer, piece);
        answer
    }

    fn write<R: Wait, O: Others>(&mut self, rt: &R, others: &O, text: &[u8]) -> io::Result<usize> {
        let answer = self.write_in_time(rt, others, text);
        self.note_write(&answer, text);
        answer
    }

    fn end_writing(&mut self) -> io::Result<()> {
        let begun = Instant::now(self.clock)?;
        self.stream.shutdown(Shutdown::Write)?;
        self.reading.all = Some(Span {
            begun,
            long: Duration::from_secs(FAREWELL),
        });
        Ok(())
    }
}

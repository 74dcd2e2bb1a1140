//! The limits of a session's waits, and how much of each is left: a calculation with times, which reads no clock.
//!
//! mw_server gives the [`TimeLimits`], and `timed_stream.rt` and `sockets.rt` ask them before a wait.
//! Change it with `specs/TimesLeft`. [`LOOK`] may have another number; docs/OPERATING tells the limits.
ghost use Rattle.std.specs.Prelude.{◌≡◌, None, IsFalse, if◌then◌else◌};
ghost use Rattle.std.specs.Time.{instant_nanos};
ghost use Rattle.mw_connections.specs.declared.time_limits.Timing.TheVariants.{Starting, Stopped};
ghost use Rattle.mw_connections.specs.TimesLeft.{
  MayWaitASilence,
  after_piece,
  after_write,
  in_seconds,
  kept,
  left_of,
  lesser,
  nanos,
  needs_clock,
  started,
  started_timing,
  timing_left,
  turn_left,
  wait_left,
  write_wait,
};

use std::time::{Duration, Instant};

/// How often a session looks whether others wait when its turn is over, and how long a limited write waits before it looks
/// at the clock, in milliseconds.
const LOOK: u64 = 250;

/// The byte that ends a line.
const LINE_FEED: u8 = b'\n';

/// How long a session may wait for its client, in seconds from 1 to 86400. None: for ever.
#[derive(Clone, Copy)]
pub struct TimeLimits {
    /// For a read that gets no byte, or a write that gets rid of none.
    pub silence: Option<u32>,
    /// For a line, from its first byte to its line feed, and for a reply, from its first byte that was taken to
    /// its last.
    pub line: Option<u32>,
}

/// The limits of one session. None: no limit.
#[derive(Clone, Copy)]
pub(crate) struct WaitLimits {
    pub(crate) silence: Option<Duration>,
    pub(crate) line: Option<Duration>,
    /// How long the client may end no line while others wait for its worker.
    pub(crate) turn: Option<Duration>,
}

/// A time that may run.
#[derive(Clone, Copy)]
pub(crate) enum Timing {
    /// It doesn't run.
    Stopped,
    /// It runs from the session's next call on.
    Starting,
    /// It runs since then.
    Since(Instant),
}

/// The times of a session that run from call to call.
#[derive(Clone, Copy)]
pub(crate) struct Times {
    /// The time of the line or the reply under way.
    pub(crate) part: Timing,
    /// The time of the client's turn.
    pub(crate) turn: Timing,
}

impl TimeLimits {
    /// Gives the limits of a session whose worker nobody waits for.
    pub(crate) fn of_a_session(self) -> WaitLimits
        ensures silence { nanos result.silence ≡ in_seconds self.silence }
        ensures line { nanos result.line ≡ in_seconds self.line }
        ensures turn { result.turn ≡ None }
    {
        WaitLimits {
            silence: in_seconds(self.silence),
            line: in_seconds(self.line),
            turn: None,
        }
    }
}

impl WaitLimits {
    /// No limits.
    pub(crate) const NONE: WaitLimits = WaitLimits {
        silence: None,
        line: None,
        turn: None,
    };

    /// Gives how long one write may wait before it looks at the clock. The system tells how much was taken only when the
    /// write ends, so a reply's time starts so late at most. None: nothing is limited.
    pub(crate) fn write_wait(&self) -> Option<Duration>
        ensures { nanos result ≡ write_wait self.now }
    {
        if self.silence.is_none() && self.line.is_none() {
            return None;
        }
        lesser(self.silence, Some(Duration::from_millis(LOOK)))
    }
}

/// Makes a length of time of so many seconds, if there is one.
pub(crate) fn in_seconds(seconds: Option<u32>) -> Option<Duration>
    ensures { nanos result ≡ in_seconds seconds }
{
    match seconds {
        Some(seconds) => Some(Duration::from_secs(u64::from(seconds))),
        None => None,
    }
}

impl Timing {
    /// Starts at this moment, if it is to start.
    fn started(self, now: Instant) -> Timing
        ensures { result ≡ started_timing self now }
    {
        match self {
            Timing::Stopped => Timing::Stopped,
            Timing::Starting => Timing::Since(now),
            Timing::Since(then) => Timing::Since(then),
        }
    }

    /// Goes on, or starts with the next call.
    fn kept(self) -> Timing
        ensures { result ≡ kept self }
    {
        match self {
            Timing::Stopped | Timing::Starting => Timing::Starting,
            Timing::Since(since) => Timing::Since(since),
        }
    }

    /// Gives what is left of a limit, and None if there is no limit or the time doesn't run.
    fn left(self, limit: Option<Duration>, now: Instant) -> Option<Duration>
        ensures { nanos result ≡ timing_left (nanos limit) self (instant_nanos now) }
    {
        match self {
            Timing::Stopped | Timing::Starting => None,
            Timing::Since(since) => left_of(limit, since, now),
        }
    }
}

impl Times {
    /// Gives the times of a session that begins.
    pub(crate) fn new() -> Times
        ensures part { result.part ≡ Stopped }
        ensures turn { result.turn ≡ Starting }
    {
        Times {
            part: Timing::Stopped,
            turn: Timing::Starting,
        }
    }

    /// Starts at this moment what is to start.
    pub(crate) fn started(self, now: Instant) -> Times
        ensures { result ≡ started self now }
    {
        Times {
            part: self.part.started(now),
            turn: self.turn.started(now),
        }
    }

    /// Gives the times after this piece of what the client sends.
    pub(crate) fn after_piece(self, piece: &[u8]) -> Times
        ensures { result ≡ after_piece self piece.now }
    {
        match piece.last().copied() {
            None => self,
            Some(LINE_FEED) => Times {
                part: Timing::Stopped,
                turn: Timing::Starting,
            },
            Some(_) => self.after_open_piece(piece.contains(&LINE_FEED)),
        }
    }

    /// Gives the times after a piece that doesn't end with a line feed, by whether there is one in it.
    fn after_open_piece(self, fed: bool) -> Times
        ensures { result ≡ (if fed then record { part = Starting; turn = Starting } else record { part = kept self.part; turn = self.turn }) }
    {
        if fed {
            Times {
                part: Timing::Starting,
                turn: Timing::Starting,
            }
        } else {
            Times {
                part: self.part.kept(),
                turn: self.turn,
            }
        }
    }

    /// Gives the times after a write of a reply, by whether all of it was taken.
    pub(crate) fn after_write(self, whole: bool) -> Times
        ensures { result ≡ after_write self whole }
    {
        if whole {
            Times {
                part: Timing::Stopped,
                turn: Timing::Starting,
            }
        } else {
            Times {
                part: self.part.kept(),
                turn: self.turn,
            }
        }
    }

    /// Tells whether a call that begins now has to ask a clock. If not, it may wait for a whole silence.
    pub(crate) fn need_clock(&self, limits: &WaitLimits) -> bool
        ensures value { result ≡ needs_clock limits.now self.now }
        ensures silence { IsFalse result → MayWaitASilence limits.now self.now }
    {
        let runs = !matches!(self.part, Timing::Stopped);
        limits.turn.is_some() || (limits.line.is_some() && runs)
    }

    /// Gives how long a call that began at `called` may still wait at `now`, by whether others wait for the
    /// worker. Zero: a limit is over. None: it may wait for ever.
    pub(crate) fn wait_left(
        &self,
        limits: &WaitLimits,
        called: Instant,
        now: Instant,
        others: bool,
    ) -> Option<Duration>
        ensures { nanos result ≡ wait_left limits.now self.now called now others }
    {
        let silence = left_of(limits.silence, called, now);
        let part = self.part.left(limits.line, now);
        let turn = turn_left(self.turn.left(limits.turn, now), others);
        lesser(silence, lesser(part, turn))
    }
}

/// Gives what is left of a limit at `now`, if it runs since then. Zero: it is over.
pub(crate) fn left_of(limit: Option<Duration>, since: Instant, now: Instant) -> Option<Duration>
    ensures { nanos result ≡ left_of (nanos limit) (instant_nanos since) (instant_nanos now) }
{
    match limit {
        None => None,
        Some(limit) => Some(limit.saturating_sub(now.duration_since(since))),
    }
}

/// Gives what is left of a turn, by whether others wait. While nobody waits it isn't over.
fn turn_left(left: Option<Duration>, others: bool) -> Option<Duration>
    ensures { nanos result ≡ turn_left others (nanos left) }
{
    match left {
        None => None,
        Some(left) if others => Some(left),
        Some(left) => Some(left.max(Duration::from_millis(LOOK))),
    }
}

/// Gives the lesser of two lengths of time. None: without end.
pub(crate) fn lesser(one: Option<Duration>, other: Option<Duration>) -> Option<Duration>
    ensures { nanos result ≡ lesser (nanos one) (nanos other) }
{
    match (one, other) {
        (None, other) => other,
        (Some(one), None) => Some(one),
        (Some(one), Some(other)) => Some(one.min(other)),
    }
}

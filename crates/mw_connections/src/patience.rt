//! A listener over another one: it waits, longer each time, while the system has no room for a connection.
//!
//! Used by: mw_upkeep, mw_server; mw_workers, for the desk's listener. The two waits may have other numbers; docs/OPERATING
//! tells them.
ghost use Rattle.std.specs.Prelude.{◌≡◌, false};
ghost use Rattle.mw_connections.specs.Pauses.{GoesOn, is_of_client, longer};

use crate::peer::Listener;
use std::io::ErrorKind;
use std::time::{Clock, Duration};
use std::{io, thread};

/// The length of the first wait, in milliseconds.
pub const FIRST_PAUSE: u64 = 1;

/// The most that a wait lasts, in milliseconds.
pub const LONGEST_PAUSE: u64 = 1000;

/// Is told when the system has no room for connections.
pub trait RoomWatch {
    /// The system had no room for a connection; this is the fault. It is called for the first such fault,
    /// and for the first one after each connection.
    fn no_room(&self, fault: &io::Error);
}

/// A listener over another one, which waits when the system has no room for a connection. The first wait is
/// [`FIRST_PAUSE`]; each further one is twice as long, up to [`LONGEST_PAUSE`]. After a connection it
/// begins anew. It tells the watch of the first such call, and of the first one after each connection.
///
/// It gives back at once a call that was interrupted, or whose client went away.
#[derive(Drop)]
pub struct Patient<'a, L, K, W> {
    listener: L,
    clock: &'a K,
    watch: &'a W,
    pause: u64,
    told: bool,
}

impl<'a, L, K, W> Patient<'a, L, K, W> {
    /// Makes a listener over this one. It waits by the clock, and tells the watch.
    pub fn new(listener: L, clock: &'a K, watch: &'a W) -> Self
        ensures listener { result.listener ≡ listener }
        ensures pause { result.pause ≡ FIRST_PAUSE }
        ensures told { result.told ≡ false }
    {
        Patient {
            listener,
            clock,
            watch,
            pause: FIRST_PAUSE,
            told: false,
        }
    }
}

impl<'a, L: Listener, K: Clock, W: RoomWatch> Listener for Patient<'a, L, K, W> {
    type Connection = L::Connection;

    ghost accepts = { λ old answer new. L.accepts old.listener answer new.listener
        × GoesOn answer old.pause old.told new.pause new.told };

    fn accept(&mut self) -> io::Result<L::Connection> {
        let answer = self.listener.accept();
        match &answer {
            Ok(_) => {
                self.pause = FIRST_PAUSE;
                self.told = false;
            }
            Err(fault) if is_of_client(fault.kind()) => {}
            Err(fault) => {
                if !self.told {
                    self.watch.no_room(fault);
                }
                thread::sleep(self.clock, Duration::from_millis(self.pause));
                self.pause = longer(self.pause);
                self.told = true;
            }
        }
        answer
    }
}

/// Gives the wait that follows a wait of so many milliseconds.
fn longer(pause: u64) -> u64
    ensures { result ≡ longer pause }
{
    pause.saturating_mul(2).min(LONGEST_PAUSE)
}

/// Tells whether a fault of an accept is about one client alone, and not about the room for connections.
fn is_of_client(kind: ErrorKind) -> bool
    ensures { result ≡ is_of_client kind }
{
    matches!(kind, ErrorKind::Interrupted | ErrorKind::ConnectionAborted)
}

//! Writes a note when there is no room for connections, once a second at most.
//!
//! mw_server makes one for each address. docs/OPERATING tells the note, and scripts/check-stories and check-limits
//! expect it: change them together.

use log::{Log, warn};
use mw_connections::RoomWatch;
use mw_notes::note_cause;
use std::io;
use std::sync::{Mutex, Wait};
use std::time::{Clock, Duration, Instant};

/// How long it is at least from a note on room to the next one about the same address, in seconds.
const ROOM_PERIOD: u64 = 1;

/// Writes a note when there is no room for connections, with the address.
#[derive(Drop)]
pub struct RoomNotes<'e, L, R> {
    rt: &'e R,
    notes: &'e L,
    address: &'e str,
    /// When it wrote the last one.
    last: Mutex<Option<Instant>>,
}

impl<'e, L, R: Wait + Clock> RoomNotes<'e, L, R> {
    /// Makes the notes about an address. None was written yet.
    pub fn new(rt: &'e R, notes: &'e L, address: &'e str) -> Self {
        RoomNotes {
            rt,
            notes,
            address,
            last: Mutex::new(None),
        }
    }

    /// Tells whether a note is due, and if so, takes it for written.
    fn is_due(&self) -> bool {
        let Ok(now) = Instant::now(self.rt) else {
            return true;
        };
        let mut last = self.last.lock(self.rt);
        if let Some(then) = *last {
            if now.duration_since(then) < Duration::from_secs(ROOM_PERIOD) {
                return false;
            }
        }
        *last = Some(now);
        true
    }
}

impl<L: Log, R: Wait + Clock> RoomWatch for RoomNotes<'_, L, R> {
    fn no_room(&self, fault: &io::Error) {
        if self.is_due() {
            warn!(self.notes; "mwserve: no room for connections");
            note_cause(self.notes, self.address, fault);
        }
    }
}

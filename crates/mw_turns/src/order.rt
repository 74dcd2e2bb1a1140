//! In which order the calls that wait for a tenant's file are made.
//!
//! First come the calls that need no sync, then seals, because others wait for a seal's sync. Then comes a settle,
//! and last a prepare whose record nobody has written yet. These two wait while a worker is expected to come with its
//! seal soon.
//!
//! Used by: `waiting_room`; mw_engine. No contract speaks of the order. After a change run scripts/check-wakes and
//! scripts/check-waits, whose model (scripts/wait_parts/model.py) changes with it.
use crate::hints::Hints;
use mw_look::Call;

/// While so many seals wait, prepares that need no sync wait too, so that their seals come together.
const ENOUGH_SEALS: usize = 3;

/// The rank of a call that needs no sync. Calls of a lower rank are made first.
const NO_SYNC: u8 = 0;

/// The rank of a seal.
const SEAL: u8 = 1;

/// The rank of a settle that syncs.
const SETTLE: u8 = 2;

/// The rank of a prepare that syncs.
const PREPARE: u8 = 3;

/// A call on its tenant's file at which a request is.
#[derive(Clone, Copy)]
pub struct DueCall {
    /// The call.
    pub call: Call,
    /// The slot of the change that it is for.
    pub slot: u8,
}

/// A worker whose request is at a call on its tenant's file.
#[derive(Clone, Copy, Drop)]
pub struct Waiter {
    /// The worker's number.
    pub worker: u8,
    pub(crate) call: Call,
    /// The slot of the change that the call is for.
    pub(crate) slot: u8,
    /// Whether the record of its change was written along with another call.
    pub(crate) is_written: bool,
}

impl Default for Waiter {
    fn default() -> Waiter {
        Waiter {
            worker: 0,
            call: Call::Prepare,
            slot: 0,
            is_written: false,
        }
    }
}

/// Which of the calls that wait may be made.
#[derive(Clone, Copy, PartialEq, Eq)]
pub enum Choosing {
    /// Those that need no sync.
    WithoutSync,
    /// Those, and seals.
    Seals,
    /// All, but no settle and no prepare that sync while a worker is expected with its seal.
    Patient,
    /// All. Whoever was expected is so no longer.
    Any,
}

impl Choosing {
    /// The highest rank that may be made.
    fn most(self, hints: &Hints) -> u8 {
        match self {
            Choosing::WithoutSync => NO_SYNC,
            Choosing::Seals => SEAL,
            Choosing::Patient => {
                if hints.expects_nobody() {
                    PREPARE
                } else {
                    SEAL
                }
            }
            Choosing::Any => PREPARE,
        }
    }
}

impl Waiter {
    /// Makes the waiter of a worker that comes to a call.
    pub fn new(worker: u8, due: DueCall) -> Waiter {
        Waiter {
            worker,
            call: due.call,
            slot: due.slot,
            is_written: false,
        }
    }

    /// The rank of its call, as far as is known.
    fn rank(&self, hints: &Hints) -> u8 {
        match self.call {
            Call::Cancel => NO_SYNC,
            Call::Prepare => { if self.is_written { NO_SYNC } else { PREPARE } }
            Call::Seal => SEAL,
            Call::Settle => {
                if hints.is_sealed(self.slot) {
                    SETTLE
                } else {
                    NO_SYNC
                }
            }
        }
    }

    /// Whether its call syncs, as far as is known.
    pub(crate) fn syncs(&self, hints: &Hints) -> bool {
        self.rank(hints) != NO_SYNC
    }

    /// Whether its call may be made before those of others have come, once nobody else waits.
    pub(crate) fn is_next(&self, hints: &Hints) -> bool {
        self.rank(hints) <= Choosing::Patient.most(hints)
    }

    /// Whether its worker comes back to the file soon, with the next call for its change.
    pub fn comes_back(&self) -> bool {
        match self.call {
            Call::Prepare | Call::Seal => true,
            Call::Settle | Call::Cancel => false,
        }
    }
}

/// The place of the call that is made next, in the order in which their workers came, if one of them may be made.
pub(crate) fn next_of(waiters: &[Waiter], choosing: Choosing, hints: &Hints) -> Option<usize> {
    let keeps_prepares = seals_of(waiters) >= ENOUGH_SEALS;
    let mut lowest = choosing.most(hints).saturating_add(1);
    let mut next = None;
    for place in 0..waiters.len() {
        let waiter = &waiters[place];
        let mut rank = waiter.rank(hints);
        if keeps_prepares && waiter.is_written {
            rank = SETTLE;
        }
        if rank < lowest {
            lowest = rank;
            next = Some(place);
        }
    }
    next
}

/// How many of them wait for a seal.
fn seals_of(waiters: &[Waiter]) -> usize {
    let mut seals: usize = 0;
    for waiter in waiters {
        if matches!(waiter.call, Call::Seal) {
            seals = seals.saturating_add(1);
        }
    }
    seals
}

//! A hint of a call on a tenant's file: whether it was made.
//!
//! Used by: `waiting_room`; mw_engine, which keeps one in each box. No contract rests on it.
use std::sync::atomic::{AtomicBool, Ordering};

/// Tells whether the call of the request in a box was made. It is a hint: the box itself tells whether the request can be
/// taken back.
#[derive(Drop)]
pub struct CallFlag {
    is_done: AtomicBool,
}

impl CallFlag {
    /// Makes the flag of an empty box.
    pub fn new() -> CallFlag {
        CallFlag {
            is_done: AtomicBool::new(false),
        }
    }

    /// Whether the call of the request in the box was made.
    pub fn is_done(&self) -> bool {
        self.is_done.load(Ordering::SeqCst)
    }

    /// Notes that the call of the request which is about to be left in the box was not made yet.
    pub fn begin(&self) {
        self.is_done.store(false, Ordering::SeqCst);
    }

    /// Notes that the call of the request in the box was made. The caller has the file's lock.
    pub fn end(&self) {
        self.is_done.store(true, Ordering::SeqCst);
    }
}

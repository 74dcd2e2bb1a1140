//! Looks, while clients are served, at the tenants' files, once in each period, until it is asked to end.
//!
//! Used by: mw_server, once a second; `beats`, for [`Stop`]; `fault_notes`, which looks at the files; mw_programs.
use std::sync::{Condvar, Mutex, Wait};
use std::time::{Clock, Duration};

/// The time from one look to the next, in milliseconds.
pub const PERIOD: u64 = 1000;

/// Looks at the files of all tenants.
pub trait FileLook {
    /// Looks once at each tenant's path, and does what has to be done about a file that was replaced.
    fn look(&self);
}

/// Ends the looks of another thread.
#[derive(Drop)]
pub struct Stop {
    is_asked: Mutex<bool>,
    asked: Condvar,
}

impl Stop {
    /// Makes one that was not asked for.
    pub fn new() -> Self {
        Stop {
            is_asked: Mutex::new(false),
            asked: Condvar::new(),
        }
    }

    /// Asks the other thread to end. It is woken.
    pub fn ask<R: Wait>(&self, rt: &R) {
        *self.is_asked.lock(rt) = true;
        self.asked.notify_all();
    }

    /// Waits until it is asked for, or this time has passed. Gives whether it was asked for.
    pub fn comes_within<R: Wait + Clock>(&self, rt: &R, time: Duration) -> bool {
        let is_asked = self.is_asked.lock(rt);
        let waited = self
            .asked
            .wait_timeout_while(rt, is_asked, time, |is_asked| !*is_asked);
        !waited.1.timed_out()
    }
}

/// Looks once in each period, given in milliseconds, until it is asked to end. This may wait for ever.
pub fn look_on<R: Wait + Clock, T: FileLook>(rt: &R, files: &T, period: u64, stop: &Stop) {
    for _ in rt.forever() {
        if stop.comes_within(rt, Duration::from_millis(period)) {
            return;
        }
        files.look();
    }
    unreachable!()
}

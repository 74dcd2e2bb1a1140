//! Checks what a test found. Used by: the tests of this crate.

use crate::fault::Fault;
use std::process::Abort;

/// What a test says if memory is refused.
pub(crate) const MEMORY: &str = "memory";

/// Checks that something is so, in this row of a test, and at this number in it. Tests share this check, because a test
/// takes longer to prove with each `assert!` of its own.
pub(crate) fn holds<R: Abort>(rt: &R, row: &str, at: u64, is_so: bool) {
    assert!(rt; is_so, "{row}, at {at}");
}

/// Fails a test, and says why the run of this seed failed, and after which event.
pub(crate) fn fail<R: Abort>(rt: &R, seed: u64, fault: Fault) {
    let (wrong, event) = fault.told();
    assert!(rt; false, "seed {seed}, event {event}: {wrong}");
}

//! Checks what a test found. Used by: `file_tests`, `mode_tests`, `room_tests`.
use std::process::Abort;

/// Checks that something is so, in this row of a test, and at this number in it. Tests share this check, because a test
/// takes longer to prove with each `assert!` of its own.
pub(crate) fn holds<R: Abort>(rt: &R, row: &str, at: usize, is_so: bool) {
    assert!(rt; is_so, "{row}, at {at}");
}

//! Checks what a test found. Used by: other modules of this crate.
use std::fmt::Debug;
use std::process::Abort;

/// What a test says if memory is refused.
pub(crate) const MEMORY: &str = "memory";

/// Checks that something is so, in this row of a test, and at this number in it. Tests share this check, because a test
/// takes longer to prove with each `assert!` of its own.
pub(crate) fn holds<R: Abort>(rt: &R, row: &str, at: usize, is_so: bool) {
    assert!(rt; is_so, "{row}, at {at}");
}

/// Checks that what was found is what was wanted, in this row of a test, and at this number in it.
pub(crate) fn same<R: Abort, T: Debug + PartialEq>(
    rt: &R,
    row: &str,
    at: u64,
    found: &T,
    wanted: &T,
) {
    assert!(rt;
        *found == *wanted,
        "{row}, at {at}: {found:?} in place of {wanted:?}"
    );
}

//! What the peers say in tests that try each place of failure in turn, and what they must be told.
//!
//! Used by: mw_engine_tests, mw_serving_tests. It may change with these crates.

/// What they say to a tenant `t` of two words, both 0.
pub const INPUT: &[u8] = b"TENANT t\nCAS 0:0:1\nQUIT\n";

/// What they are told.
pub const OUTPUT: &[u8] = b"OK 2\nYES\nBYE\n";

/// Gives how many bytes of [`OUTPUT`] answer the whole lines in the first `count` bytes of [`INPUT`].
/// `count` is less than its length.
pub fn replied(count: usize) -> usize {
    match count {
        ..=8 => 0,
        ..=18 => 5,
        _ => 9,
    }
}

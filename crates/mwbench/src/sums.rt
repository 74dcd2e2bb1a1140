//! Checks that each word has grown by the number of changes of it that were made.
//!
//! Used by: `run`. `specs/Sums` says when that is so: change both together.
ghost use Rattle.std.specs.Prelude.{◌≡◌, true};
ghost use Rattle.mwbench.specs.Sums as spec;
ghost use Rattle.mwbench.specs.Sums.{AreSums};

use crate::crowd::Done;

/// Gives true only if each word is its old value plus the number of changes of it that were made. Sums stop
/// at `u64::MAX`.
pub fn are_sums(before: &[u64], after: &[u64], done: &[Done]) -> bool
    ensures { result ≡ true → AreSums before.now after.now done.now }
{
    if after.len() < before.len() {
        return false;
    }
    for address in 0..before.len() {
        let made = changes_of(address, done);
        if after[address] != before[address].saturating_add(made) {
            return false;
        }
    }
    true
}

/// Gives how many changes of the word at an address were made, at most `u64::MAX`.
fn changes_of(address: usize, done: &[Done]) -> u64
    ensures { result ≡ spec.made_beside 0 address done.now }
{
    let mut sum: u64 = 0;
    for one in done {
        sum = sum.saturating_add(made_at(address, one));
    }
    sum
}

/// Gives how many changes of the word at an address a client made.
fn made_at(address: usize, done: &Done) -> u64
    ensures { result ≡ spec.made_at address done.now }
{
    let first = usize::from(done.task.first);
    if first <= address && address - first < usize::from(done.task.words) {
        done.counts.made
    } else {
        0
    }
}

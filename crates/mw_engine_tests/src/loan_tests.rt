//! Tests what no contract of [`LoanBox`] says: when a call gives something.
ghost use Rattle.std.specs.Prelude.{◌≤◌};

use mw_loan::{Kept, Lasting, LoanBox};
use std::alloc::{AllocError, Global};

/// A number goes on if it doesn't get smaller.
struct Grows;

impl Lasting<u64> for Grows {
    ghost lasts = { λ left value. left ≤ value };
}

fn add_one(number: &mut u64)
    ensures { number.old ≤ number.new }
{
    *number = number.saturating_add(1);
}

/// Whether a box gives what is in it, and else nothing: one thread makes all calls.
fn is_given_in_turn(alloc: Global) -> Result<bool, AllocError> {
    let lent: LoanBox<u64, Grows> = LoanBox::new(alloc)?;
    let at_first = lent.lend(Kept::Waiting, add_one) || lent.lend(Kept::Returned, add_one);
    let Ok(receipt) = lent.leave(5) else {
        return Ok(false);
    };
    let again = lent.leave(7).is_ok();
    let early = lent.lend(Kept::Returned, add_one);
    let lend = lent.lend(Kept::Waiting, add_one) && lent.lend(Kept::Returned, add_one);
    let late = lent.lend(Kept::Waiting, add_one);
    let taken = lent.take_back(receipt, Kept::Returned).unwrap_or(0);
    let after = lent.lend(Kept::Returned, add_one);
    Ok(!at_first && !again && !early && lend && !late && taken == 7 && !after)
}

#[test]
fn a_box_gives_what_is_in_it(rt: HostRuntime) {
    assert!(rt; is_given_in_turn(rt.alloc()).unwrap_or(false));
}

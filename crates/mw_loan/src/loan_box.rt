//! The box.
//!
//! Used by: mw_engine. Change it with `specs/Rule`, `specs/Loans` and `specs/Plays`.
ghost use Rattle.std.specs.Prelude.{◌≡◌, true, IfOk, IfErr};
ghost use Rattle.std.specs.Fn.{FnOnceReturnsAtMut, FnOnceTakesAtMut};
ghost use Rattle.mw_loan.specs.Rule.{IsOneBox, is_home, stage_of};
ghost use Rattle.mw_loan.specs.Plays.{stranger};
ghost use Rattle.mw_loan.specs.Loans.{IsReceiptFor, IsReceiptOf};

use crate::rule::{Borrows, BoxRule, Comes, Lasting, Leaves, Opens, Reopens, Returns};
use crate::views::View;
use atomic_table::{Seat, Table};
use std::alloc::{AllocError, Global};

// A box's number tells its stage: `stage_of` of `specs/Rule`.

const EMPTY: u64 = 0;

const WAITING: u64 = 1;

const BORROWED: u64 = 2;

const RETURNED: u64 = 3;

const OPEN: u64 = 4;

/// How a value is in its box.
#[derive(Clone, Copy, PartialEq, Eq)]
pub enum Kept {
    /// Nobody has borrowed it yet.
    Waiting,
    /// A borrower gave it back.
    Returned,
}

/// A box for a value that others go on with. Threads share it by reference. No contract says when a call gives something.
#[derive(Drop)]
pub struct LoanBox<T: Drop, L: Lasting<T>> {
    table: Table<Option<T>, View<T>, (), BoxRule<L>, Global>,
    ghost one: { IsOneBox table.shared.table_id },
}

/// The right to take back what was left. It has no bytes. If it is dropped, the value stays in the box, and
/// [`LoanBox::leave`] gives every later one back.
#[derive(Drop)]
pub struct Receipt<T> {
    seat: Seat<Option<T>, View<T>>,
}

impl Kept {
    /// Returns the box's number while its value is so.
    fn number(self) -> u64
        ensures { is_home (stage_of result) ≡ true }
    {
        match self {
            Kept::Waiting => WAITING,
            Kept::Returned => RETURNED,
        }
    }
}

impl<T: Drop, L: Lasting<T>> LoanBox<T, L> {
    /// Makes an empty box.
    ///
    /// # Errors
    ///
    /// [`AllocError`] if memory is out.
    pub fn new(alloc: Global) -> Result<LoanBox<T, L>, AllocError> {
        let (table, _) = Table::vacant(alloc, &[EMPTY], 1, &())?;
        Ok(LoanBox { table })
    }

    /// Leaves a value in the box, and gives a receipt. If the box isn't empty it does nothing, and gives the value back.
    pub fn leave(&self, value: T) -> Result<Receipt<T>, T>
        requires lasts { L.lasts value value }
        ensures left { IfOk result (λ receipt. IsReceiptFor self.now.table.shared.table_id value receipt) }
        ensures back { IfErr result (λ same. same ≡ value) }
    {
        let mut seat = self.seat();
        let shared = &self.table.shared;
        if shared.compare_exchange::<Opens>(&mut seat, 0, EMPTY, OPEN) != EMPTY {
            return Err(value);
        }
        let None = shared.exchange(&mut seat, 0, Some(value)) else {
            unreachable!()
        };
        shared.store::<Leaves>(&mut seat, 0, WAITING);
        Ok(Receipt { seat })
    }

    /// Lends the value to a borrower, if it is in the box and so kept. Whatever the borrower makes of it must go on from
    /// what was left. Returns whether the value was lent.
    pub fn lend<F: FnOnce(&mut T)>(&self, kept: Kept, borrower: F) -> bool
        requires may { (left value : T) → L.lasts left value → FnOnceTakesAtMut F.FnOnce borrower value }
        requires lasts { (left value new : T) → L.lasts left value → FnOnceReturnsAtMut F.FnOnce borrower value tt new → L.lasts left new }
    {
        let mut seat = self.seat();
        let shared = &self.table.shared;
        let number = kept.number();
        if shared.compare_exchange::<Borrows<L>>(&mut seat, 0, number, BORROWED) != number {
            return false;
        }
        let Some(value) = seat.slot_mut(shared, 0) else {
            unreachable!()
        };
        borrower(value);
        shared.store::<Returns>(&mut seat, 0, RETURNED);
        true
    }

    /// Takes back what was left in this box, if it is so kept. What it gives then goes on from that. Else it gives the
    /// receipt back.
    pub fn take_back(&self, receipt: Receipt<T>, kept: Kept) -> Result<T, Receipt<T>>
        requires own { IsReceiptOf self.now.table.shared.table_id receipt }
        ensures taken { (left : T) → IsReceiptFor self.now.table.shared.table_id left receipt → IfOk result (λ value. L.lasts left value) }
        ensures kept { (left : T) → IsReceiptFor self.now.table.shared.table_id left receipt → IfErr result (λ same. IsReceiptFor self.now.table.shared.table_id left same) }
    {
        let Receipt { mut seat } = receipt;
        let shared = &self.table.shared;
        let number = kept.number();
        if shared.compare_exchange::<Reopens<L>>(&mut seat, 0, number, OPEN) != number {
            return Err(Receipt { seat });
        }
        match shared.exchange(&mut seat, 0, None) {
            Some(value) => {
                shared.store::<Returns>(&mut seat, 0, EMPTY);
                Ok(value)
            }
            None => unreachable!(),
        }
    }

    /// Gives a seat at the box, which has and knows nothing.
    fn seat(&self) -> Seat<Option<T>, View<T>>
        ensures its { result.table_id ≡ self.now.table.shared.table_id }
        ensures new { result.me ≡ stranger }
    {
        let (_, seat) = self.table.shared.load_new_seat::<Comes>(0);
        seat
    }
}

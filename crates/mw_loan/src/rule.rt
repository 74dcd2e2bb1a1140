//! Gives the rule of a box (`specs/Rule`) as a type that `atomic_table` takes, and names what each step tells.
//!
//! Used by: `loan_box`; mw_engine, for [`Lasting`].
ghost use Rattle.std.specs.Prelude.{None};

use crate::views::View;
use atomic_table::{Play, TableRule};
use std::marker::PhantomData;

/// What lasts while others go on with a value.
pub trait Lasting<T> {
    // Of the value that was left, and of what it has become: the second goes on from the first.
    ghost lasts: { T → T → Type 0 };
}

/// The rule of a box: a value in it goes on from what its owner left.
pub struct BoxRule<L>(PhantomData<L>);

impl<T, L: Lasting<T>> TableRule<Option<T>, View<T>, ()> for BoxRule<L> {
    ghost use Rattle.mw_loan.specs.Rule.{Holds, nobody};

    ghost holds = { λ _. Holds L.lasts };

    ghost first = { λ _. nobody };
}

/// A thread comes.
pub(crate) struct Comes;

impl<T> Play<Option<T>, View<T>> for Comes {
    ghost use Rattle.mw_loan.specs.Plays.{came};

    ghost then = { came };
}

/// A thread opens an empty box.
pub(crate) struct Opens;

impl<T> Play<Option<T>, View<T>> for Opens {
    ghost use Rattle.mw_loan.specs.Plays.{opened};

    ghost then = { opened };
}

/// It leaves a value.
pub(crate) struct Leaves;

impl<T> Play<Option<T>, View<T>> for Leaves {
    ghost use Rattle.mw_loan.specs.Plays.{left_by};

    ghost then = { left_by };
}

/// A thread borrows the value.
pub(crate) struct Borrows<L>(PhantomData<L>);

impl<T, L: Lasting<T>> Play<Option<T>, View<T>> for Borrows<L> {
    ghost use Rattle.mw_loan.specs.Plays.{borrowed};

    ghost then = { borrowed L.lasts };
}

/// It gives the value back.
pub(crate) struct Returns;

impl<T> Play<Option<T>, View<T>> for Returns {
    ghost use Rattle.mw_loan.specs.Plays.{put_back};

    ghost then = { put_back };
}

/// The owner opens its box, to take the value back.
pub(crate) struct Reopens<L>(PhantomData<L>);

impl<T, L: Lasting<T>> Play<Option<T>, View<T>> for Reopens<L> {
    ghost use Rattle.mw_loan.specs.Plays.{reopened};

    ghost then = { reopened L.lasts };
}

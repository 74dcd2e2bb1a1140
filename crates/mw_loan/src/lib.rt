//! A box in which an owner leaves a value. Others borrow it, go on with it, and give it back; the owner takes it
//! back.
//!
//! Each borrower must keep a relation, [`Lasting`], from what was left to what the value has become, and the owner
//! gets it. A lock can't promise that, because no type says who left what it guards. Here a number tells where the
//! value is, and a thread's seat knows what its owner left (`specs/Rule`). Nobody waits for a box. `leave` needs it
//! empty, and `lend` and `take_back` need the value in it; else they change nothing.
//!
//! Used by: mw_engine, which has a box for each worker. Change it with `specs/Rule` and `specs/Plays`, which tells
//! each step.
#![tactic(auto)]

mod loan_box;
mod rule;
mod views;

pub use loan_box::{Kept, LoanBox, Receipt};
pub use rule::Lasting;

//! The pool of slots: which moves a door and a gate allow, and what each move makes of them.
//!
//! The moves are pure: each takes a value and returns the value after the move. Admit, claim and pin are made by an
//! exchange, which fails if the value has changed since it was read. Unpin subtracts from whatever value is there.
//! Free is a store by the only worker that is left at the slot.
//!
//! | move | from | to |
//! |---|---|---|
//! | admit | a door without a fault, with fewer slots in use than the quota | one slot more in use |
//! | claim | a gate that isn't taken, whose number isn't worn | taken, 1 pin, the same number |
//! | pin | a taken gate with this number and a pin | one pin more |
//! | unpin | a gate with a pin | one pin less |
//! | free | a taken gate without pins | not taken, without pins, the next number |
//!
//! A move whose result doesn't fit the bits of a door or a gate is not allowed.
//!
//! Used by: many crates from mw_look on. mw_look and mw_actor admit, claim and pin by its functions; the other crates
//! cite its contracts, and only tests call the other functions. A change of `specs/Moves` changes the algorithm, and
//! the laws of the world.
#![tactic(auto)]

mod doors;
mod gates;

pub use doors::{Admission, admit};
pub use gates::{claim, free, pin, unpin};

//! Says how each kind of step changes the bits of its word: by an exchange, a store, a subtraction, or setting bits.
//!
//! Used by: mw_table (`src/next_step.rt`, `src/file_call_steps.rt`). `specs/Ways` says the same for proofs: change both
//! together.
ghost use Rattle.std.specs.Prelude.{◌≡◌};
ghost use Rattle.mw_rule.specs.Ways as spec;

use mw_look::{Kind, Shape};

/// How a step changes the bits of a word.
#[derive(Clone, Copy, PartialEq, Eq)]
pub enum Way {
    /// If the word has the expected bits, exchanges them for other bits.
    Exchange,
    /// Stores bits.
    Store,
    /// Subtracts this number.
    Sub(u64),
    /// Sets these bits.
    Or(u64),
}

/// Returns how a step of this kind changes its word.
pub fn way_of(kind: Kind) -> Way
    ensures { result ≡ spec.way_of kind }
{
    match kind.shape() {
        Shape::Exchange => Way::Exchange,
        Shape::Store => Way::Store,
        Shape::Fetch => match kind {
            Kind::Unpin => Way::Sub(1 << 48),
            Kind::Drop => Way::Sub(1),
            _ => Way::Or(1 << 63),
        },
    }
}

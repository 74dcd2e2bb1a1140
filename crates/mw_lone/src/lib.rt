//! The store alone, the sequential specification of one tenant: its words and requests. Every other part of the server
//! is measured by it.
//!
//! Used by: many crates from mw_plain on, which cite `specs/Store` and use [`Mark`]. mw_plain has it in code (`Lone`), for
//! tests. A change of `specs/Store` changes what every reply means; CONTRIBUTING lists under *A mark* what a new mark needs.
#![tactic(auto)]

mod laws;
mod marks;

pub use laws::{quotas_are_of_starts, runs_extend, used_stays_within, words_stay_words};
pub use marks::Mark;

//! Writes the administrator's report: a table of the tenants with their figures, and how many slots of the pool are
//! free.
//!
//! ```text
//! t                   2  1  2  0 up
//! u                4096 32 64  3 down
//! free 30
//! ```
//!
//! Used by: many crates from mw_metrics on. mw_engine gathers the figures, mw_session writes the report for `REPORT`,
//! and mw_client reads it back. A new figure needs a column in `specs/Table` and `table.rt`, and all three crates
//! change, as do the readers of a report in clients/.
#![tactic(auto)]

mod figures;
mod table;

pub use figures::{Figures, TenantFigures};
pub use table::{MAX_REPORT, report_text};

//! Reads what a server is started with: the tenants file and the command line.
//!
//! - *What a contract says*: [`read_tenants`] gives the lines of a tenants file, within all limits, or the first rule
//!   that is broken. [`read_args`] gives only what is in its range, and the tenants file, pool, workers, script or addresses
//!   that the words ask for.
//! - *Proved*: a text has one answer ([`one_answer`]).
//! - *Defined*: when an opened file fits a line (`specs/FittingFiles`).
//! - *Tested only*: all else of a command line, and the texts of refusals (`config_tests` of mw_words_tests,
//!   scripts/check-texts).
//!
//! Used by: mw_plain, mw_engine, mw_opening, mw_upkeep, mw_server, mw_programs; mw_law_threads, in contracts. When a server
//! starts, mw_opening calls [`read_tenants`], and mw_programs calls [`read_args`]. A change of what they accept changes
//! docs/OPERATING.
#![tactic(auto)]

mod command_line;
mod forms;
mod laws;
mod lease_terms;
mod lines;
mod options;
mod refusals;
mod tenants;

pub use command_line::{
    ArgFault, Args, Listening, MAX_CLIENTS, MAX_FAULTS, MAX_HTTP_NAME, MAX_HTTP_NAMES, MAX_IDLE,
    MAX_SOCKET_MODE, Mode, SharedWorkers, read_args,
};
pub use forms::{FormRule, broken_rule};
pub use laws::one_answer;
pub use lease_terms::LeaseTerms;
pub use lines::TenantLine;
pub use refusals::Refusal;
pub use tenants::read_tenants;

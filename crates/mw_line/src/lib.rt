//! The lines of the protocol: reads what a client's line asks for, and writes each line of an answer.
//!
//! Used by: many crates from mw_config on. mw_session reads and says lines; mw_client does so in reverse; mw_config
//! and mw_schedule read numbers. A change of a line is a change of the protocol: docs/PROTOCOL.
#![tactic(auto)]

mod changes;
mod laws;
mod numbers;
mod replies;
mod requests;

pub use laws::{number_texts, numbers_as_printed, one_spelling};
pub use numbers::{address_at, behind, field, value_at};
pub use replies::{ErrCode, MAX_REPLY, Say};
pub use requests::{LineFault, Request, read_line};

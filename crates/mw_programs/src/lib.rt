//! Implements `mwserve`: serves tenants' words, from a script or to the clients that connect.
//!
//! - *What a contract says*: [`serve`] requires that an engine of files which a start opened keeps what the network
//!   and the console promise. No other can serve (`promise.rt`). It gives 0 for a script that clap takes only after
//!   a session of it ended well.
//! - *Proved*: a page's copy of a file is the engine's (`specs/Copies`).
//! - *Tested only*: sockets, waits, who waits at `--admin`, what is printed and noted, exit statuses (`scripts/check-stories`,
//!   `scripts/check-programs`).
//!
//! Used by: mwserve. docs/OPERATING describes the program for users: change them together.
#![tactic(auto)]

mod console;
mod copies;
mod lent_writer;
mod opened_parts;
mod promise;
mod scripts;
mod services;
mod serving;

pub use console::{Printed, ScriptConsole};
pub use mw_disk::Disk;
pub use mw_notes::PromptErrors;
pub use mw_opening::{LockedFiles, OpensDisks, OpensPaths, SeesPaths, TenantDisk};
pub use mw_upkeep::{Console, ServedApart, ServerEnd, ends_on_failure};
pub use promise::{EngineNetwork, ServerNetwork, ServerPromise};
pub use serving::serve;

//! The pages of a server: its state, its figures, whether it is well, and copies of its tenants' files. Serves the
//! HTTP clients that ask for them, one at a time, each with one request.
//!
//! [`ServerPages`] has all that is shown, by the service of a session and the server's counters, and a program
//! implements [`FileCopies`] for it. `specs/Shown` says what is shown. The page is one file of HTML and SVG, beside
//! a script (`look.rt`); it and the text that says whether all tenants are up are pure functions of the tenants' figures
//! (`specs/StatusPage`, `specs/Health`). mw_metrics writes the text of the figures.
//!
//! [`serve_pages`] makes one [`mw_http::exchange`] with each client that a listener gives, and closes its connection.
//! `specs/Clients` says which clients were served.
//!
//! Used by: mw_server, mw_programs, tests.
#![tactic(auto)]

mod bodies;
mod date;
mod file_copies;
mod file_pages;
mod health;
mod limits;
mod look;
mod near;
mod recents;
mod samples;
mod server;
mod server_pages;
mod spans;
mod status;
mod tenant_rows;
mod text;

pub use file_copies::{FileCopies, NoCopy};
pub use health::{MAX_HEALTH, are_well, health_text};
pub use limits::{Limit, LimitKind, MAX_LIMITS};
pub use look::{SCRIPT, STYLE};
pub use mw_connections::PagesPromise;
pub use mw_http::Pages;
pub use near::Capacity;
pub use recents::{CURVE_HEIGHT, CURVE_WIDTH, Curve, MAX_POINTS, Point, Recent};
pub use server::{PAUSE, serve_pages};
pub use server_pages::{ServerPages, Version};
pub use status::status_page;
pub use text::{MAX_PAGE, MAX_VERSION};

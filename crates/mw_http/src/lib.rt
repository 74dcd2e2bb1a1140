//! Serves an HTTP client: hears what it asks of the server, and answers it by a page.
//!
//! | target | what |
//! |---|---|
//! | `/` | the status page |
//! | `/metrics` | the figures, for Prometheus |
//! | `/healthz` | whether the server is well |
//! | `/tenants/NAME/file` | a copy of the tenant's file |
//! | `/tenants/NAME/words` | what such a copy says, in lines |
//! | `/status.css`, `/status.js` | parts of the status page |
//!
//! A connection has one request, by `GET` or `HEAD`, and is closed after its answer. Anything else is refused by a
//! status of RFC 9110. The kit's crate http1 reads the head by the grammar of RFC 9112, and judges its fields.
//! `specs/Targets` says what a target means, `specs/Hearing` what is heard, and `specs/Heads` what the head of an
//! answer says.
//!
//! [`exchange`] receives a request from a client's stream, asks [`Pages`] for what it asks for, and writes the
//! answer. A head that is wrong or too long, or another method than `GET` and `HEAD`, is answered by its status, and one
//! that comes too late by 408. If the client sends no whole head, or a read fails, nothing is written.
//! `specs/Exchanges` says what was read, asked and written.
//!
//! Used by: mw_connections, mw_server_pages. A change of what is heard or answered changes docs/HTTP.
#![tactic(auto)]

mod exchanges;
mod heads;
mod hearing;
mod hosts;
mod pages;
mod receiving;
mod status;
mod targets;
mod texts;
mod writing;

pub use exchanges::{Exchanged, exchange};
pub use heads::{AnswerHead, Content, ContentType, MAX_ANSWER_HEAD, MAX_DATE, answer_head};
pub use hearing::{Heard, MAX_FIELDS, MAX_HEAD, Request, hear};
pub use pages::{Date, Page, Pages};
pub use status::Status;
pub use targets::Route;

//! Serves one client's lines: a session answers each line before it looks at the next.
//!
//! A session reads bytes, cuts them into lines, asks the service if a line needs that, and writes the answer. It
//! begins unbound. `TENANT` binds it to a tenant, for whose words `GET` and `CAS` ask. `ADMIN` binds it to the
//! administrator, who may ask for the `REPORT`. A line with faults is answered with the first of these:
//!
//! | fault | when |
//! |---|---|
//! | 1 | the line has more than [`mw_words::MAX_LINE`] bytes; the session ends |
//! | 2 | it is no command |
//! | 8 | it lists too many entries |
//! | 9 | a value is too large for a word |
//! | 6 | an address is one that no tenant has |
//! | 7 | an address isn't above the one before it |
//! | 3 | it is `GET`, `CAS` or `REPORT`, and the session isn't bound |
//! | 4 | it is `TENANT` or `ADMIN`, and the session is bound |
//! | 10 | it is `GET` or `CAS` from the administrator, or `REPORT` from a tenant |
//! | 5 | no tenant has the name |
//! | 6 | an address is one that this tenant doesn't have |
//!
//! After each fault but the first the session goes on, bound as it was.
//!
//! A session reads and writes a [`RecordedStream`], which records what was read and written, and which call failed.
//! What it says is in `specs/Talk`; CONTRIBUTING lists under *A command* what a new line needs.
//!
//! - *What a contract says*: [`Session::run`] asks only what its lines ask, answers in order, and tells a fault of
//!   the stream exactly if a call ended so.
//! - *Proved*: lines determine what is heard of them ([`one_hearing`]).
//! - *Tested only*: that a [`Duplex`] fails only if its reader or writer does (`session_tests` of mw_serving_tests),
//!   and that `Memory` has a cause (`scripts/fail-each-allocation`).
//!
//! Used by: many crates from mw_http on. mw_connections runs one for each connection, mw_service one for a script.
#![tactic(auto)]

mod laws;
mod recorded_stream;
mod replies;
mod service;
mod session;
mod steps;
mod stream;
mod stream_call;
mod transcript;
mod watch;
mod writer;

pub use laws::one_hearing;
pub use recorded_stream::RecordedStream;
pub use service::Service;
pub use session::{Ended, Session};
pub use stream::{Duplex, NoOthers, Others, PeerStream};
pub use watch::FaultWatch;

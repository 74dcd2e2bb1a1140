//! The engine: the tenants' words, which many workers change at once, without a lock around them.
//!
//! [`EngineParts`] are made of the tenants' lines and files, with a pass for each worker.
//! [`EngineParts::into_engine`] makes them an [`Engine`]. Each worker serves one request at a time with its pass, by
//! [`Engine::serve`]. The lock of a tenant's file is taken for one call on it at a time: the call of the worker's own
//! request, or of one that waits for the file (`combiner`). [`Engine::file`] makes one call of one request, and
//! [`Engine::copy_file`] copies a file, under the lock too. Everything else takes none. The tenants and their numbers
//! of words stay the same, so a job that was judged by what [`Engine::find`] told is well formed whenever it is asked
//! for. [`Engine::into_disks`] ends the engine.
//!
//! Where to read:
//! - `specs/Brand`: an engine's identity, which stays for its whole life.
//! - `specs/Passes`: which passes are its own. `specs/Requests`: which requests they may bring.
//! - `specs/Identity`: what a tenant's line is, and which jobs are for it.
//! - `specs/LinesOfWorld`: how these lines agree with the world of the shared words.
//! - `specs/History`: what is known of a request that was answered. `specs/StoreAlone`: that its tenant's store alone
//!   answers it so. `specs/Replies`: which replies a job can have.
//! - `specs/Errands`: how a request comes back to its thread when others may have gone on with it.
//! - `specs/RequestTurns`: that a request is brought to its reply by its own steps and by calls on its tenant's file.
//! - `specs/CallsSinceStart`: that only calls of the run, and copies, were made on a tenant's file since the start.
//! - `specs/DisksAtEnd`, `specs/Copies`: which words are on the disks at the end, and in a copy.
//!
//! - *What a contract says*: on any disk, each reply of [`Engine::serve`] is right in its tenant's history, or has
//!   its evidence (`answered`).
//! - *Proved*: while numbers are left, the tenant's store alone gives it (`laws.rt`).
//! - *Tested only*: that no lock is kept over a point of [`Hold`] or a reply (`held_tests` of mw_engine_tests), and
//!   that whoever waits is woken (`scripts/check-waits`, `scripts/check-wakes`).
//!
//! Used by: mw_service, mw_law_threads, mw_programs, mw_engine_tests.
#![tactic(auto)]

mod brand;
mod combiner;
mod copies;
mod end;
mod engine;
mod errand;
mod errand_boxes;
mod figures;
mod file_calls;
mod file_lock;
mod guarded_file;
mod hold;
mod laws;
mod meet;
mod new_parts;
mod notes;
mod parts;
mod reads;
mod serving;
mod start;
mod steps;
mod tenant_line;
mod tenant_words;
mod tenants;

pub use brand::EngineBrand;
pub use end::NoDisks;
pub use engine::Engine;
pub use hold::{Hold, NoHold, Point};
pub use laws::answers_are_of_the_store_alone;
pub use mw_actor::Actor;
pub use mw_core::{Advance, Note, Pass, WhyAgain};
pub use mw_file::CopyFault;
pub use parts::EngineParts;

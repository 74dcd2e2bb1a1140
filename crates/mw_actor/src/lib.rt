//! The program of a request as a state machine: a read, or a change of several words at once.
//!
//! The machine is asked for its next step. A worker makes that step on the shared words or on the tenant's file, and
//! tells the machine what it found, until the request has its reply. A change is written into a slot of the pool. If
//! a change finds another in its way, it first works on that one. A read only looks.
//!
//! A change follows the multi-word compare-and-swap of Harris, Fraser and Pratt ("A practical multi-word
//! compare-and-swap operation", 2002). A slot is what they call a descriptor, and work on the change in the way is
//! their helping. A plant and a resolve are their restricted double-compare single-swap, RDCSS: the worker plants an
//! attempt in a word, then loads the change's status. It exchanges the attempt for the held word if the change was
//! open, else for the old value. This crate adds the tenant's file, which holds the change before any word has its
//! new value, and the pins and sequence numbers with which slots are used again.
//!
//! The statuses of a change. The two decisions are exchanges, and any worker on the change may win them. Prepare,
//! seal, settle and cancel are calls on the file.
//!
//! ```text
//! Draft --prepare--> Open --decide yes--> YesDirty --seal--> Yes --settle--> DoneYes
//!                     |
//!                     +-----decide no---> No --cancel--> DoneNo
//! ```
//!
//! Read `specs/ActorState` (a request), `specs/Asks` (its step at each point), `specs/Program` (where it goes from
//! there) with its parts `Admission`, `Inspection`, `Help`, `ReleasePhase` and `RequestEnds`, and `specs/Ranges`.
//! mw_law_runs says what holds of all runs of a request.
//!
//! Used by: many crates from mw_world on. mw_core runs the machine on the shared words of threads, mw_simulator in
//! memory. docs/STEPS tells the algorithm; a change of it changes `specs/Program` and the laws of the world.
#![tactic(auto)]

mod actor;
mod points;
mod tasks;

pub use actor::Actor;
pub use points::{After, Attempt, Point, Slot, Sweep, Task};

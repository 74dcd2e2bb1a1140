//! Makes a table (array of shared atomic words) of a world in memory, so that threads go on from where the world was
//! played to.
//!
//! [`of_world`] copies the tenants, the workers and the shared words out of the world. [`run_before`] gives the run
//! that led to the world. `specs/Worlds` says what such a table begins with.
mod copies;
mod from_world;
mod runs;
mod words;

pub(crate) use from_world::of_world;
pub(crate) use runs::run_before;

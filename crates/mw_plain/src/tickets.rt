//! The values that the plain store's calls take and give: tasks, tickets of started changes, and what a start
//! answers.
//!
//! Used by: `plain.rt`, which alone makes a [`Ticket`]. A new field or variant needs its value there.

use mw_file::Place;
use mw_words::{Entries, Job, Reply};

/// A change of a tenant that was started and isn't finished. Finishing it uses up the ticket. A ticket isn't `Drop`,
/// so none gets lost: the change of a lost one would keep its slot and its place.
pub struct Ticket {
    pub(crate) tenant: u8,
    pub(crate) place: Place,
    pub(crate) entries: Entries,
}

impl Ticket {
    /// Gives the ticket up, and leaves the store as it is: the change stays prepared in its place of the tenant's
    /// file, and its slot stays counted, as long as the store is there. An opening of the file finds nothing of the
    /// change.
    pub fn abandon(self) {
        let Ticket {
            tenant: _,
            place: _,
            entries: _,
        } = self;
    }
}

/// How a job started.
pub enum Start {
    /// The job is done, and this is its reply.
    Done(Reply),
    /// The job is a change, and this ticket finishes it.
    Open(Ticket),
}

/// A job for a tenant.
#[derive(Drop)]
pub struct Task {
    /// The tenant's number.
    pub tenant: u8,
    /// The job.
    pub job: Job,
}

//! Tells the replies of each kind apart, with how long they took.
//!
//! Used by: `client`, `crowd`, `report`. It has no contracts.
use crate::latencies::Latencies;
use std::alloc::{AllocError, Global};

/// How long the replies took, of each kind and together.
#[derive(Drop)]
pub struct Replies {
    /// Changes that were answered `YES`.
    pub yes: Latencies,
    /// Changes that were answered `NO`.
    pub no: Latencies,
    /// Changes that were answered `BUSY`.
    pub busy: Latencies,
    /// Reads that were answered by a value.
    pub reads: Latencies,
    /// All replies, also the one for which a client stopped.
    pub all: Latencies,
}

impl Replies {
    /// Makes the counts before any reply.
    ///
    /// # Errors
    ///
    /// Memory was refused.
    pub fn new(alloc: Global) -> Result<Replies, AllocError> {
        Ok(Replies {
            yes: Latencies::new(alloc)?,
            no: Latencies::new(alloc)?,
            busy: Latencies::new(alloc)?,
            reads: Latencies::new(alloc)?,
            all: Latencies::new(alloc)?,
        })
    }

    /// Adds all that the other has counted.
    pub fn add(&mut self, other: &Replies) {
        self.yes.add(&other.yes);
        self.no.add(&other.no);
        self.busy.add(&other.busy);
        self.reads.add(&other.reads);
        self.all.add(&other.all);
    }
}

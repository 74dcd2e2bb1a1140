//! Lets tests hold a worker at certain points of a request.
//!
//! `serving` tells the points. mw_service is generic in it. mw_programs gives a [`NoHold`]: `mwserve` holds nobody. A
//! new point needs a call in `serving`.

/// A point of a request at which a worker can be held. No lock is taken there.
#[derive(Clone, Copy, PartialEq, Eq)]
pub enum Point {
    /// The request has planted a change.
    Planted,
    /// The tenant's file is about to seal a change.
    BeforeSeal,
    /// The tenant's file is about to settle a change.
    BeforeSettle,
    /// A reply is about to be given back.
    BeforeReply,
}

/// Is told of the [`Point`]s that a worker comes to, and may hold the worker there.
pub trait Hold {
    /// The worker of this number is at this point. It goes on when the call returns.
    fn at(&self, worker: u8, point: Point);
}

/// Holds nobody.
#[derive(Clone, Copy, Drop)]
pub struct NoHold;

impl Hold for NoHold {
    fn at(&self, _worker: u8, _point: Point) {}
}

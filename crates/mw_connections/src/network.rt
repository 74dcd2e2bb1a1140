//! The network of a server that has promised what its clients are served with.
//!
//! mw_programs has one for its engine alone, by which mw_server listens, and so for no client whom it may serve otherwise. Tests have
//! one for a socket. Change it with docs/PROMISES.
use std::marker::PhantomData;

/// The right to listen for clients, if they are served as `Q` promises. Of what `rt` may do with sockets it gives nothing else.
#[derive(Drop)]
pub struct Network<'a, R, Q> {
    pub(crate) rt: &'a R,
    promise: PhantomData<Q>,
}

impl<'a, R, Q> Network<'a, R, Q> {
    /// Makes the right to listen by what `rt` may do.
    pub fn new(rt: &'a R) -> Self {
        Network {
            rt,
            promise: PhantomData,
        }
    }
}

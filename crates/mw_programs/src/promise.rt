//! What a server promises its clients, by the engine that answers them, and the right to listen for them by one engine.
//!
//! mwserve gives `serve` a [`ServerNetwork`], which `serving` uses up for its engine. Change it with
//! docs/PROMISES.
ghost use Rattle.std.specs.Prelude.{List};
ghost use Rattle.mw_session.specs.Talk.{Call};
ghost use Rattle.mw_engine.specs.Brand.{Identity};
ghost use Rattle.mw_server_pages.specs.FromHttp.{Call as PageCall};

use mw_connections::{Network, OpensSockets, Promise};
use mw_engine::EngineBrand;
use mw_server_pages::PagesPromise;
use std::marker::PhantomData;

/// What a server promises its clients, as a type. Which engine answers them is known only once it has started.
pub trait ServerPromise: Send + Sync + Drop {
    // An engine with this identity answered these calls of a session, in order, as is promised.
    ghost kept_by: { Identity → List Call → Type 0 };

    // So it did these calls of the pages.
    ghost shown_by: { Identity → List PageCall → Type 0 };
}

/// What `Q` promises, kept by the engine `J` and by no other one. It only names the promise: no value of it is made.
#[derive(Drop)]
pub struct KeptBy<Q, J> {
    promise: PhantomData<Q>,
    engine: PhantomData<J>,
}

impl<Q: ServerPromise, J: EngineBrand + Send + Sync> Promise for KeptBy<Q, J> {
    ghost kept = { Q.kept_by J.identity };
}

impl<Q: ServerPromise, J: EngineBrand + Send + Sync> PagesPromise for KeptBy<Q, J> {
    ghost shown = { Q.shown_by J.identity };
}

/// The right of one server to listen for clients, if they are served as `Q` promises. Of what `rt` may do with sockets it gives
/// nothing else. It is for one engine.
#[derive(Drop)]
pub struct ServerNetwork<'a, N, Q> {
    rt: &'a N,
    promise: PhantomData<Q>,
}

impl<'a, N: OpensSockets, Q> ServerNetwork<'a, N, Q> {
    /// Makes the right to listen by what `rt` may do.
    pub fn new(rt: &'a N) -> Self {
        ServerNetwork {
            rt,
            promise: PhantomData,
        }
    }
}

impl<'a, N, Q> ServerNetwork<'a, N, Q> {
    /// Uses it up for the engine `J`: only that can answer the clients.
    pub(crate) fn for_engine<J>(self) -> EngineNetwork<'a, N, Q, J> {
        EngineNetwork {
            network: Network::new(self.rt),
        }
    }
}

/// The right of one server to listen for clients whom the engine `J` answers, as `Q` promises. One at most is made of a [`ServerNetwork`].
#[derive(Drop)]
pub struct EngineNetwork<'a, N, Q, J> {
    network: Network<'a, N, KeptBy<Q, J>>,
}

impl<'a, N, Q, J> EngineNetwork<'a, N, Q, J> {
    /// Gives what listeners are made by.
    pub(crate) fn network(&self) -> &Network<'a, N, KeptBy<Q, J>> {
        &self.network
    }
}

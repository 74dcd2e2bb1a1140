//! A server for tests, over the words of one tenant.
//!
//! Used by: `client_tests`, `crowd_tests`.
ghost use Rattle.std.specs.Prelude.{◌<◌, List};
ghost use Rattle.mw_session.specs.Talk.{Call};

use mw_connections::Listener;
use mw_test_peers::{Clerk, Shelf};
use mw_workers::{ServeEnd, serve_all};
use std::alloc::{AllocError, Global};
use std::sync::{Mutex, Wait};
use std::thread::Threads;
use std::time::Clock;

/// How much is served.
#[derive(Clone, Copy)]
pub struct Shop {
    /// How many words the tenant has.
    pub words: u16,
    pub workers: u8,
    /// How many connections the listener is asked for.
    pub connections: u32,
    /// How many seconds a connection waits for a worker. None: for ever.
    pub wait: Option<u32>,
}

/// Serves these connections, and gives the listener back. Its clients were promised nothing.
pub fn serve<L: Listener + Drop, R: Threads + Wait + Clock + Sync>(
    rt: &R,
    alloc: Global,
    listener: L,
    shop: Shop,
) -> Result<(ServeEnd, L), AllocError>
    requires some { 0 < shop.workers }
    requires anything { (calls : List Call) → L.Connection.promised calls }
{
    let shelf = Mutex::new(Shelf::new(shop.words));
    let mut services = Vec::new(alloc);
    for _ in 0..shop.workers {
        services.push(Clerk { rt, shelf: &shelf })?;
    }
    Ok(serve_all(
        rt,
        alloc,
        listener,
        services,
        Some(shop.connections),
        shop.wait,
    ))
}

//! Serves the clients that come to the addresses of a server, each by a service that is free.
//!
//! Used by: mw_programs. Change it with docs/OPERATING, which has what it prints and its notes.
ghost use Rattle.std.specs.Prelude.{◌<◌, vec_len};
ghost use Rattle.mw_connections.specs.Promises.{KeepsPromise, PagesKeep};

use crate::addresses::{AdminDoor, ClientDoors, DoorTerms, Doors, open_doors};
use crate::pages::{PagesEnd, show_pages};
use log::Log;
use mw_config::Listening;
use mw_connections::{
    BriefListener, ClientListener, Lease, Listener, MeteredListener, Network, OpensSockets,
    Patient, RoomWatch,
};
use mw_metrics::Meters;
use mw_server_pages::{Pages, PagesPromise};
use mw_session::Service;
use mw_upkeep::{
    Console, FileLook, HeldLease, LeaseLook, PERIOD, RoomNotes, ServeFault, Stop, look_on,
};
use mw_workers::{Desk, ServeEnd, serve_all, serve_beside};
use std::alloc::AllocError;
use std::sync::Wait;
use std::thread::{self, JoinHandle, Scope, Threads};
use std::time::Clock;

/// What the start of a server made, but its engine.
#[derive(Drop)]
pub struct Server<'e, R, N, Q, L, T> {
    pub rt: &'e R,
    /// Where it listens, and what its clients are promised.
    pub network: &'e Network<'e, N, Q>,
    pub listening: &'e Listening,
    pub notes: &'e L,
    /// Is told of each request that is answered FAULT, and looks at the tenants' files.
    pub watch: &'e T,
    pub meters: &'e Meters,
    /// The lease that it has taken, if it has to have one.
    pub held: Option<&'e HeldLease<'e>>,
}

impl<'e, R, N, Q, L, T> Server<'e, R, N, Q, L, T> {
    /// Gives what replies ask before they tell of words.
    fn lease(&self) -> Option<&'e Lease> {
        match self.held {
            Some(held) => Some(held.lease()),
            None => None,
        }
    }
}

/// Opens the addresses of a server, tells where it listens, and serves clients, each by one of these services, if there was
/// memory for them. If there is an address for the administrator, the last of them serves only the clients of that address. Meanwhile a thread
/// looks at the tenants' files, and if there are pages another one shows them.
pub fn serve_clients<
    'e,
    S: Service + Send + Drop,
    G: Pages + Send + Drop,
    R: AllocGlobal + Threads + Wait + Clock + Sync,
    N: OpensSockets + Clock + Sync,
    Q: PagesPromise,
    C: Console,
    L: Log + Sync,
    T: FileLook + Sync,
>(
    server: &Server<'e, R, N, Q, L, T>,
    services: Result<Vec<S>, AllocError>,
    pages: Option<G>,
    console: &mut C,
) -> Result<(), ServeFault>
    requires keeps { KeepsPromise S.answered Q.kept }
    requires pages { PagesKeep G.answered Q.shown }
{
    let services = services?;
    if services.is_empty() {
        return Err(ServeFault::Memory);
    }
    let terms = DoorTerms {
        network: server.network,
        listening: server.listening,
        counters: server.meters.server(),
        lease: server.lease(),
    };
    match open_doors(&terms, console, server.notes) {
        Ok(doors) => serve_watched(server, doors, services, pages),
        Err(fault) => Err(fault),
    }
}

/// Serves clients and shows the pages, while a thread looks at the tenants' files, and another one beats the lease, if there is
/// one.
fn serve_watched<
    'e,
    S: Service + Send + Drop,
    G: Pages + Send + Drop,
    R: AllocGlobal + Threads + Wait + Clock + Sync,
    N: Clock + Sync,
    Q: PagesPromise,
    L: Log + Sync,
    T: FileLook + Sync,
>(
    server: &Server<'e, R, N, Q, L, T>,
    doors: Doors<'e, N, Q>,
    services: Vec<S>,
    pages: Option<G>,
) -> Result<(), ServeFault>
    requires some { 0 < vec_len services }
    requires keeps { KeepsPromise S.answered Q.kept }
    requires pages { PagesKeep G.answered Q.shown }
{
    let Doors {
        clients,
        pages: listener,
        pages_end: end,
    } = doors;
    let (stop, end) = (&Stop::new(), &end);
    let rt = server.rt;
    let look = LeaseLook {
        rt,
        notes: server.notes,
        held: server.held,
        files: server.watch,
    };
    let look = &look;
    let shown = pages.zip(listener);
    thread::scope(
        thread::scope_env(),
        rt,
        |scope| -> Result<(), ServeFault>
            requires some { 0 < vec_len services }
            requires keeps { KeepsPromise S.answered Q.kept }
            requires pages { PagesKeep G.answered Q.shown }
        {
            let ended = if begin_looks(scope, rt, look, server.held, stop).is_ok() {
                serve_and_show(scope, server, clients, services, shown, end)
            } else {
                Err(ServeFault::Memory)
            };
            stop.ask(rt);
            ended
        },
    )
}

/// Starts the thread that looks at the tenants' files, and the one that beats the lease, if there is one.
///
/// # Errors
///
/// One of them couldn't be started. The other one, if it was started, ends when it is asked to.
fn begin_looks<'s, E, R: Wait + Clock + Sync + 's, T: FileLook + Sync + 's>(
    scope: &Scope<'s, E>,
    rt: &'s R,
    files: &'s T,
    held: Option<&'s HeldLease<'s>>,
    stop: &'s Stop,
) -> Result<(), AllocError> {
    scope.spawn(move || look_on(rt, files, PERIOD, stop))?;
    if let Some(held) = held {
        scope.spawn(move || held.beat_on(rt, stop))?;
    }
    Ok(())
}

/// Serves clients, while a thread of this scope shows the pages, if there are any and they have an address. When serving has
/// ended the pages end too.
fn serve_and_show<
    's,
    'e: 's,
    E,
    S: Service + Send + Drop,
    G: Pages + Send + Drop + 's,
    R: AllocGlobal + Threads + Wait + Clock + Sync,
    N: Clock + Sync,
    Q: PagesPromise,
    L: Log + Sync,
    T,
>(
    scope: &Scope<'s, E>,
    server: &Server<'e, R, N, Q, L, T>,
    doors: ClientDoors<'e, N, Q>,
    services: Vec<S>,
    shown: Option<(G, BriefListener<'e, N, Q>)>,
    end: &'s PagesEnd,
) -> Result<(), ServeFault>
    requires some { 0 < vec_len services }
    requires keeps { KeepsPromise S.answered Q.kept }
    requires pages { PagesKeep G.answered Q.shown }
{
    let Some((pages, listener)) = shown else {
        return serve_doors(server, doors, services);
    };
    let (rt, names) = (server.rt, server.listening.http_names.as_slice());
    match begin_pages(scope, rt, listener, pages, names, end) {
        Ok(shows) => {
            let ended = serve_doors(server, doors, services);
            end.end();
            shows.join(rt);
            ended
        }
        Err(_) => Err(ServeFault::Memory),
    }
}

/// Starts the thread that shows the pages.
///
/// # Errors
///
/// It couldn't be started.
fn begin_pages<
    's,
    E,
    G: Pages + Send + Drop + 's,
    R: Wait + Clock + Sync + 's,
    N: Clock + Sync + 's,
    Q: PagesPromise + 's,
>(
    scope: &Scope<'s, E>,
    rt: &'s R,
    listener: BriefListener<'s, N, Q>,
    pages: G,
    names: &'s [String],
    end: &'s PagesEnd,
) -> Result<JoinHandle<()>, AllocError>
    requires keeps { PagesKeep G.answered Q.shown }
{
    Ok(scope.spawn(
        move ||
            requires keeps { PagesKeep G.answered Q.shown }
        { show_pages(rt, listener, pages, names, end) },
    )?)
}

/// Serves the clients that come to the one address or to both.
fn serve_doors<
    'e,
    S: Service + Send + Drop,
    R: AllocGlobal + Threads + Wait + Clock + Sync,
    N: Clock + Sync,
    Q: PagesPromise,
    L: Log + Sync,
    T,
>(
    server: &Server<'e, R, N, Q, L, T>,
    doors: ClientDoors<'e, N, Q>,
    services: Vec<S>,
) -> Result<(), ServeFault>
    requires some { 0 < vec_len services }
    requires keeps { KeepsPromise S.answered Q.kept }
{
    let (rt, listening, counters) = (server.rt, server.listening, server.meters.server());
    let room = RoomNotes::new(rt, server.notes, listening.address.as_str());
    let (all, admin) = (MeteredListener::new(doors.all, counters), doors.admin);
    let ended = match admin {
        Some(admin) => serve_both(server, all, admin, services, &room),
        None => serve_one(rt, all, services, &room, listening),
    };
    match ended {
        ServeEnd::Served => Ok(()),
        ServeEnd::Memory => Err(ServeFault::Memory),
    }
}

/// Serves the clients of one listener. The room is told when the system has none for them.
fn serve_one<
    M: Listener + Drop,
    S: Service + Send + Drop,
    W: RoomWatch,
    R: AllocGlobal + Threads + Wait + Clock + Sync,
>(rt: &R, clients: M, services: Vec<S>, room: &W, listening: &Listening) -> ServeEnd
    requires some { 0 < vec_len services }
    requires keeps { KeepsPromise S.answered M.Connection.promised }
{
    let clients = Patient::new(clients, rt, room);
    let (connections, wait) = (listening.connections, listening.wait);
    serve_all(rt, rt.alloc(), clients, services, connections, wait).0
}

/// Serves the clients that come to both addresses. The last service is for those of the administrator's address, and the
/// others are for the rest.
fn serve_both<
    'e,
    S: Service + Send + Drop,
    R: AllocGlobal + Threads + Wait + Clock + Sync,
    N: Clock + Sync,
    Q: PagesPromise,
    L: Log + Sync,
    T,
>(
    server: &Server<'e, R, N, Q, L, T>,
    clients: MeteredListener<'e, ClientListener<'e, N, Q>>,
    admin: AdminDoor<'e, N, Q>,
    services: Vec<S>,
    room: &RoomNotes<'_, L, R>,
) -> ServeEnd
    requires keeps { KeepsPromise S.answered Q.kept }
{
    let Some(both) = BothServices::new(services) else {
        return ServeEnd::Memory;
    };
    let (rt, own_room) = (
        server.rt,
        RoomNotes::new(server.rt, server.notes, admin.address),
    );
    let desk = Desk {
        listener: MeteredListener::new(admin.listener, server.meters.server()),
        service: both.admin_service,
        closer: admin.closer,
        watch: &own_room,
    };
    serve_beside_desk(rt, clients, both.services, room, desk, server.listening)
}

/// Serves the clients of one listener as [`serve_one`] does, and those of the desk.
fn serve_beside_desk<
    M: Listener + Send + Drop,
    S: Service + Send + Drop,
    V: RoomWatch,
    W: RoomWatch + Sync,
    R: AllocGlobal + Threads + Wait + Clock + Sync,
>(
    rt: &R,
    clients: M,
    services: Vec<S>,
    room: &V,
    desk: Desk<'_, M, S, W>,
    listening: &Listening,
) -> ServeEnd
    requires some { 0 < vec_len services }
    requires keeps { KeepsPromise S.answered M.Connection.promised }
{
    let clients = Patient::new(clients, rt, room);
    let (connections, wait) = (listening.connections, listening.wait);
    serve_beside(rt, rt.alloc(), desk, clients, services, connections, wait).0
}

/// The services for clients, and the one for the administrator.
#[derive(Drop)]
struct BothServices<S> {
    services: Vec<S>,
    admin_service: S,
    ghost some: { 0 < vec_len services },
}

impl<S: Drop> BothServices<S> {
    /// Takes the last of these services for the administrator. Gives None if no other one is left.
    fn new(services: Vec<S>) -> Option<Self> {
        let mut services = services;
        let admin_service = services.pop()?;
        if services.is_empty() {
            return None;
        }
        Some(BothServices {
            services,
            admin_service,
        })
    }
}

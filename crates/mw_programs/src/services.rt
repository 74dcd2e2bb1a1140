//! Makes the services that answer clients: a worker for each pass, or with `--clients` a borrower for each client;
//! and the pages, with `--http`.
//!
//! Used by: `serving`, for `--listen`. Change it with docs/OPERATING.
ghost use Rattle.std.specs.Prelude.{◌≡◌, ◌≤◌, ◌+◌, All, IfOk, IfSome, is_some, if◌then◌else◌, length, vec_len};
ghost use Rattle.mw_connections.specs.Promises.{KeepsPromise, PagesKeep};
ghost use Rattle.mw_engine.specs.Passes.{IsNew};
ghost use Rattle.mw_service.specs.TokenTables.{table_of};
ghost use Rattle.mw_programs.specs.Promised.{Promises};

use crate::copies::EngineFiles;
use log::Log;
use mw_config::{Listening, SharedWorkers};
use mw_connections::OpensSockets;
use mw_disk::Disk;
use mw_engine::{Engine, EngineBrand, NoHold, Pass};
use mw_main::VERSION;
use mw_metrics::{Meters, ServerCounters};
use mw_server::{MeteredService, Server, capacity, counted, serve_clients};
use mw_server_pages::{Pages, PagesPromise, ServerPages, Version};
use mw_service::{Borrower, NewTokenTable, PassPool, ReadPool, TokenBrand, TokenTable, Worker};
use mw_session::{FaultWatch, Service};
use mw_upkeep::{Console, FileLook, ServeFault};
use std::alloc::AllocError;
use std::marker::Brand;
use std::sync::Wait;
use std::thread::Threads;
use std::time::Clock;

/// Serves clients, by a worker for each pass or by borrowers that share them, and shows the pages if there is an address for them. The
/// last pass is then for the pages.
pub(crate) fn serve_all_clients<
    'e,
    J,
    D: Disk + Drop + Send + Sync,
    R,
    N,
    Q: PagesPromise,
    C: Console,
    L: Log + Sync,
    T: FaultWatch + FileLook + Sync,
>(
    server: &Server<'e, R, N, Q, L, T>,
    engine: &'e Engine<J, D, NoHold>,
    passes: Vec<Pass>,
    console: &mut C,
) -> Result<(), ServeFault>
where
    J: EngineBrand + Send + Sync,
    R: AllocGlobal + Threads + Wait + Clock + Sync,
    N: OpensSockets + Clock + Sync,
    requires new { All (IsNew J.identity) passes.items }
    requires clients { IfSome server.now.listening.now.shared (λ shared. 1 ≤ shared.clients) }
    requires promise { Promises D.facts J.identity Q.kept Q.shown }
{
    let (rt, listening, meters) = (server.rt, server.listening, server.meters);
    let mut passes = passes;
    let pages = pages_for(rt, engine, &mut passes, listening, server.watch, meters)?;
    match &listening.shared {
        None => {
            let meter = counted(listening, meters);
            let workers = workers_for(rt, engine, passes, server.watch, meter);
            serve_clients(server, workers, pages, console)
        }
        Some(shared) => {
            let made = NewTokenTable::new(rt.alloc())?;
            serve_borrowers::<J, Brand, _, _, _, _, _, _, _, _>(
                server, engine, made, passes, pages, *shared, console,
            )
        }
    }
}

/// Serves clients that share the passes, by a borrower for each of them. This table has the tokens of their requests. If there is an
/// address for the administrator, the last pass is for the clients of that address.
fn serve_borrowers<
    'e,
    J,
    K: TokenBrand + Send + Sync,
    D: Disk + Drop + Send + Sync,
    R,
    N,
    Q: PagesPromise,
    C: Console,
    L: Log + Sync,
    G: Pages + Send + Drop,
    T: FaultWatch + FileLook + Sync,
>(
    server: &Server<'e, R, N, Q, L, T>,
    engine: &'e Engine<J, D, NoHold>,
    made: NewTokenTable,
    passes: Vec<Pass>,
    pages: Option<G>,
    shared: SharedWorkers,
    console: &mut C,
) -> Result<(), ServeFault>
where
    J: EngineBrand + Send + Sync,
    R: AllocGlobal + Threads + Wait + Clock + Sync,
    N: OpensSockets + Clock + Sync,
    requires named { table_of made ≡ K.table }
    requires new { All (IsNew J.identity) passes.items }
    requires clients { 1 ≤ shared.clients }
    requires promise { Promises D.facts J.identity Q.kept Q.shown }
    requires pages { PagesKeep G.answered Q.shown }
{
    let meter = counted(server.listening, server.meters);
    let has_admin = server.listening.admin.is_some();
    let tokens = made.named::<K>();
    match Pools::new(server.rt, &tokens, passes, shared.readers, has_admin, meter) {
        Ok(pools) => {
            let (rt, watch, clients) = (server.rt, server.watch, shared.clients);
            let borrowers = borrowers_for(rt, engine, &tokens, &pools, clients, watch, meter);
            serve_clients(server, borrowers, pages, console)
        }
        Err(_) => Err(ServeFault::Memory),
    }
}

/// Gives the version of this server, as its pages tell it.
fn version() -> Version {
    Version::try_from(VERSION.as_bytes()).unwrap_or_default()
}

/// Makes the pages if they have an address. A worker with the last of these passes gives their figures, and the engine gives
/// copies of its files.
///
/// # Errors
///
/// [`AllocError`] if memory is out, or there is no pass.
fn pages_for<'a, J: EngineBrand, D: Disk, H, R: AllocGlobal + Clock, T>(
    rt: &'a R,
    engine: &'a Engine<J, D, H>,
    passes: &mut Vec<Pass>,
    listening: &Listening,
    watch: &'a T,
    meters: &'a Meters,
) -> Result<
    Option<ServerPages<'a, Worker<'a, J, D, H, R, T>, EngineFiles<'a, J, D, H, R>, R>>,
    AllocError,
>
    requires { All (IsNew J.identity) passes.old.items }
    ensures left { All (IsNew J.identity) passes.new.items }
{
    if listening.http.is_none() {
        return Ok(None);
    }
    let own = cut::<J>(passes, 1)?;
    let worker = first_worker(rt, engine, own, watch)?;
    let files = EngineFiles { engine, rt };
    let capacity = capacity(listening, passes.len());
    let pages = ServerPages::new(worker, files, meters, rt, version(), capacity)?;
    Ok(Some(pages))
}

/// Makes a worker for each pass. The meters, if there are any, count their requests.
fn workers_for<'a, J: EngineBrand, D: Disk, H, R: AllocGlobal, T>(
    rt: &'a R,
    engine: &'a Engine<J, D, H>,
    passes: Vec<Pass>,
    watch: &'a T,
    meters: Option<&'a Meters>,
) -> Result<Vec<MeteredService<'a, Worker<'a, J, D, H, R, T>, R>>, AllocError>
    requires new { All (IsNew J.identity) passes.items }
    ensures { IfOk result (λ workers. vec_len workers ≡ vec_len passes) }
{
    let mut workers = Vec::with_capacity(rt.alloc(), passes.len())?;
    for pass in passes {
        let worker = Worker::new(engine, pass, rt, watch);
        add(&mut workers, MeteredService::new(worker, rt, meters))?;
    }
    Ok(workers)
}

/// Makes a worker with the first of these passes.
///
/// # Errors
///
/// [`AllocError`] if there is no pass.
pub(crate) fn first_worker<'a, J: EngineBrand, D: Disk, H, R, T>(
    rt: &'a R,
    engine: &'a Engine<J, D, H>,
    passes: Vec<Pass>,
    watch: &'a T,
) -> Result<Worker<'a, J, D, H, R, T>, AllocError>
    requires { All (IsNew J.identity) passes.items }
    ensures { IfOk result (λ worker. IsNew J.identity worker.pass) }
{
    match passes.into_iter().next() {
        Some(pass) => Ok(Worker::new(engine, pass, rt, watch)),
        None => Err(AllocError),
    }
}

/// Adds a service to these.
///
/// # Errors
///
/// [`AllocError`] if memory is out.
fn add<S: Drop>(services: &mut Vec<S>, service: S) -> Result<(), AllocError>
    ensures { IfOk result (λ _. length services.new.items ≡ length services.old.items + 1) }
{
    services.push(service)?;
    Ok(())
}

/// The passes that clients borrow.
#[derive(Drop)]
struct Pools<'a, J: EngineBrand, K: TokenBrand> {
    reads: ReadPool<J, K>,
    changes: PassPool<'a, J, K>,
    /// The administrator's own.
    admin: Option<PassPool<'a, J, K>>,
}

impl<'a, J: EngineBrand, K: TokenBrand> Pools<'a, J, K> {
    /// Makes the pools of these passes, which the meters count, if there are any. If there is an address for the administrator, the last pass is for its clients.
    /// Of the others so many are for reads, but at least one is left for changes.
    ///
    /// # Errors
    ///
    /// [`AllocError`] if memory is out, there are too few passes, or the source of a worker's tokens was given before. They are
    /// dropped.
    fn new<R: AllocGlobal + Wait>(
        rt: &R,
        tokens: &TokenTable<K>,
        passes: Vec<Pass>,
        readers: u8,
        has_admin: bool,
        meters: Option<&'a Meters>,
    ) -> Result<Self, AllocError>
        requires new { All (IsNew J.identity) passes.items }
        ensures { IfOk result (λ pools. is_some pools.admin ≡ has_admin) }
    {
        let counters = server_of(meters);
        let mut passes = passes;
        let admin = admin_pool_of(rt, tokens, &mut passes, has_admin, counters)?;
        let reads = read_pool_of(rt, tokens, &mut passes, readers)?;
        let changes = pool_of(rt, tokens, passes, counters)?;
        Ok(Pools {
            reads,
            changes,
            admin,
        })
    }
}

/// Gives what counts for the whole server, if something is counted.
fn server_of<'m>(meters: Option<&'m Meters>) -> Option<&'m ServerCounters> {
    match meters {
        Some(meters) => Some(meters.server()),
        None => None,
    }
}

/// Cuts the last `count` passes off.
///
/// # Errors
///
/// [`AllocError`] if memory is out, or there are not so many. The passes are as they were.
fn cut<J: EngineBrand>(passes: &mut Vec<Pass>, count: usize) -> Result<Vec<Pass>, AllocError>
    requires { All (IsNew J.identity) passes.old.items }
    ensures left { All (IsNew J.identity) passes.new.items }
    ensures cut { IfOk result (λ made. All (IsNew J.identity) made.items) }
{
    match passes.len().checked_sub(count) {
        Some(left) => passes.split_off(left),
        None => Err(AllocError),
    }
}

/// Makes a pool of these passes, which these counters count.
///
/// # Errors
///
/// [`AllocError`] if memory is out, there is no pass, or the source of a worker's tokens was given before.
fn pool_of<'a, J: EngineBrand, K: TokenBrand, R: AllocGlobal + Wait>(
    rt: &R,
    tokens: &TokenTable<K>,
    passes: Vec<Pass>,
    counters: Option<&'a ServerCounters>,
) -> Result<PassPool<'a, J, K>, AllocError>
    requires new { All (IsNew J.identity) passes.items }
{
    if passes.is_empty() {
        return Err(AllocError);
    }
    PassPool::new(rt, rt.alloc(), tokens, passes, counters)
}

/// Makes the administrator's pool of the last of these passes, if there is an address for the administrator.
///
/// # Errors
///
/// [`AllocError`] if memory is out, there is no pass, or the source of its worker's tokens was given before.
fn admin_pool_of<'a, J: EngineBrand, K: TokenBrand, R: AllocGlobal + Wait>(
    rt: &R,
    tokens: &TokenTable<K>,
    passes: &mut Vec<Pass>,
    has_admin: bool,
    counters: Option<&'a ServerCounters>,
) -> Result<Option<PassPool<'a, J, K>>, AllocError>
    requires { All (IsNew J.identity) passes.old.items }
    ensures left { All (IsNew J.identity) passes.new.items }
    ensures made { IfOk result (λ admin. is_some admin ≡ has_admin) }
{
    if !has_admin {
        return Ok(None);
    }
    let own = cut::<J>(passes, 1)?;
    Ok(Some(pool_of(rt, tokens, own, counters)?))
}

/// Makes a pool of the last of these passes, which only read. There are so many, but at least one is left.
///
/// # Errors
///
/// [`AllocError`] if memory is out, there are too few passes, or the source of a worker's tokens was given before.
fn read_pool_of<J: EngineBrand, K: TokenBrand, R: AllocGlobal>(
    rt: &R,
    tokens: &TokenTable<K>,
    passes: &mut Vec<Pass>,
    readers: u8,
) -> Result<ReadPool<J, K>, AllocError>
    requires { All (IsNew J.identity) passes.old.items }
    ensures left { All (IsNew J.identity) passes.new.items }
{
    let most = passes.len().saturating_sub(1);
    let reads = cut::<J>(passes, most.min(usize::from(readers)))?;
    if reads.is_empty() {
        return Err(AllocError);
    }
    ReadPool::new(rt.alloc(), tokens, reads)
}

/// What all borrowers of a server have in common.
#[derive(Drop)]
struct BorrowerParts<'a, J: EngineBrand, K: TokenBrand, D: Disk, H, R, T> {
    rt: &'a R,
    engine: &'a Engine<J, D, H>,
    tokens: &'a TokenTable<K>,
    watch: &'a T,
    /// They count the requests, if there are any.
    meters: Option<&'a Meters>,
}

impl<'a, J: EngineBrand, K: TokenBrand, D: Disk, H, R, T> BorrowerParts<'a, J, K, D, H, R, T> {
    /// Makes the borrower of this number, which borrows from these pools.
    fn borrower(
        &self,
        number: usize,
        reads: Option<&'a ReadPool<J, K>>,
        passes: &'a PassPool<'a, J, K>,
    ) -> MeteredService<'a, Borrower<'a, J, K, D, H, R, T>, R> {
        let (rt, engine, tokens) = (self.rt, self.engine, self.tokens);
        let borrower = Borrower::new(number, engine, tokens, reads, passes, rt, self.watch);
        MeteredService::new(borrower, rt, self.meters)
    }
}

/// Makes a borrower for each client that is served at once, and one more for the administrator, if there are passes for
/// the administrator. The meters, if there are any, count their requests.
///
/// # Errors
///
/// [`AllocError`] if memory is out.
fn borrowers_for<'a, J: EngineBrand, K: TokenBrand, D: Disk, H, R: AllocGlobal, T>(
    rt: &'a R,
    engine: &'a Engine<J, D, H>,
    tokens: &'a TokenTable<K>,
    pools: &'a Pools<'a, J, K>,
    clients: u16,
    watch: &'a T,
    meters: Option<&'a Meters>,
) -> Result<Vec<MeteredService<'a, Borrower<'a, J, K, D, H, R, T>, R>>, AllocError>
    ensures { IfOk result (λ made. vec_len made ≡ clients + (if is_some pools.now.admin then 1 else 0)) }
{
    let parts = BorrowerParts {
        rt,
        engine,
        tokens,
        watch,
        meters,
    };
    let mut made = Vec::with_capacity(rt.alloc(), usize::from(clients) + 1)?;
    for _ in 0..clients {
        let borrower = parts.borrower(made.len(), Some(&pools.reads), &pools.changes);
        add(&mut made, borrower)?;
    }
    if let Some(own) = &pools.admin {
        add(&mut made, parts.borrower(0, None, own))?;
    }
    Ok(made)
}

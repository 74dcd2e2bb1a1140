//! Plays worlds in memory up to the moment from which threads go on.
//!
//! Used by: `making_tests`, `race_tests`, `reading_tests`.
ghost use Rattle.std.specs.Prelude.{◌≡◌, ◌≤◌, [], IfSome};
ghost use Rattle.mw_words.specs.declared.limits.TheConstants.{MAX_POOL, MAX_QUOTA, MAX_WORDS, MAX_WORKERS};
ghost use Rattle.mw_world.specs.Definition.State.{IsConfig, tenant_at, tenants_of};
ghost use Rattle.mw_simulator.specs.Events.{IsAfterRun};
ghost use Rattle.mw_table_tests.specs.Reached.{IsReached};

use arrayvec::ArrayVec;
use mw_look::{Kind, Op};
use mw_simulator::World;
use mw_words::{Entries, Entry, Job};
use mw_world::{Config, Event, Outcome, Tenant};
use std::alloc::Global;

/// More steps than a request makes.
pub(crate) const MANY_STEPS: u32 = 100_000;

/// Makes the configuration of one tenant with so many words, which may use all slots.
pub(crate) fn config(pool: u8, workers: u8, words: u16) -> Config
    requires pool { (1 ≤ pool) × (pool ≤ MAX_QUOTA) }
    requires workers { (1 ≤ workers) × (workers ≤ MAX_WORKERS) }
    requires words { (1 ≤ words) × (words ≤ MAX_WORDS) }
    ensures made { IsConfig result }
    ensures pool { result.pool ≡ pool }
    ensures workers { result.workers ≡ workers }
    ensures words { (tenant_at result 0).words ≡ words }
    ensures tenants { 1 ≤ tenants_of result }
{
    let mut tenants = ArrayVec::new();
    tenants.push(Tenant {
        name: ArrayVec::new(),
        words,
        quota: pool,
        old: None,
    });
    Config {
        pool: u16::from(pool),
        workers,
        seq: 0,
        tenants,
    }
}

/// Makes a new world of one tenant. Gives None if memory is refused.
pub(crate) fn new_world(alloc: Global, config: Config) -> Option<World>
    requires { IsConfig config }
    ensures reached { IfSome result IsReached }
    ensures new { IfSome result (λ world. IsAfterRun world []) }
    ensures config { IfSome result (λ world. world.config ≡ config) }
{
    match World::new(alloc, config) {
        Ok(world) => Some(world),
        Err(_) => None,
    }
}

/// What a worker does before threads go on.
#[derive(Clone, Copy)]
pub(crate) enum Move {
    /// It is asked to change so many words, from word 0 on, from 0 to this value.
    Change(u16, u64),
    /// It is asked to read word 0.
    Read,
    /// It makes its next step, or its call on its file, which succeeds.
    Step,
    /// It makes steps until its next one is a change of this kind.
    To(Kind),
}

/// Makes a change of so many words, from word 0 on, from 0 to this value.
fn change(words: u16, new: u64) -> Job {
    let mut entries = Entries::new();
    for addr in 0..words {
        let _ = entries.try_push(Entry {
            addr,
            expected: 0,
            new,
        });
    }
    Job::Cas(entries)
}

/// Gives the world after an event, and None if the event can't happen.
fn after(mut world: World, event: Event) -> Option<World>
    requires reached { IsReached world }
    ensures reached { IfSome result IsReached }
    ensures config { IfSome result (λ next. next.config ≡ world.config) }
{
    match world.step(event) {
        Ok(()) => Some(world),
        Err(_) => None,
    }
}

/// Gives the world after the next step of the worker's request, or after its call on its file, which
/// succeeds. Gives None if the event can't happen.
fn step(mut world: World, worker: u8) -> Option<World>
    requires reached { IsReached world }
    ensures reached { IfSome result IsReached }
    ensures config { IfSome result (λ next. next.config ≡ world.config) }
{
    match world.step(Event::Step(worker)) {
        Ok(()) => Some(world),
        Err(_) => after(world, Event::File(worker, Outcome::Good)),
    }
}

/// Tells whether the next step of a worker's request is a change of this kind.
fn is_next(world: &World, worker: u8, kind: Kind) -> bool {
    if worker >= world.config().workers {
        return false;
    }
    let Some(actor) = world.actor(worker) else {
        return false;
    };
    matches!(actor.ask(), Op::Change { kind: found, .. } if found == kind)
}

/// Gives the world in which a worker's request has come to a step of a kind, and None if it doesn't come
/// there.
fn play_to(mut world: World, worker: u8, kind: Kind) -> Option<World>
    requires reached { IsReached world }
    ensures reached { IfSome result IsReached }
    ensures config { IfSome result (λ next. next.config ≡ world.config) }
{
    for _ in 0..MANY_STEPS {
        if is_next(&world, worker, kind) {
            return Some(world);
        }
        world = step(world, worker)?;
    }
    None
}

/// Gives the world after a worker has done this, and None if it can't.
fn moved(world: World, worker: u8, what: Move) -> Option<World>
    requires reached { IsReached world }
    ensures reached { IfSome result IsReached }
    ensures config { IfSome result (λ next. next.config ≡ world.config) }
{
    let job = match what {
        Move::Change(words, new) => change(words, new),
        Move::Read => Job::Get(0),
        Move::Step => return step(world, worker),
        Move::To(kind) => return play_to(world, worker, kind),
    };
    after(world, Event::Come(worker, 0, job))
}

/// Plays a new world of one tenant, in which each of these workers does this. Gives None if one of them can't, or
/// memory is refused.
pub(crate) fn played(alloc: Global, config: Config, moves: &[(u8, Move)]) -> Option<World>
    requires { IsConfig config }
    ensures reached { IfSome result IsReached }
    ensures config { IfSome result (λ world. world.config ≡ config) }
{
    let mut world = new_world(alloc, config)?;
    for (worker, what) in moves {
        world = moved(world, *worker, *what)?;
    }
    Some(world)
}

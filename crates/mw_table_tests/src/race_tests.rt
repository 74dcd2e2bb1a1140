//! Tests two threads that make the steps of two requests on one table (array of shared atomic words).
//!
//! Used by: `reading_tests`.
ghost use Rattle.std.specs.Prelude.{◌≡◌, ◌≤◌, All, IfSome, List, nat_lt, true};
ghost use Rattle.mw_world.specs.Definition.Events.{WorldEvent};
ghost use Rattle.mw_world.specs.Definition.State.{tenant_at, tenants_of};
ghost use Rattle.mw_core.specs.FromTable.{IsCarried, IsDealt, IsOf, basis_of, config_of, opening_at};
ghost use Rattle.mw_table_tests.specs.Worlds.{basis_of_world};
ghost use Rattle.mw_table_tests.specs.Reached.{IsReached};
ghost use Rattle.mw_table_tests.specs.Readers.{MayRead};

use crate::world_table::{of_world, run_before};
use crate::worlds::{MANY_STEPS, Move, config, played};
use mw_actor::Actor;
use mw_core::{Advance, Core, Pass};
use mw_look::Kind;
use mw_simulator::World;
use mw_table::RunBefore;
use mw_words::{At, Job, Reply};
use std::alloc::Global;
use std::thread::{Threads, join};

/// A worker's pass, with the request that it carries.
#[derive(Drop)]
pub(crate) struct Side {
    pub(crate) pass: Pass,
    pub(crate) actor: Actor,
}

/// A core on the shared words of a world, the workers' passes, and the run that led to the world.
pub(crate) struct Opened {
    pub(crate) core: Core,
    pub(crate) passes: Vec<Pass>,
    pub(crate) run: RunBefore,
}

/// How far a thread drove its request.
#[derive(Drop)]
struct Driven {
    pass: Pass,
    end: Advance,
    reply: Option<Reply>,
}

/// Gives the request that a pass of a new table carries, if it has one without a reply.
fn request_of(core: &Core, world: &World, run: &RunBefore, pass: &Pass) -> Option<Actor>
    requires reached { IsReached world.now }
    requires dealt { IsDealt core.now.shared (basis_of_world world.now run.now.events) pass.now }
    ensures { IfSome result (λ actor. IsCarried pass.now actor) }
{
    let actor = world.actor(pass.worker())?;
    match actor.reply() {
        Some(_) => None,
        None => Some(actor.copy()),
    }
}

/// Opens the world's shared words, with a pass for each worker. Gives None if memory is refused.
pub(crate) fn open(alloc: Global, world: &World) -> Option<Opened>
    requires reached { IsReached world.now }
    ensures world { IfSome result (λ opened. basis_of opened.core.shared.table.shared.key ≡ basis_of_world world.now opened.run.events) }
    ensures dealt { IfSome result (λ opened. All (IsDealt opened.core.shared (basis_of_world world.now opened.run.events)) opened.passes.items) }
{
    let run = run_before(world);
    match of_world(alloc, world, &run) {
        Ok((shared, passes, _)) => Some(Opened {
            core: Core::new(shared),
            passes,
            run,
        }),
        Err(_) => None,
    }
}

/// Takes the last of the passes, with the request that it carries. Gives None if it carries none, or no
/// pass is left.
fn take(core: &Core, world: &World, run: &RunBefore, passes: &mut Vec<Pass>) -> Option<Side>
    requires reached { IsReached world.now }
    requires dealt { All (IsDealt core.now.shared (basis_of_world world.now run.now.events)) passes.old.items }
    ensures left { All (IsDealt core.now.shared (basis_of_world world.now run.now.events)) passes.new.items }
    ensures own { IfSome result (λ side. IsOf core.now.shared side.pass) }
    ensures carried { IfSome result (λ side. IsCarried side.pass side.actor) }
{
    let pass = passes.pop()?;
    let actor = request_of(core, world, run, &pass)?;
    Some(Side { pass, actor })
}

/// Gives the last two of the passes, each with the request that it carries, the lower worker's first. Gives
/// None if one carries none, or there aren't two.
pub(crate) fn both(
    core: &Core,
    world: &World,
    run: &RunBefore,
    mut passes: Vec<Pass>,
) -> Option<(Side, Side)>
    requires reached { IsReached world.now }
    requires dealt { All (IsDealt core.now.shared (basis_of_world world.now run.now.events)) passes.items }
    ensures own_lower { IfSome result (λ sides. IsOf core.now.shared sides.0.pass) }
    ensures carried_lower { IfSome result (λ sides. IsCarried sides.0.pass sides.0.actor) }
    ensures own_higher { IfSome result (λ sides. IsOf core.now.shared sides.1.pass) }
    ensures carried_higher { IfSome result (λ sides. IsCarried sides.1.pass sides.1.actor) }
{
    let higher = take(core, world, run, &mut passes)?;
    let lower = take(core, world, run, &mut passes)?;
    Some((lower, higher))
}

/// Makes the steps of a request until it has a reply, or its next step is a call on its file.
fn drive(core: &Core, side: Side) -> Driven
    requires own { IsOf core.now.shared side.pass }
    requires carried { IsCarried side.pass side.actor }
    ensures { IsOf core.now.shared result.pass }
{
    let Side {
        mut pass,
        mut actor,
    } = side;
    let mut end = Advance::Stepped;
    for _ in 0..MANY_STEPS {
        end = core.advance(&mut pass, &mut actor);
        if end != Advance::Stepped {
            break;
        }
    }
    Driven {
        pass,
        end,
        reply: actor.reply(),
    }
}

/// Has two threads drive their requests at once.
fn drive_both<R: Threads + Sync>(rt: &R, core: &Core, one: Side, two: Side) -> (Driven, Driven)
    requires own_one { IsOf core.now.shared one.pass }
    requires carried_one { IsCarried one.pass one.actor }
    requires own_two { IsOf core.now.shared two.pass }
    requires carried_two { IsCarried two.pass two.actor }
    ensures one { IsOf core.now.shared result.0.pass }
    ensures two { IsOf core.now.shared result.1.pass }
{
    join(rt, || drive(core, one), || drive(core, two))
}

/// What leads to a race to a pin, in a world of one word and one slot. Worker 0 has changed the word, and is about to
/// give back its pin of the slot. Worker 1 reads the word, and is about to pin the slot.
static BEFORE_UNPIN: [(u8, Move); 6] = [
    (0, Move::Change(1, 1)),
    (0, Move::To(Kind::Resolve)),
    (0, Move::Step),
    (1, Move::Read),
    (1, Move::To(Kind::Pin)),
    (0, Move::To(Kind::Unpin)),
];

/// Tells whether the writer has YES, the reader has VAL 1, the slot is free under its next number, and no
/// slot is in use.
fn pin_raced(core: &Core, mut wrote: Driven, read: Driven) -> bool
    requires own { IsOf core.now.shared wrote.pass }
    requires pool { (config_of core.now.shared.table.shared.key).pool ≡ 1 }
{
    let gate = core.shared().figure(&mut wrote.pass, At::Gate(0));
    let door = core.shared().figure(&mut wrote.pass, At::Door(0));
    let replies = wrote.reply == Some(Reply::Yes) && read.reply == Some(Reply::Val(1));
    // The slot is free under its next number, 1, and the door counts none.
    replies && gate == 1 && door == 0
}

/// Tells whether a race to a pin ends as it must, from this world on.
fn pin_race_from<R: Threads + Sync>(rt: &R, alloc: Global, world: &World) -> Option<bool>
    requires reached { IsReached world.now }
    requires pool { world.now.config.pool ≡ 1 }
{
    let Opened { core, passes, run } = open(alloc, world)?;
    let (writer, reader) = both(&core, world, &run, passes)?;
    let (wrote, read) = drive_both(rt, &core, writer, reader);
    let ends = pin_raced(&core, wrote, read);
    Some(ends)
}

/// Plays the world before that race, and tells whether the race ends as it must.
fn pin_race_ends<R: Threads + Sync>(rt: &R, alloc: Global) -> Option<bool> {
    let world = played(alloc, config(1, 2, 1), &BEFORE_UNPIN)?;
    pin_race_from(rt, alloc, &world)
}

#[test]
fn pin_race(rt: HostRuntime) {
    for _ in 0..1000 {
        assert!(rt; pin_race_ends(&rt, rt.alloc()) == Some(true));
    }
}

/// What leads to a race to hold a word, in a world of two words and three slots. Worker 0 is about to attempt to hold
/// word 0 for a change of both words, worker 1 for a change of word 0 alone.
static BEFORE_PLANTS: [(u8, Move); 4] = [
    (0, Move::Change(2, 1)),
    (0, Move::To(Kind::Plant)),
    (1, Move::Change(1, 2)),
    (1, Move::To(Kind::Plant)),
];

/// Makes the world before that race. Gives None if it can't be played so.
fn before_plants(alloc: Global) -> Option<World>
    ensures reached { IfSome result IsReached }
    ensures pool { IfSome result (λ world. world.config.pool ≡ 3) }
    ensures words { IfSome result (λ world. (tenant_at world.config 0).words ≡ 2) }
    ensures tenants { IfSome result (λ world. 1 ≤ tenants_of world.config) }
{
    played(alloc, config(3, 3, 2), &BEFORE_PLANTS)
}

/// Loads the gates and the statuses of slots 0 and 1, and words 0 and 1.
fn figures(core: &Core, pass: &mut Pass) -> [u64; 6]
    requires own { IsOf core.now.shared pass.old }
    requires pool { (config_of core.now.shared.table.shared.key).pool ≡ 3 }
    requires words { (tenant_at (config_of core.now.shared.table.shared.key) 0).words ≡ 2 }
{
    let shared = core.shared();
    [
        shared.figure(pass, At::Gate(0)),
        shared.figure(pass, At::Gate(1)),
        shared.figure(pass, At::Status(0)),
        shared.figure(pass, At::Status(1)),
        shared.figure(
            pass,
            At::Data {
                tenant: 0,
                address: 0,
            },
        ),
        shared.figure(
            pass,
            At::Data {
                tenant: 0,
                address: 1,
            },
        ),
    ]
}

// Bits of words, written out by hand: the gate of a slot in use, under its first number, statuses, and a word that is
// held for the change of slot 0 or 1.
const ONE_PIN: u64 = 0x8001_0000_0000_0000;

const TWO_PINS: u64 = 0x8002_0000_0000_0000;

const OPEN: u64 = 0x1000_0000_0000_0000;

const YES_DIRTY: u64 = 0x2000_0000_0000_0000;

const HELD_FOR_0: u64 = 0x8000_0000_0000_0000;

const HELD_FOR_1: u64 = 0x8001_0000_0000_0000;

/// The figures if worker 0's change is decided: it holds both words, and worker 1 has pinned it. Then those if worker
/// 1's change is decided: it holds word 0, and worker 0 has pinned it.
static DECIDED: [[u64; 6]; 2] = [
    [TWO_PINS, ONE_PIN, YES_DIRTY, OPEN, HELD_FOR_0, HELD_FOR_0],
    [ONE_PIN, TWO_PINS, OPEN, YES_DIRTY, HELD_FOR_1, 0],
];

/// Tells whether both threads stopped at the seal of the same change.
fn plants_raced(core: &Core, mut one: Driven, two: Driven) -> bool
    requires own { IsOf core.now.shared one.pass }
    requires pool { (config_of core.now.shared.table.shared.key).pool ≡ 3 }
    requires words { (tenant_at (config_of core.now.shared.table.shared.key) 0).words ≡ 2 }
{
    let stopped = one.end == Advance::NeedsFile && two.end == Advance::NeedsFile;
    let found = figures(core, &mut one.pass);
    stopped && (found == DECIDED[0] || found == DECIDED[1])
}

/// Takes the last of the passes, if it is worker 2's and idle.
fn take_idle(core: &Core, world: &World, run: &RunBefore, passes: &mut Vec<Pass>) -> Option<Pass>
    requires dealt { All (IsDealt core.now.shared (basis_of_world world.now run.now.events)) passes.old.items }
    ensures left { All (IsDealt core.now.shared (basis_of_world world.now run.now.events)) passes.new.items }
    ensures own { IfSome result (λ pass. IsOf core.now.shared pass) }
    ensures worker { IfSome result (λ pass. pass.worker ≡ 2) }
    ensures idle { IfSome result (λ pass. pass.idle ≡ true) }
{
    let pass = passes.pop()?;
    if pass.worker() == 2 && pass.idle() {
        Some(pass)
    } else {
        None
    }
}

/// Gives the quota of tenant 0.
fn quota_of(world: &World) -> u8
    ensures { (before : List WorldEvent) → result ≡ (opening_at (basis_of_world world.now before).openings 0).quota }
{
    match world.tenant_states().get(0) {
        Some(tenant) => tenant.quota,
        None => 0,
    }
}

/// Gives the reply to a read of a word of tenant 0, which has this quota. Gives None if one round gives no
/// reply.
fn read_once(core: &Core, pass: &mut Pass, quota: u8, address: u16) -> Option<Reply>
    requires may { MayRead core.now.shared quota pass.old }
    requires address { nat_lt address 2 ≡ true }
    ensures may { IfSome result (λ _. MayRead core.now.shared quota pass.new) }
{
    let mut actor = Actor::new(pass.worker(), 0, quota, 3, Job::Get(address));
    match core.try_look(pass, &mut actor) {
        Ok(reply) => Some(reply),
        Err(_) => None,
    }
}

/// Tells whether reads of words 0 and 1, of one round each, find 0.
fn reads_zeros(core: &Core, mut pass: Pass, quota: u8) -> bool
    requires { MayRead core.now.shared quota pass }
{
    let Some(first) = read_once(core, &mut pass, quota, 0) else {
        return false;
    };
    let second = read_once(core, &mut pass, quota, 1);
    first == Reply::Val(0) && second == Some(Reply::Val(0))
}

/// Tells whether a race to hold a word ends as it must, and reads find the old values then. The reader has no request
/// until both threads have stopped.
fn plants_race<R: Threads + Sync>(
    rt: &R,
    core: &Core,
    first: Side,
    second: Side,
    reader: Pass,
    quota: u8,
) -> bool
    requires own_first { IsOf core.now.shared first.pass }
    requires carried_first { IsCarried first.pass first.actor }
    requires own_second { IsOf core.now.shared second.pass }
    requires carried_second { IsCarried second.pass second.actor }
    requires may { MayRead core.now.shared quota reader }
    requires pool { (config_of core.now.shared.table.shared.key).pool ≡ 3 }
    requires words { (tenant_at (config_of core.now.shared.table.shared.key) 0).words ≡ 2 }
{
    let (one, two) = drive_both(rt, core, first, second);
    let reads = reads_zeros(core, reader, quota);
    let ends = plants_raced(core, one, two);
    reads && ends
}

/// Tells whether a race to hold a word ends as it must, from this world on. Worker 2 has no request until both threads
/// have stopped. Then it reads both words, which have their old values until a change is sealed.
fn plant_race_from<R: Threads + Sync>(rt: &R, alloc: Global, world: &World) -> Option<bool>
    requires reached { IsReached world.now }
    requires pool { world.now.config.pool ≡ 3 }
    requires words { (tenant_at world.now.config 0).words ≡ 2 }
    requires tenants { 1 ≤ tenants_of world.now.config }
{
    let Opened {
        core,
        mut passes,
        run,
    } = open(alloc, world)?;
    let reader = take_idle(&core, world, &run, &mut passes)?;
    let (first, second) = both(&core, world, &run, passes)?;
    let ends = plants_race(rt, &core, first, second, reader, quota_of(world));
    Some(ends)
}

/// Plays the world before that race, and tells whether the race ends as it must.
fn plant_race_ends<R: Threads + Sync>(rt: &R, alloc: Global) -> Option<bool> {
    let world = before_plants(alloc)?;
    plant_race_from(rt, alloc, &world)
}

#[test]
fn plant_race(rt: HostRuntime) {
    for _ in 0..1000 {
        assert!(rt; plant_race_ends(&rt, rt.alloc()) == Some(true));
    }
}

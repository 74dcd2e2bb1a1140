//! Tests a read that begins again. One thread makes its steps, and those of a change beside it.
ghost use Rattle.std.specs.Prelude.{◌≡◌, true};
ghost use Rattle.mw_words.specs.declared.jobs.Job.TheVariants.{Get};
ghost use Rattle.mw_core.specs.FromTable.{IsCarried, IsOf};
ghost use Rattle.mw_core.specs.ReadRounds.{IsLook};
ghost use Rattle.mw_table_tests.specs.Reached.{IsReached};
ghost use Rattle.mw_table_tests.specs.ReadRequests.{IsReading};

use crate::race_tests::{Opened, Side, both, open};
use crate::worlds::{Move, config, played};
use mw_actor::{Actor, Point};
use mw_core::Core;
use mw_look::{Kind, Op, Point as LookPoint};
use mw_simulator::World;
use mw_words::{At, Job, Reply};
use std::alloc::Global;

/// What leads to the read, in a world of one word and one slot. Worker 0 has planted an attempt to hold the word for a
/// change, and is about to hold it. Worker 1 reads the word, has found the attempt and its row, and is about to load
/// the word again.
static BEFORE_CONFIRM: [(u8, Move); 6] = [
    (0, Move::Change(1, 1)),
    (0, Move::To(Kind::Resolve)),
    (1, Move::Read),
    (1, Move::Step),
    (1, Move::Step),
    (1, Move::Step),
];

/// Tells whether a request is a read of tenant 0's word 0 that is about to load it for the second time. The
/// contract says only that it is a read.
fn confirms(actor: &Actor) -> bool
    ensures { result ≡ true → IsReading actor.now }
{
    let Point::Read(look) = actor.point() else {
        return false;
    };
    let LookPoint::ConfirmWord(_) = look.point() else {
        return false;
    };
    let at = At::Data {
        tenant: 0,
        address: 0,
    };
    actor.tenant() == 0 && actor.ask() == Op::Load(at) && is_read(actor.job())
}

/// Gives true only if a job is a read of word 0.
fn is_read(job: &Job) -> bool
    ensures { result ≡ true → job.now ≡ Get 0 }
{
    matches!(job, Job::Get(0))
}

/// Gives true only if a read is at its first step.
fn is_at_first(actor: &Actor) -> bool
    requires { IsReading actor.now }
    ensures { result ≡ true → IsLook actor.now }
{
    match actor.point() {
        Point::Read(look) => matches!(look.point(), LookPoint::ReadDoor),
        _ => false,
    }
}

/// Makes one step of a read. Tells whether the read is then at its first step.
fn turns_back(core: &Core, side: &mut Side) -> bool
    requires own { IsOf core.now.shared side.old.pass }
    requires carried { IsCarried side.old.pass side.old.actor }
    requires reading { IsReading side.old.actor }
    ensures own { IsOf core.now.shared side.new.pass }
    ensures carried { IsCarried side.new.pass side.new.actor }
    ensures first { result ≡ true → IsLook side.new.actor }
{
    core.advance(&mut side.pass, &mut side.actor);
    is_at_first(&side.actor)
}

/// Gives the reply of a read that had to begin again, because the change held the word between its loads.
/// Gives None if it didn't have to, or had to more than once.
fn second_reply(core: &Core, mut writer: Side, mut reader: Side) -> Option<Reply>
    requires own_writer { IsOf core.now.shared writer.pass }
    requires carried_writer { IsCarried writer.pass writer.actor }
    requires own_reader { IsOf core.now.shared reader.pass }
    requires carried_reader { IsCarried reader.pass reader.actor }
{
    if !confirms(&reader.actor) {
        return None;
    }
    core.advance(&mut writer.pass, &mut writer.actor);
    if !turns_back(core, &mut reader) {
        return None;
    }
    core.try_look(&mut reader.pass, &mut reader.actor).ok()
}

/// Gives what a read is told, from this world on, that finds a word with an attempt, and then the word held.
fn told_from(alloc: Global, world: &World) -> Option<Reply>
    requires reached { IsReached world.now }
{
    let Opened { core, passes, run } = open(alloc, world)?;
    let (writer, reader) = both(&core, world, &run, passes)?;
    second_reply(&core, writer, reader)
}

/// Plays the world before that read, and gives what the read is told.
fn told_at_last(alloc: Global) -> Option<Reply> {
    let world = played(alloc, config(1, 2, 1), &BEFORE_CONFIRM)?;
    told_from(alloc, &world)
}

#[test]
fn a_read_begins_again(rt: HostRuntime) {
    assert!(rt; told_at_last(rt.alloc()) == Some(Reply::Val(0)));
}

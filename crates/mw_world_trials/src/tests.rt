//! Plays twenty thousand trials (random runs of small worlds), and some that are longer.

use crate::checks::{fail, holds};
use crate::dice::Dice;
use crate::fault::Fault;
use crate::jobs::small_world;
use crate::run::{Run, Tally};
use std::alloc::Global;
use std::process::Abort;

/// How many trials there are, and how many events each has.
const TRIALS: u64 = 20_000;

const EVENTS: u64 = 300;

/// How many longer trials there are, and how many events each of these has.
const LONG_TRIALS: u64 = 200;

const MANY_EVENTS: u64 = 5_000;

/// Plays so many events that this seed chooses, and compares the world with a store alone. Adds what happened
/// to what happened in other trials.
fn play(alloc: Global, seed: u64, events: u64, tally: &mut Tally) -> Result<(), Fault> {
    let mut dice = Dice::new(seed);
    let mut run = Run::new(alloc, small_world(&mut dice), false)?;
    make_events(&mut run, &mut dice, events, tally)
}

/// Makes the events of a run, and compares its world with a store alone.
fn make_events(
    run: &mut Run,
    dice: &mut Dice,
    events: u64,
    tally: &mut Tally,
) -> Result<(), Fault> {
    run.tally = *tally;
    for _ in 0..events {
        run.go_on(dice)?;
    }
    *tally = run.tally;
    run.judge(false)
}

/// In so many trials there were many interruptions, failures, refusals and gifts.
fn has_many<R: Abort>(rt: &R, trials: u64, tally: Tally) {
    holds(
        rt,
        "interruptions",
        trials,
        tally.interruptions > trials / 4,
    );
    holds(rt, "failures", trials, tally.failures > trials / 8);
    holds(rt, "refusals", trials, tally.refusals > trials / 4);
    holds(rt, "gifts", trials, tally.gifts > trials / 4);
}

/// Plays so many trials of so many events. All of them must succeed, and in them there must be many
/// interruptions, failures, refusals and gifts.
fn play_all<R: Abort + AllocGlobal>(rt: &R, trials: u64, events: u64) {
    let mut tally = Tally::default();
    for seed in 0..trials {
        if let Err(fault) = play(rt.alloc(), seed, events, &mut tally) {
            fail(rt, seed, fault);
        }
    }
    has_many(rt, trials, tally);
}

#[test]
fn worlds_agree_with_stores(rt: HostRuntime) {
    play_all(&rt, TRIALS, EVENTS);
}

#[test]
fn long_runs_agree_with_stores(rt: HostRuntime) {
    play_all(&rt, LONG_TRIALS, MANY_EVENTS);
}

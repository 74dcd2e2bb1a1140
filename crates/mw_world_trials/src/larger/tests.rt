//! Tests random runs of larger worlds. After every event, all that must hold of a world is checked, as far as the
//! readers of a world show it.
//!
//! These tests leave out what no reader shows of the invariant of mw_world:
//!
//! - a request's quota and pool;
//! - that the worker's attempt, and what it may still do in the history, are those of its point: here they are taken from it;
//! - whether a file has failed, except by its door, what is in doubt in it, and how long it is;
//! - in which place of its file a change is: only that there are as many places as changes.
//!
//! The words of a file are those with which the tenant started and what was sealed since.

use crate::checks::{fail, holds};
use crate::dice::Dice;
use crate::fault::Fault;
use crate::jobs::large_world;
use crate::larger::clauses::{GROUPS, Group, broken, group_holds};
use crate::larger::past::Change;
use crate::larger::planted_faults::spoil;
use crate::larger::seen::Seen;
use crate::run::Run;
use mw_words::{Status, Word};
use mw_world::Phase;
use std::alloc::Global;
use std::process::Abort;

/// How many runs there are, and how many events each has.
const RUNS: u64 = 2_000;

const EVENTS: u64 = 250;

/// What happened in runs: words held, written and planted, refusals, and failed files.
#[derive(Clone, Copy, Default)]
struct Tally {
    held: u64,
    written: u64,
    planted: u64,
    refused: u64,
    failed: u64,
}

impl Tally {
    /// Counts what is seen after an event.
    fn count(&mut self, seen: &Seen) {
        for datum in &seen.data {
            match datum.word {
                Word::Plain(_) => {}
                Word::Planted { .. } => self.planted = self.planted.saturating_add(1),
                Word::Held { .. } => self.held = self.held.saturating_add(1),
                Word::Dirty { .. } => self.written = self.written.saturating_add(1),
            }
        }
        for change in &seen.past.changes {
            if matches!(change.fate, Status::DoneNo { .. }) {
                self.refused = self.refused.saturating_add(1);
            }
        }
        for door in &seen.doors {
            if door.fault {
                self.failed = self.failed.saturating_add(1);
            }
        }
    }
}

/// Plays a run that this seed chooses. Without a group it checks after each event all that must hold. With one, it
/// checks that the group notices what is wrong.
fn play(alloc: Global, seed: u64, group: Option<Group>, tally: &mut Tally) -> Result<(), Fault> {
    let mut dice = Dice::new(seed);
    let mut run = Run::new(alloc, large_world(&mut dice), true)?;
    look_at_run(alloc, &mut run, &mut dice, group, tally)
}

/// Checks all that must hold of a run, or that this group notices what is wrong.
fn look_at_run(
    alloc: Global,
    run: &mut Run,
    dice: &mut Dice,
    group: Option<Group>,
    tally: &mut Tally,
) -> Result<(), Fault> {
    match group {
        Some(group) => notices(alloc, run, dice, group),
        None => check(alloc, run, dice, tally),
    }
}

fn check(alloc: Global, run: &mut Run, dice: &mut Dice, tally: &mut Tally) -> Result<(), Fault> {
    run.seen.begin(alloc, &run.world)?;
    for event in 0..EVENTS {
        run.go_on(dice)?;
        if let Some(group) = broken(&run.seen) {
            return Err(Fault::Broken(group, event));
        }
        tally.count(&run.seen);
    }
    Ok(())
}

/// In the runs there were many words held, written and planted, refusals, and failed files.
fn has_many<R: Abort>(rt: &R, tally: Tally) {
    holds(rt, "held", RUNS, tally.held > RUNS);
    holds(rt, "written", RUNS, tally.written > RUNS);
    holds(rt, "planted", RUNS, tally.planted > RUNS);
    holds(rt, "refused", RUNS, tally.refused > RUNS);
    holds(rt, "failed", RUNS, tally.failed > RUNS);
}

#[test]
fn the_invariant_holds_of_larger_worlds(rt: HostRuntime) {
    let mut tally = Tally::default();
    for seed in 0..RUNS {
        if let Err(fault) = play(rt.alloc(), seed, None, &mut tally) {
            fail(&rt, seed, fault);
        }
    }
    has_many(&rt, tally);
}

/// Tells whether a change is open, with no word held yet.
fn has_just_opened(change: &Change) -> bool {
    let mut is_fresh = change.fate == Status::Open;
    for held in &change.words {
        is_fresh = is_fresh && matches!(held.phase, Phase::Fresh);
    }
    is_fresh
}

/// Tells whether there is some such change.
fn has_opened(seen: &Seen) -> bool {
    for change in &seen.past.changes {
        if has_just_opened(change) {
            return true;
        }
    }
    false
}

/// Makes events until a change has just opened.
fn open(alloc: Global, run: &mut Run, dice: &mut Dice) -> Result<(), Fault> {
    run.seen.begin(alloc, &run.world)?;
    for _ in 0..EVENTS {
        if has_opened(&run.seen) {
            return Ok(());
        }
        run.go_on(dice)?;
    }
    Err(Fault::Stuck)
}

/// Checks that a group holds until something is made wrong, in a run in which a change has just opened.
fn notices(alloc: Global, run: &mut Run, dice: &mut Dice, group: Group) -> Result<(), Fault> {
    open(alloc, run, dice)?;
    let held = group_holds(&run.seen, group);
    spoil(&mut run.seen, group);
    if held && !group_holds(&run.seen, group) {
        Ok(())
    } else {
        Err(Fault::Broken("not noticed", 0))
    }
}

#[test]
fn what_is_wrong_is_noticed(rt: HostRuntime) {
    let mut tally = Tally::default();
    for (group, name) in &GROUPS {
        let is_noticed = play(rt.alloc(), 1, Some(*group), &mut tally).is_ok();
        holds(&rt, name, 1, is_noticed);
    }
}

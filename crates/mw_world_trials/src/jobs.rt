//! Makes random jobs (reads and changes), random stops (each with the next opening), and random worlds, of which the
//! trials are made.
//!
//! Used by: `run`, `tests`, `larger/tests`. A new kind of job needs its case here.
ghost use Rattle.std.specs.Prelude.{◌≡◌, ◌≤◌, None, IsTrue};
ghost use Rattle.mw_world.specs.Definition.State.{IsConfig, may_be_old};

use crate::dice::Dice;
use arrayvec::ArrayVec;
use mw_words::{Entries, Entry, Job, Name, is_change};
use mw_world::{Config, Interrupted, OLD_ENTRIES, OLD_PLACES, Stop, Tenant};
use std::alloc::{AllocError, Global};

/// How many values words have.
const VALUES: u64 = 3;

/// Makes a small world: two to four workers, one or two tenants of one to three words, some with an old
/// file.
pub fn small_world(dice: &mut Dice) -> Config
    ensures { IsConfig result }
{
    let mut tenants = ArrayVec::new();
    let first = small_tenant(dice);
    let second = small_tenant(dice);
    let pool = u16::from(first.quota) + u16::from(second.quota);
    tenants.push(first);
    if dice.once_in(2) {
        tenants.push(second);
    }
    Config {
        pool,
        workers: 2 + dice.small(3),
        seq: 0,
        tenants,
    }
}

/// Makes a larger world: four workers, and three tenants of one to three words that may use two or three
/// slots.
pub fn large_world(dice: &mut Dice) -> Config
    ensures { IsConfig result }
{
    let mut tenants = ArrayVec::new();
    tenants.push(large_tenant(dice));
    tenants.push(large_tenant(dice));
    tenants.push(large_tenant(dice));
    Config {
        pool: 9,
        workers: 4,
        seq: 0,
        tenants,
    }
}

fn large_tenant(dice: &mut Dice) -> Tenant
    ensures words { (1 ≤ result.words) × (result.words ≤ 3) }
    ensures quota { (1 ≤ result.quota) × (result.quota ≤ 3) }
    ensures new { result.old ≡ None }
{
    Tenant {
        name: Name::new(),
        words: 1 + u16::from(dice.small(3)),
        quota: 2 + dice.small(2),
        old: None,
    }
}

fn small_tenant(dice: &mut Dice) -> Tenant
    ensures words { (1 ≤ result.words) × (result.words ≤ 3) }
    ensures quota { (1 ≤ result.quota) × (result.quota ≤ 3) }
    ensures old { IsTrue (may_be_old result.words result.quota result.old) }
{
    let words = 1 + u16::from(dice.small(3));
    let quota = 1 + dice.small(3);
    Tenant {
        name: Name::new(),
        words,
        quota,
        old: if dice.once_in(4) {
            old_change(dice, words, quota)
        } else {
            None
        },
    }
}

/// Makes the change in an old file, sometimes none.
fn old_change(dice: &mut Dice, words: u16, quota: u8) -> Option<Entries>
    ensures { IsTrue (may_be_old words quota result) }
{
    let change = entries(dice, words);
    let is_old = is_change(&change, usize::from(words)) && change.len() <= OLD_ENTRIES;
    if is_old && quota <= OLD_PLACES {
        Some(change)
    } else {
        None
    }
}

/// Makes a read or a change of a tenant's words.
pub fn job(dice: &mut Dice, words: u16) -> Job
    requires { 1 ≤ words }
{
    if dice.once_in(3) {
        return Job::Get(dice.below(u64::from(words)) as u16);
    }
    Job::Cas(entries(dice, words))
}

/// Makes entries of some words, sometimes none.
fn entries(dice: &mut Dice, words: u16) -> Entries {
    let mut entries = Entries::new();
    for addr in 0..words {
        if dice.once_in(2) && !entries.is_full() {
            entries.push(Entry {
                addr,
                expected: dice.below(VALUES),
                new: dice.below(VALUES),
            });
        }
    }
    entries
}

/// Makes a way to stop each tenant's file, and to open it again, with quotas that may not fit.
pub fn stops(alloc: Global, dice: &mut Dice, config: &Config) -> Result<Vec<Stop>, AllocError>
    requires { 1 ≤ config.now.workers }
{
    let mut stops = Vec::new(alloc);
    for tenant in 0..config.tenants.len() {
        stops.push(stop(alloc, dice, tenant as u8, config.workers)?)?;
    }
    Ok(stops)
}

/// Makes a way to stop a tenant's file, and to open it again. A torn byte sets a commit byte, clears it, or does
/// neither by itself. The quota is sometimes one that no tenant can have.
fn stop(alloc: Global, dice: &mut Dice, tenant: u8, workers: u8) -> Result<Stop, AllocError>
    requires { 1 ≤ workers }
{
    let mut torn = Vec::new(alloc);
    for _ in 0..dice.below(24) {
        torn.push(match dice.small(3) {
            0 => 0xa5,
            1 => 0,
            _ => 0xff,
        })?;
    }
    let interrupted = if dice.once_in(3) {
        None
    } else {
        Some(Interrupted {
            worker: dice.small(workers),
            made: dice.below(7),
        })
    };
    let fails_at = if dice.once_in(4) {
        Some(1 + dice.below(9))
    } else {
        None
    };
    let quota = match dice.small(12) {
        0..=5 => None,
        6 => Some(0),
        7 => Some(dice.small(255)),
        _ => Some(1 + dice.small(4)),
    };
    Ok(Stop {
        tenant,
        interrupted,
        torn,
        fails_at,
        quota,
    })
}

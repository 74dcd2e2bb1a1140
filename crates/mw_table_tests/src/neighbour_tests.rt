//! Tests many loads and reads of a table of two tenants: by one thread, and by two at once, each on a tenant of its own.
//!
//! `scripts/bench-table` times these tests from outside. It depends on their names, and on how often each loads or reads.
ghost use Rattle.std.specs.Prelude.{◌≡◌, [], ◌∷◌, ℕ, IfOk, IfSome, Some, Vec};
ghost use Rattle.std.specs.declared.alloc.Global.{Global};
ghost use Rattle.mw_table_tests.specs.Readers.{MayGet};

use crate::two_tenants::two_tenants;
use mw_actor::Actor;
use mw_core::{Core, FileOpening, Pass, Shared};
use mw_words::{At, Job, Reply};
use std::alloc::{AllocError, Global};
use std::thread::{Threads, join};

/// How often a word is loaded, and how often a thread reads one by whole requests.
const LOADS: u64 = 100_000_001;

const GETS: u64 = 1_000_001;

/// The word of each tenant.
const WORDS: [u64; 2] = [7, 9];

/// What is done on the table.
#[derive(Clone, Copy)]
enum Mode {
    /// One thread loads the first tenant's word.
    Loads,
    /// One thread reads it.
    Gets,
    /// Two threads read, each its tenant's word.
    GetsOfTwo,
}

/// A core on the table, with a pass for each of two threads.
#[derive(Drop)]
struct Neighbours {
    core: Core,
    one: Pass,
    other: Pass,
}

/// What the tenants' files gave: the words 7 and 9.
fn openings(alloc: Global) -> Result<Vec<FileOpening>, AllocError>
    ensures { IfOk result (λ found. (one : Vec ℕ Global) × (other : Vec ℕ Global) × (one.items ≡ 7 ∷ []) × (other.items ≡ 9 ∷ []) × (found.items ≡ record { quota = 1; places = 2; words = Some one } ∷ record { quota = 1; places = 2; words = Some other } ∷ [])) }
{
    let first = FileOpening {
        quota: 1,
        places: 2,
        words: Some(vec![in alloc; 7]?),
    };
    let second = FileOpening {
        quota: 1,
        places: 2,
        words: Some(vec![in alloc; 9]?),
    };
    let openings = vec![in alloc; first, second]?;
    Ok(openings)
}

/// Makes the table at a start. Gives None if memory is refused.
fn new_neighbours(alloc: Global) -> Option<Neighbours>
    ensures one { IfSome result (λ made. MayGet made.core.shared made.one 0) }
    ensures other { IfSome result (λ made. MayGet made.core.shared made.other 1) }
{
    let config = two_tenants();
    let Ok(openings) = openings(alloc) else {
        return None;
    };
    let Ok((shared, mut passes, _)) = Shared::new(alloc, &config, &openings) else {
        return None;
    };
    let core = Core::new(shared);
    let (Some(other), Some(one)) = (passes.pop(), passes.pop()) else {
        return None;
    };
    Some(Neighbours { core, one, other })
}

/// Loads the first tenant's word so often. Gives how many loads found it, up to the first that didn't.
fn loads(core: &Core, pass: &mut Pass) -> u64
    requires { MayGet core.now.shared pass.old 0 }
{
    let at = At::Data {
        tenant: 0,
        address: 0,
    };
    for number in 0..LOADS {
        if core.shared().figure(pass, at) != WORDS[0] {
            return number;
        }
    }
    LOADS
}

/// Reads the tenant's word so often, each time by a request. Gives how many reads gave this word, up to the first that gave
/// something else, or had to begin again.
fn gets(core: &Core, mut pass: Pass, tenant: u8, word: u64) -> u64
    requires { MayGet core.now.shared pass tenant }
{
    for number in 0..GETS {
        let mut actor = Actor::new(pass.worker(), tenant, 1, 2, Job::Get(0));
        match core.try_look(&mut pass, &mut actor) {
            Ok(Reply::Val(found)) if found == word => {}
            _ => return number,
        }
    }
    GETS
}

/// Two threads read at once, each on a tenant of its own. Gives how many reads of both gave the tenant's word.
fn gets_of_two<R: Threads + Sync>(rt: &R, core: &Core, one: Pass, other: Pass) -> u64
    requires one { MayGet core.now.shared one 0 }
    requires other { MayGet core.now.shared other 1 }
{
    let [first, second] = WORDS;
    let (ones, others) = join(
        rt,
        || gets(core, one, 0, first),
        || gets(core, other, 1, second),
    );
    ones.saturating_add(others)
}

/// Does this on a new table. Gives how often the words were found, and None if memory is refused.
fn found<R: Threads + Sync>(rt: &R, alloc: Global, mode: Mode) -> Option<u64> {
    let Neighbours {
        core,
        mut one,
        other,
    } = new_neighbours(alloc)?;
    Some(match mode {
        Mode::Loads => loads(&core, &mut one),
        Mode::Gets => gets(&core, one, 0, WORDS[0]),
        Mode::GetsOfTwo => gets_of_two(rt, &core, one, other),
    })
}

#[test]
fn loads_of_a_word(rt: HostRuntime) {
    assert!(rt; found(&rt, rt.alloc(), Mode::Loads) == Some(LOADS));
}

#[test]
fn gets_of_a_word(rt: HostRuntime) {
    assert!(rt; found(&rt, rt.alloc(), Mode::Gets) == Some(GETS));
}

#[test]
fn gets_of_two_tenants(rt: HostRuntime) {
    assert!(rt; found(&rt, rt.alloc(), Mode::GetsOfTwo) == Some(2 * GETS));
}

//! Tests how a table (array of shared atomic words) is made: of a world in memory, and at a start.
ghost use Rattle.std.specs.Prelude.{◌≡◌, ◌≤◌, [], ◌∷◌, ℕ, All, IfOk, IfSome, None, Some, Vec};
ghost use Rattle.std.specs.declared.alloc.Global.{Global};
ghost use Rattle.mw_world.specs.Definition.State.{tenant_at, tenants_of};
ghost use Rattle.mw_simulator.specs.Events.{IsAfterRun};
ghost use Rattle.mw_core.specs.FromTable.{Basis, IsDealt, IsOf, config_of};

use crate::two_tenants::two_tenants;
use crate::world_table::of_world;
use crate::worlds::{config, new_world};
use mw_actor::Actor;
use mw_core::{FileOpening, Pass, Shared};
use mw_simulator::World;
use mw_table::RunBefore;
use mw_words::At;
use std::alloc::{AllocError, Global};

// Bits of a door that counts no slot, written out by hand: of a file that is open, and of one that has failed.
const SOUND: u64 = 0;

const FAULTY: u64 = 0x8000_0000_0000_0000;

/// Gives how many places for a request there are.
fn places_of(actors: Vec<Option<Actor>>) -> usize {
    actors.len()
}

/// Gives what the last pass but one finds at the door and the last at the gate, before they meet. Gives None if there
/// aren't two passes, or one isn't idle then.
fn found_by_two(shared: &Shared, mut passes: Vec<Pass>) -> Option<[u64; 2]>
    requires dealt { (basis : Basis) × All (IsDealt shared.now basis) passes.items }
    requires pool { (config_of shared.now.table.shared.key).pool ≡ 1 }
    requires tenants { 1 ≤ tenants_of (config_of shared.now.table.shared.key) }
{
    let mut other = passes.pop()?;
    let mut one = passes.pop()?;
    let door = shared.figure(&mut one, At::Door(0));
    let gate = shared.figure(&mut other, At::Gate(0));
    shared.meet(&mut one, &mut other);
    if one.idle() && other.idle() && passes.is_empty() {
        Some([door, gate])
    } else {
        None
    }
}

/// Gives what the passes of a new world's table find at its door and at its gate, before they meet. Gives
/// None if there isn't an idle pass and a place for a request for each of two workers, or if memory is refused.
fn found_in(alloc: Global, world: &World) -> Option<[u64; 2]>
    requires new { IsAfterRun world.now [] }
    requires pool { world.now.config.pool ≡ 1 }
    requires tenants { 1 ≤ tenants_of world.now.config }
{
    let Ok((shared, passes, actors)) = of_world(alloc, world, &RunBefore::none()) else {
        return None;
    };
    if places_of(actors) == 2 {
        found_by_two(&shared, passes)
    } else {
        None
    }
}

/// Gives the same of a new world of one word and one slot.
fn found_in_a_new_world(alloc: Global) -> Option<[u64; 2]> {
    let world = new_world(alloc, config(1, 2, 1))?;
    found_in(alloc, &world)
}

#[test]
fn a_new_world_in_a_table(rt: HostRuntime) {
    assert!(rt; found_in_a_new_world(rt.alloc()) == Some([SOUND, 0]));
}

/// What the tenants' files gave: the first has the word 7, the other didn't open.
fn one_of_two(alloc: Global) -> Result<Vec<FileOpening>, AllocError>
    ensures { IfOk result (λ found. (words : Vec ℕ Global) × (words.items ≡ 7 ∷ []) × (found.items ≡ record { quota = 1; places = 2; words = Some words } ∷ record { quota = 1; places = 1; words = None } ∷ [])) }
{
    let words = vec![in alloc; 7]?;
    let opened = FileOpening {
        quota: 1,
        places: 2,
        words: Some(words),
    };
    let failed = FileOpening {
        quota: 1,
        places: 1,
        words: None,
    };
    let openings = vec![in alloc; opened, failed]?;
    Ok(openings)
}

/// Loads the doors of two tenants, and the first word of each.
fn figures(shared: &Shared, pass: &mut Pass) -> [u64; 4]
    requires own { IsOf shared.now pass.old }
    requires tenants { tenants_of (config_of shared.now.table.shared.key) ≡ 2 }
    requires first { (tenant_at (config_of shared.now.table.shared.key) 0).words ≡ 1 }
    requires second { (tenant_at (config_of shared.now.table.shared.key) 1).words ≡ 1 }
{
    let first = At::Data {
        tenant: 0,
        address: 0,
    };
    let second = At::Data {
        tenant: 1,
        address: 0,
    };
    [
        shared.figure(pass, At::Door(0)),
        shared.figure(pass, At::Door(1)),
        shared.figure(pass, first),
        shared.figure(pass, second),
    ]
}

/// Makes the table of two tenants, of whom one has a file, and its passes. Gives None if memory is refused.
fn started(alloc: Global) -> Option<(Shared, Vec<Pass>)>
    ensures dealt { IfSome result (λ made. (basis : Basis) × All (IsDealt made.0 basis) made.1.items) }
    ensures tenants { IfSome result (λ made. tenants_of (config_of made.0.table.shared.key) ≡ 2) }
    ensures first { IfSome result (λ made. (tenant_at (config_of made.0.table.shared.key) 0).words ≡ 1) }
    ensures second { IfSome result (λ made. (tenant_at (config_of made.0.table.shared.key) 1).words ≡ 1) }
{
    let config = two_tenants();
    let Ok(openings) = one_of_two(alloc) else {
        return None;
    };
    match Shared::new(alloc, &config, &openings) {
        Ok((shared, passes, _)) => Some((shared, passes)),
        Err(_) => None,
    }
}

/// Gives the doors and first words of a table of two tenants. Gives None if there isn't an idle pass for each worker,
/// in their order.
fn found_by_idle(shared: &Shared, mut passes: Vec<Pass>) -> Option<[u64; 4]>
    requires dealt { (basis : Basis) × All (IsDealt shared.now basis) passes.items }
    requires tenants { tenants_of (config_of shared.now.table.shared.key) ≡ 2 }
    requires first { (tenant_at (config_of shared.now.table.shared.key) 0).words ≡ 1 }
    requires second { (tenant_at (config_of shared.now.table.shared.key) 1).words ≡ 1 }
{
    let other = passes.pop()?;
    let mut one = passes.pop()?;
    if one.idle() && other.idle() && one.worker() == 0 && other.worker() == 1 {
        Some(figures(shared, &mut one))
    } else {
        None
    }
}

/// Gives the doors and first words of the table of two tenants, of whom one has a file. Gives None if
/// there isn't an idle pass for each worker, in their order, or if memory is refused.
fn found_at_a_start(alloc: Global) -> Option<[u64; 4]> {
    let (shared, passes) = started(alloc)?;
    found_by_idle(&shared, passes)
}

#[test]
fn a_fresh_table(rt: HostRuntime) {
    assert!(rt; found_at_a_start(rt.alloc()) == Some([SOUND, FAULTY, 7, 0]));
}

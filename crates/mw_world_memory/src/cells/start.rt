//! Makes the shared words of a world at a start.
//!
//! mw_simulator calls `Cells::new` for a new world and at each start. Change it with `specs/BitsMatch`,
//! `specs/BitPlaces` and `specs/Openings`.
ghost use Rattle.std.specs.Prelude.{◌≡◌, ℕ, Bool, List, length, map, replicate, IfOk};
ghost use Rattle.mw_words.specs.declared.limits.TheConstants.{MAX_ENTRIES};
ghost use Rattle.mw_world.specs.Definition.State.{IsConfig, first_cells, words_given};
ghost use Rattle.mw_world_memory.specs.BitsMatch.{BitsMatch};
ghost use Rattle.mw_world_memory.specs.BitPlaces.{HasPlacesOf};
ghost use Rattle.mw_world_memory.specs.Openings.{AreOpenings, AreFirstWords, Gave, first_door};

use crate::cells::Cells;
use mw_words::{Door, Gate, MAX_ENTRIES};
use mw_world::{Config, Tenant};
use std::alloc::{AllocError, Global};

impl Cells {
    /// Makes the shared words at a start of a world. No slot is taken, and every number is 0 except the gates'
    /// sequence numbers. `openings` has the words of each tenant. `None`: the tenant's file didn't open; its
    /// words are then 0, and its door has the fault. The only error is that memory is out.
    pub fn new(
        alloc: Global,
        config: &Config,
        openings: &[Option<Vec<u64>>],
    ) -> Result<Cells, AllocError>
        requires config { IsConfig config.now }
        requires openings { AreOpenings config.now openings.now }
        ensures places { IfOk result (HasPlacesOf config.now) }
        ensures tie { IfOk result (λ cells. (words : ℕ → List ℕ) (is_up : ℕ → Bool) → Gave openings.now words is_up → BitsMatch cells (first_cells config.now words is_up)) }
    {
        let pool = usize::from(config.pool);
        let gate = Gate {
            taken: false,
            pins: 0,
            seq: config.seq,
        };
        let doors = doors_at_start(alloc, openings)?;
        let gates = filled(alloc, gate.pack(), pool)?;
        let rows = filled(alloc, 0, usize::from(config.workers))?;
        let words = words_at_start(alloc, &config.tenants, openings)?;
        let statuses = filled(alloc, 0, pool)?;
        let counts = filled(alloc, 0, pool)?;
        let addrs = filled(alloc, 0, pool * MAX_ENTRIES)?;
        let expecteds = filled(alloc, 0, pool * MAX_ENTRIES)?;
        let new_values = filled(alloc, 0, pool * MAX_ENTRIES)?;
        Ok(Cells {
            doors,
            gates,
            rows,
            words,
            statuses,
            counts,
            addrs,
            expecteds,
            new_values,
        })
    }
}

/// Makes `count` shared words with these bits.
fn filled(alloc: Global, bits: u64, count: usize) -> Result<Vec<u64>, AllocError>
    ensures { IfOk result (λ words. words.items ≡ replicate count bits) }
{
    vec![in alloc; bits; count]
}

/// Makes the doors, by tenant. No slot of a quota is in use.
fn doors_at_start(alloc: Global, openings: &[Option<Vec<u64>>]) -> Result<Vec<u64>, AllocError>
    ensures { IfOk result (λ doors. doors.items ≡ map first_door openings.now) }
{
    let mut doors = Vec::with_capacity(alloc, openings.len())?;
    for opening in openings {
        let door = Door {
            fault: opening.is_none(),
            used: 0,
        };
        doors.push(door.pack())?;
    }
    Ok(doors)
}

/// Makes the words, by tenant. There is an opening for each tenant.
fn words_at_start(
    alloc: Global,
    tenants: &[Tenant],
    openings: &[Option<Vec<u64>>],
) -> Result<Vec<Vec<u64>>, AllocError>
    requires { length openings.now ≡ length tenants.now }
    ensures { IfOk result (λ words. AreFirstWords tenants.now openings.now (map (λ tenant. tenant.items) words.items) (length tenants.now)) }
{
    let mut words = Vec::with_capacity(alloc, tenants.len())?;
    for (index, tenant) in tenants.iter().enumerate() {
        words.push(words_given(alloc, tenant, &openings[index])?)?;
    }
    Ok(words)
}

/// Makes the words that a tenant starts with, from its opening.
fn words_given(
    alloc: Global,
    tenant: &Tenant,
    opening: &Option<Vec<u64>>,
) -> Result<Vec<u64>, AllocError>
    ensures { IfOk result (λ words. words.items ≡ words_given tenant.now opening.now) }
{
    match opening {
        Some(words) => Vec::from_slice(alloc, words),
        None => filled(alloc, 0, usize::from(tenant.words)),
    }
}

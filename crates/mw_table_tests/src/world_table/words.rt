//! Copies the shared words of a simulated world, in the order of a table.
//!
//! Used by: `of_world`. `place_at` of mw_table gives that order.
ghost use Rattle.std.specs.Prelude.{◌≡◌, ◌<◌, IfOk, length};
ghost use Rattle.mw_world.specs.Definition.State.{State};
ghost use Rattle.mw_rule.specs.Layout as layout;
ghost use Rattle.mw_rule.specs.Rule.{BitsMatch};
ghost use Rattle.mw_simulator.specs.Representation.{Represents};
ghost use Rattle.mw_table.specs.Places.{IsAt};

use mw_rule::index_of;
use mw_simulator::World;
use mw_table::{has_place, place_at};
use mw_words::At;
use std::alloc::{AllocError, Global};

/// Copies the bits of the table's words, by index. The only error is that memory is out.
pub(crate) fn words_of(alloc: Global, world: &World) -> Result<Vec<u64>, AllocError>
    ensures long { IfOk result (λ words. length words.items ≡ layout.words_of world.now.config) }
    ensures ties { IfOk result (λ words. (state : State) → Represents world.now state → BitsMatch world.now.config state.cells words.items) }
{
    let config = world.config();
    let past = At::Data {
        tenant: config.tenants.len() as u8,
        address: 0,
    };
    let count = index_of(config.pool, past);
    let mut words = Vec::with_capacity(alloc, count)?;
    for index in 0..count {
        words.push(bits_at(world, index))?;
    }
    Ok(words)
}

/// Returns the bits at an index; 0 if no shared word is there.
fn bits_at(world: &World, index: usize) -> u64
    requires { index < layout.words_of world.now.config }
    ensures { (state : State) → Represents world.now state → IsAt world.now.config state.cells index result }
{
    let at = place_at(world.config().pool, index);
    if has_place(world.config(), at) {
        world.word(at)
    } else {
        0
    }
}

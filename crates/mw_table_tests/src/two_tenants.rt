//! The configuration of two small tenants, with which a table begins.
//!
//! Used by: `making_tests`, `neighbour_tests`.

ghost use Rattle.std.specs.Prelude.{◌≡◌, [], ◌∷◌};
ghost use Rattle.mw_world.specs.Definition.State.{IsConfig, no_tenant};

use arrayvec::ArrayVec;
use mw_world::{Config, Tenant};

/// Makes the configuration of two tenants of one word and one slot each, with new files, two workers, and a
/// pool of two slots.
pub(crate) fn two_tenants() -> Config
    ensures made { IsConfig result }
    ensures pool { result.pool ≡ 2 }
    ensures workers { result.workers ≡ 2 }
    ensures tenants { result.tenants.items ≡ record no_tenant { words = 1; quota = 1 } ∷ record no_tenant { words = 1; quota = 1 } ∷ [] }
{
    let mut tenants = ArrayVec::new();
    tenants.push(small_tenant());
    tenants.push(small_tenant());
    Config {
        pool: 2,
        workers: 2,
        seq: 0,
        tenants,
    }
}

fn small_tenant() -> Tenant
    ensures { result ≡ record no_tenant { words = 1; quota = 1 } }
{
    Tenant {
        name: ArrayVec::new(),
        words: 1,
        quota: 1,
        old: None,
    }
}

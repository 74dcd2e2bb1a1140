//! The file pass: the capability to call one tenant's file, as it is kept between calls.
//!
//! mw_core makes calls with it. mw_engine keeps one for each tenant, under the lock of the tenant's file. Change it
//! with `specs/HeldFiles`.
ghost use Rattle.std.specs.Prelude.{◌≡◌, true, false, [], ◌∷◌, length, map};
ghost use Rattle.mw_table.specs.HeldFiles.{is_idle, tenants_held};

use atomic_table::Seat;
use mw_actor::Actor;
use mw_rule::View;

/// The capability to make calls on one tenant's file, as it is kept between calls, with what is known of the file. A
/// table at a start gives one for each tenant, and it can't be copied, so no two threads call one file. A thread's
/// pass takes it for a call and gives it back after the call. If it is dropped, nobody calls that file any more.
#[derive(Drop)]
pub struct FilePass {
    pub(crate) seat: Seat<Actor, View>,
    pub(crate) tenant: u8,
    ghost its: { tenants_held seat.me.0 ≡ tenant ∷ [] },
    ghost idle: { map is_idle seat.me.0.files ≡ true ∷ [] },
    ghost no_token: { length seat.me.0.tokens ≡ 0 },
    ghost no_slots: { length seat.me.1 ≡ 0 },
    ghost live: { seat.me.0.is_spent ≡ false },
}

//! Gives the index of each shared word in the table, the array of atomic words that threads share.
//!
//! Used by: mw_table, mw_table_tests. The order may change with `specs/Layout` and `place_at` of mw_table.
ghost use Rattle.std.specs.Prelude.{◌≡◌, ◌<◌, ◌+◌, ◌*◌};
ghost use Rattle.mw_rule.specs.Layout as spec;

use mw_words::{At, MAX_ENTRIES, MAX_TENANTS, MAX_WORDS, MAX_WORKERS};

/// How many words a cache line has. Words that different tenants or workers change often are so far apart that none
/// waits for another's line.
pub const LINE: usize = 8;

/// The index of the first slot's first word. Before it, each door and each row has a line.
pub const SLOTS_FROM: usize = LINE * (MAX_TENANTS + MAX_WORKERS as usize);

/// How many words of the table a slot takes: whole lines.
pub const SLOT_WIDE: usize = (3 + 3 * MAX_ENTRIES + (LINE - 1)) / LINE * LINE;

/// Returns the index of a word in a table of `pool` slots.
pub fn index_of(pool: u16, at: At) -> usize
    ensures { result ≡ spec.index_of pool at }
{
    match at {
        At::Door(tenant) => LINE * tenant as usize,
        At::Row(worker) => LINE * (MAX_TENANTS + worker as usize),
        At::Gate(slot) => of_slot(slot, 0),
        At::Status(slot) => of_slot(slot, 1),
        At::Count(slot) => of_slot(slot, 2),
        At::Addr { slot, entry } => of_slot(slot, 3 + entry as usize),
        At::Expected { slot, entry } => of_slot(slot, 3 + MAX_ENTRIES + entry as usize),
        At::New { slot, entry } => of_slot(slot, 3 + 2 * MAX_ENTRIES + entry as usize),
        At::Data { tenant, address } => {
            of_pool(pool) + MAX_WORDS as usize * tenant as usize + address as usize
        }
    }
}

fn of_slot(slot: u8, number: usize) -> usize
    requires { number < 1024 }
    ensures { result ≡ spec.slots_from + spec.slot_wide * slot + number }
{
    SLOTS_FROM + SLOT_WIDE * slot as usize + number
}

fn of_pool(pool: u16) -> usize
    ensures { result ≡ spec.slots_from + spec.slot_wide * pool }
{
    SLOTS_FROM + SLOT_WIDE * pool as usize
}

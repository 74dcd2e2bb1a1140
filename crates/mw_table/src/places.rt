//! Gives the shared word at each index of the table.
//!
//! Used by: `at_start`, mw_table_tests. It goes back from an index of mw_rule (`index_of`) to the word: change both together.
ghost use Rattle.std.specs.Prelude.{◌≡◌, ◌<◌, ◌≤◌, ◌+◌, ◌*◌, nat_lt};
ghost use Rattle.mw_words.specs.declared.limits.TheConstants.{MAX_POOL, MAX_TENANTS, MAX_WORDS, MAX_WORKERS};
ghost use Rattle.mw_world.specs.Definition.Extent as extent;
ghost use Rattle.mw_world.specs.Definition.State.{tenant_at};
ghost use Rattle.mw_rule.specs.Layout.{slot_wide, slots_from};
ghost use Rattle.mw_table.specs.Places as spec;

use mw_rule::{LINE, SLOT_WIDE, SLOTS_FROM};
use mw_words::{At, MAX_ENTRIES, MAX_TENANTS, MAX_WORDS};
use mw_world::Config;

/// Returns the place of the word at an index, in a table of `pool` slots. At an index where such a table never has a
/// word, it returns a place that no world has.
pub fn place_at(pool: u16, index: usize) -> At
    requires pool { pool ≤ MAX_POOL }
    requires index { index < slots_from + slot_wide * pool + MAX_WORDS * MAX_TENANTS }
    ensures { result ≡ spec.place_at pool index }
{
    let words_from = SLOTS_FROM + SLOT_WIDE * usize::from(pool);
    if index < SLOTS_FROM {
        if index % LINE == 0 {
            line_place(index / LINE)
        } else {
            At::Door(MAX_TENANTS as u8)
        }
    } else if index < words_from {
        let from = index - SLOTS_FROM;
        slot_place((from / SLOT_WIDE) as u8, from % SLOT_WIDE)
    } else {
        let from = index - words_from;
        At::Data {
            tenant: (from / usize::from(MAX_WORDS)) as u8,
            address: (from % usize::from(MAX_WORDS)) as u16,
        }
    }
}

/// Returns the place of the word that begins a line before the slots.
fn line_place(line: usize) -> At
    requires { line < MAX_TENANTS + MAX_WORKERS }
    ensures { result ≡ spec.line_place line }
{
    if line < MAX_TENANTS {
        At::Door(line as u8)
    } else {
        At::Row((line - MAX_TENANTS) as u8)
    }
}

/// Returns the place of the word at an index within a slot's words.
fn slot_place(slot: u8, index: usize) -> At
    requires { index < slot_wide }
    ensures { result ≡ spec.slot_place slot index }
{
    if index == 0 {
        At::Gate(slot)
    } else if index == 1 {
        At::Status(slot)
    } else if index == 2 {
        At::Count(slot)
    } else if index < 3 + MAX_ENTRIES {
        At::Addr {
            slot,
            entry: (index - 3) as u8,
        }
    } else if index < 3 + 2 * MAX_ENTRIES {
        At::Expected {
            slot,
            entry: (index - (3 + MAX_ENTRIES)) as u8,
        }
    } else {
        At::New {
            slot,
            entry: (index - (3 + 2 * MAX_ENTRIES)) as u8,
        }
    }
}

/// Returns whether a world of this configuration has a word at a place.
pub fn has_place(config: &Config, at: At) -> bool
    ensures { result ≡ extent.has_place config.now at }
{
    match at {
        At::Door(tenant) => usize::from(tenant) < config.tenants.len(),
        At::Gate(slot) => u16::from(slot) < config.pool,
        At::Row(worker) => worker < config.workers,
        At::Data { tenant, address } => has_word(config, tenant, address),
        At::Status(slot) => u16::from(slot) < config.pool,
        At::Count(slot) => u16::from(slot) < config.pool,
        At::Addr { slot, entry } => has_entry(config, slot, entry),
        At::Expected { slot, entry } => has_entry(config, slot, entry),
        At::New { slot, entry } => has_entry(config, slot, entry),
    }
}

fn has_entry(config: &Config, slot: u8, entry: u8) -> bool
    ensures { result ≡ extent.has_entry config.now slot entry }
{
    u16::from(slot) < config.pool && usize::from(entry) < MAX_ENTRIES
}

fn has_word(config: &Config, tenant: u8, address: u16) -> bool
    ensures { result ≡ nat_lt address (tenant_at config.now tenant).words }
{
    match config.tenants.get(usize::from(tenant)) {
        Some(tenant) => address < tenant.words,
        None => false,
    }
}

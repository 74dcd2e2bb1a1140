//! Keeps the shared words of a world in memory, as 64 bits each.
//!
//! A world of mw_simulator has them. `cells/start` makes them, `cells/steps` makes steps on them. Change it with
//! `specs/Bits` and `specs/BitsMatch`.
ghost use Rattle.std.specs.Prelude.{◌≡◌, cond, false, map, is_some, slice_get, slice_set, Some, None};
ghost use Rattle.std.specs.Option.{option_and_then};
ghost use Rattle.mw_words.specs.declared.places.At.TheVariants.{Status as StatusOf};
ghost use Rattle.mw_words.specs.Patterns.{unpacked_status};
ghost use Rattle.mw_look.specs.Places.{Val, pack};
ghost use Rattle.mw_world.specs.Definition.Cells.{Cells as WhatStands, read, write, AllFit};
ghost use Rattle.mw_world_memory.specs.Bits.{bits_at, put_bits, is_there, entry_at, with_entry, word_bits, with_word, SamePlaces};
ghost use Rattle.mw_world_memory.specs.BitsMatch.{BitsMatch};

use mw_words::{At, MAX_ENTRIES, Status};
use std::marker::Model;

mod start;
mod steps;

/// The shared words of a world: exactly those that its configuration has.
#[derive(Drop)]
pub struct Cells {
    /// By tenant.
    doors: Vec<u64>,
    /// By slot.
    gates: Vec<u64>,
    /// By worker.
    rows: Vec<u64>,
    /// By tenant and address.
    words: Vec<Vec<u64>>,
    /// By slot.
    statuses: Vec<u64>,
    /// By slot.
    counts: Vec<u64>,
    /// By entry: `MAX_ENTRIES` for each slot, slot after slot.
    addrs: Vec<u64>,
    /// By entry, as `addrs`.
    expecteds: Vec<u64>,
    /// The entries' new values, by entry, as `addrs`.
    new_values: Vec<u64>,
}

impl Model for Cells {
    ghost use Rattle.std.specs.Prelude.{map};
    ghost use Rattle.mw_world_memory.specs.Bits.{Bits};

    ghost Value = { Bits };

    ghost view = { λ a. record { doors = a.doors.items; gates = a.gates.items; rows = a.rows.items; words = map (λ tenant. tenant.items) a.words.items; statuses = a.statuses.items; counts = a.counts.items; addrs = a.addrs.items; expecteds = a.expecteds.items; new_values = a.new_values.items } };
}

impl Cells {
    /// Returns the bits at a place. `None`: there is no such place.
    pub fn get(&self, at: At) -> Option<u64>
        ensures is { result ≡ bits_at self.now at }
        ensures tied { (cells : WhatStands) → BitsMatch self.now cells → result ≡ cond (is_there self.now at) (Some (pack at (read cells at))) None }
    {
        self.bits(at)
    }

    /// Returns the bits that the list of their kind of word has at a place.
    fn bits(&self, at: At) -> Option<u64>
        ensures { result ≡ bits_at self.now at }
    {
        match at {
            At::Door(tenant) => self.doors.get(usize::from(tenant)).copied(),
            At::Gate(slot) => self.gates.get(usize::from(slot)).copied(),
            At::Row(worker) => self.rows.get(usize::from(worker)).copied(),
            At::Data { tenant, address } => word_of(&self.words, tenant, address),
            At::Status(slot) => self.statuses.get(usize::from(slot)).copied(),
            At::Count(slot) => self.counts.get(usize::from(slot)).copied(),
            At::Addr { slot, entry } => entry_of(&self.addrs, slot, entry),
            At::Expected { slot, entry } => entry_of(&self.expecteds, slot, entry),
            At::New { slot, entry } => entry_of(&self.new_values, slot, entry),
        }
    }

    /// Returns the status of a slot. `None`: there is no such slot.
    pub fn status(&self, slot: u8) -> Option<Status>
        ensures is { result ≡ option_and_then unpacked_status (bits_at self.now (StatusOf slot)) }
        ensures tied { (cells : WhatStands) → BitsMatch self.now cells → AllFit cells → result ≡ cond (is_there self.now (StatusOf slot)) (Some (cells.statuses slot)) None }
    {
        match self.get(At::Status(slot)) {
            Some(bits) => Status::unpack(bits),
            None => None,
        }
    }

    /// Puts bits at a place, and returns whether there is such a place. If there is none, nothing changes.
    pub fn put(&mut self, at: At, bits: u64) -> bool
        ensures there { result ≡ is_there self.old at }
        ensures put { self.new ≡ put_bits self.old at bits }
        ensures ties { (cells : WhatStands) (x : Val at) → bits ≡ pack at x → BitsMatch self.old cells → BitsMatch self.new (write cells at x) }
        ensures places { SamePlaces self.old self.new }
        ensures nowhere { result ≡ false → self.new ≡ self.old }
    {
        self.set(at, bits)
    }

    /// Puts bits into the list of their kind of word, and returns whether it has such a place.
    fn set(&mut self, at: At, bits: u64) -> bool
        ensures there { result ≡ is_there self.old at }
        ensures put { self.new ≡ put_bits self.old at bits }
    {
        match at {
            At::Door(tenant) => put_at(&mut self.doors, usize::from(tenant), bits),
            At::Gate(slot) => put_at(&mut self.gates, usize::from(slot), bits),
            At::Row(worker) => put_at(&mut self.rows, usize::from(worker), bits),
            At::Data { tenant, address } => put_word(&mut self.words, tenant, address, bits),
            At::Status(slot) => put_at(&mut self.statuses, usize::from(slot), bits),
            At::Count(slot) => put_at(&mut self.counts, usize::from(slot), bits),
            At::Addr { slot, entry } => put_entry(&mut self.addrs, slot, entry, bits),
            At::Expected { slot, entry } => put_entry(&mut self.expecteds, slot, entry, bits),
            At::New { slot, entry } => put_entry(&mut self.new_values, slot, entry, bits),
        }
    }
}

/// Returns the word at an address of a tenant, if there is one.
fn word_of(words: &[Vec<u64>], tenant: u8, address: u16) -> Option<u64>
    ensures { result ≡ word_bits (map (λ tenant. tenant.items) words.now) tenant address }
{
    match words.get(usize::from(tenant)) {
        Some(words) => words.get(usize::from(address)).copied(),
        None => None,
    }
}

/// Returns the number at an entry of a slot, if there is one. A slot has [`MAX_ENTRIES`] entries.
fn entry_of(entries: &[u64], slot: u8, entry: u8) -> Option<u64>
    ensures { result ≡ entry_at entries.now slot entry }
{
    let entry = usize::from(entry);
    if entry < MAX_ENTRIES {
        entries
            .get(usize::from(slot) * MAX_ENTRIES + entry)
            .copied()
    } else {
        None
    }
}

/// Puts bits at an index, and returns whether there is such an index.
fn put_at(words: &mut Vec<u64>, index: usize, bits: u64) -> bool
    ensures there { result ≡ is_some (slice_get words.old.items index) }
    ensures put { words.new.items ≡ slice_set words.old.items index bits }
{
    if index < words.len() {
        words[index] = bits;
        true
    } else {
        false
    }
}

/// Puts bits at an address of a tenant, and returns whether there is such a word.
fn put_word(words: &mut Vec<Vec<u64>>, tenant: u8, address: u16, bits: u64) -> bool
    ensures there { result ≡ is_some (word_bits (map (λ tenant. tenant.items) words.old.items) tenant address) }
    ensures put { map (λ tenant. tenant.items) words.new.items ≡ with_word (map (λ tenant. tenant.items) words.old.items) tenant address bits }
{
    let tenant = usize::from(tenant);
    if tenant < words.len() {
        put_at(&mut words[tenant], usize::from(address), bits)
    } else {
        false
    }
}

/// Puts bits at an entry of a slot, and returns whether there is such an entry.
fn put_entry(entries: &mut Vec<u64>, slot: u8, entry: u8, bits: u64) -> bool
    ensures there { result ≡ is_some (entry_at entries.old.items slot entry) }
    ensures put { entries.new.items ≡ with_entry entries.old.items slot entry bits }
{
    let entry = usize::from(entry);
    if entry < MAX_ENTRIES {
        put_at(entries, usize::from(slot) * MAX_ENTRIES + entry, bits)
    } else {
        false
    }
}

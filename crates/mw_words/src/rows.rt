//! A worker's row (its announcement), in 64 bits: which entry of which slot's change its present attempt is for.
//!
//! Used by: mw_look, mw_actor, mw_table, mw_world_trials. Another pattern of bits needs a change in `specs/Patterns`.
//! No file has these bits.
ghost use Rattle.std.specs.Prelude.{◌≡◌, ◌≢◌, ◌↔◌, IsTrue, IfSome, None};
ghost use Rattle.mw_words.specs.declared.rows.Row.{Row as RowModel};
ghost use Rattle.mw_words.specs.Patterns.{IsRowInRange, IsRowOf, packed_row, unpacked_row};

use crate::limits::{MAX_ENTRIES, WORN_NUMBER};

/// The first bit of the slot.
const SLOT: u32 = 56;

/// The first bit of the entry's index.
const ENTRY: u32 = 48;

/// What a worker's latest attempt is for: an entry of a slot's change.
#[derive(Clone, Copy, PartialEq, Eq)]
pub struct Row {
    /// The slot.
    pub slot: u8,
    /// The entry's index, below [`MAX_ENTRIES`].
    pub entry: u8,
    /// The slot's sequence number, at most [`WORN_NUMBER`].
    pub seq: u64,
}

impl Row {
    /// Tells whether each field is in its range, so that the row has bits.
    pub fn is_in_range(self) -> bool
        ensures { IsTrue result ↔ IsRowInRange self }
    {
        (self.entry as usize) < MAX_ENTRIES && self.seq <= WORN_NUMBER
    }

    /// Returns the row's 64 bits. Each field must be in its range.
    pub fn pack(self) -> u64
        requires { IsRowInRange self }
        ensures { result ≡ packed_row self }
    {
        (u64::from(self.slot) << SLOT) + (u64::from(self.entry) << ENTRY) + self.seq
    }

    /// Returns the row with these bits. `None`: no row has them, because the entry's index isn't below
    /// [`MAX_ENTRIES`].
    pub fn unpack(bits: u64) -> Option<Row>
        ensures is { result ≡ unpacked_row bits }
        ensures some { IfSome result (IsRowOf bits) }
        ensures none { result ≡ None → (row : RowModel) → IsRowInRange row → packed_row row ≢ bits }
    {
        let entry = (bits >> ENTRY) % (1 << (SLOT - ENTRY));
        if entry < MAX_ENTRIES as u64 {
            Some(Row {
                slot: (bits >> SLOT) as u8,
                entry: entry as u8,
                seq: bits % (1 << ENTRY),
            })
        } else {
            None
        }
    }
}

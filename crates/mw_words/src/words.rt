//! A tenant's word as workers share it, in 64 bits: its value, or the attempt or the change that has it at present.
//!
//! Used by: mw_look, mw_actor, mw_table, mw_core, mw_world_trials. Another pattern of bits needs a change in
//! `specs/Patterns`. A file has values alone.
ghost use Rattle.std.specs.Prelude.{◌≡◌, ◌≢◌, ◌↔◌, IsTrue, IfSome, None};
ghost use Rattle.mw_words.specs.declared.words.Word.{Word as WordModel};
ghost use Rattle.mw_words.specs.Patterns.{IsWordInRange, IsWordOf, packed_word, unpacked_word};

use crate::limits::{MAX_POOL, MAX_VALUE, MAX_WORKERS, WORN_NUMBER};

/// The first bit of the kind: 0 plain, 1 planted, 2 held, 3 dirty.
const KIND: u32 = 62;

/// The first bit of the worker or the slot. A plain word has 0 there.
const OWNER: u32 = 48;

/// A tenant's word: its value, or a reference in its place while a change works on the word.
#[derive(Clone, Copy, PartialEq, Eq)]
pub enum Word {
    /// A value, at most [`MAX_VALUE`].
    Plain(u64),
    /// A worker's attempt to hold the word.
    Planted {
        /// The worker, below [`MAX_WORKERS`].
        worker: u8,
        /// The attempt's number, at most [`WORN_NUMBER`].
        attempt: u64,
    },
    /// The word is held for the change of a slot.
    Held {
        /// The slot.
        slot: u8,
        /// The slot's sequence number, at most [`WORN_NUMBER`].
        seq: u64,
    },
    /// The word has its new value from a slot's change, and still names the slot.
    Dirty {
        /// The slot.
        slot: u8,
        /// The new value, at most [`MAX_VALUE`].
        value: u64,
    },
}

impl Word {
    /// Tells whether each field is in its range, so that the word has bits.
    pub fn is_in_range(self) -> bool
        ensures { IsTrue result ↔ IsWordInRange self }
    {
        match self {
            Word::Plain(value) => value <= MAX_VALUE,
            Word::Planted { worker, attempt } => worker < MAX_WORKERS && attempt <= WORN_NUMBER,
            Word::Held { seq, .. } => seq <= WORN_NUMBER,
            Word::Dirty { value, .. } => value <= MAX_VALUE,
        }
    }

    /// Returns the word's 64 bits. Each field must be in its range.
    pub fn pack(self) -> u64
        requires { IsWordInRange self }
        ensures { result ≡ packed_word self }
    {
        match self {
            Word::Plain(value) => value,
            Word::Planted { worker, attempt } => (1 << KIND)
                + (u64::from(worker) << OWNER)
                + attempt,
            Word::Held { slot, seq } => (2 << KIND) + (u64::from(slot) << OWNER) + seq,
            Word::Dirty { slot, value } => (3 << KIND) + (u64::from(slot) << OWNER) + value,
        }
    }

    /// Returns the word with these bits. `None`: no word has them. The worker or the slot isn't in range, or a
    /// plain word has one.
    pub fn unpack(bits: u64) -> Option<Word>
        ensures is { result ≡ unpacked_word bits }
        ensures some { IfSome result (IsWordOf bits) }
        ensures none { result ≡ None → (word : WordModel) → IsWordInRange word → packed_word word ≢ bits }
    {
        let owner = (bits >> OWNER) % (1 << (KIND - OWNER));
        let low = bits % (1 << OWNER);
        match bits >> KIND {
            0 if owner == 0 => Some(Word::Plain(low)),
            1 if owner < u64::from(MAX_WORKERS) => Some(Word::Planted {
                worker: owner as u8,
                attempt: low,
            }),
            2 if owner < u64::from(MAX_POOL) => Some(Word::Held {
                slot: owner as u8,
                seq: low,
            }),
            3 if owner < u64::from(MAX_POOL) => Some(Word::Dirty {
                slot: owner as u8,
                value: low,
            }),
            _ => None,
        }
    }
}

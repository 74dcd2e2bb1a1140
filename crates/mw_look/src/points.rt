//! The points of a read's program (its program counter), each with what the read has found so far.
//!
//! Used by: `look.rt`, which goes from point to point; mw_core, mw_world_memory, mw_world_trials. The world's
//! definitions see the point of each request. A new point needs a case in `specs/Program`, and in the laws about
//! reads. A last case for all other points takes it silently in `turns_at_gate`, `turns_at_word` and `turns_at_loss`
//! of mw_core (`read_rounds.rt`), in `read_label` and others of mw_world_memory (`step_labels.rt`), and in laws as
//! `specs/Knowledge/Points` and `specs/Counts/Ready` of mw_law_runs.
ghost use Rattle.std.specs.Prelude.{◌≡◌};
ghost use Rattle.mw_words.specs.Patterns.{IsGateInRange};
ghost use Rattle.mw_look.specs.Program.{word_of, slot_of, seq_of, resumed, first_entry, next_entry, address_seen, pinning, answer, is_over, value_of};

use mw_pool::pin;
use mw_words::{Gate, MAX_ENTRIES, Reply, Row, Status, WORN_NUMBER, Word};

/// What leads a read from its word to a slot: the word that it saw, which doesn't have its value, and the slot
/// whose change put it there.
#[derive(Clone, Copy)]
pub enum Trail {
    /// The word was held for the slot with this sequence number.
    Held {
        /// The slot.
        slot: u8,
        /// The slot's sequence number.
        seq: u64,
    },
    /// The word had a worker's attempt. The worker's row told which change the attempt is for.
    Planted {
        /// The worker.
        worker: u8,
        /// The attempt's number.
        attempt: u64,
        /// The worker's row.
        row: Row,
    },
}

/// What a read does when it holds no pin any more.
#[derive(Clone, Copy)]
pub enum After {
    /// It begins again.
    Again,
    /// It replies with this value.
    Answer(u64),
}

/// Where a read is in its program: its next step, and what it knows.
#[derive(Clone, Copy)]
pub enum Point {
    /// Loads the tenant's door.
    ReadDoor,
    /// Loads the word.
    ReadWord,
    /// The word has an attempt: loads the row of the attempt's worker.
    ReadRow {
        /// The worker.
        worker: u8,
        /// The attempt's number.
        attempt: u64,
    },
    /// Loads the word again, to confirm that the row belonged to the attempt.
    ConfirmWord(Trail),
    /// Loads the slot's gate.
    ReadGate(Trail),
    /// Exchanges the gate for one with one pin more.
    Pin {
        /// What led the read to the slot.
        trail: Trail,
        /// The gate as it was loaded.
        from: Gate,
        /// The gate with one pin more.
        to: Gate,
    },
    /// Loads the slot's status. From this point to Unpin the read holds a pin of the slot.
    ReadStatus(Trail),
    /// Loads an entry's address, to find the entry of the word.
    FindEntry {
        /// What led the read to the slot.
        trail: Trail,
        /// The slot's status as it was loaded.
        status: Status,
        /// The entry's index.
        entry: u8,
    },
    /// Loads the entry's expected value.
    ReadExpected {
        /// What led the read to the slot.
        trail: Trail,
        /// The slot's status as it was loaded.
        status: Status,
        /// The entry's index.
        entry: u8,
    },
    /// Loads the entry's new value.
    ReadNew {
        /// What led the read to the slot.
        trail: Trail,
        /// The slot's status as it was loaded.
        status: Status,
        /// The entry's index.
        entry: u8,
        /// The entry's expected value.
        expected: u64,
    },
    /// Loads the word again, to confirm that it is still the word that led to the status and the entry.
    RecheckWord {
        /// What led the read to the slot.
        trail: Trail,
        /// The slot's status as it was loaded.
        status: Status,
        /// The entry's expected value.
        expected: u64,
        /// The entry's new value.
        new: u64,
    },
    /// Takes the pin back from the gate.
    Unpin {
        /// The slot.
        slot: u8,
        /// The slot's sequence number.
        seq: u64,
        /// What follows.
        after: After,
    },
    /// The pin was the last one: stores a free gate with the next number.
    FreeSlot {
        /// The slot.
        slot: u8,
        /// The slot's sequence number.
        seq: u64,
        /// What follows.
        after: After,
    },
    /// The slot is free: counts it off the tenant's door.
    LowerDoor(After),
    /// The read has its reply. It asks for loads of the door, and changes no more.
    Replied(Reply),
}

impl Trail {
    /// Returns the word that the read saw.
    pub(crate) fn word(self) -> Word
        ensures { result ≡ word_of self }
    {
        match self {
            Trail::Held { slot, seq } => Word::Held { slot, seq },
            Trail::Planted {
                worker,
                attempt,
                ..
            } => Word::Planted { worker, attempt },
        }
    }

    /// Returns the slot.
    pub(crate) fn slot(self) -> u8
        ensures { result ≡ slot_of self }
    {
        match self {
            Trail::Held { slot, .. } => slot,
            Trail::Planted { row, .. } => row.slot,
        }
    }

    /// Returns the slot's sequence number.
    pub(crate) fn seq(self) -> u64
        ensures { result ≡ seq_of self }
    {
        match self {
            Trail::Held { seq, .. } => seq,
            Trail::Planted { row, .. } => row.seq,
        }
    }

    /// Returns where the read looks for the word's entry after it has loaded the status: at the index that the
    /// row names, else from the first entry on.
    pub(crate) fn first_entry(self, status: Status) -> Point
        ensures { result ≡ first_entry self status }
    {
        match self {
            Trail::Held { .. } => Point::FindEntry {
                trail: self,
                status,
                entry: 0,
            },
            Trail::Planted { row, .. } => Point::ReadExpected {
                trail: self,
                status,
                entry: row.entry,
            },
        }
    }

    /// Returns the point after an entry's address: if the address is the word's, the read goes to the entry's
    /// values.
    pub(crate) fn after_address(self, status: Status, entry: u8, is_the_words: bool) -> Point
        ensures { result ≡ address_seen self status entry is_the_words }
    {
        if is_the_words {
            Point::ReadExpected {
                trail: self,
                status,
                entry,
            }
        } else {
            self.next_entry(status, entry)
        }
    }

    // The point after an entry with another address: the next entry. After the last of `MAX_ENTRIES` the read
    // begins again.
    fn next_entry(self, status: Status, entry: u8) -> Point
        ensures { result ≡ next_entry self status entry }
    {
        if (entry as usize) < MAX_ENTRIES - 1 {
            Point::FindEntry {
                trail: self,
                status,
                entry: entry + 1,
            }
        } else {
            Point::Unpin {
                slot: self.slot(),
                seq: self.seq(),
                after: After::Again,
            }
        }
    }

    /// Returns the point after the slot's gate. If the gate is taken under the trail's number and has a pin,
    /// the read goes to a pin. Else it begins again. It also does so if the gate has [`MAX_PINS`] pins, or if
    /// the number is [`WORN_NUMBER`], which has no successor. The gate's fields must be in range.
    ///
    /// [`MAX_PINS`]: mw_words::MAX_PINS
    pub(crate) fn pinning(self, gate: Gate) -> Point
        requires { IsGateInRange gate }
        ensures is { result ≡ pinning self gate }
    {
        match pin(gate, self.seq()) {
            Some(to) if self.seq() < WORN_NUMBER => Point::Pin {
                trail: self,
                from: gate,
                to,
            },
            _ => Point::ReadDoor,
        }
    }

    /// Returns what follows the load of the word after the status and the entry. They tell its value if the
    /// word is the one that the read saw before, and isn't held by a change that is made and done. Else the
    /// read begins again.
    pub(crate) fn answer(self, word: Word, status: Status, expected: u64, new: u64) -> After
        ensures { result ≡ answer self word status expected new }
    {
        if word == self.word() && !self.is_over(status) {
            After::Answer(self.value(status, expected, new))
        } else {
            After::Again
        }
    }

    // Tells whether the word is held by a change that is made and done.
    fn is_over(self, status: Status) -> bool
        ensures { result ≡ is_over self status }
    {
        match self {
            Trail::Held { .. } => matches!(status, Status::DoneYes),
            Trail::Planted { .. } => false,
        }
    }

    // The word's value: the entry's new value if the word is held by a change with the status Yes, else the
    // expected value.
    fn value(self, status: Status, expected: u64, new: u64) -> u64
        ensures { result ≡ value_of self status expected new }
    {
        match self {
            Trail::Held { .. } if matches!(status, Status::Yes) => new,
            _ => expected,
        }
    }
}

impl After {
    /// Returns the point that follows.
    pub(crate) fn resumed(self) -> Point
        ensures { result ≡ resumed self }
    {
        match self {
            After::Again => Point::ReadDoor,
            After::Answer(value) => Point::Replied(Reply::Val(value)),
        }
    }
}

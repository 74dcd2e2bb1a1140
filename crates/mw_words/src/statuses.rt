//! The status of a slot's change, in 64 bits: being written, open, decided (yes or no), or done.
//!
//! Used by: many crates from mw_look on. Another pattern of bits needs a change in `specs/Patterns`; a new status
//! needs a case wherever a status is matched, in programs and in laws. Some take it silently: `is_in_range` here,
//! `starts_from` and `status_after` of mw_world, `Trail::value` of mw_look, `gave_up` of mw_actor (`moves.rt`). No
//! file has these bits.
ghost use Rattle.std.specs.Prelude.{◌≡◌, ◌≢◌, ◌↔◌, IsTrue, IfSome, None};
ghost use Rattle.mw_words.specs.declared.statuses.Status.{Status as StatusModel};
ghost use Rattle.mw_words.specs.Patterns.{IsStatusInRange, IsStatusOf, packed_status, unpacked_status};

use crate::limits::{MAX_ENTRIES, MAX_VALUE};

/// The first bit of the state.
const STATE: u32 = 60;

/// The first bit of the entry's index. The index and the value are 0 unless the state is No or DoneNo.
const ENTRY: u32 = 48;

/// How far the change of a slot has come.
#[derive(Clone, Copy, PartialEq, Eq)]
pub enum Status {
    /// Its worker writes the change into the slot. Nobody else works on it yet.
    Draft,
    /// It isn't decided yet. Any worker that serves its tenant may decide it.
    Open,
    /// It is decided that the change is made, but its file isn't known to hold it yet. Its words still have
    /// their old values.
    YesDirty,
    /// It is made, durably. From now on a word that it holds has its new value.
    Yes,
    /// It is not made, because an entry's word had another value than the expected one.
    No {
        /// The entry's index, below [`MAX_ENTRIES`].
        entry: u8,
        /// The value that its word had, at most [`MAX_VALUE`].
        value: u64,
    },
    /// It is made and done: its file has the new values in their places. Words that still refer to it become
    /// plain, and then its slot is freed.
    DoneYes,
    /// It is not made and done: its file has freed its record. Words that still refer to it get their old
    /// values back, and then its slot is freed.
    DoneNo {
        /// The index of the entry whose word had another value, below [`MAX_ENTRIES`].
        entry: u8,
        /// The value that its word had, at most [`MAX_VALUE`].
        value: u64,
    },
}

impl Status {
    /// Tells whether each field is in its range, so that the status has bits.
    pub fn is_in_range(self) -> bool
        ensures { IsTrue result ↔ IsStatusInRange self }
    {
        match self {
            Status::No { entry, value } | Status::DoneNo { entry, value } => {
                (entry as usize) < MAX_ENTRIES && value <= MAX_VALUE
            }
            _ => true,
        }
    }

    /// Returns the status's 64 bits. Each field must be in its range.
    pub fn pack(self) -> u64
        requires { IsStatusInRange self }
        ensures { result ≡ packed_status self }
    {
        match self {
            Status::Draft => 0,
            Status::Open => 1 << STATE,
            Status::YesDirty => 2 << STATE,
            Status::Yes => 3 << STATE,
            Status::No { entry, value } => (4 << STATE) + (u64::from(entry) << ENTRY) + value,
            Status::DoneYes => 5 << STATE,
            Status::DoneNo { entry, value } => (6 << STATE) + (u64::from(entry) << ENTRY) + value,
        }
    }

    /// Returns the status with these bits. `None`: no status has them. The state is unknown, the entry's index
    /// isn't below [`MAX_ENTRIES`], or there is an index or a value with a state that has none.
    pub fn unpack(bits: u64) -> Option<Status>
        ensures is { result ≡ unpacked_status bits }
        ensures some { IfSome result (IsStatusOf bits) }
        ensures none { result ≡ None → (status : StatusModel) → IsStatusInRange status → packed_status status ≢ bits }
    {
        let entry = (bits >> ENTRY) % (1 << (STATE - ENTRY));
        let value = bits % (1 << ENTRY);
        let is_bare = entry == 0 && value == 0;
        let is_entry = entry < MAX_ENTRIES as u64;
        match bits >> STATE {
            0 if is_bare => Some(Status::Draft),
            1 if is_bare => Some(Status::Open),
            2 if is_bare => Some(Status::YesDirty),
            3 if is_bare => Some(Status::Yes),
            4 if is_entry => Some(Status::No {
                entry: entry as u8,
                value,
            }),
            5 if is_bare => Some(Status::DoneYes),
            6 if is_entry => Some(Status::DoneNo {
                entry: entry as u8,
                value,
            }),
            _ => None,
        }
    }
}

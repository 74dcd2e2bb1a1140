//! The limits of an old file, which no start has opened yet.
//!
//! Used by: mw_world_file, mw_schedule, mw_world_trials. docs/SCHEDULES and a text of mw_schedule (`forms.rt`) tell them.
//! Change them with `specs/Definition/State.antt`.

use mw_record::{FIRST_ENTRIES, FIRST_PLACES};

/// The most entries of the change whose record is open in an old file.
pub const OLD_ENTRIES: usize = 8;

/// The greatest quota of a tenant with an old file, which has as many places as the quota.
pub const OLD_PLACES: u8 = 32;

const _: () = prove!(OLD_ENTRIES == FIRST_ENTRIES);

const _: () = prove!(OLD_PLACES as u16 == FIRST_PLACES);

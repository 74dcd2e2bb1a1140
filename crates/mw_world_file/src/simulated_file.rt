//! A simulated file: a tenant's file on a disk in memory, and what is kept beside it (words, places, change in
//! doubt).
//!
//! Used by: nearly all modules of this crate, mw_world_memory, mw_simulator. `specs/Books` says which file a
//! book represents, by its fields: change it with a field.
ghost use Rattle.std.specs.Prelude.{◌≡◌, ◌≤◌, true, false, length};
ghost use Rattle.mw_world_file.specs.Devices.{disk_under, is_open, words_on, states_on, has_failed_on, AreKept, IsReady};

use crate::device::Device;
use crate::places::Place;
use mw_words::{Entries, MAX_POOL};

/// The most slots that a server may have.
pub(crate) const SLOTS: usize = MAX_POOL as usize;

/// A tenant's file on a disk in memory, and what is kept beside it, as the fields say in order:
/// - the device: the file, open or shut;
/// - the words that the file represents;
/// - its first places, as many as the tenant's quota, and then how many places it has;
/// - for each slot, the place of its change;
/// - whether the opening, or a device call after it, has failed;
/// - the change in doubt; none if it has no entries.
#[derive(Drop)]
pub struct SimulatedFile {
    pub(crate) device: Device,
    pub(crate) contents: Vec<u64>,
    pub(crate) places: Vec<Place>,
    pub(crate) file_places: u16,
    pub(crate) place_of: [u16; SLOTS],
    pub(crate) has_failed: bool,
    pub(crate) doubt: Entries,
    ghost sized: { is_open device ≡ true → words_on device ≡ length contents.items },
    ghost has: { is_open device ≡ true → length (states_on device) ≡ file_places },
    ghost count: { length places.items ≤ file_places },
    ghost kept: { AreKept (states_on device) places.items },
    ghost failed: { has_failed_on device ≡ has_failed },
    ghost ready: { has_failed ≡ false → IsReady (disk_under device) },
}

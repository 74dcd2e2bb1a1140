//! Laws of a disk in memory: its calls determine it, and a crash with given torn bytes leaves one image. Each is the
//! contract of an empty function.
//!
//! By these laws mw_world_file says what a file is after a restart.
ghost use Rattle.std.specs.Prelude.{◌≡◌, ℕ, Bool, List, length};
ghost use Rattle.mw_disk.specs.DeviceCalls.{DeviceCall, Makes};
ghost use Rattle.mw_memory_disk.specs.Memory.{Memory, memory_facts, memory_made, NoneRefused};
ghost use Rattle.mw_memory_disk.specs.Crash.{Tears, unsynced};

/// From one disk in memory the same device calls lead to one disk and one answer, if none of them is refused
/// memory: all go well, or the same one fails.
pub fn calls_determine_the_disk()
    ensures { (calls : List DeviceCall) (old one other : Memory) (well also : Bool)
        → Makes memory_made calls well old one → Makes memory_made calls also old other
        → NoneRefused old one → NoneRefused old other → (well ≡ also) × (one ≡ other) }
{}

/// A crash of a disk in memory leaves one image for the same torn bytes.
pub fn torn_bytes_determine_the_image()
    ensures { (disk : Memory) (torn one other : List ℕ)
        → Tears (unsynced disk.log) torn (length torn) (memory_facts disk).reads one
        → Tears (unsynced disk.log) torn (length torn) (memory_facts disk).reads other → one ≡ other }
{}

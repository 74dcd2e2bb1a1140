//! Makes the book (what is kept beside a simulated file) of a file that was just opened.
//!
//! Used by: `opening`; `unopened`, which takes only `empty_places`. A new field of a book needs its value in
//! `opened`, `opening`, `unopened` and `calls`. Change it with `specs/Books`, `specs/Devices` and `specs/Files`.
ghost use Rattle.std.specs.Prelude.{◌≡◌, ◌≤◌, [], false, length, replicate, IfOk, IsTrue};
ghost use Rattle.mw_memory_disk.specs.Memory.{memory_facts};
ghost use Rattle.mw_file.specs.File.{disk_of, has_failed, states_of};
ghost use Rattle.mw_file.specs.RecoveryInvariant.{RecoversTo};
ghost use Rattle.mw_file.specs.PlaceStates.{all_free};
ghost use Rattle.mw_world_file.specs.Books.{Represents, quota_of, places_of_file};
ghost use Rattle.mw_world_file.specs.Devices.{IsReady};
ghost use Rattle.mw_world.specs.Files.State.{file_of};
ghost use Rattle.mw_world_file.specs.declared.device.Device.TheVariants.{Open};
ghost use Rattle.mw_world_file.specs.declared.places.Place.TheVariants.{Empty};

use crate::device::Device;
use crate::places::Place;
use crate::simulated_file::{SLOTS, SimulatedFile};
use mw_file::TenantFile;
use mw_memory_disk::MemDisk;
use mw_words::Entries;
use std::alloc::{AllocError, Global};

/// Makes the book of a file that was just opened, with the words that it represents. It uses as many of its
/// places as the quota, and all are empty. The only error is that memory is out.
pub(crate) fn open_book(
    alloc: Global,
    file: TenantFile<MemDisk>,
    contents: Vec<u64>,
    quota: usize,
) -> Result<SimulatedFile, AllocError>
    requires free { IsTrue (all_free (states_of file)) }
    requires room { quota ≤ length (states_of file) }
    requires sound { has_failed file ≡ false }
    requires keeps { RecoversTo memory_facts file contents.items [] }
    requires ready { IsReady (disk_of file) }
    ensures shows { IfOk result (λ book. Represents book (file_of contents.items)) }
    ensures places { IfOk result (λ book. quota_of book ≡ quota) }
    ensures has { IfOk result (λ book. places_of_file book ≡ length (states_of file)) }
    ensures device { IfOk result (λ book. book.device ≡ Open file) }
{
    let places = empty_places(alloc, quota)?;
    let file_places = file.places();
    Ok(SimulatedFile {
        device: Device::Open(file),
        contents,
        places,
        file_places,
        place_of: [0; SLOTS],
        has_failed: false,
        doubt: Entries::new(),
    })
}

/// Makes `count` empty places. The only error is that memory is out.
pub(crate) fn empty_places(alloc: Global, count: usize) -> Result<Vec<Place>, AllocError>
    ensures { IfOk result (λ places. places.items ≡ replicate count Empty) }
{
    let mut places = Vec::with_capacity(alloc, count)?;
    for _ in 0..count {
        places.push(Place::Empty)?;
    }
    Ok(places)
}

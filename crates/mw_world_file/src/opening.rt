//! Opens a simulated file, also with a device call that fails.
//!
//! Used by: `new_books`, `restarts`. Change it with `specs/Books`, `specs/Devices`, `specs/Files` and
//! `specs/StoppedFiles`.
ghost use Rattle.std.specs.Prelude.{◌≡◌, ◌<◌, ◌≤◌, ◌^◌, ℕ, List, Some, None, [], length, replicate, true, false, IsTrue, IsSome, IsSomeAnd, IfOk, MatchResult};
ghost use Rattle.mw_memory_disk.specs.Memory.{memory_facts};
ghost use Rattle.mw_file.specs.File.{disk_of, states_of, has_failed};
ghost use Rattle.mw_file.specs.RecoveryInvariant.{RecoversTo};
ghost use Rattle.mw_file.specs.PlaceStates.{all_free};
ghost use Rattle.mw_record.specs.Damages.{words_in, file_words, places_of};
ghost use Rattle.mw_world_file.specs.Books.{HasParts, Represents, quota_of, places_of_file};
ghost use Rattle.mw_world_file.specs.Devices.{IsReady};
ghost use Rattle.mw_world.specs.Files.State.{file_of};
ghost use Rattle.mw_world_file.specs.StoppedFiles.{named};
ghost use Rattle.mw_world_file.specs.declared.device.Device.TheVariants.{Open, Shut};

use crate::device::Device;
use crate::faults::BookFault;
use crate::opened::{empty_places, open_book};
use crate::places::Place;
use crate::simulated_file::{SLOTS, SimulatedFile};
use mw_file::{OpenFault, TenantFile};
use mw_memory_disk::MemDisk;
use mw_record::{Image, Layout, PLACES_GROW, decode};
use mw_words::Entries;
use std::alloc::{AllocError, Global};

/// Reads the words of a file without damage. The only error is that memory is out.
fn words_of(alloc: Global, image: &Image<'_>) -> Result<Vec<u64>, AllocError>
    ensures { IfOk result (λ words. words.items ≡ words_in image.now) }
{
    let mut words = Vec::new(alloc);
    for addr in 0..image.words() {
        words.push(image.word(addr))?;
    }
    Ok(words)
}

/// Returns how many places a file without damage has after it is opened.
fn places_once_open(image: &Image<'_>) -> u16
    ensures { result ≡ places_of image.now }
{
    match image.layout() {
        Layout::First => PLACES_GROW * image.places(),
        Layout::Second => image.places(),
    }
}

/// Makes a script that names this device call, or none. The only error is that memory is out.
fn script_of(alloc: Global, fails_at: Option<u64>) -> Result<Vec<u64>, AllocError>
    ensures { IfOk result (λ script. script.items ≡ named fails_at) }
{
    let mut script = Vec::new(alloc);
    if let Some(number) = fails_at {
        script.push(number)?;
    }
    Ok(script)
}

impl SimulatedFile {
    ghost use Rattle.mw_world_file.specs.StoppedFiles.{ReopenEnds};

    /// Makes the book of a file that was opened, which uses `quota` of its places. An opening in which a device
    /// call must fail is refused.
    fn opened(
        alloc: Global,
        file: TenantFile<MemDisk>,
        words: Vec<u64>,
        quota: usize,
        fails_at: Option<u64>,
    ) -> Result<SimulatedFile, BookFault>
        requires free { IsTrue (all_free (states_of file)) }
        requires room { quota ≤ length (states_of file) }
        requires sound { has_failed file ≡ false }
        requires keeps { RecoversTo memory_facts file words.items [] }
        requires ready { fails_at ≡ None → IsReady (disk_of file) }
        ensures { MatchResult result
            (λ book. (fails_at ≡ None) × Represents book (file_of words.items) × (quota_of book ≡ quota) × (places_of_file book ≡ length (states_of file))
            × (book.device ≡ Open file))
            (λ fault. fault ≡ BookFault.NotEnabled → IsSomeAnd fails_at (λ number. number < 2 ^ 64)) }
    {
        if fails_at.is_some() {
            return Err(BookFault::NotEnabled);
        }
        Ok(open_book(alloc, file, words, quota)?)
    }

    /// Makes the book of a file whose opening failed. The file has `file_places` places, and the book uses
    /// `quota` of them. The only error is that memory is out. It is also returned if no device call had to
    /// fail.
    fn shut(
        alloc: Global,
        disk: MemDisk,
        words: Vec<u64>,
        file_places: u16,
        quota: usize,
        fails_at: Option<u64>,
    ) -> Result<SimulatedFile, BookFault>
        requires { quota ≤ file_places }
        ensures { MatchResult result
            (λ book. IsSome fails_at × (disk.refused ≡ 0) × HasParts book (Shut disk) words.items (replicate quota Place.Empty) file_places (replicate SLOTS 0) true [])
            (λ fault. fault ≡ BookFault.Memory) }
    {
        if fails_at.is_none() || disk.refused() > 0 {
            return Err(BookFault::Memory);
        }
        let Ok(places) = empty_places(alloc, quota) else {
            return Err(BookFault::Memory);
        };
        Ok(SimulatedFile {
            device: Device::Shut(disk),
            contents: words,
            places,
            file_places,
            place_of: [0; SLOTS],
            has_failed: true,
            doubt: Entries::new(),
        })
    }

    /// Opens a file from these bytes, and makes its book, which uses `quota` of its places. The file has at
    /// least as many.
    ///
    /// # Errors
    ///
    /// [`BookFault::NotEnabled`]: the opening makes no device call with the number of the one that must fail.
    /// [`BookFault::Memory`]: memory is out.
    pub(crate) fn open(
        alloc: Global,
        bytes: Vec<u8>,
        quota: usize,
        fails_at: Option<u64>,
    ) -> Result<SimulatedFile, BookFault>
        ensures { (words : List ℕ) → file_words bytes.items ≡ Some words → quota ≤ places_of bytes.items → ReopenEnds bytes.items quota words fails_at result }
    {
        let Ok(image) = decode(&bytes) else {
            return Err(BookFault::NotEnabled);
        };
        let file_places = places_once_open(&image);
        if usize::from(file_places) < quota {
            return Err(BookFault::NotEnabled);
        }
        let found = words_of(alloc, &image)?;
        let disk = MemDisk::new(alloc, bytes, script_of(alloc, fails_at)?)?;
        match TenantFile::open(alloc, disk) {
            Ok(opened) => {
                let (file, words) = opened;
                SimulatedFile::opened(alloc, file, words, quota, fails_at)
            }
            Err(failed) => {
                let (fault, disk) = failed;
                match fault {
                    OpenFault::Disk => SimulatedFile::shut(
                        alloc,
                        disk,
                        found,
                        file_places,
                        quota,
                        fails_at,
                    ),
                    OpenFault::Damage(_) => Err(BookFault::NotEnabled),
                    OpenFault::Memory => Err(BookFault::Memory),
                }
            }
        }
    }
}

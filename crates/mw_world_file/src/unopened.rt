//! Makes a simulated old file, which no start has opened yet.
//!
//! mw_simulator makes such a book if the configuration of a world gives the tenant an old file. mw_world passes on the
//! two limits; docs/SCHEDULES and a text of mw_schedule (`forms.rt`) tell them. Change it with `specs/OldFiles`,
//! `specs/Books`, `specs/Files` and `specs/FirstPlaces`.
ghost use Rattle.std.specs.Prelude.{◌≡◌, ◌≤◌, ◌*◌, [], length, replicate, IfOk, IsTrue};
ghost use Rattle.mw_words.specs.declared.limits.TheConstants.{MAX_WORDS};
ghost use Rattle.mw_record.specs.declared.layout.TheConstants.{FIRST_PLACES, PLACES_GROW};
ghost use Rattle.mw_words.specs.Change.{is_change, put};
ghost use Rattle.mw_file.specs.RecoveryInvariant.{IsFile};
ghost use Rattle.mw_world_file.specs.OldFiles.{old_body, old_file};

use crate::changes::with_change;
use crate::device::Device;
use crate::opened::empty_places;
use crate::simulated_file::{SLOTS, SimulatedFile};
use mw_memory_disk::MemDisk;
use mw_record::{
    BODY_SIZE, COMMITTED, ENTRY_SIZE, FIRST_ENTRIES, FIRST_PLACES, PLACES_GROW, body, header,
    home_at, size,
};
use mw_words::{Entries, MAX_ENTRIES};
use mw_world::{OLD_ENTRIES, OLD_PLACES};
use std::alloc::{AllocError, Global};

/// How many bytes a record place of an old file has after its commit byte.
const OLD_BODY: usize = 135;

const _: () = prove!(OLD_BODY + ENTRY_SIZE * (MAX_ENTRIES - FIRST_ENTRIES) == BODY_SIZE);

impl SimulatedFile {
    ghost use Rattle.mw_world_file.specs.Books.{Represents, quota_of, places_of_file};
    ghost use Rattle.mw_world.specs.Files.State.{broken, file_of};
    ghost use Rattle.mw_world.specs.Files.FirstPlaces.{first_places};

    /// Makes the book of an old file, which no start has opened yet. `words` is 1 to `MAX_WORDS`, and `quota`,
    /// the tenant's, is 1 to `FIRST_PLACES`. The file has as many places as the quota, and uses them all; the
    /// start that opens it gives it more. Its home words are 0. The record of `change`, a well-formed change of
    /// its words, is open in its first place. Until a start opens it, it counts as failed. The only error is
    /// that memory is out.
    pub fn unopened(
        alloc: Global,
        words: u16,
        quota: u8,
        change: &Entries,
    ) -> Result<SimulatedFile, AllocError>
        requires some_word { 1 ≤ words }
        requires words_fit { words ≤ MAX_WORDS }
        requires some_place { 1 ≤ quota }
        requires places_fit { quota ≤ FIRST_PLACES }
        requires formed { IsTrue (is_change words change.now.items) }
        requires few { length change.now.items ≤ OLD_ENTRIES }
        ensures shows { IfOk result (λ book. Represents book (broken (file_of (put (replicate words 0) change.now.items)) [])) }
        ensures places { IfOk result (λ book. quota_of book ≡ quota) }
        ensures has { IfOk result (λ book. places_of_file book ≡ first_places quota) }
        ensures words { IfOk result (λ book. length book.contents.items ≡ words) }
    {
        let contents = with_change(alloc, &zeros(alloc, words)?, change)?;
        let bytes = old_bytes(alloc, words, u16::from(quota), change)?;
        let disk = MemDisk::new(alloc, bytes, Vec::new(alloc))?;
        Ok(SimulatedFile {
            device: Device::Shut(disk),
            contents,
            places: empty_places(alloc, usize::from(quota))?,
            file_places: PLACES_GROW * u16::from(quota),
            place_of: [0; SLOTS],
            has_failed: true,
            doubt: Entries::new(),
        })
    }
}

/// Makes `words` words, all 0. The only error is that memory is out.
fn zeros(alloc: Global, words: u16) -> Result<Vec<u64>, AllocError>
    ensures { IfOk result (λ zeros. zeros.items ≡ replicate words 0) }
{
    let mut zeros = Vec::new(alloc);
    zeros.resize(usize::from(words), 0)?;
    Ok(zeros)
}

/// Makes the bytes of an old file that represents zeros with this change put over them. The change's record is
/// open in the first place. The only error is that memory is out.
fn old_bytes(
    alloc: Global,
    words: u16,
    places: u16,
    change: &Entries,
) -> Result<Vec<u8>, AllocError>
    requires some_word { 1 ≤ words }
    requires words_fit { words ≤ MAX_WORDS }
    requires some_place { 1 ≤ places }
    requires places_fit { places ≤ FIRST_PLACES }
    requires formed { IsTrue (is_change words change.now.items) }
    requires few { length change.now.items ≤ OLD_ENTRIES }
    ensures { IfOk result (λ bytes. IsFile (PLACES_GROW * places) (put (replicate words 0) change.now.items) bytes.items) }
{
    laid_out(alloc, words, places, change)
}

/// Makes the same bytes, one part after the other. The only error is that memory is out.
fn laid_out(alloc: Global, words: u16, places: u16, change: &Entries) -> Result<Vec<u8>, AllocError>
    requires some_word { 1 ≤ words }
    requires words_fit { words ≤ MAX_WORDS }
    requires some_place { 1 ≤ places }
    requires places_fit { places ≤ FIRST_PLACES }
    requires formed { IsTrue (is_change words change.now.items) }
    requires few { length change.now.items ≤ OLD_ENTRIES }
    ensures { IfOk result (λ bytes. bytes.items ≡ old_file words places change.now.items) }
{
    let record = old_record(alloc, change)?;
    let mut bytes = header(words, places).to_vec(alloc)?;
    bytes.resize(home_at(0, words) as usize, 0)?;
    bytes.push(COMMITTED)?;
    bytes.extend_from_slice(&record)?;
    bytes.resize(size(words, places) as usize, 0)?;
    Ok(bytes)
}

/// Makes the bytes after the commit byte of a place of an old file with this change. The only error is that
/// memory is out.
fn old_record(alloc: Global, change: &Entries) -> Result<Vec<u8>, AllocError>
    ensures bytes { IfOk result (λ bytes. bytes.items ≡ old_body change.now.items) }
    ensures long { IfOk result (λ bytes. length bytes.items ≡ OLD_BODY) }
{
    let mut bytes = body(change).to_vec(alloc)?;
    bytes.truncate(OLD_BODY);
    Ok(bytes)
}

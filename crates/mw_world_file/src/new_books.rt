//! Makes a simulated file that is new: all its words are 0.
//!
//! mw_simulator makes such a book for each tenant of a new world, except for one that has an old file. Change it with
//! `specs/Books`, `specs/Files` and `specs/FirstPlaces`.
ghost use Rattle.std.specs.Prelude.{◌≡◌, ◌≤◌, length, replicate, IfOk};
ghost use Rattle.mw_words.specs.declared.limits.TheConstants.{MAX_QUOTA, MAX_WORDS};
ghost use Rattle.mw_record.specs.declared.layout.TheConstants.{FIRST_PLACES};
ghost use Rattle.mw_record.specs.Layout.{new_file};

use crate::simulated_file::SimulatedFile;
use mw_record::{FIRST_PLACES, header, size};
use std::alloc::{AllocError, Global};

impl SimulatedFile {
    ghost use Rattle.mw_world_file.specs.Books.{Represents, quota_of, places_of_file};
    ghost use Rattle.mw_world.specs.Files.State.{file_of};
    ghost use Rattle.mw_world.specs.Files.FirstPlaces.{first_places};

    /// Makes the book of a new file, whose words are all 0. `words` is 1 to `MAX_WORDS`, and `quota`, the
    /// tenant's, is 1 to `MAX_QUOTA`. The file is made in the first layout, with as many places as the quota,
    /// or `FIRST_PLACES` if that is fewer, and is then opened. It uses as many of its places as the quota. The
    /// only error is that memory is out.
    pub fn new(alloc: Global, words: u16, quota: u8) -> Result<SimulatedFile, AllocError>
        requires some_word { 1 ≤ words }
        requires words_fit { words ≤ MAX_WORDS }
        requires some_place { 1 ≤ quota }
        requires places_fit { quota ≤ MAX_QUOTA }
        ensures shows { IfOk result (λ book. Represents book (file_of (replicate words 0))) }
        ensures places { IfOk result (λ book. quota_of book ≡ quota) }
        ensures has { IfOk result (λ book. places_of_file book ≡ first_places quota) }
        ensures words { IfOk result (λ book. length book.contents.items ≡ words) }
    {
        let places = u16::from(quota).min(FIRST_PLACES);
        let bytes = new_bytes(alloc, words, places)?;
        match SimulatedFile::open(alloc, bytes, usize::from(quota), None) {
            Ok(book) => Ok(book),
            Err(_) => Err(AllocError),
        }
    }
}

/// Makes the bytes of a new file with `words` words and `places` places. The only error is that memory is out.
fn new_bytes(alloc: Global, words: u16, places: u16) -> Result<Vec<u8>, AllocError>
    requires some_word { 1 ≤ words }
    requires words_fit { words ≤ MAX_WORDS }
    requires some_place { 1 ≤ places }
    requires places_fit { places ≤ FIRST_PLACES }
    ensures { IfOk result (λ bytes. bytes.items ≡ new_file words places) }
{
    let mut bytes = header(words, places).to_vec(alloc)?;
    bytes.resize(size(words, places) as usize, 0)?;
    Ok(bytes)
}

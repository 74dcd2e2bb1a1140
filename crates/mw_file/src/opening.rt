//! Opens a file: reads it, finishes the changes that were committed (sealed) and not yet written to their words
//! (settled), and adds the second layout (format version 2) if the file has only the first.
//!
//! mw_opening opens each tenant's file by it before a server serves; mw_world_file and tests open files in memory.
//! `specs/OpeningEnds` says how it ends, and `specs/OpeningCalls` which device calls it makes. A new [`OpenFault`] needs a
//! case in both, in mw_opening and in mw_world_file (`opening.rt` of each). docs/PROMISES and docs/THEOREM cite `open`.
//! A copy of a file in use (`tenant_file.rt`) reads its bytes by `front`: change it with `specs/Copies`.
ghost use Rattle.std.specs.Prelude.{◌≡◌, true, false, ◌*◌, ◌≤◌, ◌<◌, ◌^◌, ◌==◌, ℕ, not, if◌then◌else◌, List, length, None, vec_len, min, take, is_ok, [], IsTrue, IfOk, OnOk};
ghost use Rattle.mw_words.specs.declared.limits.TheConstants.{MAX_PLACES, MAX_WORDS};
ghost use Rattle.mw_record.specs.declared.layout.Layout.TheVariants.{First};
ghost use Rattle.mw_record.specs.declared.layout.TheConstants.{MAX_FILE, MAX_FIRST, MAX_SECOND, PLACES_GROW};
ghost use Rattle.mw_disk.specs.DeviceCalls.{Makes};
ghost use Rattle.mw_disk.specs.Runs.{Later, Touched, LeavesOnly};
ghost use Rattle.mw_record.specs.Layout as layout;
ghost use Rattle.mw_record.specs.Damages.{is_switched, layout_of, at_of, words_of, found_places, places_of, words_in, pairs_in, records_of};
ghost use Rattle.mw_record.specs.Contents.{HasSecond};
ghost use Rattle.mw_file.specs.RecoveryInvariant.{IsFile};
ghost use Rattle.mw_file.specs.Migration.{migration_calls, InSwitch, Grown, given_second, CanGrow, IsMigrated};
ghost use Rattle.mw_file.specs.DeviceCalls.{roll_device_calls};
ghost use Rattle.mw_file.specs.OpeningCalls.{OpensBy, front_list, migration_list, ready_list, repair_list};
ghost use Rattle.mw_file.specs.OpeningEnds as spec;
ghost use Rattle.mw_file.specs.OpeningEnds.{Opens, repair_calls, ready_calls, CanOpen};
ghost use Rattle.mw_file.specs.OpeningReads.{HasRoom, IsRead, Reads, IsReadBy, ReadsBy};
ghost use Rattle.mw_file.specs.RollForward.{CanRepair, CanFinish, IsRolled, IsRecalled, Nowhere, record_of};
ghost use Rattle.mw_file.specs.Run.{Ran, IsUntouched};
ghost use Rattle.mw_file.specs.PlaceStates.{all_free, commit_writes, roll_calls};
ghost use Rattle.mw_file.specs.Stores.{IsDurable};
ghost use Rattle.mw_file.specs.Copies.{FrontEnds};
ghost use Rattle.mw_file.specs.declared.place_states.Stage.TheVariants.{Prepared, Sealed};

use crate::migration::migrate;
use crate::place_states::{PlaceState, Stage, Writes};
use crate::roll::roll_forward;
use crate::tenant_file::{CopyFault, TenantFile};
use mw_disk::{Disk, DiskFault};
use mw_record::{
    Damage, Image, Layout, MAX_FILE, MAX_SECOND, PLACES_GROW, decode, size, size2, write_second,
};
use mw_words::{MAX_PLACES, MAX_WORDS};
use std::alloc::{AllocError, Global};

/// Why a file could not be opened.
#[derive(Clone, Copy, Debug, PartialEq, Eq)]
pub enum OpenFault {
    /// The file is damaged, and this is its first damage. The opening wrote nothing to it.
    Damage(Damage),
    /// The device failed.
    Disk,
    /// Memory was refused. The file was neither read nor written to.
    Memory,
}

impl<D: Disk> TenantFile<D> {
    /// Opens the file on a disk. It reads the file and finishes the changes that were sealed and not settled.
    /// Then every place is free. It also returns the file's words, in order of address.
    ///
    /// It asks for the length and reads the bytes. What follows depends on the file:
    ///
    /// - It gives a file in its first layout a second one. It writes this after the first, with the file's words
    ///   as home words and twice as many places, and its offset into the head, and syncs. Then it sets the
    ///   switch byte, and syncs.
    /// - In a file that has its second layout it rolls the open records forward, if there are any. It writes
    ///   their home words, syncs, clears their commit bytes, and syncs.
    ///
    /// It takes memory once, before it reads. No other call on the file takes any, but `copy_bytes`.
    ///
    /// # Errors
    ///
    /// An [`OpenFault`], with the disk. After any fault the file's words are what they were, in what a read
    /// gives and in what a crash at any moment leaves. This holds if the disk keeps the model of [`Disk`] and had
    /// nothing unsynced before.
    pub fn open(alloc: Global, disk: D) -> Result<(TenantFile<D>, Vec<u64>), (OpenFault, D)>
        ensures opens { Opens D.facts disk result }
        ensures made { OpensBy D.facts D.made disk result }
    {
        let mut disk = disk;
        match read_file(alloc, &mut disk) {
            Ok(room) => recover(disk, room),
            Err(fault) => Err((fault, disk)),
        }
    }
}

/// The memory that an opening takes.
#[derive(Drop)]
struct Room {
    /// Room for the bytes that the opening reads.
    bytes: Vec<u8>,
    /// Room for as many words as a file may have.
    words: Vec<u64>,
    /// Free states, as many as a file may have places.
    states: Vec<PlaceState>,
    /// Room for as many bytes as a second layout may have.
    second: Vec<u8>,
}

impl Room {
    fn new(alloc: Global, len: u64) -> Result<Room, AllocError>
        ensures bytes { IfOk result (λ room. vec_len room.bytes ≡ min len MAX_FILE) }
        ensures rest { IfOk result (λ room. HasRoom room) }
    {
        let size = len.min(MAX_FILE as u64) as usize;
        Ok(Room {
            bytes: vec![in alloc; 0; size]?,
            words: vec![in alloc; 0; MAX_WORDS as usize]?,
            states: free_states(alloc)?,
            second: vec![in alloc; 0; MAX_SECOND]?,
        })
    }
}

fn free_states(alloc: Global) -> Result<Vec<PlaceState>, AllocError>
    ensures { IfOk result (λ states. (vec_len states ≡ MAX_PLACES) × IsTrue (all_free states.items)) }
{
    let mut states = Vec::with_capacity(alloc, MAX_PLACES as usize)?;
    for _ in 0..MAX_PLACES {
        states.push(PlaceState {
            stage: Stage::Free,
            writes: Writes::new(),
        })?;
    }
    Ok(states)
}

/// Asks for the disk's length, takes the memory of an opening, and reads the file's bytes into it.
fn read_file<D: Disk>(alloc: Global, disk: &mut D) -> Result<Room, OpenFault>
    ensures room { IfOk result (λ room. HasRoom room) }
    ensures reads { Reads D.facts disk.old disk.new result }
    ensures made { ReadsBy D.facts D.made disk.old disk.new result }
{
    let Ok(len) = disk.len() else {
        return Err(OpenFault::Disk);
    };
    let Ok(room) = Room::new(alloc, len) else {
        return Err(OpenFault::Memory);
    };
    let mut room = room;
    if read_front(disk, &mut room.bytes).is_err() {
        return Err(OpenFault::Disk);
    }
    Ok(room)
}

/// Reads the bytes of a disk that can belong to a file.
pub(crate) fn front<D: Disk>(disk: &mut D, alloc: Global) -> Result<Vec<u8>, CopyFault>
    ensures ends { FrontEnds (D.facts disk.old) (D.facts disk.new) result }
    ensures later { Later (D.facts disk.old) (D.facts disk.new) }
    ensures touched { IsTrue (D.facts disk.old).honest → Touched Nowhere (D.facts disk.old) (D.facts disk.new) }
{
    let Ok(len) = disk.len() else {
        return Err(CopyFault::Disk);
    };
    let size = len.min(MAX_FILE as u64) as usize;
    let Ok(mut bytes) = vec![in alloc; 0; size] else {
        return Err(CopyFault::Memory);
    };
    if read_front(disk, &mut bytes).is_err() {
        return Err(CopyFault::Disk);
    }
    Ok(bytes)
}

/// Reads the first bytes of the disk. It makes no device call if there are none to read.
fn read_front<D: Disk>(disk: &mut D, bytes: &mut [u8]) -> Result<(), DiskFault>
    requires within { IsTrue (D.facts disk.old).honest → length bytes.old ≤ length (D.facts disk.old).reads }
    ensures calls { Ran (min 1 (length bytes.old)) (D.facts disk.old) (D.facts disk.new) result }
    ensures made { Makes D.made (front_list (length bytes.old)) (is_ok result) disk.old disk.new }
    ensures later { Later (D.facts disk.old) (D.facts disk.new) }
    ensures untouched { IsUntouched (D.facts disk.old) (D.facts disk.new) }
    ensures touched { IsTrue (D.facts disk.old).honest → Touched Nowhere (D.facts disk.old) (D.facts disk.new) }
    ensures read { OnOk result (IsTrue (D.facts disk.old).honest → length bytes.old ≤ length (D.facts disk.old).reads
        → bytes.new ≡ take (length bytes.old) (D.facts disk.old).reads) }
{
    if bytes.is_empty() {
        return Ok(());
    }
    disk.read_at(0, bytes)
}

/// Opens a file whose bytes were read from this disk. Nothing was written to it since.
fn recover<D: Disk>(disk: D, room: Room) -> Result<(TenantFile<D>, Vec<u64>), (OpenFault, D)>
    requires { HasRoom room }
    ensures opens { (start : D) → IsRead (D.facts start) (D.facts disk) room.bytes.items → Opens D.facts start result }
    ensures made { (start : D) → IsReadBy D.facts D.made start disk room.bytes.items → OpensBy D.facts D.made start result }
{
    let mut disk = disk;
    let Room {
        bytes,
        mut words,
        mut states,
        mut second,
    } = room;
    let image = match decode(&bytes) {
        Ok(image) => image,
        Err(damage) => return Err((OpenFault::Damage(damage), disk)),
    };
    fill_words(&image, &mut words);
    states.truncate(places_once_open(&image) as usize);
    if make_ready(&mut disk, &image, &words, &mut states, &mut second).is_err() {
        return Err((OpenFault::Disk, disk));
    }
    let file = TenantFile {
        disk,
        at: begins_at(&image),
        words: image.words(),
        states,
        failed: false,
    };
    Ok((file, words))
}

/// Puts the file's words into the first of these, and removes the others.
fn fill_words(image: &Image<'_>, words: &mut Vec<u64>)
    requires { vec_len words.old ≡ MAX_WORDS }
    ensures { words.new.items ≡ words_in image.now }
{
    words.truncate(image.words() as usize);
    for addr in 0..image.words() {
        words[addr as usize] = image.word(addr);
    }
}

/// Returns how many places the file has after it is opened.
fn places_once_open(image: &Image<'_>) -> u16
    ensures value { result ≡ places_of image.now }
    ensures some { 1 ≤ result }
    ensures fits { result ≤ MAX_PLACES }
{
    match image.layout() {
        Layout::First => PLACES_GROW * image.places(),
        Layout::Second => image.places(),
    }
}

/// Returns the offset at which the file's second layout begins after it is opened.
fn begins_at(image: &Image<'_>) -> u64
    ensures value { result ≡ spec.begins_at image.now }
    ensures fits { result ≤ MAX_FIRST }
{
    match image.layout() {
        Layout::First => size(image.words(), image.places()),
        Layout::Second => image.at(),
    }
}

/// Makes a file that was read, and has these words, ready for calls: it has its second layout, and every
/// place is free.
fn make_ready<D: Disk>(
    disk: &mut D,
    image: &Image<'_>,
    words: &[u64],
    states: &mut [PlaceState],
    second: &mut [u8],
) -> Result<(), DiskFault>
    requires count { length words.now ≡ words_of image.now }
    requires each { length states.old ≡ places_of image.now }
    requires few { length states.old ≤ MAX_PLACES }
    requires free { IsTrue (all_free states.old) }
    requires room { length second.old ≡ MAX_SECOND }
    ensures calls { Ran (ready_calls image.now) (D.facts disk.old) (D.facts disk.new) result }
    ensures made { Makes D.made (ready_list image.now words.now) (is_ok result) disk.old disk.new }
    ensures later { Later (D.facts disk.old) (D.facts disk.new) }
    ensures free { IsTrue (all_free states.new) }
    ensures moments { CanOpen (D.facts disk.old) image.now words.now
        → LeavesOnly (D.facts disk.old) (D.facts disk.new) (IsFile (places_of image.now) words.now) }
    ensures read { CanOpen (D.facts disk.old) image.now words.now → IsFile (places_of image.now) words.now (D.facts disk.new).reads }
    ensures done { OnOk result (CanOpen (D.facts disk.old) image.now words.now
        → IsDurable (D.facts disk.new) (spec.begins_at image.now) (words_of image.now) words.now states.new) }
    ensures touched { CanOpen (D.facts disk.old) image.now words.now → is_switched image.now ≡ true
        → Touched (λ k. at_of image.now ≤ k) (D.facts disk.old) (D.facts disk.new) }
    ensures grown { CanOpen (D.facts disk.old) image.now words.now → is_switched image.now ≡ false
        → Grown InSwitch (spec.begins_at image.now) (D.facts disk.old) (D.facts disk.new) }
    ensures given { OnOk result (CanOpen (D.facts disk.old) image.now words.now → is_switched image.now ≡ false
        → (D.facts disk.new).reads
        ≡ given_second (spec.begins_at image.now) (layout.second_part (places_of image.now) words.now) (D.facts disk.old).reads) }
{
    match image.layout() {
        Layout::First => give_second(disk, image, words, second),
        Layout::Second => finish(disk, image, states),
    }
}

/// Gives the second layout to a file that was read in its first one and has these words.
fn give_second<D: Disk>(
    disk: &mut D,
    image: &Image<'_>,
    words: &[u64],
    second: &mut [u8],
) -> Result<(), DiskFault>
    requires first { layout_of image.now ≡ First }
    requires count { length words.now ≡ words_of image.now }
    requires room { length second.old ≡ MAX_SECOND }
    ensures calls { Ran migration_calls (D.facts disk.old) (D.facts disk.new) result }
    ensures made { Makes D.made (migration_list (layout.size First (words_of image.now) (found_places image.now))
        (layout.second_part (PLACES_GROW * found_places image.now) words.now)) (is_ok result) disk.old disk.new }
    ensures later { Later (D.facts disk.old) (D.facts disk.new) }
    ensures moments { CanGrow (D.facts disk.old) image.now words.now
        → LeavesOnly (D.facts disk.old) (D.facts disk.new) (IsFile (PLACES_GROW * found_places image.now) words.now) }
    ensures read { CanGrow (D.facts disk.old) image.now words.now
        → IsFile (PLACES_GROW * found_places image.now) words.now (D.facts disk.new).reads }
    ensures done { OnOk result (CanGrow (D.facts disk.old) image.now words.now
        → IsMigrated (D.facts disk.new) (layout.size First (words_of image.now) (found_places image.now)) (words_of image.now)
        (PLACES_GROW * found_places image.now) words.now) }
    ensures grown { CanGrow (D.facts disk.old) image.now words.now
        → Grown InSwitch (layout.size First (words_of image.now) (found_places image.now)) (D.facts disk.old) (D.facts disk.new) }
    ensures given { OnOk result (CanGrow (D.facts disk.old) image.now words.now
        → (D.facts disk.new).reads
        ≡ given_second (layout.size First (words_of image.now) (found_places image.now))
        (layout.second_part (PLACES_GROW * found_places image.now) words.now) (D.facts disk.old).reads) }
{
    let places = PLACES_GROW * image.places();
    let out = &mut second[..size2(image.words(), places) as usize];
    write_second(out, words, places);
    migrate(disk, out, size(image.words(), image.places()))
}

/// Finishes the changes whose records are open in a file that has its second layout. Then every place is
/// free.
fn finish<D: Disk>(
    disk: &mut D,
    image: &Image<'_>,
    states: &mut [PlaceState],
) -> Result<(), DiskFault>
    requires each { length states.old ≡ found_places image.now }
    requires few { length states.old ≤ MAX_PLACES }
    ensures calls { Ran (repair_calls image.now) (D.facts disk.old) (D.facts disk.new) result }
    ensures made { Makes D.made (repair_list image.now) (is_ok result) disk.old disk.new }
    ensures later { Later (D.facts disk.old) (D.facts disk.new) }
    ensures free { IsTrue (all_free states.new) }
    ensures moments { (contents : List ℕ) → CanFinish (D.facts disk.old) image.now contents
        → LeavesOnly (D.facts disk.old) (D.facts disk.new) (HasSecond (at_of image.now) (words_of image.now) (found_places image.now) contents) }
    ensures read { (contents : List ℕ) → CanFinish (D.facts disk.old) image.now contents
        → HasSecond (at_of image.now) (words_of image.now) (found_places image.now) contents (D.facts disk.new).reads }
    ensures done { OnOk result ((contents : List ℕ) → CanFinish (D.facts disk.old) image.now contents
        → IsDurable (D.facts disk.new) (at_of image.now) (words_of image.now) contents states.new) }
    ensures touched { (contents : List ℕ) → CanFinish (D.facts disk.old) image.now contents
        → Touched (λ k. at_of image.now ≤ k) (D.facts disk.old) (D.facts disk.new) }
{
    recall(image, states);
    let ran = repair(disk, image.at(), image.words(), states);
    set_free(states);
    ran
}

/// Sets each place's state: sealed if its record is open, else free.
fn recall(image: &Image<'_>, states: &mut [PlaceState])
    requires { length states.old ≡ found_places image.now }
    ensures { IsRecalled image.now states.new }
{
    for place in 0..image.places() {
        states[place as usize] = state_of(image, place);
    }
}

/// Returns the state of a place, from the bytes that were read.
fn state_of(image: &Image<'_>, place: u16) -> PlaceState
    requires { place < found_places image.now }
    ensures record { record_of result ≡ records_of image.now place }
    ensures stage { result.stage ≡ Prepared → ⊥ }
    ensures some { result.stage ≡ Sealed → 1 ≤ length result.writes.items }
{
    let writes = writes_of(image, place);
    if writes.is_empty() {
        return PlaceState {
            stage: Stage::Free,
            writes,
        };
    }
    PlaceState {
        stage: Stage::Sealed,
        writes,
    }
}

/// Returns what the record of a place writes.
fn writes_of(image: &Image<'_>, place: u16) -> Writes
    requires { place < found_places image.now }
    ensures pairs { result.items ≡ pairs_in image.now place }
    ensures closed { length result.items ≡ 0 → records_of image.now place ≡ None }
{
    let mut writes = Writes::new();
    for i in 0..image.count(place) {
        writes.push(image.pair(place, i));
    }
    writes
}

/// Rolls the sealed places forward, if there are any.
fn repair<D: Disk>(
    disk: &mut D,
    at: u64,
    words: u16,
    states: &[PlaceState],
) -> Result<(), DiskFault>
    requires near { at ≤ MAX_FIRST }
    requires few { length states.now < 2 ^ 16 }
    ensures calls { Ran (if commit_writes states.now == 0 then 0 else roll_calls states.now) (D.facts disk.old) (D.facts disk.new) result }
    ensures made { Makes D.made (if commit_writes states.now == 0 then [] else roll_device_calls at words 0 states.now) (is_ok result) disk.old disk.new }
    ensures later { Later (D.facts disk.old) (D.facts disk.new) }
    ensures moments { (contents : List ℕ) → CanRepair (D.facts disk.old) at words (length states.now) states.now contents
        → LeavesOnly (D.facts disk.old) (D.facts disk.new) (HasSecond at words (length states.now) contents) }
    ensures read { (contents : List ℕ) → CanRepair (D.facts disk.old) at words (length states.now) states.now contents
        → HasSecond at words (length states.now) contents (D.facts disk.new).reads }
    ensures done { OnOk result ((contents : List ℕ) → CanRepair (D.facts disk.old) at words (length states.now) states.now contents
        → IsRolled at words 0 states.now (D.facts disk.old) (D.facts disk.new)) }
    ensures touched { (contents : List ℕ) → CanRepair (D.facts disk.old) at words (length states.now) states.now contents
        → Touched (λ k. at ≤ k) (D.facts disk.old) (D.facts disk.new) }
{
    if !has_sealed(states) {
        return Ok(());
    }
    roll_forward(disk, at, words, states, 0)
}

fn has_sealed(states: &[PlaceState]) -> bool
    ensures { result ≡ not (commit_writes states.now == 0) }
{
    for state in states {
        if state.stage == Stage::Sealed {
            return true;
        }
    }
    false
}

fn set_free(states: &mut [PlaceState])
    ensures { IsTrue (all_free states.new) }
{
    for state in states.iter_mut() {
        state.stage = Stage::Free;
    }
}

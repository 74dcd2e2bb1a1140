//! Makes the calls on a tenant's file that may be made, and no others.
//!
//! Used by: the tests of files.
ghost use Rattle.std.specs.Prelude.{◌≡◌, ◌<◌, true, length, slice_get};
ghost use Rattle.std.specs.List.{list_all};
ghost use Rattle.mw_record.specs.Records.{holds};
ghost use Rattle.mw_file.specs.NewChanges.{MayPrepare};
ghost use Rattle.mw_file.specs.PlaceStates.{MaySeal, stage_of, writes_of_place};
ghost use Rattle.mw_file_tests.specs.Permitted as spec;

use crate::same::MEMORY;
use mw_file::{FileFault, NewChange, Place, PlaceState, Stage, TenantFile};
use mw_memory_disk::MemDisk;
use mw_words::{Entries, Entry, is_change};
use std::process::Abort;

/// Tells whether a place is at this stage.
fn is_at(states: &[PlaceState], place: Place, stage: Stage) -> bool
    ensures there { result ≡ true → place.0 < length states.now }
    ensures stage { result ≡ true → stage_of states.now place.0 ≡ stage }
{
    match states.get(place.0 as usize) {
        Some(state) => state.stage == stage,
        None => false,
    }
}

/// Tells whether one of these writes is at an address.
fn writes_at(writes: &[(u16, u64)], addr: u16) -> bool
    ensures { result ≡ holds writes.now addr }
{
    for write in writes {
        if write.0 == addr {
            return true;
        }
    }
    false
}

/// Tells whether these writes share no address with the others.
fn are_apart(writes: &[(u16, u64)], others: &[(u16, u64)]) -> bool
    ensures { result ≡ spec.are_apart writes.now others.now }
{
    for write in writes {
        if writes_at(others, write.0) {
            return false;
        }
    }
    true
}

/// Tells whether these writes share no address with this place's change, if that is sealed.
fn is_apart(writes: &[(u16, u64)], state: &PlaceState) -> bool
    ensures { result ≡ spec.is_apart writes.now state.now }
{
    match state.stage {
        Stage::Free | Stage::Prepared => true,
        Stage::Sealed => are_apart(writes, &state.writes),
    }
}

/// Tells whether these writes share no address with any sealed change.
fn apart_from_sealed(writes: &[(u16, u64)], states: &[PlaceState]) -> bool
    ensures { result ≡ list_all (spec.is_apart writes.now) states.now }
{
    for state in states {
        if !is_apart(writes, state) {
            return false;
        }
    }
    true
}

/// Tells whether the change in this place shares no address with any sealed one.
fn shares_no_address(states: &[PlaceState], place: Place) -> bool
    ensures { result ≡ list_all (spec.is_apart (writes_of_place states.now place.0)) states.now }
{
    match states.get(place.0 as usize) {
        Some(state) => apart_from_sealed(&state.writes, states),
        None => apart_from_sealed(&[], states),
    }
}

/// Gives true only if the change in this place may be sealed.
fn may_seal(states: &[PlaceState], place: Place) -> bool
    ensures { result ≡ true → MaySeal states.now place.0 }
{
    is_at(states, place, Stage::Prepared) && shares_no_address(states, place)
}

/// Tells whether there is such a place, and it is free.
fn is_free(states: &[PlaceState], place: Place) -> bool
    ensures { result ≡ spec.is_free_in (slice_get states.now place.0) }
{
    match states.get(place.0 as usize) {
        Some(state) => match state.stage {
            Stage::Free => true,
            Stage::Prepared | Stage::Sealed => false,
        },
        None => false,
    }
}

/// Tells whether a file with so many words and these places has room for a change, whatever other ones.
fn has_room(words: u16, states: &[PlaceState], change: &NewChange) -> bool
    ensures { result ≡ spec.has_room words states.now change.now }
{
    is_free(states, change.place) && is_change(&change.entries, usize::from(words))
}

/// Tells whether it has room for each of these changes.
fn has_room_for(words: u16, states: &[PlaceState], changes: &[NewChange]) -> bool
    ensures { result ≡ list_all (spec.has_room words states.now) changes.now }
{
    for change in changes {
        if !has_room(words, states, change) {
            return false;
        }
    }
    true
}

/// Tells whether the place of each change is above the one before it.
fn places_rise(changes: &[NewChange]) -> bool
    ensures { result ≡ spec.places_rise 0 changes.now }
{
    let mut lowest: u32 = 0;
    for change in changes {
        if u32::from(change.place.0) < lowest {
            return false;
        }
        lowest = u32::from(change.place.0) + 1;
    }
    true
}

/// Gives true only if these changes may be prepared.
fn may_prepare(words: u16, states: &[PlaceState], changes: &[NewChange]) -> bool
    ensures { result ≡ true → MayPrepare words states.now changes.now }
{
    has_room_for(words, states, changes) && places_rise(changes)
}

/// What a call is answered, if it may be made. A prepare that chooses its place tells which one it is.
pub(crate) type Told = Option<Result<Option<Place>, FileFault>>;

/// Gives the answer of a call that tells no place.
fn done(answer: Result<(), FileFault>) -> Told {
    match answer {
        Ok(()) => Some(Ok(None)),
        Err(fault) => Some(Err(fault)),
    }
}

/// Prepares a change, if there is a place and the file has its words.
fn prepare(file: &mut TenantFile<MemDisk>, entries: &Entries) -> Told {
    if !(file.has_place() && is_change(entries, usize::from(file.words()))) {
        return None;
    }
    match file.prepare(entries) {
        Ok(place) => Some(Ok(Some(place))),
        Err(fault) => Some(Err(fault)),
    }
}

/// Prepares a change in this place, if it is free and the file has the change's words.
pub(crate) fn prepare_at(file: &mut TenantFile<MemDisk>, place: Place, entries: &Entries) -> Told {
    if is_at(file.states(), place, Stage::Free) && is_change(entries, usize::from(file.words())) {
        done(file.prepare_at(place, entries))
    } else {
        None
    }
}

/// Prepares these changes, if that may be done.
pub(crate) fn prepare_all(file: &mut TenantFile<MemDisk>, changes: &[NewChange]) -> Told {
    if may_prepare(file.words(), file.states(), changes) {
        done(file.prepare_all(changes))
    } else {
        None
    }
}

/// Seals the change in this place and prepares these changes, if both may be done.
pub(crate) fn seal_with(
    file: &mut TenantFile<MemDisk>,
    place: Place,
    changes: &[NewChange],
) -> Told {
    if may_seal(file.states(), place) && may_prepare(file.words(), file.states(), changes) {
        done(file.seal_with(place, changes))
    } else {
        None
    }
}

/// Settles all sealed changes and prepares these changes, if they may be prepared.
pub(crate) fn settle_all(file: &mut TenantFile<MemDisk>, changes: &[NewChange]) -> Told {
    if may_prepare(file.words(), file.states(), changes) {
        done(file.settle_all(changes))
    } else {
        None
    }
}

/// Seals a change, if it is prepared and shares no address with a sealed one.
pub(crate) fn seal(file: &mut TenantFile<MemDisk>, place: Place) -> Told {
    if may_seal(file.states(), place) {
        done(file.seal(place))
    } else {
        None
    }
}

/// Settles a change, if it is sealed.
fn settle(file: &mut TenantFile<MemDisk>, place: Place) -> Told {
    if is_at(file.states(), place, Stage::Sealed) {
        done(file.settle(place))
    } else {
        None
    }
}

/// Cancels a change, if it is prepared.
fn cancel(file: &mut TenantFile<MemDisk>, place: Place) -> Told {
    if is_at(file.states(), place, Stage::Prepared) {
        file.cancel(place);
        Some(Ok(None))
    } else {
        None
    }
}

/// The addresses and new values of a change, whose words have the value 0.
pub(crate) type Writes = &'static [(u16, u64)];

/// Changes that a call prepares, each with its place.
pub(crate) type Ahead = &'static [(u16, Writes)];

/// A call on a file. A number is that of the call's place.
#[derive(Clone, Copy)]
pub(crate) enum Step {
    Prepare(Writes),
    PrepareAll(Ahead),
    Seal(u16),
    SealWith(u16, Ahead),
    Settle(u16),
    SettleAll(Ahead),
    Cancel(u16),
}

/// Makes the change that expects 0 and writes these values.
pub(crate) fn change(writes: &[(u16, u64)]) -> Entries {
    let mut entries = Entries::new();
    for write in writes {
        let _ = entries.try_push(Entry {
            addr: write.0,
            expected: 0,
            new: write.1,
        });
    }
    entries
}

/// Makes the changes that a call prepares.
fn changes_of<R: Abort + AllocGlobal>(rt: &R, ahead: Ahead) -> Vec<NewChange> {
    let mut changes = Vec::new(rt.alloc());
    for (place, writes) in ahead {
        let new = NewChange {
            place: Place(*place),
            entries: change(writes),
        };
        changes.push(new).expect(rt, MEMORY);
    }
    changes
}

/// Makes a call that prepares these changes, if it may be made.
fn tell_ahead(file: &mut TenantFile<MemDisk>, step: Step, changes: &[NewChange]) -> Told {
    match step {
        Step::SealWith(place, _) => seal_with(file, Place(place), changes),
        Step::SettleAll(_) => settle_all(file, changes),
        _ => prepare_all(file, changes),
    }
}

/// Makes a call, if it may be made.
pub(crate) fn tell<R: Abort + AllocGlobal>(
    rt: &R,
    file: &mut TenantFile<MemDisk>,
    step: Step,
) -> Told {
    match step {
        Step::Prepare(writes) => prepare(file, &change(writes)),
        Step::Seal(place) => seal(file, Place(place)),
        Step::Settle(place) => settle(file, Place(place)),
        Step::Cancel(place) => cancel(file, Place(place)),
        Step::PrepareAll(ahead) | Step::SealWith(_, ahead) | Step::SettleAll(ahead) => {
            tell_ahead(file, step, &changes_of(rt, ahead))
        }
    }
}

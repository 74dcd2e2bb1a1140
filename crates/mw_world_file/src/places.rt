//! The record places of a simulated file, and the change in each.
//!
//! Used by: `simulated_file`, `calls`, `opened`, `opening`, `stops`. Change it with `specs/Devices` and `specs/Files`.
ghost use Rattle.std.specs.Prelude.{◌≡◌, Some, false, slice_get, IfOk, MatchOption};
ghost use Rattle.std.specs.List.{list_any};
ghost use Rattle.mw_world_file.specs.Devices.{told, place_in};
ghost use Rattle.mw_world.specs.Files.State as file;

use mw_words::{Entries, copy_of};
use std::alloc::{AllocError, Global};

/// A place of a file, and the change in it.
#[derive(Drop)]
pub(crate) enum Place {
    /// It has no change.
    Empty,
    /// It has a change that is written down.
    Prepared(Entries),
    /// It has a change that is sealed.
    Sealed(Entries),
}

impl Place {
    /// Returns an equal place.
    pub(crate) fn copy(&self) -> Place
        ensures { result ≡ self.now }
    {
        match self {
            Place::Empty => Place::Empty,
            Place::Prepared(entries) => Place::Prepared(copy_of(entries)),
            Place::Sealed(entries) => Place::Sealed(copy_of(entries)),
        }
    }

    fn is_empty(&self) -> bool
        ensures { result ≡ file.is_empty (told self.now) }
    {
        match self {
            Place::Empty => true,
            Place::Prepared(_) | Place::Sealed(_) => false,
        }
    }
}

/// Whether one of these places is empty.
pub(crate) fn has_empty(places: &[Place]) -> bool
    ensures { result ≡ list_any (λ place. file.is_empty (told place)) places.now }
{
    places.iter().any(|place| place.is_empty())
}

/// Returns the change in a place, if it is prepared.
pub(crate) fn prepared_in(places: &[Place], number: u16) -> Option<&Entries>
    ensures { MatchOption result (file.is_prepared (place_in places.now number) ≡ false)
        (λ entries. slice_get places.now number ≡ Some (Place.Prepared entries.now)) }
{
    match places.get(number as usize) {
        Some(Place::Prepared(entries)) => Some(entries),
        _ => None,
    }
}

/// Returns the change in a place, if it is sealed.
pub(crate) fn sealed_in(places: &[Place], number: u16) -> Option<&Entries>
    ensures { MatchOption result (file.is_sealed (place_in places.now number) ≡ false)
        (λ entries. slice_get places.now number ≡ Some (Place.Sealed entries.now)) }
{
    match places.get(number as usize) {
        Some(Place::Sealed(entries)) => Some(entries),
        _ => None,
    }
}

/// Copies places. The only error is that memory is out.
pub(crate) fn copies(alloc: Global, places: &[Place]) -> Result<Vec<Place>, AllocError>
    ensures { IfOk result (λ copies. copies.items ≡ places.now) }
{
    let mut copies = Vec::with_capacity(alloc, places.len())?;
    for place in places {
        copies.push(place.copy())?;
    }
    Ok(copies)
}

//! Finds in a damaged file, whose sizes are known, the place or home word that is damaged.
//!
//! Used by: `damaged`. `specs/Places` defines these bytes: change both together.
ghost use Rattle.std.specs.Prelude.{◌≡◌, ◌+◌, ◌≤◌, IfOk};
ghost use Rattle.mw_record.specs.Layout.{header, place_at};
ghost use Rattle.mwshow.specs.Places as spec;

use mw_record::{Damage, HEAD_SIZE, Layout, decode, header, header2, home_at};
use std::alloc::{AllocError, Global};

/// The bytes of a file whose layout begins at an offset. The layout has sizes that it may have, and none of
/// its bytes is missing.
#[derive(Drop)]
pub struct SizedFile<'a> {
    /// The file's bytes.
    pub bytes: &'a [u8],
    /// The layout.
    pub layout: Layout,
    /// The offset at which it begins.
    pub at: u64,
    /// How many words it has.
    pub words: u16,
    /// How many record places it has.
    pub places: u16,
    ghost sized: { spec.IsSized layout at words places bytes.now },
}

impl SizedFile<'_> {
    /// Gives the byte of the first place that makes the damage.
    ///
    /// # Errors
    ///
    /// Memory was refused.
    pub fn place_byte(&self, alloc: Global, damage: Damage) -> Result<u64, AllocError>
        ensures { IfOk result (λ byte. byte ≡ spec.place_byte self.now.layout self.now.at self.now.words self.now.places damage self.now.bytes.now) }
    {
        let place = self.place_of(alloc, damage)?;
        Ok(self.byte_of_place(place))
    }

    /// Gives the byte of the first record with a value above the greatest. If no record has one, gives that
    /// of the first home word above it.
    ///
    /// # Errors
    ///
    /// Memory was refused.
    pub fn value_byte(&self, alloc: Global) -> Result<u64, AllocError>
        ensures { IfOk result (λ byte. byte ≡ spec.value_byte self.now.layout self.now.at self.now.words self.now.places self.now.bytes.now) }
    {
        let records = self.first_homes(alloc, 0)?;
        let records = SizedFile {
            bytes: &records,
            layout: self.layout,
            at: self.at,
            words: self.words,
            places: self.places,
        };
        let place = records.place_of(alloc, Damage::Value)?;
        if place < self.places {
            return Ok(self.byte_of_place(place));
        }
        let home = self.home_of(alloc)?;
        Ok(home_at(self.at, home))
    }

    /// Gives the byte at which a place begins.
    fn byte_of_place(&self, place: u16) -> u64
        ensures { result ≡ self.now.at + place_at self.now.layout self.now.words place }
    {
        self.at + self.layout.place_at(self.words, place)
    }

    /// Gives the first place that makes the damage, or the number of places.
    fn place_of(&self, alloc: Global, damage: Damage) -> Result<u16, AllocError>
        ensures { IfOk result (λ place. place ≡ spec.place_of self.now.layout self.now.at self.now.words self.now.places damage self.now.bytes.now) }
    {
        for place in 0..self.places {
            let first = self.first_places(alloc, place + 1)?;
            if has_damage(&first, damage) {
                return Ok(place);
            }
        }
        Ok(self.places)
    }

    /// Gives the first home word that makes a value above the greatest, or the number of words.
    fn home_of(&self, alloc: Global) -> Result<u16, AllocError>
        ensures { IfOk result (λ addr. addr ≡ spec.home_of self.now.at self.now.words self.now.bytes.now) }
    {
        for addr in 0..self.words {
            let first = self.first_homes(alloc, addr + 1)?;
            if has_damage(&first, Damage::Value) {
                return Ok(addr);
            }
        }
        Ok(self.words)
    }

    /// Gives the file with only its first places.
    fn first_places(&self, alloc: Global, places: u16) -> Result<Vec<u8>, AllocError>
        requires some { 1 ≤ places }
        requires fits { places ≤ self.now.places }
        ensures { IfOk result (λ first. first.items ≡ spec.first_places self.now.layout self.now.at self.now.words places self.now.bytes.now) }
    {
        let at = self.at as usize;
        let mut first = Vec::from_slice(alloc, &self.bytes[..at])?;
        first.extend_from_slice(&self.head(places))?;
        first.extend_from_slice(&self.bytes[at + HEAD_SIZE..])?;
        Ok(first)
    }

    /// Gives the layout's head with so many places.
    fn head(&self, places: u16) -> [u8; HEAD_SIZE]
        requires some { 1 ≤ places }
        requires fits { places ≤ self.now.places }
        ensures { result ≡ header self.now.layout self.now.words places }
    {
        match self.layout {
            Layout::First => header(self.words, places),
            Layout::Second => header2(self.words, places),
        }
    }

    /// Gives the file with zeros in all but its first home words.
    fn first_homes(&self, alloc: Global, homes: u16) -> Result<Vec<u8>, AllocError>
        requires { homes ≤ self.now.words }
        ensures { IfOk result (λ first. first.items ≡ spec.first_homes self.now.at self.now.words homes self.now.bytes.now) }
    {
        let begin = home_at(self.at, homes) as usize;
        let end = home_at(self.at, self.words) as usize;
        let mut first = Vec::from_slice(alloc, &self.bytes[..begin])?;
        first.resize(end, 0)?;
        first.extend_from_slice(&self.bytes[end..])?;
        Ok(first)
    }
}

/// Tells whether the bytes of a file have this damage.
fn has_damage(bytes: &[u8], damage: Damage) -> bool
    ensures { result ≡ spec.has_damage damage bytes.now }
{
    match decode(bytes) {
        Ok(_) => false,
        Err(found) => found.number() == damage.number(),
    }
}

//! The kinds of damage that a file may have, each with its number.
//!
//! Used by: `decode`, which finds them; mw_file, which refuses such a file; mwshow. A new damage needs a number in
//! `specs/Damages`, a byte in mwshow (`damaged.rt`, and `byte_of` in `specs/Places`), a row in docs/OPERATING, and a
//! case in scripts/files_parts/reader.py.
ghost use Rattle.std.specs.Prelude.{◌≡◌};
ghost use Rattle.mw_record.specs.Damages as spec;

/// Why a file can't be read: the first damage, in the order in which they are looked for.
#[derive(Clone, Copy, Debug, PartialEq, Eq)]
pub enum Damage {
    /// It doesn't begin with the eight bytes of this format.
    NotThisFormat,
    /// It has no word or too many, or no record place or too many.
    Sizes,
    /// A value is above the greatest value of a word: a new value of an open record, or a home word that no
    /// open record covers.
    Value,
    /// An open record has no entry or too many, an address that isn't below the number of words, or
    /// addresses that don't rise strictly.
    Record,
    /// Two open records share an address.
    Overlap,
    /// It has fewer bytes than a head has, or than its sizes need.
    Short,
    /// Its switch byte is set, but the offset that it tells is not one at which a second layout may begin,
    /// or no second layout begins there.
    SecondLayout,
}

impl Damage {
    /// Returns the number of the damage, 1 to 7.
    pub fn number(self) -> u8
        ensures { result ≡ spec.number_of self }
    {
        match self {
            Damage::NotThisFormat => 1,
            Damage::Sizes => 2,
            Damage::Value => 3,
            Damage::Record => 4,
            Damage::Overlap => 5,
            Damage::Short => 6,
            Damage::SecondLayout => 7,
        }
    }
}

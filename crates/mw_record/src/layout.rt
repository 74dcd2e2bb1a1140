//! Defines where each part of a file's layout is, and reads and writes its numbers.
//!
//! Used by: many crates from mw_file_text on. It is the format of files that are in use: CONTRIBUTING says under
//! *Limits of the file* what may change. docs/FILES tells the numbers, and scripts that read and write files have them
//! (soak_parts/layout.py, files_parts/reader.py).
ghost use Rattle.std.specs.Prelude.{◌≡◌, ◌+◌, ◌≤◌, ◌<◌, ◌^◌, length};
ghost use Rattle.mw_record.specs.Layout as spec;
ghost use Rattle.mw_record.specs.declared.layout.Layout.TheVariants.{First, Second};

use byteorder::{ByteOrder, LittleEndian};
use mw_words::{MAX_ENTRIES, MAX_PLACES, MAX_WORDS};

/// One of the two layouts of a file's bytes.
#[derive(Clone, Copy, PartialEq, Eq)]
pub enum Layout {
    /// The layout of a new file, from its first byte on. A record has up to [`FIRST_ENTRIES`] entries.
    First,
    /// The layout that a file's first opening adds after the first. A record has up to [`MAX_ENTRIES`] entries.
    Second,
}

/// The most entries of a record of the first layout.
pub const FIRST_ENTRIES: usize = 8;

/// The most record places of a first layout.
pub const FIRST_PLACES: u16 = 32;

/// How many record places a second layout has for each place of the first layout before it.
pub const PLACES_GROW: u16 = 2;

/// The eight magic bytes with which a first layout, and so a file, begins.
pub const FIRST_MAGIC: [u8; 8] = *b"MWCASF1\n";

/// The eight magic bytes with which a second layout begins.
pub const SECOND_MAGIC: [u8; 8] = *b"MWCASF2\n";

/// The number of bytes of a layout's head.
pub const HEAD_SIZE: usize = 32;

/// The number of bytes of a home word.
pub const WORD_SIZE: usize = 8;

/// The number of bytes of an entry of a record: an address and a new value.
pub const ENTRY_SIZE: usize = 16;

/// The number of bytes of a record place of a second layout after its commit byte.
pub const BODY_SIZE: usize = 263;

/// The value of a set byte: of the commit byte of an open record place, and of the switch byte. A byte with
/// any other value is clear.
pub const COMMITTED: u8 = 0xa5;

/// The value that clears a commit byte, written after the change's values are in the home words.
pub const NOT_COMMITTED: u8 = 0;

/// The offset of the number of words in a head. It has four bytes.
pub const WORDS_AT: usize = 8;

/// The offset of the number of record places in a head. It has two bytes.
pub const PLACES_AT: usize = 12;

/// The offset of a file's switch byte. If the byte is [`COMMITTED`] the second layout is in use, else the
/// first.
pub const SWITCH_AT: usize = 15;

/// The offset at which a file's head tells where its second layout begins. This has the bytes of a word.
pub const SECOND_AT: usize = 16;

/// The offset of the count byte in a record place.
pub const COUNT_AT: usize = 1;

/// The offset of the entries in a record place.
pub const ENTRIES_AT: usize = 8;

/// The number of bytes of the largest first layout.
pub const MAX_FIRST: usize = 37_152;

/// The number of bytes of the largest second layout.
pub const MAX_SECOND: usize = 49_696;

/// The most bytes of a file that are looked at: those of the largest file.
pub const MAX_FILE: usize = 86_848;

const _: () = prove!(1 + BODY_SIZE == ENTRIES_AT + ENTRY_SIZE * MAX_ENTRIES);

const _: () = prove!(ENTRY_SIZE == 2 * WORD_SIZE);

const _: () = prove!(MAX_PLACES == PLACES_GROW * FIRST_PLACES);

const _: () = prove!(
    MAX_FIRST
        == HEAD_SIZE
            + WORD_SIZE * MAX_WORDS as usize
            + (ENTRIES_AT + ENTRY_SIZE * FIRST_ENTRIES) * FIRST_PLACES as usize
);

const _: () = prove!(
    MAX_SECOND
        == HEAD_SIZE
            + WORD_SIZE * MAX_WORDS as usize
            + (ENTRIES_AT + ENTRY_SIZE * MAX_ENTRIES) * MAX_PLACES as usize
);

const _: () = prove!(MAX_FILE == MAX_FIRST + MAX_SECOND);

impl Layout {
    /// Returns the most entries of a record.
    pub fn most_entries(self) -> usize
        ensures { result ≡ spec.most_entries self }
    {
        match self {
            Layout::First => FIRST_ENTRIES,
            Layout::Second => MAX_ENTRIES,
        }
    }

    /// Returns the most record places.
    pub fn most_places(self) -> u16
        ensures { result ≡ spec.most_places self }
    {
        match self {
            Layout::First => FIRST_PLACES,
            Layout::Second => MAX_PLACES,
        }
    }

    /// Returns the eight magic bytes with which the layout begins.
    pub fn magic(self) -> [u8; 8]
        ensures { result ≡ spec.magic self }
    {
        match self {
            Layout::First => FIRST_MAGIC,
            Layout::Second => SECOND_MAGIC,
        }
    }

    /// Returns the number of bytes of a record place.
    pub fn place_size(self) -> usize
        ensures value { result ≡ spec.place_size self }
        ensures fits { result ≤ 1 + BODY_SIZE }
    {
        ENTRIES_AT + ENTRY_SIZE * self.most_entries()
    }

    /// Returns where a record place begins, after so many words, in bytes from where the layout begins.
    pub fn place_at(self, words: u16, place: u16) -> u64
        ensures { result ≡ spec.place_at self words place }
    {
        (HEAD_SIZE + WORD_SIZE * words as usize + self.place_size() * place as usize) as u64
    }
}

/// Returns the offset of the home word of an address. The file's second layout begins at the offset `at`,
/// which is at most [`MAX_FIRST`].
pub fn home_at(at: u64, addr: u16) -> u64
    requires { at ≤ MAX_FIRST }
    ensures { result ≡ at + spec.home_at addr }
{
    at + (HEAD_SIZE + WORD_SIZE * addr as usize) as u64
}

/// Returns the offset of a record place, which is that of its commit byte. The file's second layout begins at
/// the offset `at`, which is at most [`MAX_FIRST`], and has so many words.
pub fn place_at(at: u64, words: u16, place: u16) -> u64
    requires { at ≤ MAX_FIRST }
    ensures { result ≡ at + spec.place_at Second words place }
{
    at + Layout::Second.place_at(words, place)
}

/// Returns the number of bytes of a first layout with so many words and record places.
pub fn size(words: u16, places: u16) -> u64
    ensures { result ≡ spec.size First words places }
{
    Layout::First.place_at(words, places)
}

/// Returns the number of bytes of a second layout with so many words and record places.
pub fn size2(words: u16, places: u16) -> u64
    ensures { result ≡ spec.size Second words places }
{
    Layout::Second.place_at(words, places)
}

/// Reads the number in the bytes of a word at an offset.
#[tactic(auto, unfolding(crate::specs::Layout::number_at))]
pub(crate) fn read_number(bytes: &[u8], at: usize) -> u64
    requires { at + WORD_SIZE ≤ length bytes.now }
    ensures { result ≡ spec.number_at bytes.now at WORD_SIZE }
{
    LittleEndian::read_u64(&bytes[at..at + WORD_SIZE])
}

/// Writes a number to the bytes of a word at an offset.
#[tactic(auto, unfolding(crate::specs::Layout::number_bytes))]
pub(crate) fn write_number(out: &mut [u8], at: usize, number: u64)
    requires { at + WORD_SIZE ≤ length out.old }
    ensures { out.new ≡ spec.patched out.old at (spec.number_bytes WORD_SIZE number) }
{
    LittleEndian::write_u64(&mut out[at..at + WORD_SIZE], number);
}

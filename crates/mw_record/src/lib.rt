//! Defines the bytes of a tenant's file: its two layouts, what is written to them, and what the bytes of a whole file
//! say.
//!
//! Every number is little-endian. A file begins with a first layout. If its switch byte is [`COMMITTED`], a
//! second layout follows, at the offset that the file's head tells. Then the second layout is in use: the
//! file's words and records are there. Otherwise the first layout is in use. Both have the same parts, one
//! after the other:
//!
//! | bytes | content of a first layout | of a second one, from its offset |
//! |---|---|---|
//! | 0..8 | `MWCASF1` and LF | `MWCASF2` and LF |
//! | 8..12 | number of words | the same |
//! | 12..14 | number of record places, up to 32 | the same, up to 64 |
//! | 14 | 0, not looked at | 0, not looked at |
//! | 15 | the switch byte | 0, not looked at |
//! | 16..24 | the offset of the second layout, looked at if the switch byte is set | 0, not looked at |
//! | 24..32 | 0, not looked at | 0, not looked at |
//! | from 32 | home words, 8 bytes each | the same |
//! | then | record places, 136 bytes each | record places, 264 bytes each |
//!
//! A second layout begins after the head of the first, at [`MAX_FIRST`] at the latest. Bytes after a layout's
//! last place are not looked at.
//!
//! A record place has a commit byte, a count byte, six bytes that are not looked at, and room for entries of
//! 16 bytes each: an address and its new value. There is room for eight entries in a first layout, and for
//! sixteen in a second. A place is open exactly if its commit byte is [`COMMITTED`]. Then its first `count`
//! entries are its record, which is put over the home words. The other bytes of a closed place are not looked
//! at.
//!
//! - *What a contract says*: [`decode`] tells the words and records that bytes say, or their first damage. What
//!   writes gives just the bytes of `specs/Layout`.
//! - *Proved*: what is written is read again; the words that are told are just those that the bytes represent.
//! - *Tested only*: that docs/FILES says the same (`scripts/check-files`). Other damage isn't found: there are no
//!   checksums.
//!
//! Used by: many crates from mw_file_text on. mw_file reads and writes files by it, mwinit makes new ones, and
//! mwshow prints them. CONTRIBUTING says under *Limits of the file* which of it may change without a new layout.
#![tactic(auto)]

mod damages;
mod formed;
mod images;
mod laws;
mod layout;
mod records;
mod written;

pub use damages::Damage;
pub use images::{Image, decode};
pub use laws::{
    body_is_read_again, bytes_past_the_largest_file_do_not_matter, change_is_a_record,
    first_layouts_are_files, first_layouts_stay, header_is_read_again, new_files_have_zeros,
    second_layouts_are_files, second_layouts_have_their_words, undamaged_files_have_words,
    words_are_what_the_bytes_represent,
};
pub use layout::{
    BODY_SIZE, COMMITTED, ENTRY_SIZE, FIRST_ENTRIES, FIRST_MAGIC, FIRST_PLACES, HEAD_SIZE, Layout,
    MAX_FILE, MAX_FIRST, MAX_SECOND, NOT_COMMITTED, PLACES_AT, PLACES_GROW, SECOND_AT,
    SECOND_MAGIC, SWITCH_AT, WORD_SIZE, WORDS_AT, home_at, place_at, size, size2,
};
pub use written::{body, header, header2, home_word, write_second};

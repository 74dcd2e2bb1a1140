//! Laws of the file format (contracts of empty functions): what was written is read again, a file without damage
//! represents its words, and some changes of its bytes keep them.
//!
//! Proofs of mw_file and mw_world_file, among others, cite the lemmas behind them. docs/PROMISES cites
//! `words_are_what_the_bytes_represent`.
ghost use Rattle.std.specs.Prelude.{◌≡◌, ◌+◌, ◌*◌, ◌<◌, ◌≤◌, ◌⊎◌, ◌↔◌, ◌++◌, ℕ, true, false, Some, None, List, length, replicate, slice_index, take};
ghost use Rattle.mw_words.specs.declared.jobs.Entry.{Entry};
ghost use Rattle.mw_words.specs.Change.{AreWords, is_change, put};
ghost use Rattle.mw_record.specs.declared.layout.Layout.{Layout};
ghost use Rattle.mw_record.specs.declared.layout.Layout.TheVariants.{First, Second};
ghost use Rattle.mw_record.specs.Damages.{at_of, damage_of, file_words, found_places, is_switched, layout_of, pairs_in, places_of, words_in, words_of};
ghost use Rattle.mw_record.specs.Layout as spec;
ghost use Rattle.mw_record.specs.Layout.{AreNumbers, SameBytes};
ghost use Rattle.mw_record.specs.Contents.{MayHave, HasSecond, HasWords, IsFileOf, IsHead};
ghost use Rattle.mw_record.specs.Records.{has_values, is_record, put_pairs, record_at};

use crate::layout::{BODY_SIZE, COMMITTED, HEAD_SIZE, MAX_FILE, PLACES_AT, PLACES_GROW};
use mw_words::{MAX_ENTRIES, MAX_WORDS};

/// A head tells the sizes with which it was written. If the first bytes of a layout are
/// [`header`](crate::header) or [`header2`](crate::header2) of sizes that it may have, its head tells those
/// sizes.
pub fn header_is_read_again()
    ensures { (layout : Layout) (part : List ℕ) (words places : ℕ) → MayHave layout words places → HEAD_SIZE ≤ length part
        → SameBytes HEAD_SIZE 0 0 part (spec.header layout words places) → IsHead layout words places part }
{}

/// A record is read as it was written. If [`body`](crate::body) of some entries follows a set commit byte in a
/// second layout, the entries are the place's record.
pub fn body_is_read_again()
    ensures { (part : List ℕ) (words place : ℕ) (entries : List Entry) → length entries ≤ MAX_ENTRIES → AreNumbers entries
        → slice_index part (spec.place_at Second words place) ≡ COMMITTED
        → SameBytes BODY_SIZE (spec.place_at Second words place + 1) 0 part (spec.body entries)
        → record_at Second part words place ≡ Some (spec.pairs_of entries) }
{}

/// The entries of a change are a well-formed record of a second layout, with values of words. To put the change
/// over words is the same as to put the record over them.
pub fn change_is_a_record()
    ensures formed { (words : ℕ) (entries : List Entry) → is_change words entries ≡ true → is_record Second words (spec.pairs_of entries) ≡ true }
    ensures values { (words : ℕ) (entries : List Entry) → is_change words entries ≡ true → has_values (spec.pairs_of entries) ≡ true }
    ensures numbers { (words : ℕ) (entries : List Entry) → words ≤ MAX_WORDS → is_change words entries ≡ true → AreNumbers entries }
    ensures puts { (words : List ℕ) (entries : List Entry) → put words entries ≡ put_pairs (spec.pairs_of entries) words }
{}

/// A file has no damage exactly if its bytes represent some words.
pub fn undamaged_files_have_words()
    ensures { (image : List ℕ) → (damage_of image ≡ None) ↔ ((contents : List ℕ) × IsFileOf contents image) }
{}

/// A file's words are exactly those that its bytes represent.
pub fn words_are_what_the_bytes_represent()
    ensures { (image contents : List ℕ) → (file_words image ≡ Some contents) ↔ IsFileOf contents image }
{}

/// Bytes with a second layout of some words are a file of these words, with that layout's sizes.
pub fn second_layouts_are_files()
    ensures { (at words places : ℕ) (contents image : List ℕ) → HasSecond at words places contents image
        → (file_words image ≡ Some contents) × (words_of image ≡ words) × (places_of image ≡ places) }
{}

/// Bytes that are a first layout of some words, with a clear switch byte, are a file of these words.
pub fn first_layouts_are_files()
    ensures { (words places : ℕ) (contents image : List ℕ) → is_switched image ≡ false → HasWords First words places contents image
        → (file_words image ≡ Some contents) × (words_of image ≡ words) × (places_of image ≡ PLACES_GROW * places) }
{}

/// A new file, [`header`](crate::header) and zeros, has the word 0 at every address. Its switch byte is clear.
pub fn new_files_have_zeros()
    ensures has { (words places : ℕ) → MayHave First words places → HasWords First words places (replicate words 0) (spec.new_file words places) }
    ensures not_switched { (words places : ℕ) → is_switched (spec.new_file words places) ≡ false }
    ensures words { (words places : ℕ) → MayHave First words places → file_words (spec.new_file words places) ≡ Some (replicate words 0) }
{}

/// The bytes of [`write_second`](crate::write_second), whatever bytes follow them, are a second layout of the
/// words that were written. They are as many as that layout has.
pub fn second_layouts_have_their_words()
    ensures has { (contents rest : List ℕ) (places : ℕ) → MayHave Second (length contents) places → AreWords contents
        → HasWords Second (length contents) places contents (spec.second_part places contents ++ rest) }
    ensures long { (contents : List ℕ) (places : ℕ) → length (spec.second_part places contents) ≡ spec.size Second (length contents) places }
{}

/// A first layout keeps its words if its bytes stay. The bytes of its head after the sizes, among which are the
/// switch byte and the offset of the second layout, may change.
pub fn first_layouts_stay()
    ensures { (words places : ℕ) (contents image image2 : List ℕ) → HasWords First words places contents image
        → spec.size First words places ≤ length image2
        → ((k : ℕ) → k < spec.size First words places → (k < PLACES_AT + 2) ⊎ (HEAD_SIZE ≤ k) → slice_index image2 k ≡ slice_index image k)
        → HasWords First words places contents image2 }
{}

/// The first [`MAX_FILE`](crate::MAX_FILE) bytes of a longer file say what the whole file says: the layout in
/// use, where it begins, the damage and the words. If the file has no damage they also say its sizes, and the
/// entries of each of its record places.
pub fn bytes_past_the_largest_file_do_not_matter()
    ensures switched { (bytes : List ℕ) → is_switched (take MAX_FILE bytes) ≡ is_switched bytes }
    ensures layout { (bytes : List ℕ) → layout_of (take MAX_FILE bytes) ≡ layout_of bytes }
    ensures at { (bytes : List ℕ) → at_of (take MAX_FILE bytes) ≡ at_of bytes }
    ensures damage { (bytes : List ℕ) → damage_of (take MAX_FILE bytes) ≡ damage_of bytes }
    ensures file_words { (bytes : List ℕ) → file_words (take MAX_FILE bytes) ≡ file_words bytes }
    ensures words { (bytes : List ℕ) → damage_of bytes ≡ None → words_of (take MAX_FILE bytes) ≡ words_of bytes }
    ensures places { (bytes : List ℕ) → damage_of bytes ≡ None → places_of (take MAX_FILE bytes) ≡ places_of bytes }
    ensures contents { (bytes : List ℕ) → damage_of bytes ≡ None → words_in (take MAX_FILE bytes) ≡ words_in bytes }
    ensures pairs { (bytes : List ℕ) (place : ℕ) → damage_of bytes ≡ None → place < found_places bytes
        → pairs_in (take MAX_FILE bytes) place ≡ pairs_in bytes place }
{}

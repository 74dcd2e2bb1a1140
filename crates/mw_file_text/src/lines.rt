//! Writes what a file without damage says, in lines.
//!
//! Used by: mwshow, mw_server_pages. `specs/Text` says what is written: change both together, with docs/OPERATING and
//! docs/HTTP. mwinit (`dump.rt`) and the Python client (`_shell.py`) read the lines, and scripts do.
ghost use Rattle.std.specs.Prelude.{◌<◌, ◌++◌, OnOk, codes, decimal};
ghost use Rattle.std.specs.Io.KnownBytes.{Appends};
ghost use Rattle.mw_record.specs.Damages.{at_of, found_places, layout_of};
ghost use Rattle.mw_file_text.specs.Text as spec;

use mw_record::{Image, Layout};
use std::io::{self, Write};

/// Writes to `out` what a file without damage says, line by line. With `all_words` it writes all words, else those that aren't 0.
///
/// # Errors
///
/// `out` failed. Some of the lines may have been written.
pub fn show_image<O: Write>(image: &Image<'_>, all_words: bool, out: &mut O) -> io::Result<()>
    ensures { OnOk result (Appends (O.contents out.old) (O.contents out.new) (spec.file_text all_words image.now)) }
{
    show_layout(image, out)?;
    show_sizes(image, out)?;
    show_records(image, out)?;
    show_words(image, all_words, out)
}

/// Writes where the second layout begins, if it is valid.
fn show_layout<O: Write>(image: &Image<'_>, out: &mut O) -> io::Result<()>
    ensures { OnOk result (Appends (O.contents out.old) (O.contents out.new) (spec.layout_line (layout_of image.now) (at_of image.now))) }
{
    match image.layout() {
        Layout::First => Ok(()),
        Layout::Second => show_number("second layout at", image.at(), out),
    }
}

/// Writes how many words and record places there are.
fn show_sizes<O: Write>(image: &Image<'_>, out: &mut O) -> io::Result<()>
    ensures { OnOk result (Appends (O.contents out.old) (O.contents out.new) (spec.sizes_text image.now)) }
{
    show_number("words", u64::from(image.words()), out)?;
    show_number("places", u64::from(image.places()), out)
}

/// Writes a line of a text and a number.
fn show_number<O: Write>(text: &str, number: u64, out: &mut O) -> io::Result<()>
    ensures { OnOk result (Appends (O.contents out.old) (O.contents out.new) (text.now ++ codes " " ++ decimal number ++ codes "\n")) }
{
    writeln!(out, "{text} {number}")
}

/// Writes the entries of all open records, in order of place.
fn show_records<O: Write>(image: &Image<'_>, out: &mut O) -> io::Result<()>
    ensures { OnOk result (Appends (O.contents out.old) (O.contents out.new) (spec.records_text image.now)) }
{
    for place in 0..image.places() {
        show_record(image, place, out)?;
    }
    Ok(())
}

/// Writes the entries of the record of a place, if it is open.
fn show_record<O: Write>(image: &Image<'_>, place: u16, out: &mut O) -> io::Result<()>
    requires { place < found_places image.now }
    ensures { OnOk result (Appends (O.contents out.old) (O.contents out.new) (spec.record_text image.now place)) }
{
    for i in 0..image.count(place) {
        show_entry(place, image.pair(place, i), out)?;
    }
    Ok(())
}

/// Writes an entry of the open record of a place: its address and its new value.
fn show_entry<O: Write>(place: u16, entry: (u16, u64), out: &mut O) -> io::Result<()>
    ensures { OnOk result (Appends (O.contents out.old) (O.contents out.new) (spec.entry_line place entry)) }
{
    let (addr, value) = entry;
    writeln!(out, "open {place} {addr} {value}")
}

/// Writes the words, in order of address: all, or those that aren't 0.
fn show_words<O: Write>(image: &Image<'_>, all_words: bool, out: &mut O) -> io::Result<()>
    ensures { OnOk result (Appends (O.contents out.old) (O.contents out.new) (spec.words_text all_words image.now)) }
{
    for addr in 0..image.words() {
        show_word(addr, image.word(addr), all_words, out)?;
    }
    Ok(())
}

/// Writes the word at an address, if all words are written or it isn't 0.
fn show_word<O: Write>(addr: u16, value: u64, all_words: bool, out: &mut O) -> io::Result<()>
    ensures { OnOk result (Appends (O.contents out.old) (O.contents out.new) (spec.word_text all_words addr value)) }
{
    if !all_words && value == 0 {
        return Ok(());
    }
    writeln!(out, "word {addr} {value}")
}

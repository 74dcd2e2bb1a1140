//! Finds the form of a line by its first word.
//!
//! Used by: `forms`. A new command needs its word here and in `specs/Forms`.
ghost use Rattle.std.specs.Prelude.{◌≡◌};
ghost use Rattle.mw_schedule.specs.Forms as spec;

use crate::forms::LineForm;
use mw_line::field;

/// Gives the form of the lines with a line's first word. `None`: no line begins with it.
pub fn form_of(line: &[u8]) -> Option<LineForm>
    ensures { result ≡ spec.form_of (spec.first_word line.now) }
{
    let word = first_word(line);
    match first_form(word) {
        Some(form) => Some(form),
        None => command_form(word),
    }
}

// Gives the bytes before the first space, or all.
fn first_word(line: &[u8]) -> &[u8]
    ensures { result.now ≡ spec.first_word line.now }
{
    match field(b' ', line) {
        Some((word, _)) => word,
        None => line,
    }
}

// Gives the form of a line before the commands that begins with this word.
fn first_form(word: &[u8]) -> Option<LineForm>
    ensures { result ≡ spec.first_form word.now }
{
    if word == b"seq".as_slice() {
        Some(LineForm::Seq)
    } else if word == b"tenant".as_slice() {
        Some(LineForm::Tenant)
    } else if word == b"old".as_slice() {
        Some(LineForm::Old)
    } else {
        None
    }
}

// Gives the form of a command that begins with this word.
fn command_form(word: &[u8]) -> Option<LineForm>
    ensures { result ≡ spec.command_form word.now }
{
    if word == b"come".as_slice() {
        Some(LineForm::Come)
    } else if word == b"step".as_slice() {
        Some(LineForm::Step)
    } else if word == b"file".as_slice() {
        Some(LineForm::File)
    } else {
        going_form(word)
    }
}

// Gives the form of a further command that begins with this word.
fn going_form(word: &[u8]) -> Option<LineForm>
    ensures { result ≡ spec.going_form word.now }
{
    if word == b"before".as_slice() {
        Some(LineForm::Before)
    } else if word == b"to".as_slice() {
        Some(LineForm::To)
    } else if word == b"end".as_slice() {
        Some(LineForm::End)
    } else if word == b"restart".as_slice() {
        Some(LineForm::Restart)
    } else {
        None
    }
}

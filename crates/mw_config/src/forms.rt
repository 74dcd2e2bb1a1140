//! Tells which rule of its form a line of a tenants file breaks, for a note: it decides no refusal.
//!
//! Used by: mw_opening. Change it with `specs/Forms` and `specs/LineTexts`. scripts/check-texts expects the texts.
ghost use Rattle.std.specs.Prelude.{◌≡◌, ◌&&◌, MatchOption};
ghost use Rattle.std.specs.List.{list_all};
ghost use Rattle.mw_line.specs.Number as number;
ghost use Rattle.mw_words.specs.Name as name_spec;
ghost use Rattle.mw_config.specs.LineTexts.{HasNoLine};
ghost use Rattle.mw_config.specs.Forms as spec;
ghost use Rattle.mw_config.specs.Forms.{AreFields, BeginsWithLine, Breaks, Fields, FieldsBreak, IsFirstBroken, LineBreaks};

use mw_line::field;
use mw_words::{MAX_PATH, is_name};

/// A rule of the form that each line of a tenants file has, `name words quota path`.
#[derive(Clone, Copy)]
pub enum FormRule {
    /// A line ends with a line feed.
    LineFeed,
    /// Each byte before it is a space or a visible character, ` ` to `~`.
    Bytes,
    /// There are four fields, none of them empty, with a single space between each two.
    Fields,
    /// The name is a letter `a` to `z`, and then up to 15 of `a` to `z`, `0` to `9` and `-`.
    Name,
    /// The number of words has only digits, and no 0 before another digit.
    Words,
    /// The same holds for the quota.
    Quota,
    /// The path has at most [`mw_words::MAX_PATH`] bytes.
    Path,
}

impl FormRule {
    /// Gives what a line does that breaks the rule, as a note says it after the line's number.
    pub fn broken(self) -> &'static str {
        match self {
            FormRule::LineFeed => "has no line feed at its end",
            FormRule::Bytes => "has a byte that is no space and no visible character of ASCII",
            FormRule::Fields => "isn't four fields with a single space between each two",
            FormRule::Name => "has a name that isn't a to z, then up to 15 of a to z, 0 to 9 and -",
            FormRule::Words => "has words that aren't a number without a 0 in front",
            FormRule::Quota => "has a quota that isn't a number without a 0 in front",
            FormRule::Path => "has a path of more than 200 bytes",
        }
    }
}

/// Gives the first rule of its form that the first line of `text` breaks, in the order of [`FormRule`]. Gives none
/// exactly if `text` begins with a line of the form.
///
/// A text without a line feed breaks the rule of the line feed alone. The rules of the name, the words, the quota
/// and the path are for a line of four fields alone.
pub fn broken_rule(text: &[u8]) -> Option<FormRule>
    ensures first { IsFirstBroken (λ rule. Breaks rule text.now) result }
    ensures line { MatchOption result (BeginsWithLine text.now) (λ rule. HasNoLine text.now) }
{
    match field(b'\n', text) {
        Some((line, _)) => rule_of_line(line),
        None => Some(FormRule::LineFeed),
    }
}

/// Gives the first rule that a line without its line feed breaks.
fn rule_of_line(line: &[u8]) -> Option<FormRule>
    ensures { IsFirstBroken (λ rule. LineBreaks rule line.now) result }
{
    if !are_line_bytes(line) {
        return Some(FormRule::Bytes);
    }
    match fields_of(line) {
        Some((name, words, quota, path)) => rule_of_fields(name, words, quota, path),
        None => Some(FormRule::Fields),
    }
}

/// Gives the four fields of a line: its name, words, quota and path.
fn fields_of(line: &[u8]) -> Option<(&[u8], &[u8], &[u8], &[u8])>
    ensures { MatchOption result ((fields : Fields) → AreFields line.now fields → ⊥)
        (λ x. AreFields line.now (spec.as_fields x.0.now x.1.now x.2.now x.3.now)) }
{
    let Some((name, rest)) = field(b' ', line) else {
        return None;
    };
    let Some((words, rest)) = field(b' ', rest) else {
        return None;
    };
    let Some((quota, path)) = field(b' ', rest) else {
        return None;
    };
    if !are_fields(name, words, quota, path) {
        return None;
    }
    Some((name, words, quota, path))
}

/// Gives the first rule that these fields break.
fn rule_of_fields(name: &[u8], words: &[u8], quota: &[u8], path: &[u8]) -> Option<FormRule>
    ensures { IsFirstBroken (λ rule. FieldsBreak rule (spec.as_fields name.now words.now quota.now path.now)) result }
{
    if !is_name(name) {
        Some(FormRule::Name)
    } else if !is_number(words) {
        Some(FormRule::Words)
    } else if !is_number(quota) {
        Some(FormRule::Quota)
    } else if path.len() > MAX_PATH {
        Some(FormRule::Path)
    } else {
        None
    }
}

/// Tells whether none of these texts is empty or has a space.
fn are_fields(name: &[u8], words: &[u8], quota: &[u8], path: &[u8]) -> bool
    ensures { result ≡ (spec.is_field name.now && spec.is_field words.now && spec.is_field quota.now && spec.is_field path.now) }
{
    is_field(name) && is_field(words) && is_field(quota) && is_field(path)
}

fn is_field(text: &[u8]) -> bool
    ensures { result ≡ spec.is_field text.now }
{
    !text.is_empty() && lacks_spaces(text)
}

fn lacks_spaces(text: &[u8]) -> bool
    ensures { result ≡ spec.lacks 32 text.now }
{
    text.iter().all(|byte| *byte != b' ')
}

fn are_line_bytes(text: &[u8]) -> bool
    ensures { result ≡ list_all spec.is_line_byte text.now }
{
    text.iter().all(|byte| (b' '..=b'~').contains(byte))
}

/// Tells whether a text is a number: a 0 alone, or a digit from 1 to 9 and then any digits.
fn is_number(text: &[u8]) -> bool
    ensures { result ≡ number.is_number_text text.now }
{
    match text {
        [b'0', rest @ ..] => rest.is_empty(),
        [b'1'..=b'9', rest @ ..] => are_digits(rest),
        _ => false,
    }
}

fn are_digits(text: &[u8]) -> bool
    ensures { result ≡ list_all name_spec.is_digit text.now }
{
    text.iter().all(|byte| (b'0'..=b'9').contains(byte))
}

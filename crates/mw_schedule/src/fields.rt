//! Reads numbers that are a whole text, and items with spaces between them.
//!
//! Used by: `commands`, `config`, `olds`, `restarts`. Change it with `specs/Fields`.
ghost use Rattle.std.specs.Prelude.{◌≤◌, length, IfSome};
ghost use Rattle.mw_line.specs.LineReader.{Gives};
ghost use Rattle.mw_schedule.specs.Fields as spec;

use mw_line::value_at;

/// Returns the number that is the whole text: `0`, or a digit from 1 to 9 and any number of digits. A number of
/// more than 64 bits gives `u64::MAX`.
#[tactic(auto, unfolding(crate::specs::Fields::number))]
pub fn number(text: &[u8]) -> Option<u64>
    ensures { Gives (λ x. x) result (spec.number text.now) }
{
    match value_at(text) {
        Some((number, [])) => Some(number),
        _ => None,
    }
}

/// Returns the number that is the whole text, if it is from `least` to `most`.
pub fn number_within(least: u64, most: u64, text: &[u8]) -> Option<u64>
    ensures { IfSome result (λ n. (least ≤ n) × (n ≤ most)) }
{
    number(text).filter(|number| (least..=most).contains(number))
}

/// Splits a text at its first space. Returns the bytes before it, and the bytes from it on. Without a space all
/// bytes are before it.
pub fn item_at(text: &[u8]) -> (&[u8], &[u8])
    ensures { length result.1.now ≤ length text.now }
{
    let end = text
        .iter()
        .position(|byte| *byte == b' ')
        .unwrap_or(text.len());
    (&text[..end], &text[end..])
}

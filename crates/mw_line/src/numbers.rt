//! Reads the front of a text: a fixed text, a field up to its end byte, or a number. Each reader gives the bytes
//! after what it read.
//!
//! Used by: `requests.rt`, `changes.rt`, mw_config, mw_client, mw_schedule. A contract may change with their proofs
//! and `specs/LineReader`.
ghost use Rattle.std.specs.Prelude.{◌≡◌, ◌+◌, ◌==◌, length, position, IfSome};
ghost use Rattle.mw_line.specs.LineReader as spec;
ghost use Rattle.mw_line.specs.LineReader.{Gives, narrow};

/// The bytes after `text`, if they begin with it.
pub fn behind<'a>(text: &[u8], bytes: &'a [u8]) -> Option<&'a [u8]>
    ensures { Gives (λ x. x.now) result (spec.behind text.now bytes.now) }
{
    bytes.strip_prefix(text)
}

/// The bytes before the first `end`, and those after it.
pub fn field(end: u8, bytes: &[u8]) -> Option<(&[u8], &[u8])>
    ensures read { Gives (λ x. (x.0.now, x.1.now)) result (spec.field_at end bytes.now) }
    ensures long { IfSome result (λ x. length x.0.now + 1 + length x.1.now ≡ length bytes.now) }
{
    let Some(at) = place_of(end, bytes) else {
        return None;
    };
    Some((&bytes[..at], &bytes[at + 1..]))
}

fn place_of(end: u8, bytes: &[u8]) -> Option<usize>
    ensures { result ≡ position (λ b. b == end) bytes.now }
{
    bytes.iter().position(|byte| *byte == end)
}

/// The number at the front, and the bytes after it. A number has no 0 before other digits. One of more than 16 bits
/// is given as `u16::MAX`.
pub fn address_at(bytes: &[u8]) -> Option<(u16, &[u8])>
    ensures { Gives (λ x. (x.0, x.1.now)) result (spec.number_at narrow.addr bytes.now) }
{
    let (number, rest) = value_at(bytes)?;
    Some((u16::try_from(number).unwrap_or(u16::MAX), rest))
}

/// The number at the front, and the bytes after it. A number has no 0 before other digits. One of more than 64 bits
/// is given as `u64::MAX`.
#[tactic(auto, unfolding(crate::specs::LineReader::number_at))]
pub fn value_at(bytes: &[u8]) -> Option<(u64, &[u8])>
    ensures { Gives (λ x. (x.0, x.1.now)) result (spec.number_at narrow.value bytes.now) }
{
    match bytes {
        [b'0', rest @ ..] => Some((0, rest)),
        [b'1'..=b'9', ..] => Some(digits_at(bytes)),
        _ => None,
    }
}

fn digits_at(bytes: &[u8]) -> (u64, &[u8])
    ensures { (result.0, result.1.now) ≡ spec.seen narrow.value (spec.digits_at 0 bytes.now) }
{
    let mut number: u64 = 0;
    let mut rest = bytes;
    while let [digit @ b'0'..=b'9', after @ ..] = rest {
        number = number
            .saturating_mul(10)
            .saturating_add(u64::from(*digit - b'0'));
        rest = after;
    }
    (number, rest)
}

//! Compares a text of a head with another one, and measures it.
//!
//! Used by: `hearing`, `hosts`, `targets`.
ghost use Rattle.std.specs.Prelude.{◌≡◌, ◌==◌, ◌≤◌, not, length, bytes_eq};
ghost use Rattle.std.specs.List.{prefix_len};

/// Tells whether two texts are the same.
pub(crate) fn is_text(bytes: &[u8], text: &[u8]) -> bool
    ensures { result ≡ bytes_eq bytes.now text.now }
{
    bytes == text
}

/// Gives how many bytes come before the first one that is `end`; all, if none is.
pub(crate) fn len_before(text: &[u8], end: u8) -> usize
    ensures before { result ≡ prefix_len (λ byte. not (byte == end)) text.now }
    ensures within { result ≤ length text.now }
{
    for at in 0..text.len() {
        if text[at] == end {
            return at;
        }
    }
    text.len()
}

//! The ranges of a disk in memory that were written since its last sync, and the writing of torn bytes into them.
//!
//! Used by `memory.rt` alone. `specs/Crash` defines which bytes are torn: change both together.
ghost use Rattle.std.specs.Prelude.{◌≡◌, ◌+◌, [], ◌∷◌, length, slice_set, IfOk, OnOk};
ghost use Rattle.mw_memory_disk.specs.Memory.{padded};
ghost use Rattle.mw_memory_disk.specs.Crash.{IsNext, nearer as nearer_of, Tears};

use crate::edits::lengthen;
use std::alloc::AllocError;

/// A range of offsets: the first one, and how many there are.
#[derive(Clone, Copy, PartialEq, Eq)]
pub(crate) struct Span {
    pub(crate) at: u64,
    pub(crate) len: u64,
}

impl Span {
    // Returns the least offset of the range that is not below this one.
    fn first_from(self, from: u64) -> Option<u64>
        ensures { IsNext (self ∷ []) from result }
    {
        let offset = self.at.max(from);
        if offset - self.at < self.len {
            Some(offset)
        } else {
            None
        }
    }
}

/// Puts these bytes at the offsets of the ranges, in rising order of offset and each offset once.
pub(crate) fn tear(bytes: &mut Vec<u8>, spans: &[Span], torn: &[u8]) -> Result<(), AllocError>
    ensures { OnOk result (Tears spans.now torn.now (length torn.now) bytes.old.items bytes.new.items) }
{
    let mut from = 0;
    for byte in torn {
        let Some(offset) = next_in(spans, from) else {
            return Ok(());
        };
        from = put(bytes, offset, *byte)?;
    }
    Ok(())
}

// Returns the least offset in the ranges that is not below this one.
fn next_in(spans: &[Span], from: u64) -> Option<u64>
    ensures { IsNext spans.now from result }
{
    let mut next = None;
    for span in spans {
        next = nearer(next, span.first_from(from));
    }
    next
}

fn nearer(one: Option<u64>, other: Option<u64>) -> Option<u64>
    ensures { result ≡ nearer_of one other }
{
    match (one, other) {
        (Some(one), Some(other)) => Some(one.min(other)),
        (None, other) => other,
        (one, None) => one,
    }
}

// Puts a byte at an offset, with zeros in a gap, and returns the offset after it.
fn put(bytes: &mut Vec<u8>, at: u64, byte: u8) -> Result<u64, AllocError>
    ensures behind { IfOk result (λ behind. behind ≡ at + 1) }
    ensures bytes { OnOk result (bytes.new.items ≡ slice_set (padded bytes.old.items (at + 1)) at byte) }
{
    let Some(behind) = at.checked_add(1) else {
        return Err(AllocError);
    };
    lengthen(bytes, behind as usize)?;
    bytes[at as usize] = byte;
    Ok(behind)
}

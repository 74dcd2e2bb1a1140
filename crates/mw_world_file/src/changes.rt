//! Computes a simulated file's words after a change, and whether two changes share a word.
//!
//! Used by: `calls`, `restarts`, `unopened`. `put` of mw_words (`specs/Change`) and `share_a_word` of `specs/Files`
//! say the same: change both together.
ghost use Rattle.std.specs.Prelude.{◌≡◌, ◌==◌, IfOk};
ghost use Rattle.std.specs.List.{list_any};
ghost use Rattle.mw_words.specs.Change as change;
ghost use Rattle.mw_world.specs.Files.State as spec;

use mw_words::Entry;
use std::alloc::{AllocError, Global};

/// Returns these words with each entry's new value at its address. An entry past the last word writes nothing.
/// The only error is that memory is out.
pub(crate) fn with_change(
    alloc: Global,
    words: &[u64],
    entries: &[Entry],
) -> Result<Vec<u64>, AllocError>
    ensures { IfOk result (λ changed. changed.items ≡ change.put words.now entries.now) }
{
    let mut changed = words.to_vec(alloc)?;
    for entry in entries {
        if (entry.addr as usize) < changed.len() {
            changed[entry.addr as usize] = entry.new;
        }
    }
    Ok(changed)
}

/// Whether two changes have an entry for the same word.
pub(crate) fn share_a_word(these: &[Entry], those: &[Entry]) -> bool
    ensures { result ≡ spec.share_a_word these.now those.now }
{
    these.iter().any(|one| has_word(those, one.addr))
}

fn has_word(entries: &[Entry], addr: u16) -> bool
    ensures { result ≡ list_any (λ other. other.addr == addr) entries.now }
{
    entries.iter().any(|other| other.addr == addr)
}

//! Writes a block, or zeros, over the bytes of a disk in memory.
//!
//! Used by `memory.rt` and `spans.rt` alone.
ghost use Rattle.std.specs.Prelude.{◌≡◌, ◌+◌, ◌≤◌, length, OnOk, OnErr};
ghost use Rattle.mw_disk.specs.Facts.{patched};
ghost use Rattle.mw_memory_disk.specs.Memory.{padded};

use std::alloc::AllocError;

// Writes the block over what is there and past the end, with zeros in a gap.
pub(crate) fn overwrite(bytes: &mut Vec<u8>, at: u64, block: &[u8]) -> Result<(), AllocError>
    ensures ok { OnOk result (bytes.new.items ≡ patched (padded bytes.old.items at) at block.now) }
    ensures err { OnErr result (bytes.new.items ≡ bytes.old.items) }
{
    let Some(end) = at.checked_add(block.len() as u64) else {
        return Err(AllocError);
    };
    lengthen(bytes, end as usize)?;
    paste(bytes, at as usize, block);
    Ok(())
}

// Appends zeros to the bytes, up to this length.
pub(crate) fn lengthen(bytes: &mut Vec<u8>, len: usize) -> Result<(), AllocError>
    ensures ok { OnOk result (bytes.new.items ≡ padded bytes.old.items len) }
    ensures err { OnErr result (bytes.new.items ≡ bytes.old.items) }
{
    if bytes.len() < len {
        bytes.resize(len, 0)?;
    }
    Ok(())
}

fn paste(bytes: &mut [u8], at: usize, block: &[u8])
    requires { at + length block.now ≤ length bytes.old }
    ensures { bytes.new ≡ patched bytes.old at block.now }
{
    let end = at + block.len();
    bytes[at..end].copy_from_slice(block);
}

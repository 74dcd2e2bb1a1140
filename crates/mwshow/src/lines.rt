//! Writes what `mwshow` prints of a file: what it says, or its first damage.
//!
//! Used by: `program`. `specs/Text` says what is printed: change both together.
//! docs/PROMISES cites `show`.
ghost use Rattle.std.specs.Prelude.{◌≡◌, None, Some, OnOk, is_none, IfOk};
ghost use Rattle.std.specs.Io.KnownBytes.{Appends};
ghost use Rattle.mw_record.specs.Damages.{damage_of};
ghost use Rattle.mwshow.specs.Text as spec;

use crate::damaged::damage_byte;
use crate::input::ShowFault;
use mw_file_text::show_image;
use mw_record::{Damage, decode};
use std::alloc::Global;
use std::io::{self, Write};

/// Writes to `out` what the bytes of a whole file say, line by line. With `all_words` it writes all words,
/// else those that aren't 0. Gives whether the file has no damage.
///
/// # Errors
///
/// [`ShowFault::Memory`] if memory was refused, which is needed only for a damaged file.
/// [`ShowFault::Output`] if `out` failed. Some of the lines may have been written.
pub fn show<O: Write>(
    alloc: Global,
    bytes: &[u8],
    all_words: bool,
    out: &mut O,
) -> Result<bool, ShowFault>
    ensures text { OnOk result (Appends (O.contents out.old) (O.contents out.new) (spec.text_of all_words bytes.now)) }
    ensures sound { IfOk result (λ sound. sound ≡ is_none (damage_of bytes.now)) }
{
    match decode(bytes) {
        Ok(image) => {
            show_image(&image, all_words, out)?;
            Ok(true)
        }
        Err(damage) => {
            let byte = damage_byte(alloc, bytes, damage)?;
            show_damage(damage, byte, out)?;
            Ok(false)
        }
    }
}

/// Writes the line of a damage.
fn show_damage<O: Write>(damage: Damage, byte: u64, out: &mut O) -> io::Result<()>
    ensures { OnOk result (Appends (O.contents out.old) (O.contents out.new) (spec.damage_line damage byte)) }
{
    writeln!(out, "damage {} byte {byte}", damage.number())
}

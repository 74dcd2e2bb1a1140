//! Tells why a tenant's file isn't served.
//!
//! Used by: `opening`, which writes the notes; `tenant_disks`. docs/OPERATING lists the texts of the notes;
//! scripts/check-stories, check-refusals and check-locks expect some: change them together.
ghost use Rattle.std.specs.Prelude.{◌≡◌};

use crate::last_error::LastError;
use log::{Log, error};
use mw_config::TenantLine;
use mw_file::OpenFault;
use mw_notes::note_why;
use std::fmt::{self, Display, Formatter, Write};
use std::io;

/// Tells why a tenant's file isn't served, as a note says it.
#[derive(Drop)]
pub enum FileFault {
    /// The file can't be opened.
    CannotOpen(io::Error),
    /// The file can't be locked.
    CannotLock(io::Error),
    /// A call on the file failed. The error is what the system told, if it told one.
    Disk(Option<io::Error>),
    /// Another opening of the file holds its lock: that of the earlier line of this number, or one of another program.
    InUse(Option<usize>),
    /// The file has so many words and places, and not what the tenants file says.
    Misfit(usize, u16),
    /// The file's bytes are damaged. This is the number of the damage.
    Damage(u8),
    /// Memory was refused.
    Memory,
}

impl FileFault {
    /// Gives the fault of a failed opening. `last` has what the system told last, in the opening or before it.
    pub(crate) fn of_opening(fault: OpenFault, last: &LastError) -> Self
        ensures memory { fault ≡ OpenFault.Memory → result ≡ FileFault.Memory }
    {
        match fault {
            OpenFault::Memory => FileFault::Memory,
            OpenFault::Disk => FileFault::Disk(last.error()),
            OpenFault::Damage(damage) => FileFault::Damage(damage.number()),
        }
    }

    /// Gives the word for it.
    fn name(&self) -> &'static str {
        match self {
            FileFault::CannotOpen(_) | FileFault::CannotLock(_) | FileFault::Disk(_) => "disk",
            FileFault::InUse(_) => "in use",
            FileFault::Misfit(..) => "misfit",
            FileFault::Damage(_) => "damage",
            FileFault::Memory => "memory",
        }
    }

    /// Writes why the file of this line isn't served.
    pub(crate) fn tell_why<L: Log>(&self, notes: &L, line: &TenantLine) {
        let path = line.path.as_str();
        match self {
            FileFault::CannotOpen(error) => note_why(notes, path, "cannot open: ", error),
            FileFault::CannotLock(error) => note_why(notes, path, "cannot lock: ", error),
            FileFault::Disk(Some(error)) => note_why(notes, path, "", error),
            FileFault::Disk(None) => note_why(notes, path, "a call on it failed", &""),
            FileFault::InUse(Some(number)) => note_why(notes, path, "the file of line ", number),
            FileFault::InUse(None) => note_why(notes, path, "another program has it locked", &""),
            FileFault::Misfit(words, places) => tell_misfit(notes, line, *words, *places),
            FileFault::Damage(number) => note_why(notes, path, damage_text(*number), &""),
            FileFault::Memory => {}
        }
    }
}

impl Display for FileFault {
    fn fmt<W: Write>(&self, f: &mut Formatter<W>) -> fmt::Result {
        match self {
            FileFault::Damage(number) => write!(f, "damage {number}"),
            _ => f.write_str(self.name()),
        }
    }
}

/// Writes what a file has, and what its line says.
fn tell_misfit<L: Log>(notes: &L, line: &TenantLine, words: usize, places: u16) {
    let (path, wanted, quota) = (line.path.as_str(), line.words, line.quota);
    error!(notes; "{path}: {words} words, {places} places, but its line has {wanted} words, quota {quota}");
}

/// Gives what is wrong with a file that has the damage of this number.
fn damage_text(number: u8) -> &'static str {
    match number {
        1 => "it doesn't begin as a tenant's file",
        2 => "the sizes in its head are out of range",
        3 => "a value is too large",
        4 => "a record is malformed",
        5 => "two records share an address",
        6 => "it is too short",
        _ => "its second layout isn't where it says",
    }
}

//! Opens the tenants' files, and makes an engine's parts of just these.
//!
//! Used by: `serving`. docs/PROMISES cites `open_parts`. What its clause `opened` says is in specs/MadeOfOpened: change
//! both together.
ghost use Rattle.std.specs.Prelude.{◌≡◌, ◌≤◌, All, length, map, is_some, IfOk};
ghost use Rattle.std.specs.List.{list_all};
ghost use Rattle.mw_config.specs.Limits.{ArePermitted};
ghost use Rattle.mw_core.specs.FromTable.{AreInOrder};
ghost use Rattle.mw_words.specs.declared.limits.TheConstants.{MAX_POOL, MAX_TENANTS, MAX_WORKERS};
ghost use Rattle.mw_engine.specs.OpenedFiles.{line_read};
ghost use Rattle.mw_engine.specs.Passes.{IsNew};
ghost use Rattle.mw_engine.specs.Parts.{identity_of, world_read};
ghost use Rattle.mw_programs.specs.MadeOfOpened.{AreMadeOfOpened, IfMade};

use arrayvec::ArrayVec;
use log::Log;
use mw_config::TenantLine;
use mw_disk::Disk;
use mw_engine::{EngineParts, Pass};
use mw_opening::{OpensDisks, open_files};
use mw_words::MAX_TENANTS;
use std::alloc::{AllocError, Global};

/// What is made of the tenants' files at a start.
#[derive(Drop)]
pub(crate) struct OpenedParts<D: Disk, H> {
    /// Whether each tenant's file has opened and fits its line, in the order of the lines.
    pub(crate) are_open: ArrayVec<bool, MAX_TENANTS>,
    /// The engine's parts, which have the files, and a pass for each worker. If memory was refused, the files are closed.
    pub(crate) made: Result<(EngineParts<D, H>, Vec<Pass>), AllocError>,
}

/// Opens the tenants' files, and makes the parts of an engine of them. The files are opened in the order of their lines.
/// A pass for each worker is made too, in order of number. Writes a note for a file that doesn't open, is in use or
/// isn't as the tenants file says. Then every request of that tenant is answered FAULT. All tenants share a pool of
/// `pool` slots.
///
/// - `opened`: the parts are made of just the files that it opened. Each of these is what `TenantFile::open` gave, with
///   the words that it found. The disk was synced just before. `disks` opened it at the path of the line. A tenant has no
///   file only for a cause: `disks` gave a fault, the sync or the opening failed, or the file has other sizes than the line
///   says.
/// - The other clauses are those of [`EngineParts::new`].
///
/// # Errors
///
/// Memory was refused before all files were opened.
pub(crate) fn open_parts<P: OpensDisks, L: Log, H: Drop>(
    alloc: Global,
    notes: &L,
    lines: &[TenantLine],
    disks: &P,
    pool: u16,
    workers: u8,
    hold: H,
) -> Result<OpenedParts<P::Device, H>, AllocError>
    requires permitted { ArePermitted pool lines.now }
    requires pool { (1 ≤ pool) × (pool ≤ MAX_POOL) }
    requires workers { (1 ≤ workers) × (workers ≤ MAX_WORKERS) }
    ensures opened { IfOk result (λ parts. AreMadeOfOpened P.Device.facts P.Device.made P.is_over P.is_refused lines.now parts.are_open.items parts.made) }
    ensures lines { IfMade result (λ made. (identity_of made.0).lines ≡ map line_read lines.now) }
    ensures config { IfMade result (λ made. (identity_of made.0).config ≡ world_read pool workers lines.now) }
    ensures count { IfMade result (λ made. length made.1.items ≡ workers) }
    ensures passes { IfMade result (λ made. All (IsNew (identity_of made.0)) made.1.items) }
    ensures order { IfMade result (λ made. AreInOrder made.1.items) }
{
    let files = open_files(alloc, notes, lines, disks)?;
    let are_open = which_are_open(&files);
    let made = EngineParts::new(alloc, lines, files, pool, workers, hold);
    Ok(OpenedParts { are_open, made })
}

/// Tells of each tenant's file whether it has opened.
fn which_are_open<T>(files: &[Option<T>]) -> ArrayVec<bool, MAX_TENANTS>
    requires few { length files.now ≤ MAX_TENANTS }
    ensures each { result.items ≡ map (λ file. is_some file) files.now }
{
    let mut are_open = ArrayVec::new();
    for file in files {
        are_open.push(file.is_some());
    }
    are_open
}

/// Tells whether each tenant's file has opened and fits its line.
pub(crate) fn are_all_open(are_open: &[bool]) -> bool
    ensures { result ≡ list_all (λ is_open. is_open) are_open.now }
{
    are_open.iter().all(|is_open| *is_open)
}

//! Starts an engine for a test.
//!
//! Used by: `cases`, `twins`.
ghost use Rattle.std.specs.Prelude.{All, IfSome};
ghost use Rattle.mw_engine.specs.OpenedFiles.{FitLines, FitsLine};
ghost use Rattle.mw_engine.specs.Passes.{IsNew};
ghost use Rattle.mw_engine.specs.Parts.{identity_of};

use crate::cases::{Case, lines_of};
use crate::disks::new_disks;
use crate::latch::{ByLatch, Latch, LatchedDisk};
use mw_config::TenantLine;
use mw_disk::Disk;
use mw_engine::{EngineParts, Pass};
use mw_file::TenantFile;
use std::alloc::Global;

/// A tenant's file, and the words that it had when it was opened.
type Opened<D> = (TenantFile<D>, Vec<u64>);

/// Opens the file on the next disk, which it syncs first. Gives None if there is none, or the file doesn't open, or
/// isn't as the tenant's line says.
fn opened<D: Disk + Drop>(
    alloc: Global,
    line: &TenantLine,
    next: Option<Option<D>>,
) -> Option<Opened<D>>
    ensures { FitsLine D.facts line.now result }
{
    let Some(Some(mut disk)) = next else {
        return None;
    };
    let Ok(()) = disk.sync() else {
        return None;
    };
    match TenantFile::open(alloc, disk) {
        Ok(opened) => {
            let (file, words) = opened;
            if words.len() == usize::from(line.words) && u16::from(line.quota) <= file.places() {
                Some((file, words))
            } else {
                file.into_disk();
                None
            }
        }
        Err(_) => None,
    }
}

/// Opens the files of the tenants with these lines, on these disks. Gives None if memory is refused.
fn all_opened<D: Disk + Drop>(
    alloc: Global,
    lines: &[TenantLine],
    disks: Vec<Option<D>>,
) -> Option<Vec<Option<Opened<D>>>>
    ensures { IfSome result (λ files. FitLines D.facts lines.now files.items) }
{
    let mut files = Vec::with_capacity(alloc, lines.len()).ok()?;
    let mut disks = disks.into_iter();
    for line in lines {
        let file = opened(alloc, line, disks.next());
        let Ok(()) = files.push(file) else {
            return None;
        };
    }
    Some(files)
}

/// Opens new files of a case's tenants, which have these lines. Gives None if memory is refused.
pub(crate) fn new_files<'l>(
    alloc: Global,
    case: &Case<'_>,
    lines: &[TenantLine],
    latch: &'l Latch,
) -> Option<Vec<Option<Opened<LatchedDisk<'l>>>>>
    ensures { IfSome result (λ files. FitLines ⟦<LatchedDisk<'l> as Disk>⟧.facts lines.now files.items) }
{
    match new_disks(alloc, case, lines, latch) {
        Some(disks) => all_opened(alloc, lines, disks),
        None => None,
    }
}

/// Starts an engine of a case's tenants, with new files. It has a pass for each of the case's workers,
/// and one that sees the files in the end. Gives None if memory is refused.
pub(crate) fn start<'l>(
    alloc: Global,
    case: &Case<'_>,
    hold: ByLatch<'l>,
) -> Option<(EngineParts<LatchedDisk<'l>, ByLatch<'l>>, Vec<Pass>)>
    ensures { IfSome result (λ started. All (IsNew (identity_of started.0)) started.1.items) }
{
    let lines = lines_of(case)?;
    let files = new_files(alloc, case, &lines, hold.of_disks())?;
    let passes = case.workers().saturating_add(1);
    match EngineParts::new(alloc, &lines, files, case.pool, passes, hold) {
        Ok(started) => Some(started),
        Err(_) => None,
    }
}

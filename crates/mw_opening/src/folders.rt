//! Syncs the folders of the tenants' files at a start, so that no crash from then on loses a file's name.
//!
//! Used by: mw_programs, once the files are open. It has no contracts. Change it with docs/OPERATING.
use arrayvec::ArrayString;
use log::{Log, warn};
use mw_config::TenantLine;
use mw_notes::note_cause;
use std::fs::File;
use std::io::{self, ErrorKind};
use std::path::Path;
use std::rt::Files;
use std::str;

/// The most bytes of the path of a folder's parent: a path of the tenants file, and what leads from a folder to its parent.
const MAX_PARENT: usize = 204;

/// Syncs folders. Each runtime that has files does.
pub trait SyncsFolders {
    /// Syncs the folder at this path.
    ///
    /// # Errors
    ///
    /// It can't be opened, or the sync failed.
    fn sync_folder(&self, path: &str) -> io::Result<()>;
}

impl<R: Files<File = File>> SyncsFolders for R {
    fn sync_folder(&self, path: &str) -> io::Result<()> {
        File::open(self, path)?.sync_all()
    }
}

/// Syncs the folder of each tenant's file that is open, and the parent of that folder. Files in one folder have it synced
/// once, as far as their paths are written alike. Writes a note on a folder that can't be opened or synced.
pub fn sync_folders<R: SyncsFolders, L: Log>(
    rt: &R,
    notes: &L,
    lines: &[TenantLine],
    are_open: &[bool],
) {
    for (number, (line, is_open)) in lines.iter().zip(are_open).enumerate() {
        if *is_open && !is_synced_before(lines, are_open, number, line) {
            sync_for(rt, notes, line);
        }
    }
}

/// Tells whether an earlier line than that of this number has an open file in the folder of this line's file.
fn is_synced_before(
    lines: &[TenantLine],
    are_open: &[bool],
    number: usize,
    line: &TenantLine,
) -> bool {
    let folder = folder_of(line.path.as_str());
    for (earlier, is_open) in lines.iter().zip(are_open).take(number) {
        if *is_open && folder_of(earlier.path.as_str()) == folder {
            return true;
        }
    }
    false
}

/// Syncs the folder of the file of this line, and the folder's parent. Writes a note if it can't.
fn sync_for<R: SyncsFolders, L: Log>(rt: &R, notes: &L, line: &TenantLine) {
    let folder = folder_of(line.path.as_str());
    if let Err(error) = sync_both(rt, folder) {
        let name = str::from_utf8(&line.name).unwrap_or("?");
        warn!(notes; "tenant {name}: folder");
        note_cause(notes, folder, &error);
    }
}

/// Syncs a folder and its parent.
///
/// # Errors
///
/// One can't be opened, or a sync failed.
fn sync_both<R: SyncsFolders>(rt: &R, folder: &str) -> io::Result<()> {
    rt.sync_folder(folder)?;
    let mut parent = ArrayString::<MAX_PARENT>::new();
    if parent.try_push_str(folder).is_err() || parent.try_push_str("/..").is_err() {
        return Err(io::Error::from(ErrorKind::InvalidInput));
    }
    rt.sync_folder(parent.as_str())
}

/// Gives the folder of the file at this path.
fn folder_of(path: &str) -> &str {
    match Path::new(path).parent() {
        Some(folder) if !folder.as_str().is_empty() => folder.as_str(),
        _ => ".",
    }
}

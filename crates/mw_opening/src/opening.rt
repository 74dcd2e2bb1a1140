//! Opens the tenants file and each tenant's own file, under a lock.
//!
//! Used by: mw_programs, which reads the tenants and makes an engine of the files. Change it with docs/OPERATING, which has the notes;
//! scripts/check-stories and scripts/check-refusals expect some. A new [`Cause`] needs a case in `Cause::tell`. docs/PROMISES
//! cites `open_files` and `read_tenants_file`.
ghost use Rattle.std.specs.Prelude.{◌<◌, ◌≤◌, ◌≢◌, length, IfErr, IfOk, Some};
ghost use Rattle.mw_config.specs.Limits.{ArePermitted};
ghost use Rattle.mw_words.specs.declared.limits.TheConstants.{MAX_TENANTS};
ghost use Rattle.mw_config.specs.FittingFiles.{FitsLine, FitLines};
ghost use Rattle.mw_opening.specs.SyncedOpenings.{AreOfLines, GivesNoFile, HasNoFile, IsOfLine, OpensAfterSync};
ghost use Rattle.mw_opening.specs.TenantsAtPath.{AreReadAt};

use crate::file_fault::FileFault;
use crate::last_error::LastError;
use crate::plain_file::ReadFault;
use crate::tenant_disks::{OpensDisks, OpensPaths};
use arrayvec::ArrayVec;
use log::{Log, error};
use mw_config::{FormRule, Refusal, TenantLine, broken_rule, read_tenants};
use mw_disk::Disk;
use mw_file::TenantFile;
use mw_notes::{note_place, note_why};
use mw_words::{MAX_TENANTS, MAX_TENANTS_FILE};
use std::alloc::{AllocError, Global};
use std::io::Write;
use std::str;

/// The room for a tenants file, in bytes: the most that it may have, and one more, which shows that it is
/// longer.
const TENANTS_ROOM: usize = 8193;

const _: () = prove!(TENANTS_ROOM == MAX_TENANTS_FILE + 1);

// The text of `Cause::Size` has it too.
const _: () = prove!(MAX_TENANTS_FILE == 8192);

/// The most bytes of the text of a refusal.
const MAX_TEXT: usize = 128;

/// Tells why a tenants file is refused, and what more is known of it.
#[derive(Drop)]
pub struct TenantsFault {
    refusal: Refusal,
    cause: Cause,
}

impl TenantsFault {
    /// Writes the fault to the notes, each line of its text as a note. `path` is that of the tenants file.
    pub fn tell<L: Log>(&self, notes: &L, path: &str) {
        let refusal = self.refusal;
        let mut text = ArrayVec::<u8, MAX_TEXT>::new();
        let _ = write!(text, "{refusal}");
        for line in str::from_utf8(&text).unwrap_or("?").split('\n') {
            error!(notes; "{line}");
        }
        self.cause.tell(notes, path);
    }
}

/// Tells what more is known of why a tenants file is refused.
#[derive(Drop)]
enum Cause {
    /// The file wasn't opened, or wasn't read to its end, because of this fault.
    Reading(ReadFault),
    /// The file has more than [`MAX_TENANTS_FILE`] bytes.
    Size,
    /// The line of this number breaks this rule of the form.
    Form(u16, FormRule),
    /// The line of this number has the name of an earlier line.
    Name(u16),
    /// The line of this number has the path of an earlier line, and a name of its own.
    Path(u16),
    /// Nothing more is known.
    Unknown,
}

impl Cause {
    /// Gives the cause why this text is refused.
    fn of_text(refusal: Refusal, text: &[u8]) -> Self {
        match refusal {
            Refusal::Form(number) => {
                match line_at(text, number).and_then(|line| broken_rule(line)) {
                    Some(rule) => Cause::Form(number, rule),
                    None => Cause::Unknown,
                }
            }
            Refusal::Twice(number) if has_earlier_name(text, number) => Cause::Name(number),
            Refusal::Twice(number) => Cause::Path(number),
            _ => Cause::Unknown,
        }
    }

    /// Writes the cause to the notes, with the path of the tenants file: as an error if it is known, else the path alone if
    /// they are verbose.
    fn tell<L: Log>(&self, notes: &L, path: &str) {
        match self {
            Cause::Reading(fault) => note_why(notes, path, "", fault),
            Cause::Size => note_why(notes, path, "more than 8192 bytes", &""),
            Cause::Form(number, rule) => note_line(notes, path, *number, rule.broken()),
            Cause::Name(number) => {
                note_line(notes, path, *number, "has the name of an earlier line")
            }
            Cause::Path(number) => {
                note_line(notes, path, *number, "has the path of an earlier line")
            }
            Cause::Unknown => note_place(notes, path),
        }
    }
}

/// Writes what the line of this number does.
fn note_line<L: Log>(notes: &L, path: &str, number: u16, does: &str) {
    error!(notes; "{path}: line {number} {does}");
}

/// Gives the line of this number, from 1, with its line feed.
fn line_at(text: &[u8], number: u16) -> Option<&[u8]> {
    let mut lines = text.split_inclusive(|byte| *byte == b'\n');
    lines.nth(usize::from(number).saturating_sub(1))
}

/// Tells whether the line of this number begins with the name of an earlier line.
fn has_earlier_name(text: &[u8], number: u16) -> bool {
    let Some(line) = line_at(text, number) else {
        return false;
    };
    for earlier in 1..number {
        if let Some(other) = line_at(text, earlier) {
            if name_of(other) == name_of(line) {
                return true;
            }
        }
    }
    false
}

/// Gives what is before the first space of a line.
fn name_of(line: &[u8]) -> &[u8] {
    let end = line
        .iter()
        .position(|byte| *byte == b' ')
        .unwrap_or(line.len());
    &line[..end]
}

/// Reads the tenants from the tenants file at a path. Their quotas share a pool of `pool` slots.
///
/// - `permitted`: they are within all limits.
/// - `read`: their lines are those of the text that `rt` gave for this path.
///
/// # Errors
///
/// [`Refusal::File`] if the file can't be read or is too long; else what [`read_tenants`] refuses.
pub fn read_tenants_file<R: OpensPaths>(
    rt: &R,
    path: &str,
    pool: u16,
) -> Result<ArrayVec<TenantLine, MAX_TENANTS>, TenantsFault>
    ensures permitted { IfOk result (λ lines. ArePermitted pool lines.items) }
    ensures read { IfOk result (λ lines. AreReadAt R.is_text path.now pool lines.items) }
{
    let mut room = [0; TENANTS_ROOM];
    let (refusal, cause) = match rt.read_plain(path, &mut room) {
        Ok(count) if count <= MAX_TENANTS_FILE => match read_tenants(&room[..count], pool) {
            Ok(lines) => return Ok(lines),
            Err(refusal) => (refusal, Cause::of_text(refusal, &room[..count])),
        },
        Ok(_) => (Refusal::File, Cause::Size),
        Err(fault) => (Refusal::File, Cause::Reading(fault)),
    };
    Err(TenantsFault { refusal, cause })
}

/// Opens the tenants' files, in the order of their lines. Gives None, and writes a note, for a file that doesn't open, is
/// in use or isn't as the tenants file says. Then every request of that tenant is answered FAULT.
///
/// - `fit`: each file that it gives fits its line.
/// - `opened`: each is what [`TenantFile::open`] gave, with the words that it found. The disk was synced just before.
///   `disks` opened it at the path of the line. It gives None only for a cause: `disks` gave a fault, the sync or the
///   opening failed, or the file has other sizes than the line says.
///
/// # Errors
///
/// Memory was refused.
pub fn open_files<P: OpensDisks, L: Log>(
    alloc: Global,
    notes: &L,
    lines: &[TenantLine],
    disks: &P,
) -> Result<Vec<Option<(TenantFile<P::Device>, Vec<u64>)>>, AllocError>
    requires { length lines.now ≤ MAX_TENANTS }
    ensures fit { IfOk result (λ files. FitLines P.Device.facts lines.now files.items) }
    ensures opened { IfOk result (λ files. AreOfLines P.Device.facts P.Device.made P.is_over P.is_refused lines.now files.items) }
{
    let mut files = Vec::with_capacity(alloc, lines.len())?;
    for line in lines {
        let file = open_file(alloc, notes, files.len(), line, disks)?;
        files.push(file)?;
    }
    Ok(files)
}

/// Opens the file of the tenant of this number. Gives None, and writes a note, as [`open_files`] does.
///
/// # Errors
///
/// Memory was refused.
fn open_file<P: OpensDisks, L: Log>(
    alloc: Global,
    notes: &L,
    tenant: usize,
    line: &TenantLine,
    disks: &P,
) -> Result<Option<(TenantFile<P::Device>, Vec<u64>)>, AllocError>
    requires { tenant < MAX_TENANTS }
    ensures fits { IfOk result (λ file. FitsLine P.Device.facts line.now file) }
    ensures opened { IfOk result (λ file. IsOfLine P.Device.facts P.Device.made P.is_over P.is_refused line.now file) }
{
    match open_fitting(alloc, tenant, line, disks) {
        Ok(opened) => Ok(Some(opened)),
        Err(fault) => match fault {
            FileFault::Memory => Err(AllocError),
            fault => {
                let name = str::from_utf8(&line.name).unwrap_or("?");
                error!(notes; "tenant {name}: {fault}");
                fault.tell_why(notes, line);
                Ok(None)
            }
        },
    }
}

/// Opens the file of a tenant, which has the words and the places that its line asks for.
///
/// # Errors
///
/// As [`FileFault`] tells. The disk is dropped.
fn open_fitting<P: OpensDisks>(
    alloc: Global,
    tenant: usize,
    line: &TenantLine,
    disks: &P,
) -> Result<(TenantFile<P::Device>, Vec<u64>), FileFault>
    requires { tenant < MAX_TENANTS }
    ensures fits { IfOk result (λ opened. FitsLine P.Device.facts line.now (Some opened)) }
    ensures opened { IfOk result (λ opened. IsOfLine P.Device.facts P.Device.made P.is_over P.is_refused line.now (Some opened)) }
    ensures refused { IfErr result (λ fault. fault ≢ FileFault.Memory
        → HasNoFile P.Device.facts P.Device.made P.is_over P.is_refused line.now) }
{
    let disk = disks.open(tenant, line.path.as_str())?;
    open_synced(alloc, disk, line, disks.last_error(tenant))
}

/// Opens the file on a disk, which has the words and the places that the tenant's line asks for.
///
/// Syncs the disk first. A server that was killed may have left writes that a read gives and a crash loses,
/// but an opening must begin on bytes that a crash leaves.
///
/// # Errors
///
/// As [`FileFault`] tells. The disk is dropped.
fn open_synced<D: Disk + Drop>(
    alloc: Global,
    disk: D,
    line: &TenantLine,
    last: &LastError,
) -> Result<(TenantFile<D>, Vec<u64>), FileFault>
    ensures fits { IfOk result (λ opened. FitsLine D.facts line.now (Some opened)) }
    ensures opened { IfOk result (λ opened. OpensAfterSync D.facts D.made disk (Ok opened)) }
    ensures refused { IfErr result (λ fault. fault ≢ FileFault.Memory → GivesNoFile D.facts D.made line.now disk) }
{
    let mut disk = disk;
    if disk.sync().is_err() {
        return Err(FileFault::Disk(last.error()));
    }
    match TenantFile::open(alloc, disk) {
        Ok((file, words)) => {
            if words.len() != line.words as usize || file.places() < u16::from(line.quota) {
                return Err(FileFault::Misfit(words.len(), file.places()));
            }
            Ok((file, words))
        }
        Err((fault, _)) => Err(FileFault::of_opening(fault, last)),
    }
}

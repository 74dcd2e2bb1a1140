//! Makes tenants' files on disks in memory, for tests of the engine, and looks at what is left on them.
//!
//! Used by: `cases`, `starts`.
use crate::cases::{Case, Device, Play};
use crate::latch::{Latch, LatchedDisk};
use mw_config::TenantLine;
use mw_file::TenantFile;
use mw_memory_disk::MemDisk;
use mw_plain::Plain;
use mw_record::{FIRST_PLACES, header, size};
use mw_words::MAX_WORDS;
use std::alloc::Global;

/// How many calls open a new file: a sync, its length, a read, and five that give it its second layout.
const OPENING: u64 = 8;

/// Makes a new file for a tenant's line, with all words 0 and as many places as the quota. Gives None if
/// memory is refused, or no file has that size.
fn new_file(alloc: Global, words: u16, places: u16) -> Option<Vec<u8>> {
    if !(1..=MAX_WORDS).contains(&words) || !(1..=FIRST_PLACES).contains(&places) {
        return None;
    }
    let mut bytes = header(words, places).to_vec(alloc).ok()?;
    bytes.resize(size(words, places) as usize, 0).ok()?;
    Some(bytes)
}

/// Makes a disk with a new file for a tenant's line. Gives None if the device is missing, or there is no
/// such file.
fn new_disk(alloc: Global, line: &TenantLine, device: Device<'_>) -> Option<MemDisk> {
    let bytes = new_file(alloc, line.words, u16::from(line.quota))?;
    match device {
        Device::Sound => MemDisk::new(alloc, bytes, Vec::new(alloc)).ok(),
        Device::Fails(number) => {
            let failing = vec![in alloc; number.saturating_add(OPENING); 1].ok()?;
            MemDisk::new(alloc, bytes, failing).ok()
        }
        Device::Stops(calls, _) => {
            MemDisk::stop_after(alloc, bytes, calls.saturating_add(OPENING)).ok()
        }
        Device::Missing => None,
    }
}

/// The same, with a latch before the disk's calls.
fn new_latched<'l>(
    alloc: Global,
    line: &TenantLine,
    device: Device<'_>,
    latch: &'l Latch,
) -> Option<LatchedDisk<'l>> {
    match new_disk(alloc, line, device) {
        Some(disk) => Some(LatchedDisk { disk, latch }),
        None => None,
    }
}

/// Gives the device of the tenant with a number.
fn device_of<'c>(case: &Case<'c>, tenant: usize) -> Device<'c> {
    match case.devices.get(tenant) {
        Some(device) => *device,
        None => Device::Missing,
    }
}

/// Makes a disk with a new file for each tenant of a case, which has these lines, with a latch before its calls. Gives
/// None if memory is refused.
pub(crate) fn new_disks<'l>(
    alloc: Global,
    case: &Case<'_>,
    lines: &[TenantLine],
    latch: &'l Latch,
) -> Option<Vec<Option<LatchedDisk<'l>>>> {
    if case.devices.len() < lines.len() {
        return None;
    }
    let mut disks = Vec::new(alloc);
    for line in lines {
        let disk = new_latched(alloc, line, device_of(case, disks.len()), latch);
        let Ok(()) = disks.push(disk) else {
            return None;
        };
    }
    Some(disks)
}

/// Gives the disk as it is found afterwards. Gives None if memory is refused.
fn left_of(alloc: Global, disk: MemDisk, device: Device<'_>) -> Option<MemDisk> {
    match device {
        Device::Stops(_, torn) => {
            let left = disk.crash(torn).ok()?;
            MemDisk::new(alloc, left, Vec::new(alloc)).ok()
        }
        _ => Some(disk),
    }
}

/// Gives the words of the file on a disk, opened again: none if there is no disk. Gives None if the file doesn't open.
fn words_on(alloc: Global, disk: Option<LatchedDisk<'_>>, device: Device<'_>) -> Option<Vec<u64>> {
    let Some(disk) = disk else {
        return Some(Vec::new(alloc));
    };
    match TenantFile::open(alloc, left_of(alloc, disk.disk, device)?) {
        Ok(opened) => {
            let (file, words) = opened;
            file.into_disk();
            Some(words)
        }
        Err(_) => None,
    }
}

/// Tells whether both of these files opened, and have the same words.
fn are_same(one: Option<Vec<u64>>, other: Option<Vec<u64>>) -> bool {
    match (&one, &other) {
        (Some(one), Some(other)) => one.as_slice() == other.as_slice(),
        _ => false,
    }
}

/// Tells whether a file opened, and its first words are those that are wanted, if any are.
fn begin_so(found: Option<Vec<u64>>, wanted: Option<&&[u64]>) -> bool {
    match (&found, wanted) {
        (Some(found), Some(wanted)) => found.as_slice().starts_with(wanted),
        _ => false,
    }
}

/// Tells whether the file on a tenant's disk, opened again, has the words that it must: those of the file on the plain
/// store's disk, if there is one, else the first words that the case says. Gives false also if a file doesn't open, or
/// memory is refused. A missing disk has no words.
fn is_left(
    alloc: Global,
    disk: Option<LatchedDisk<'_>>,
    plain: Option<Option<LatchedDisk<'_>>>,
    case: &Case<'_>,
    tenant: usize,
) -> bool {
    let found = words_on(alloc, disk, device_of(case, tenant));
    match plain {
        Some(plain) => are_same(found, words_on(alloc, plain, Device::Sound)),
        None => begin_so(found, case.words.get(tenant)),
    }
}

/// Gives the plain store's disks: none if there is no plain store.
fn disks_of_plain<'l>(
    alloc: Global,
    plain: Option<Plain<LatchedDisk<'l>>>,
) -> Vec<Option<LatchedDisk<'l>>> {
    match plain {
        Some(plain) => plain.into_disks(),
        None => Vec::new(alloc),
    }
}

/// Tells whether the files on an engine's disks have the words that they must: those of the plain store's
/// files, if one was asked beside the engine, else those that the case says.
pub(crate) fn are_left(
    alloc: Global,
    disks: Vec<Option<LatchedDisk<'_>>>,
    case: &Case<'_>,
    plain: Option<Plain<LatchedDisk<'_>>>,
) -> bool {
    let count = match case.play {
        Play::Beside(_) => case.devices.len(),
        _ => case.words.len(),
    };
    let mut are_all = disks.len() == count && count <= case.devices.len();
    let mut others = disks_of_plain(alloc, plain).into_iter();
    let mut tenant = 0usize;
    for disk in disks {
        if !is_left(alloc, disk, others.next(), case, tenant) {
            are_all = false;
        }
        tenant = tenant.wrapping_add(1);
    }
    are_all
}

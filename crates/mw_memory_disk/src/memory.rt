//! A disk in memory for tests: its calls fail when a test says so, and a crash leaves the bytes that the test
//! chooses.
//!
//! Used by: tests; `memory_file.rt`; mw_world_file. A change of a contract here is no change of the disk model (`device.rt` of
//! mw_disk).
ghost use Rattle.std.specs.Prelude.{◌≡◌, ◌+◌, ◌≤◌, ℕ, min, [], length, slice_range, nat_le, nat_lt, true, false, Some, None, is_ok, IsOk, IfOk, OnOk, OnErr};
ghost use Rattle.mw_memory_disk.specs.Crash.{Tears, unsynced as unsynced_spans};
ghost use Rattle.mw_disk.specs.DeviceCalls.{ReadAt, WriteAt, Sync, Length};
ghost use Rattle.mw_disk.specs.Facts.{most_counted, Called, Spares, IsSynced, MayLeave, NothingNew, TearsAt, Torn, patched};
ghost use Rattle.mw_memory_disk.specs.Memory.{Memory, memory_facts, next_turn, begun, logged, missed_once, refused_once, ended, FailsAs, memory_made, with_name, scripted, with_fault, with_stop, sooner};
ghost use Rattle.mw_memory_disk.specs.declared.event.Call.TheVariants.{Quiet, Wrote, Tore, Synced};

use crate::edits::overwrite;
use crate::event::{Block, Call, Turn};
use crate::history::History;
use crate::spans::{Span, tear};
use mw_disk::{Disk, DiskFault};
use std::alloc::{AllocError, Global};
use std::marker::Model;

/// A disk in memory. Contracts see a record of all its calls, which takes no memory at run time.
///
/// Its script names the numbers of the calls that fail. Calls are counted from 1 since `new`, reads and looks
/// at the length too. A write that fails leaves the bytes, and its range counts as written. A sync that fails
/// syncs nothing.
///
/// A write that is refused memory, for its range or for the bytes, fails too. It leaves the bytes and the
/// ranges, and later calls go on as usual. Any other call fails only if it is a read past the end, or comes
/// after a stop ([`MemDisk::stop_next`]).
///
/// A write that starts past the end fills the gap with zeros.
#[derive(Drop)]
pub struct MemDisk {
    alloc: Global,
    bytes: Vec<u8>,
    /// The ranges written since the last sync, also by failed writes.
    spans: Vec<Span>,
    history: History,
    script: Vec<u64>,
    stop: Option<u64>,
    calls: u64,
    missed: u64,
    faults: u64,
    refused: u64,
}

impl Model for MemDisk {
    ghost use Rattle.std.specs.Prelude.{◌≡◌};
    ghost use Rattle.mw_memory_disk.specs.Memory.{Memory};
    ghost use Rattle.mw_memory_disk.specs.Crash.{IsLeftBy};

    ghost Value = { Memory };

    ghost view = { λ d. record {
      first = d.history.first;
      log = d.history.log;
      missed = d.missed;
      faults = d.faults;
      refused = d.refused;
      calls = d.calls;
      script = d.script.items;
      stop = d.stop;
    } };

    ghost invariant = { λ d. IsLeftBy d.history.first d.history.log d.bytes.items d.spans.items };
}

impl MemDisk {
    /// Makes a disk of these bytes, which is synced. It never fails.
    pub fn new(alloc: Global, bytes: Vec<u8>, script: Vec<u64>) -> Result<MemDisk, AllocError>
        ensures sure { IsOk result }
        ensures made { IfOk result (λ disk. disk ≡ record {
          first = bytes.items;
          log = [];
          missed = 0;
          faults = 0;
          refused = 0;
          calls = 0;
          script = script.items;
          stop = None;
        }) }
        ensures at_rest { IfOk result (λ disk. IsSynced (memory_facts disk)) }
        ensures seen { IfOk result (λ disk. MayLeave (memory_facts disk) (memory_facts disk).reads) }
        ensures plan { IfOk result (λ disk. (k : ℕ) → (memory_facts disk).plan k ≡ scripted script.items k) }
    {
        let history = History::new(&bytes);
        Ok(MemDisk {
            alloc,
            bytes,
            spans: Vec::new(alloc),
            history,
            script,
            stop: None,
            calls: 0,
            missed: 0,
            faults: 0,
            refused: 0,
        })
    }

    /// Makes a disk of these bytes, which is synced, and stops it as [`MemDisk::stop_next`] does. Its next `k`
    /// calls go well, unless memory is out or a read is past the end. Each call after them fails and changes
    /// nothing. It never fails.
    pub fn stop_after(alloc: Global, bytes: Vec<u8>, k: u64) -> Result<MemDisk, AllocError>
        ensures sure { IsOk result }
        ensures made { IfOk result (λ disk. disk ≡ record {
          first = bytes.items;
          log = [];
          missed = 0;
          faults = 0;
          refused = 0;
          calls = 0;
          script = [];
          stop = Some k;
        }) }
        ensures at_rest { IfOk result (λ disk. IsSynced (memory_facts disk)) }
        ensures seen { IfOk result (λ disk. MayLeave (memory_facts disk) (memory_facts disk).reads) }
        ensures plan { IfOk result (λ disk. (j : ℕ) → (memory_facts disk).plan j ≡ Some (nat_lt j k)) }
    {
        let mut disk = MemDisk::new(alloc, bytes, Vec::new(alloc))?;
        disk.stop_next(k);
        Ok(disk)
    }

    /// Returns how many calls were refused memory. The count stays at `2^64 - 1` once it is reached.
    pub fn refused(&self) -> u64
        ensures { result ≡ self.now.refused }
    {
        self.refused
    }

    /// Makes a disk without bytes, for the place of one that is taken out.
    pub(crate) fn spare(other: &MemDisk) -> MemDisk {
        let alloc = other.alloc;
        MemDisk {
            alloc,
            bytes: Vec::new(alloc),
            spans: Vec::new(alloc),
            history: History::new(&[]),
            script: Vec::new(alloc),
            stop: None,
            calls: 0,
            missed: 0,
            faults: 0,
            refused: 0,
        }
    }

    /// Makes the `k`-th call from now fail too, unless its number is above `2^64 - 1`. If memory is out it
    /// returns an error and leaves the disk as it was.
    pub fn fail_next(&mut self, k: u64) -> Result<(), AllocError>
        ensures ok { OnOk result (self.new ≡ record self.old { script = with_name self.old k }) }
        ensures err { OnErr result (self.new ≡ self.old) }
        ensures plan { OnOk result ((j : ℕ) → (memory_facts self.new).plan j ≡ with_fault self.old k j) }
    {
        if let Some(number) = self.calls.checked_add(k) {
            self.script.push(number)?;
        }
        Ok(())
    }

    /// Makes every call after the next `k` fail and change nothing. An earlier stop stays.
    pub fn stop_next(&mut self, k: u64)
        ensures stop { self.new ≡ record self.old { stop = Some (sooner self.old.stop k) } }
        ensures plan { (j : ℕ) → (memory_facts self.new).plan j ≡ with_stop self.old k j }
    {
        let left = match self.stop {
            Some(left) => left.min(k),
            None => k,
        };
        self.stop = Some(left);
    }

    /// Copies the disk. The only error is that memory is out.
    pub fn copy(&self) -> Result<MemDisk, AllocError>
        ensures { IfOk result (λ disk. disk ≡ self.now) }
    {
        let alloc = self.alloc;
        Ok(MemDisk {
            alloc,
            bytes: self.bytes.to_vec(alloc)?,
            spans: self.spans.to_vec(alloc)?,
            history: self.history.copy(),
            script: self.script.to_vec(alloc)?,
            stop: self.stop,
            calls: self.calls,
            missed: self.missed,
            faults: self.faults,
            refused: self.refused,
        })
    }

    /// Returns what a crash now leaves. The bytes of all ranges written since the last sync, also by failed
    /// writes, are taken from `torn`, in rising order of offset and each offset once. After the end of `torn`
    /// they are the bytes of now, and no byte past the end is added. The rest of `torn` is not looked at. The
    /// only error is that memory is out.
    pub fn crash(&self, torn: &[u8]) -> Result<Vec<u8>, AllocError>
        ensures torn { IfOk result (λ bytes. Tears (unsynced_spans self.now.log) torn.now (length torn.now)
            (memory_facts self.now).reads bytes.items) }
        ensures image { IfOk result (λ bytes. MayLeave (memory_facts self.now) bytes.items) }
        // What a read gives is an image too.
        ensures reads { MayLeave (memory_facts self.now) (memory_facts self.now).reads }
    {
        let mut bytes = self.bytes.to_vec(self.alloc)?;
        tear(&mut bytes, &self.spans, torn)?;
        Ok(bytes)
    }

    // Counts a call, and returns how it will end.
    fn begin(&mut self) -> Turn
        ensures turn { result ≡ next_turn self.old }
        ensures begun { self.new ≡ begun self.old }
    {
        let number = self.calls.checked_add(1);
        self.calls = number.unwrap_or(u64::MAX);
        match self.stop {
            None => {}
            Some(0) => return Turn::Stopped,
            Some(left) => self.stop = Some(left - 1),
        }
        match number {
            Some(number) if self.script.contains(&number) => Turn::Fails,
            _ => Turn::Goes,
        }
    }

    fn count_fault(&mut self)
        ensures { self.new ≡ record self.old { faults = min (self.old.faults + 1) most_counted } }
    {
        self.faults = self.faults.saturating_add(1);
    }

    // Counts a call that fails without a trace.
    fn miss(&mut self) -> DiskFault
        ensures { self.new ≡ missed_once self.old }
    {
        self.missed = self.missed.saturating_add(1);
        self.count_fault();
        DiskFault
    }

    // The same, if memory is out.
    fn refuse(&mut self) -> DiskFault
        ensures { self.new ≡ refused_once self.old }
    {
        self.refused = self.refused.saturating_add(1);
        self.miss()
    }

    // Remembers a call that leaves the bytes and the ranges.
    fn note_quiet(&mut self, well: bool)
        ensures { self.new ≡ logged self.old (Quiet well) }
    {
        self.history = self.history.after(self.missed, Call::Quiet(well));
        self.missed = 0;
        if !well {
            self.count_fault();
        }
    }

    // Remembers a sync that went well.
    fn note_sync(&mut self)
        ensures { self.new ≡ logged self.old Synced }
    {
        self.spans.clear();
        self.history = self.history.after(self.missed, Call::Synced);
        self.missed = 0;
    }

    // Remembers a write that failed.
    fn note_torn(&mut self, at: u64, len: u64) -> Result<(), AllocError>
        ensures ok { OnOk result (self.new ≡ logged self.old (Tore at len)) }
        ensures err { OnErr result (self.new ≡ self.old) }
    {
        self.spans.push(Span { at, len })?;
        self.history = self.history.after(self.missed, Call::Tore(at, len));
        self.missed = 0;
        self.count_fault();
        Ok(())
    }

    // Ends a call that must fail and is not a write.
    fn fail(&mut self, turn: Turn) -> DiskFault
        requires { turn ≡ Turn.Goes → ⊥ }
        ensures { self.new ≡ ended turn (Quiet true) (Quiet false) self.old }
    {
        if turn == Turn::Stopped {
            return self.miss();
        }
        self.note_quiet(false);
        DiskFault
    }

    // Ends a write that must fail.
    fn fail_write(&mut self, turn: Turn, at: u64, len: u64) -> DiskFault
        requires { turn ≡ Turn.Goes → ⊥ }
        ensures { FailsAs (Tore at len) turn self.old self.new }
    {
        if turn == Turn::Stopped {
            return self.miss();
        }
        match self.note_torn(at, len) {
            Ok(()) => DiskFault,
            Err(_) => self.refuse(),
        }
    }

    fn size(&self) -> u64
        ensures { result ≡ length (memory_facts self.now).reads }
    {
        self.bytes.len() as u64
    }

    // Tells whether so many bytes are there.
    fn holds(&self, at: u64, len: usize) -> bool
        ensures { result ≡ nat_le (at + len) (length (memory_facts self.now).reads) }
    {
        let size = self.size();
        at <= size && len as u64 <= size - at
    }

    fn copy_to(&self, at: u64, out: &mut [u8])
        requires { at + length out.old ≤ length (memory_facts self.now).reads }
        ensures { out.new ≡ slice_range (memory_facts self.now).reads at (at + length out.old) }
    {
        let bytes = self.bytes.as_slice();
        let from = at as usize;
        out.copy_from_slice(&bytes[from..from + out.len()]);
    }

    fn put(&mut self, at: u64, bytes: &[u8]) -> Result<(), AllocError>
        ensures ok { OnOk result (self.new ≡ logged self.old (Wrote at bytes.now)) }
        ensures err { OnErr result (self.new ≡ self.old) }
    {
        let before = self.spans.len();
        self.spans.push(Span {
            at,
            len: bytes.len() as u64,
        })?;
        if let Err(error) = overwrite(&mut self.bytes, at, bytes) {
            self.spans.truncate(before);
            return Err(error);
        }
        self.history = self
            .history
            .after(self.missed, Call::Wrote(at, Block::of(bytes)));
        self.missed = 0;
        Ok(())
    }
}

impl Disk for MemDisk {
    ghost facts = { memory_facts };

    ghost made = { memory_made };

    fn read_at(&mut self, at: u64, out: &mut [u8]) -> Result<(), DiskFault>
        ensures made { memory_made (ReadAt at (length out.old)) (is_ok result) self.old self.new }
        ensures call { Called (memory_facts self.old) (memory_facts self.new) (is_ok result) }
        ensures spared { at + length out.old ≤ length (memory_facts self.old).reads
            → Spares (memory_facts self.old) (memory_facts self.new) (is_ok result) }
        ensures crash { NothingNew (memory_facts self.old) (memory_facts self.new) }
        ensures same { (memory_facts self.new).reads ≡ (memory_facts self.old).reads }
        ensures read { OnOk result ((at + length out.old ≤ length (memory_facts self.old).reads)
            × (out.new ≡ slice_range (memory_facts self.old).reads at (at + length out.old))) }
    {
        let turn = self.begin();
        let turn = turn.only_if(self.holds(at, out.len()));
        if turn != Turn::Goes {
            return Err(self.fail(turn));
        }
        self.note_quiet(true);
        self.copy_to(at, out);
        Ok(())
    }

    fn write_at(&mut self, at: u64, bytes: &[u8]) -> Result<(), DiskFault>
        ensures made { memory_made (WriteAt at bytes.now) (is_ok result) self.old self.new }
        ensures call { Called (memory_facts self.old) (memory_facts self.new) (is_ok result) }
        ensures spared { Spares (memory_facts self.old) (memory_facts self.new) (is_ok result) }
        ensures crash { TearsAt at (length bytes.now) (memory_facts self.old) (memory_facts self.new) }
        ensures torn { Torn at (length bytes.now) (memory_facts self.old).reads (memory_facts self.new).reads }
        ensures written { OnOk result (at ≤ length (memory_facts self.old).reads
            → (memory_facts self.new).reads ≡ patched (memory_facts self.old).reads at bytes.now) }
    {
        let turn = self.begin();
        if turn != Turn::Goes {
            return Err(self.fail_write(turn, at, bytes.len() as u64));
        }
        match self.put(at, bytes) {
            Ok(()) => Ok(()),
            Err(_) => Err(self.refuse()),
        }
    }

    fn sync(&mut self) -> Result<(), DiskFault>
        ensures made { memory_made Sync (is_ok result) self.old self.new }
        ensures call { Called (memory_facts self.old) (memory_facts self.new) (is_ok result) }
        ensures spared { Spares (memory_facts self.old) (memory_facts self.new) (is_ok result) }
        ensures crash { NothingNew (memory_facts self.old) (memory_facts self.new) }
        ensures same { (memory_facts self.new).reads ≡ (memory_facts self.old).reads }
        ensures durable { OnOk result (IsSynced (memory_facts self.new)) }
    {
        let turn = self.begin();
        if turn != Turn::Goes {
            return Err(self.fail(turn));
        }
        self.note_sync();
        Ok(())
    }

    fn len(&mut self) -> Result<u64, DiskFault>
        ensures made { memory_made Length (is_ok result) self.old self.new }
        ensures call { Called (memory_facts self.old) (memory_facts self.new) (is_ok result) }
        ensures spared { Spares (memory_facts self.old) (memory_facts self.new) (is_ok result) }
        ensures crash { NothingNew (memory_facts self.old) (memory_facts self.new) }
        ensures same { (memory_facts self.new).reads ≡ (memory_facts self.old).reads }
        ensures length { IfOk result (λ n. n ≡ length (memory_facts self.old).reads) }
    {
        let turn = self.begin();
        if turn != Turn::Goes {
            return Err(self.fail(turn));
        }
        self.note_quiet(true);
        Ok(self.size())
    }

    fn faults(&self) -> u64 {
        self.faults
    }
}

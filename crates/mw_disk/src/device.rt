//! The trait of a disk. Its contracts say what each call promises, and what a crash may leave.
//!
//! Used by: many crates from mw_file on. mw_file makes its calls, on a [`FileDisk`](crate::FileDisk) in the server
//! and on one of mw_memory_disk elsewhere. These contracts are the disk model: a change of one changes what
//! the server assumes (README, docs/PROMISES, docs/OPERATING).
ghost use Rattle.std.specs.Prelude.{◌≡◌, ◌+◌, ◌≤◌, Bool, length, slice_range, is_ok, IsTrue, OnOk, IfOk};
ghost use Rattle.mw_disk.specs.DeviceCalls.{DeviceCall, ReadAt, WriteAt, Sync, Length};
ghost use Rattle.mw_disk.specs.Facts.{Facts, Called, Spares, NothingNew, TearsAt, Torn, IsSynced, patched};

/// The device failed in this call.
#[derive(Clone, Copy, Debug, PartialEq, Eq)]
pub struct DiskFault;

/// One file on a device that may fail at any call, and stop at any moment.
///
/// An honest disk keeps this model of crashes:
///
/// - Between two syncs, each range that was written, also by a failed write, may hold any bytes after a crash.
///   So may the part past the old end. The file may end anywhere from its old end to its new one.
/// - Bytes outside these ranges stay.
/// - After a sync that went well, a crash leaves what a read gives.
/// - In the range of a failed write a read may give any bytes.
///
/// A disk that isn't honest promises only the count of its faults, and what its facts tell of calls to come.
///
/// The facts may tell of calls to come, by their numbers from 0 on. A call that is known to fail fails. A call
/// that is known to go well goes well, unless it is refused memory, which the facts count, or is a read past
/// the end.
pub trait Disk {
    /// What can be said of the disk at this moment.
    ghost facts: { Self → Facts };

    /// This device call was made. It went well (true) or failed (false), and led from one disk to another. A disk may
    /// say nothing here, as `FileDisk` over a file of the system. Code that is for every disk knows this only of calls
    /// that it has made.
    ghost made: { DeviceCall → Bool → Self → Self → Type 0 };

    /// Fills the whole slice with the bytes from `at` on. After a fault the slice may hold anything.
    fn read_at(&mut self, at: u64, out: &mut [u8]) -> Result<(), DiskFault>
        ensures made { made (ReadAt at (length out.old)) (is_ok result) self.old self.new }
        ensures call { Called (facts self.old) (facts self.new) (is_ok result) }
        ensures spared { at + length out.old ≤ length (facts self.old).reads
            → Spares (facts self.old) (facts self.new) (is_ok result) }
        ensures crash { IsTrue (facts self.old).honest → NothingNew (facts self.old) (facts self.new) }
        ensures same { IsTrue (facts self.old).honest → (facts self.new).reads ≡ (facts self.old).reads }
        ensures read { OnOk result (IsTrue (facts self.old).honest
            → (at + length out.old ≤ length (facts self.old).reads)
            × (out.new ≡ slice_range (facts self.old).reads at (at + length out.old))) };

    /// Writes these bytes from `at` on, over what is there and past the end. If `at` itself is past the end,
    /// the bytes from the old end on may be any.
    fn write_at(&mut self, at: u64, bytes: &[u8]) -> Result<(), DiskFault>
        ensures made { made (WriteAt at bytes.now) (is_ok result) self.old self.new }
        ensures call { Called (facts self.old) (facts self.new) (is_ok result) }
        ensures spared { Spares (facts self.old) (facts self.new) (is_ok result) }
        ensures crash { IsTrue (facts self.old).honest
            → TearsAt at (length bytes.now) (facts self.old) (facts self.new) }
        ensures torn { IsTrue (facts self.old).honest
            → Torn at (length bytes.now) (facts self.old).reads (facts self.new).reads }
        ensures written { OnOk result (IsTrue (facts self.old).honest
            → at ≤ length (facts self.old).reads
            → (facts self.new).reads ≡ patched (facts self.old).reads at bytes.now) };

    /// Makes what was written durable. If it goes well, a crash then leaves what a read gives.
    fn sync(&mut self) -> Result<(), DiskFault>
        ensures made { made Sync (is_ok result) self.old self.new }
        ensures call { Called (facts self.old) (facts self.new) (is_ok result) }
        ensures spared { Spares (facts self.old) (facts self.new) (is_ok result) }
        ensures crash { IsTrue (facts self.old).honest → NothingNew (facts self.old) (facts self.new) }
        ensures same { IsTrue (facts self.old).honest → (facts self.new).reads ≡ (facts self.old).reads }
        ensures durable { OnOk result (IsTrue (facts self.old).honest → IsSynced (facts self.new)) };

    /// Returns the number of bytes.
    fn len(&mut self) -> Result<u64, DiskFault>
        ensures made { made Length (is_ok result) self.old self.new }
        ensures call { Called (facts self.old) (facts self.new) (is_ok result) }
        ensures spared { Spares (facts self.old) (facts self.new) (is_ok result) }
        ensures crash { IsTrue (facts self.old).honest → NothingNew (facts self.old) (facts self.new) }
        ensures same { IsTrue (facts self.old).honest → (facts self.new).reads ≡ (facts self.old).reads }
        ensures length { IfOk result (λ n. IsTrue (facts self.old).honest → n ≡ length (facts self.old).reads) };

    /// Returns how often the device has failed. The count stays at `2^64 - 1` once it is reached.
    fn faults(&self) -> u64
        ensures { result ≡ (facts self.now).faults };
}

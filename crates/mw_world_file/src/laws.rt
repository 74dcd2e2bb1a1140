//! Laws of a simulated file (contracts of empty functions), unless memory is out. A book and a call determine the new
//! disk. A book and a stop determine which words a start finds, and whether it takes the change in doubt.
//!
//! They don't determine the disk after a start: of an opening the contracts only count its device calls.
ghost use Rattle.std.specs.Prelude.{◌≡◌, ℕ, Bool, List, Option, Ok, Err};
ghost use Rattle.mw_disk.specs.DeviceCalls.{DeviceCall};
ghost use Rattle.mw_memory_disk.specs.Memory.{Memory as Disk};
ghost use Rattle.mw_words.specs.declared.jobs.Entry.{Entry};
ghost use Rattle.mw_look.specs.declared.steps.Call.{Call};
ghost use Rattle.mw_world_file.specs.declared.simulated_file.SimulatedFile.{SimulatedFile};
ghost use Rattle.mw_world_file.specs.declared.cut.Cut.{Cut};
ghost use Rattle.mw_world.specs.declared.outcomes.Outcome.{Outcome};
ghost use Rattle.mw_world_file.specs.declared.faults.BookFault.TheVariants.{NotEnabled};
ghost use Rattle.mw_world_file.specs.Books.{Represents};
ghost use Rattle.mw_world_file.specs.DeviceCalls.{CameExactly};
ghost use Rattle.mw_world_file.specs.Devices.{disk_under};
ghost use Rattle.mw_world.specs.Files.State.{File};
ghost use Rattle.mw_world_file.specs.Recovery.{IsCutImage, Restarts};

/// From one book the same call, with the same outcome, leads to one disk.
pub fn calls_lead_to_one_disk()
    ensures { (old one other : SimulatedFile) (call : Call) (slot : ℕ) (entries : List Entry) (outcome : Outcome)
        → CameExactly old call slot entries outcome (Ok one) → CameExactly old call slot entries outcome (Ok other)
        → disk_under one.device ≡ disk_under other.device }
{}

/// A stop leaves one image of a disk, for the same device calls under way, as many of them made, and the same torn
/// bytes.
pub fn stops_leave_one_image()
    ensures { (disk : Disk) (made : ℕ) (calls : List DeviceCall) (torn one other : List ℕ)
        → IsCutImage disk made calls torn one → IsCutImage disk made calls torn other → one ≡ other }
{}

/// Two starts of one book after the same stop and with the same torn bytes find the same words. Both take the change
/// in doubt, or neither does. A start that can be made is never refused as one that can't.
pub fn restarts_have_one_end()
    ensures same { (old : SimulatedFile) (file : File) (cut : Option Cut) (torn : List ℕ) (fails_at : Option ℕ) (quota : ℕ) (one other : SimulatedFile) (took also : Bool)
        → Represents old file → Restarts old cut torn fails_at quota (Ok (one, took)) → Restarts old cut torn fails_at quota (Ok (other, also))
        → (one.contents.items ≡ other.contents.items) × (took ≡ also) }
    ensures enabled { (old : SimulatedFile) (file : File) (cut : Option Cut) (torn : List ℕ) (fails_at : Option ℕ) (quota : ℕ) (one : SimulatedFile) (took : Bool)
        → Represents old file → Restarts old cut torn fails_at quota (Ok (one, took)) → Restarts old cut torn fails_at quota (Err NotEnabled) → ⊥ }
{}

//! Computes what is left of a simulated file when all stops: its bytes, and the change in doubt.
//!
//! Used by: `restarts`. Change it with `specs/Files`, `specs/Devices`, `specs/Recovery` and `specs/StoppedFiles`.
ghost use Rattle.std.specs.Prelude.{◌≡◌, ℕ, List, false, IfOk};
ghost use Rattle.mw_memory_disk.specs.Memory.{memory_facts, with_stop};
ghost use Rattle.mw_record.specs.Records.{Pairs};
ghost use Rattle.mw_file.specs.File.{disk_of, at_of, words_of, states_of, has_failed};
ghost use Rattle.mw_file.specs.RecoveryInvariant.{RecoversTo};
ghost use Rattle.mw_world_file.specs.Recovery.{until};

use crate::calls::{device_calls, is_apart};
use crate::cut::{Cut, Left};
use crate::device::Device;
use crate::faults::BookFault;
use crate::places::{has_empty, prepared_in, sealed_in};
use crate::simulated_file::SimulatedFile;
use mw_file::{Place as FilePlace, TenantFile};
use mw_look::Call;
use mw_memory_disk::{MemDisk, copy, crash, refused, stop_next};
use mw_words::{Entries, copy_of};
use std::alloc::{AllocError, Global};

/// Copies a file. The copy's device makes `calls` more calls and then stops. The only error is that memory is
/// out.
fn copy_until(
    alloc: Global,
    file: &TenantFile<MemDisk>,
    calls: u64,
) -> Result<TenantFile<MemDisk>, AllocError>
    ensures states { IfOk result (λ copy. states_of copy ≡ states_of file.now) }
    ensures at { IfOk result (λ copy. at_of copy ≡ at_of file.now) }
    ensures words { IfOk result (λ copy. words_of copy ≡ words_of file.now) }
    ensures failed { IfOk result (λ copy. has_failed copy ≡ has_failed file.now) }
    ensures disk { IfOk result (λ copy. disk_of copy ≡ until (disk_of file.now) calls) }
    ensures plan { IfOk result (λ copy. (j : ℕ) → (memory_facts (disk_of copy)).plan j ≡ with_stop (disk_of file.now) calls j) }
    ensures keeps { IfOk result (λ copy. (contents : List ℕ) (doubt : Pairs) → RecoversTo memory_facts file.now contents doubt
        → RecoversTo memory_facts copy contents doubt) }
{
    let mut copy = copy(file, alloc)?;
    stop_next(&mut copy, calls);
    Ok(copy)
}

impl SimulatedFile {
    ghost use Rattle.std.specs.Prelude.{◌≤◌, length, IsTrue};
    ghost use Rattle.mw_words.specs.Change.{is_change};
    ghost use Rattle.mw_world_file.specs.Devices.{disk_under};
    ghost use Rattle.mw_world_file.specs.Recovery.{IsTornImage, PreparesChange};
    ghost use Rattle.mw_world_file.specs.StoppedFiles.{Stops};

    /// Returns what is left of the file when all stops. `cut` is the call that is under way, and `torn` the
    /// bytes at places that were written and not synced.
    ///
    /// # Errors
    ///
    /// [`BookFault::NotEnabled`]: the call makes fewer device calls than `cut` says. [`BookFault::Memory`]:
    /// memory is out.
    pub(crate) fn stop(
        &self,
        alloc: Global,
        cut: Option<Cut>,
        torn: &[u8],
    ) -> Result<Left, BookFault>
        requires { PreparesChange (length self.now.contents.items) cut }
        ensures { Stops self.now cut torn.now result }
    {
        let Some(cut) = cut else {
            return Ok(self.stop_whole(torn)?);
        };
        if cut.made == 0 {
            return Ok(self.stop_whole(torn)?);
        }
        if self.has_failed {
            return Err(BookFault::NotEnabled);
        }
        match cut.call {
            Call::Prepare => self.stop_preparing(alloc, &cut, torn),
            Call::Seal => self.stop_sealing(alloc, &cut, torn),
            Call::Settle => self.stop_settling(alloc, &cut, torn),
            Call::Cancel => Err(BookFault::NotEnabled),
        }
    }

    /// Returns what is left if no device call is under way.
    fn stop_whole(&self, torn: &[u8]) -> Result<Left, AllocError>
        ensures doubt { IfOk result (λ left. left.doubt ≡ self.now.doubt) }
        ensures image { IfOk result (λ left. IsTornImage (disk_under self.now.device) torn.now left.image.items) }
    {
        let image = match &self.device {
            Device::Open(file) => crash(file, torn)?,
            Device::Shut(disk) => disk.crash(torn)?,
        };
        Ok(Left {
            image,
            doubt: copy_of(&self.doubt),
        })
    }

    fn stop_preparing(&self, alloc: Global, cut: &Cut, torn: &[u8]) -> Result<Left, BookFault>
        requires call { cut.now.call ≡ Call.Prepare }
        requires some { 1 ≤ cut.now.made }
        requires sound { self.now.has_failed ≡ false }
        requires formed { IsTrue (is_change (length self.now.contents.items) cut.now.entries.items) }
        ensures { Stops self.now (Some cut.now) torn.now result }
    {
        let Device::Open(held) = &self.device else {
            unreachable!()
        };
        if !has_empty(&self.places) {
            return Err(BookFault::NotEnabled);
        }
        if cut.made > device_calls(Call::Prepare, &[]) {
            return Err(BookFault::NotEnabled);
        }
        let mut file = copy_until(alloc, held, cut.made)?;
        let _ = file.prepare(&cut.entries);
        if refused(&file) != refused(held) {
            return Err(BookFault::Memory);
        }
        Ok(Left {
            image: crash(&file, torn)?,
            doubt: copy_of(&self.doubt),
        })
    }

    fn stop_sealing(&self, alloc: Global, cut: &Cut, torn: &[u8]) -> Result<Left, BookFault>
        requires call { cut.now.call ≡ Call.Seal }
        requires some { 1 ≤ cut.now.made }
        requires sound { self.now.has_failed ≡ false }
        ensures { Stops self.now (Some cut.now) torn.now result }
    {
        let place = self.place_of[cut.slot as usize];
        let Some(entries) = prepared_in(&self.places, place) else {
            return Err(BookFault::NotEnabled);
        };
        if !is_apart(&self.places, entries) {
            return Err(BookFault::NotEnabled);
        }
        if cut.made > device_calls(Call::Seal, entries) {
            return Err(BookFault::NotEnabled);
        }
        let Device::Open(held) = &self.device else {
            unreachable!()
        };
        let mut file = copy_until(alloc, held, cut.made)?;
        let sealed = file.seal(FilePlace(place));
        if refused(&file) != refused(held) {
            return Err(BookFault::Memory);
        }
        if cut.made < device_calls(Call::Seal, entries) {
            return Ok(Left {
                image: crash(&file, torn)?,
                doubt: copy_of(entries),
            });
        }
        if sealed.is_err() {
            return Err(BookFault::Memory);
        }
        Ok(Left {
            image: crash(&file, torn)?,
            doubt: copy_of(entries),
        })
    }

    fn stop_settling(&self, alloc: Global, cut: &Cut, torn: &[u8]) -> Result<Left, BookFault>
        requires call { cut.now.call ≡ Call.Settle }
        requires some { 1 ≤ cut.now.made }
        requires sound { self.now.has_failed ≡ false }
        ensures { Stops self.now (Some cut.now) torn.now result }
    {
        let place = self.place_of[cut.slot as usize];
        let Some(entries) = sealed_in(&self.places, place) else {
            return Err(BookFault::NotEnabled);
        };
        if cut.made > device_calls(Call::Settle, entries) {
            return Err(BookFault::NotEnabled);
        }
        let Device::Open(held) = &self.device else {
            unreachable!()
        };
        let mut file = copy_until(alloc, held, cut.made)?;
        let _ = file.settle(FilePlace(place));
        if refused(&file) != refused(held) {
            return Err(BookFault::Memory);
        }
        Ok(Left {
            image: crash(&file, torn)?,
            doubt: copy_of(&self.doubt),
        })
    }
}

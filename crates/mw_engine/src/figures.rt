//! Gives the figures of the tenants and the pool, for a report.
//!
//! mw_programs reports them when the administrator asks. Change it with `specs/Figures`, `specs/Identity`,
//! `specs/LinesOfWorld`, `specs/Passes` and `specs/TenantWords`.
ghost use Rattle.std.specs.Prelude.{◌≡◌, ◌≤◌, ◌<◌, All, true, length, map};
ghost use Rattle.mw_report.specs.Table.{AreWithinLimits, IsWithinLimits};
ghost use Rattle.mw_words.specs.declared.limits.TheConstants.{MAX_QUOTA};
ghost use Rattle.mw_core.specs.FromTable.{known};
ghost use Rattle.mw_engine.specs.Figures.{FoundDoor, FoundGate, HasLooked, TellAll, TellTenants, TellsFree};
ghost use Rattle.mw_engine.specs.Figures as figures;
ghost use Rattle.mw_engine.specs.Identity.{quota_told};
ghost use Rattle.mw_engine.specs.LinesOfWorld.{places_told};
ghost use Rattle.mw_engine.specs.Passes.{IsPassOf};
ghost use Rattle.mw_engine.specs.TenantWords.{HasPass, lines_told, places_kept};

use crate::brand::EngineBrand;
use crate::engine::Engine;
use crate::tenant_words::TenantWords;
use arrayvec::ArrayVec;
use mw_core::Pass;
use mw_disk::Disk;
use mw_report::{Figures, TenantFigures};
use mw_words::{At, Door, Gate, MAX_TENANTS, WORN_NUMBER, copy_of_name};

impl<J: EngineBrand, D: Disk, H> Engine<J, D, H> {
    /// Gives the figures of all tenants, and the number of slots that are neither taken nor worn. It loads each
    /// tenant's door and then each slot's gate, and tells what these loads found. Two loads needn't be of one
    /// moment. The number of places of a tenant's file is from its opening: 0 if the file didn't open. No load adds
    /// an event to the run.
    pub fn figures(&self, pass: &mut Pass) -> Figures
        requires own { IsPassOf J.identity pass.old }
        requires idle { pass.old.idle ≡ true }
        ensures own { IsPassOf J.identity pass.new }
        ensures looked { HasLooked pass.old pass.new }
        ensures limits { AreWithinLimits result.tenants.items result.pool_free }
        ensures tells { TellAll J.identity.config.pool J.identity.config.pool J.identity.lines (map places_told J.identity.openings) result.tenants.items result.pool_free (known pass.old) (known pass.new) }
    {
        let tenants = self.words.tenant_figures(pass);
        let pool_free = self.words.free_slots(pass);
        Figures { tenants, pool_free }
    }
}

impl TenantWords {
    /// The figures of all tenants.
    fn tenant_figures(&self, pass: &mut Pass) -> ArrayVec<TenantFigures, MAX_TENANTS>
        requires own { HasPass self.now pass.old }
        requires idle { pass.old.idle ≡ true }
        ensures own { HasPass self.now pass.new }
        ensures looked { HasLooked pass.old pass.new }
        ensures limits { All IsWithinLimits result.items }
        ensures tells { TellTenants self.now.core.shared.pool (lines_told self.now) (places_kept self.now) result.items pass.old.seat.me.0 pass.new.seat.me.0 }
    {
        let mut figures = ArrayVec::new();
        for (tenant, line) in self.lines.iter().enumerate() {
            let door = self.door(pass, tenant as u8);
            figures.push(TenantFigures {
                name: copy_of_name(&line.name),
                words: line.words,
                quota: line.quota,
                places: line.places,
                used: door.used as u8,
                up: !door.fault,
            });
        }
        figures
    }

    /// The number of slots that are neither taken nor worn.
    fn free_slots(&self, pass: &mut Pass) -> u16
        requires own { HasPass self.now pass.old }
        requires idle { pass.old.idle ≡ true }
        ensures own { HasPass self.now pass.new }
        ensures looked { HasLooked pass.old pass.new }
        ensures few { result ≤ self.now.pool }
        ensures tells { TellsFree self.now.core.shared.pool self.now.pool result pass.old.seat.me.0 pass.new.seat.me.0 }
    {
        let mut free = 0;
        for slot in 0..self.pool {
            let gate = self.gate(pass, slot as u8);
            if is_free(gate) {
                free += 1;
            }
        }
        free
    }

    /// Loads a tenant's door.
    fn door(&self, pass: &mut Pass, tenant: u8) -> Door
        requires own { HasPass self.now pass.old }
        requires idle { pass.old.idle ≡ true }
        requires there { tenant < length (lines_told self.now) }
        ensures own { HasPass self.now pass.new }
        ensures looked { HasLooked pass.old pass.new }
        ensures found { FoundDoor self.now.core.shared.pool tenant result pass.old.seat.me.0 pass.new.seat.me.0 }
        ensures few { result.used ≤ MAX_QUOTA }
        ensures quota { quota_told (lines_told self.now) tenant ≤ MAX_QUOTA }
    {
        let bits = self.core.shared().figure(pass, At::Door(tenant));
        match Door::unpack(bits) {
            Some(door) => door,
            None => unreachable!(),
        }
    }

    /// Loads a slot's gate.
    fn gate(&self, pass: &mut Pass, slot: u8) -> Gate
        requires own { HasPass self.now pass.old }
        requires idle { pass.old.idle ≡ true }
        requires there { slot < self.now.pool }
        ensures own { HasPass self.now pass.new }
        ensures looked { HasLooked pass.old pass.new }
        ensures found { FoundGate self.now.core.shared.pool slot result pass.old.seat.me.0 pass.new.seat.me.0 }
    {
        let bits = self.core.shared().figure(pass, At::Gate(slot));
        match Gate::unpack(bits) {
            Some(gate) => gate,
            None => unreachable!(),
        }
    }
}

/// Whether a slot is neither taken nor worn.
fn is_free(gate: Gate) -> bool
    ensures { result ≡ figures.is_free gate }
{
    !gate.taken && gate.seq < WORN_NUMBER
}

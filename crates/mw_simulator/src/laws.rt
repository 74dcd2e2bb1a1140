//! States theorems about the simulated world. Each image (bytes) that a crash may leave of a tenant's disk is one of
//! the tenant's store alone. A world and its stops determine what a start finds, and a world and a call on a file its
//! disk.
//!
//! The functions are empty: their contracts are the facts, proved in `proofs/laws`. To change a fact, begin with its
//! definition in `specs`.
ghost use Rattle.std.specs.Prelude.{◌≡◌, ℕ};
ghost use Rattle.mw_world_file.specs.declared.simulated_file.SimulatedFile.{SimulatedFile};
ghost use Rattle.mw_world.specs.declared.outcomes.Outcome.{Outcome};
ghost use Rattle.mw_world_file.specs.Devices.{disk_under};
ghost use Rattle.mw_world.specs.Definition.Events.{Found};
ghost use Rattle.mw_world.specs.Definition.State.{State};
ghost use Rattle.mw_world_memory.specs.declared.tenants.TenantState.{TenantState};
ghost use Rattle.mw_simulator.specs.DisksOfCalls.{CameByCallOf};
ghost use Rattle.mw_simulator.specs.Events.{IsFoundBy, Outage};
ghost use Rattle.mw_simulator.specs.Images.{EveryImageIsOfStore};

/// Proves that each image that a crash may leave has the words of the tenant's store alone, with the change in
/// doubt or without it. In the middle of a call on the tenant's file, the change in doubt is the one of the
/// interrupted request, or else the one that was in doubt before. While a start opens the file, the image has
/// the words that the start found. The reason is that every run serves each tenant as its store alone would.
pub fn every_image_is_of_store()
    ensures images { EveryImageIsOfStore }
{}

/// Proves that starts of one world in memory, after the same stop of a tenant, find the same of its file: the same
/// words, and as many device calls of the opening. It says nothing of the disk after the start.
pub fn starts_find_one_thing()
    ensures { (state : State) (shown : TenantState) (outage : Outage) (found other : Found)
        → IsFoundBy state shown outage found → IsFoundBy state shown outage other → found ≡ other }
{}

/// Proves that a call on a tenant's file leads to one disk in memory, whether all its device calls go well or one fails:
/// two worlds in memory that one such event makes of one world have equal disks of that tenant.
pub fn file_calls_lead_to_one_disk()
    ensures { (state : State) (worker : ℕ) (outcome : Outcome) (was one other : SimulatedFile)
        → CameByCallOf state worker outcome was one → CameByCallOf state worker outcome was other → disk_under one.device ≡ disk_under other.device }
{}

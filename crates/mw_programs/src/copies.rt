//! Copies the tenants' files for the server's pages, by the engine that serves them.
//!
//! Used by: `services`. mw_server_pages asks for a copy by a tenant's name. Change it with docs/HTTP and
//! docs/OPERATING.
ghost use Rattle.std.specs.Prelude.{◌≡◌};
ghost use Rattle.mw_programs.specs.Copies.{IsTold};

use mw_disk::Disk;
use mw_engine::{CopyFault, Engine, EngineBrand};
use mw_server_pages::{FileCopies, NoCopy};
use mw_words::Name;
use std::sync::Wait;

/// The files of an engine's tenants.
#[derive(Drop)]
pub(crate) struct EngineFiles<'a, J: EngineBrand, D: Disk, H, R> {
    pub(crate) engine: &'a Engine<J, D, H>,
    pub(crate) rt: &'a R,
}

impl<J: EngineBrand, D: Disk + Drop, H: Drop, R: AllocGlobal + Wait> FileCopies
    for EngineFiles<'_, J, D, H, R> {
    ghost use Rattle.mw_programs.specs.Copies.{IsCopyOf};

    ghost copied = { λ old name copy new. (new ≡ old) × IsCopyOf D.facts J.identity name copy };

    fn copy(&mut self, name: &Name) -> Result<Vec<u8>, NoCopy> {
        let Some((tenant, _)) = self.engine.find(name) else {
            return Err(NoCopy::NoTenant);
        };
        told(self.engine.copy_file(self.rt, self.rt.alloc(), tenant))
    }
}

/// Tells how a copy by the engine ended.
fn told(copied: Result<Vec<u8>, CopyFault>) -> Result<Vec<u8>, NoCopy>
    ensures { IsTold copied result }
{
    match copied {
        Ok(bytes) => Ok(bytes),
        Err(CopyFault::Failed) => Err(NoCopy::Failed),
        Err(CopyFault::Disk) => Err(NoCopy::Disk),
        Err(CopyFault::Memory) => Err(NoCopy::Memory),
    }
}

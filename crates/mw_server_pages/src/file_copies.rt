//! The trait of copies: a tenant's file, byte for byte, while the server uses it.
//!
//! mw_programs implements it by mw_engine, and tests do. `specs/Copies` says how a copy is answered, `specs/Shown`
//! which answer each fault gives: change them together.
ghost use Rattle.std.specs.Prelude.{ℕ, List};
ghost use Rattle.mw_server_pages.specs.Copies.{Copy};

use mw_words::Name;

/// Why there is no copy of a tenant's file.
#[derive(Clone, Copy)]
pub enum NoCopy {
    /// No tenant has this name.
    NoTenant,
    /// The tenant's file had failed before, or didn't open.
    Failed,
    /// The device failed while the file was copied.
    Disk,
    /// Memory is out.
    Memory,
}

/// Copies the files of a server's tenants.
pub trait FileCopies {
    // A copy that was asked for, by the name of a tenant, with its answer leads from one state to another: what is promised of
    // a copy.
    ghost copied: { Self → List ℕ → Copy → Self → Type 0 };

    /// Copies the bytes of the file of the tenant with this name.
    ///
    /// # Errors
    ///
    /// Why there is no copy. Nothing is left of one.
    fn copy(&mut self, name: &Name) -> Result<Vec<u8>, NoCopy>
        ensures copied { copied self.old name.now.items result self.new };
}

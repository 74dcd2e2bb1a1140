//! What `mwserve` promises its clients, as a type: `specs/Promised` defines it.
//!
//! Used by: `main.rt`, which gives `serve` the network and the console with it. Change it with docs/PROMISES.
ghost use Rattle.std.specs.Prelude.{ℕ, List};
ghost use Rattle.mw_programs.specs.Promised.{AreShown, PromisesOfStart};
ghost use Rattle.mwserve.specs.Promised.{IsServed};

use mw_programs::{Disk, LockedFiles, OpensDisks, OpensPaths, ServerPromise, TenantDisk};

/// Promises that an engine answers, which was made of the files that a start opened, each at the path of its tenant's line, for the lines
/// of a text that was read at one path; and what holds after each reply. It only names the promise: no value of it is made.
#[derive(Drop)]
pub struct EngineServes;

impl ServerPromise for EngineServes {
    ghost kept_by = { IsServed ⟦<TenantDisk<'static, HostRuntime> as Disk>⟧.facts ⟦<TenantDisk<'static, HostRuntime> as Disk>⟧.made ⟦<LockedFiles<'static, HostRuntime> as OpensDisks>⟧.is_over ⟦<LockedFiles<'static, HostRuntime> as OpensDisks>⟧.is_refused ⟦<HostRuntime as OpensPaths>⟧.is_text };

    ghost shown_by = { AreShown ⟦<TenantDisk<'static, HostRuntime> as Disk>⟧.facts ⟦<TenantDisk<'static, HostRuntime> as Disk>⟧.made ⟦<LockedFiles<'static, HostRuntime> as OpensDisks>⟧.is_over ⟦<LockedFiles<'static, HostRuntime> as OpensDisks>⟧.is_refused ⟦<HostRuntime as OpensPaths>⟧.is_text };
}

/// What `mwserve` promises is kept by each engine that begins with the files which a start opened, on whichever disks. What holds
/// after a crash is said of honest disks, and `main` serves on the system's files, of which no contract knows whether they are:
/// so it is said here for all disks.
pub fn engines_keep_the_promise<D: Disk, P: OpensDisks<Device = D>, R: OpensPaths>()
    ensures { (words : List (List ℕ)) → PromisesOfStart D.facts D.made P.is_over P.is_refused R.is_text words (IsServed D.facts D.made P.is_over P.is_refused R.is_text) (AreShown D.facts D.made P.is_over P.is_refused R.is_text) }
{}

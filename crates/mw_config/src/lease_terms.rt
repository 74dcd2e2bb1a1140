//! The lease that a command line asks for.
//!
//! Used by: `command_line`; mw_upkeep, which takes the lease (`beats.rt`). The options' names are in `command_line`
//! and docs/OPERATING too, and contrib/ha/mondlexi-ha gives the options: change them together.
ghost use Rattle.std.specs.Prelude.{IfOk, IfSome};
ghost use Rattle.mw_config.specs.CommandLine.{IsUpTo};
ghost use Rattle.mw_config.specs.declared.command_line.TheConstants.{MAX_IDLE};

use crate::command_line::{MAX_IDLE, OptionFault, number_of};
use clap::ArgMatches;
use std::alloc::Global;

/// A lease: a file that only one server has locked, and beats.
#[derive(Drop)]
pub struct LeaseTerms {
    /// The path of the file.
    pub path: String,
    /// How long the lease is good from the start of a beat on, in seconds, 1 to [`MAX_IDLE`].
    pub seconds: u32,
}

/// The rule of its options.
const LEASE: &str = "--lease and --lease-time need each other";

/// Gives the terms of the lease, if the command line says them.
///
/// # Errors
///
/// [`OptionFault::Rule`] if one of the two options is given without the other; [`OptionFault::Memory`] if memory was refused.
pub(crate) fn lease_of(
    alloc: Global,
    matches: &ArgMatches<'_>,
) -> Result<Option<LeaseTerms>, OptionFault>
    ensures { IfOk result (λ lease. IfSome lease (λ terms. IsUpTo MAX_IDLE terms.seconds)) }
{
    let seconds = number_of(matches, "lease-time", MAX_IDLE);
    match (matches.get_str("lease"), seconds) {
        (Some(path), Some(seconds)) => {
            let path = String::from_str(alloc, path)?;
            Ok(Some(LeaseTerms { path, seconds }))
        }
        (None, None) => Ok(None),
        _ => Err(OptionFault::Rule(LEASE)),
    }
}

//! Makes and writes the lines that a player prints.
//!
//! Used by: `player`. `specs/Printed` says which line each reply and claim has: change both together.
ghost use Rattle.std.specs.Prelude.{◌≡◌, ℕ, IfOk};
ghost use Rattle.mwreplay.specs.Printed.{Claimed, Replied, line_of, name_of};
ghost use Rattle.mwreplay.specs.PlayerSteps.{Writes};

use crate::player::PlayFault;
use mw_line::Say;
use mw_words::Reply;
use mw_world::Config;
use std::alloc::{AllocError, Global};
use std::io::Write;

/// Makes the line of a claim that was won. The only error is that memory is out.
pub fn claim_line(
    alloc: Global,
    config: &Config,
    slot: u8,
    seq: u64,
    tenant: u8,
) -> Result<Vec<u8>, AllocError>
    ensures { IfOk result (λ line. line.items ≡ line_of config.now (Claimed slot seq tenant)) }
{
    let mut line = format!(in alloc; "claim {slot} {seq} ")?.into_bytes();
    line.extend_from_slice(name_in(config, tenant))?;
    line.push(b'\n')?;
    Ok(line)
}

/// Makes the line of a reply that was handed out. The only error is that memory is out.
pub fn reply_line(
    alloc: Global,
    config: &Config,
    worker: u8,
    tenant: u8,
    reply: Reply,
) -> Result<Vec<u8>, AllocError>
    ensures { IfOk result (λ line. (number : ℕ) → line.items ≡ line_of config.now (Replied worker tenant number reply)) }
{
    let mut line = format!(in alloc; "{worker} ")?.into_bytes();
    line.extend_from_slice(name_in(config, tenant))?;
    line.push(b' ')?;
    line.extend_from_slice(&Say::Store(reply).text())?;
    Ok(line)
}

/// Returns a tenant's name. It is empty for a tenant that doesn't exist.
fn name_in(config: &Config, tenant: u8) -> &[u8]
    ensures { result.now ≡ name_of config.now tenant }
{
    match config.tenants.get(usize::from(tenant)) {
        Some(tenant) => &tenant.name,
        None => &[],
    }
}

/// Writes a text, in as many pieces as the writer wants.
///
/// # Errors
///
/// [`PlayFault::Output`]: the writer failed, or took nothing of what was left. It took a beginning of the text,
/// which may be empty.
pub fn write_whole<W: Write>(out: &mut W, text: &[u8]) -> Result<(), PlayFault>
    ensures { Writes (W.contents out.old) (W.contents out.new) text.now result }
{
    let mut rest = text;
    while !rest.is_empty() {
        // A write that failed took nothing.
        let taken = out.write(rest).unwrap_or(0);
        if taken == 0 {
            return Err(PlayFault::Output);
        }
        rest = &rest[taken..];
    }
    Ok(())
}

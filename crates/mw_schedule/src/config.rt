//! Reads the first lines of a schedule: the configuration of its world.
//!
//! Used by: `reader`. `specs/Playable` has the limits. Another form of a line also changes `forms`, `first_words`,
//! `specs/Forms` and docs/SCHEDULES.
ghost use Rattle.std.specs.Prelude.{◌≡◌, ◌≤◌, IsTrue, bytes_eq, IfOk, IfSome};
ghost use Rattle.std.specs.List.{list_any};
ghost use Rattle.mw_words.specs.Name as name_spec;
ghost use Rattle.mw_world.specs.Definition.State.{IsConfig};
ghost use Rattle.mw_schedule.specs.Playable.{AreNamed, AreTenants, IsNext};

use crate::fields::number_within;
use crate::olds::read_olds;
use crate::rest::Lines;
use arrayvec::ArrayVec;
use mw_line::{behind, field};
use mw_words::{
    MAX_POOL, MAX_QUOTA, MAX_TENANTS, MAX_WORDS, MAX_WORKERS, Name, WORN_NUMBER, is_name,
};
use mw_world::{Config, Tenant};

/// Reads the configuration of a world, and returns it with the lines after it. Its lines are `pool P`, `workers
/// N`, `seq S` if it is there, and `tenant NAME WORDS QUOTA` for each tenant. Then comes `old NAME A:V ..` for
/// each tenant that has an old file. No two tenants have one name, and the sum of the quotas is at most P.
///
/// # Errors
///
/// Returns the lines that are left, if the first of them is none of these or breaks a limit.
pub fn read_config<'a>(lines: Lines<'a>) -> Result<(Config, Lines<'a>), Lines<'a>>
    ensures config { IfOk result (λ read. IsConfig read.0) }
    ensures names { IfOk result (λ read. AreNamed read.0.tenants.items) }
{
    let Some((pool, after_pool)) = number_line(b"pool ", 1, u64::from(MAX_POOL), lines) else {
        return Err(lines);
    };
    let most_workers = u64::from(MAX_WORKERS);
    let Some((workers, after_workers)) = number_line(b"workers ", 1, most_workers, after_pool)
    else {
        return Err(after_pool);
    };
    let most_seq = WORN_NUMBER - 1;
    let (seq, after_seq) = match number_line(b"seq ", 0, most_seq, after_workers) {
        Some(read) => read,
        None => (0, after_workers),
    };
    let (new, after_tenants) = read_tenants(pool as u16, after_seq);
    if new.is_empty() {
        return Err(after_tenants);
    }
    let (tenants, after) = read_olds(new, after_tenants, pool as u16);
    let config = Config {
        pool: pool as u16,
        workers: workers as u8,
        seq,
        tenants,
    };
    Ok((config, after))
}

// Reads the first line: this word and then a number from `least` to `most`. Returns the number and the lines
// after it.
fn number_line<'a>(word: &[u8], least: u64, most: u64, lines: Lines<'a>) -> Option<(u64, Lines<'a>)>
    ensures { IfSome result (λ read. (least ≤ read.0) × (read.0 ≤ most)) }
{
    let (line, after) = lines.split()?;
    let number = number_within(least, most, behind(word, line)?)?;
    Some((number, after))
}

// Reads the tenants of the first lines. Returns them and the lines after them.
fn read_tenants<'a>(pool: u16, lines: Lines<'a>) -> (ArrayVec<Tenant, MAX_TENANTS>, Lines<'a>)
    ensures { AreTenants pool result.0.items }
{
    let mut tenants = ArrayVec::new();
    let mut free = pool;
    let mut left = lines;
    for _ in 0..MAX_TENANTS {
        let Some((tenant, after)) = tenant_line(&tenants, free, left) else {
            break;
        };
        free -= u16::from(tenant.quota);
        tenants.push(tenant);
        left = after;
    }
    (tenants, left)
}

// Reads the tenant of the first line, which has no earlier tenant's name and a quota of at most `free`. Returns
// it and the lines after it.
fn tenant_line<'a>(earlier: &[Tenant], free: u16, lines: Lines<'a>) -> Option<(Tenant, Lines<'a>)>
    ensures { IfSome result (λ read. IsNext earlier.now free read.0) }
{
    let (line, after) = lines.split()?;
    let tenant = read_tenant(earlier, free, behind(b"tenant ", line)?)?;
    Some((tenant, after))
}

// Reads the tenant `NAME WORDS QUOTA`, which has no earlier tenant's name and a quota of at most `free`.
fn read_tenant(earlier: &[Tenant], free: u16, text: &[u8]) -> Option<Tenant>
    ensures { IfSome result (IsNext earlier.now free) }
{
    let (name, numbers) = field(b' ', text)?;
    let (words, quota) = field(b' ', numbers)?;
    if is_tenant(earlier, name) {
        return None;
    }
    Some(Tenant {
        name: read_name(name)?,
        words: number_within(1, u64::from(MAX_WORDS), words)? as u16,
        quota: number_within(1, u64::from(free.min(u16::from(MAX_QUOTA))), quota)? as u8,
        old: None,
    })
}

fn read_name(text: &[u8]) -> Option<Name>
    ensures { IfSome result (λ name. IsTrue (name_spec.is_name name.items) × (name.items ≡ text.now)) }
{
    if !is_name(text) {
        return None;
    }
    Name::try_from(text).ok()
}

fn is_tenant(tenants: &[Tenant], name: &[u8]) -> bool
    ensures { result ≡ list_any (λ tenant. bytes_eq tenant.name.items name.now) tenants.now }
{
    tenants.iter().any(|tenant| tenant.name.as_slice() == name)
}

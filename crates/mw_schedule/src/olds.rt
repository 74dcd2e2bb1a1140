//! Reads the lines `old NAME A:V ..` of a schedule: tenants' old files, which no start has opened yet.
//!
//! Used by: `config`. `specs/Playable` has the limits. Another form of the line also changes `forms`, `first_words`,
//! `specs/Forms` and docs/SCHEDULES.
ghost use Rattle.std.specs.Prelude.{◌≡◌, ◌<◌, ◌≤◌, get_or, length, IfSome, IsTrue, Some};
ghost use Rattle.mw_words.specs.declared.limits.TheConstants.{MAX_VALUE, MAX_WORDS};
ghost use Rattle.mw_world.specs.Definition.State.{is_old, may_be_old, no_tenant};
ghost use Rattle.mw_schedule.specs.Playable.{AreTenants};

use crate::fields::{item_at, number_within};
use crate::rest::Lines;
use arrayvec::ArrayVec;
use mw_line::{behind, field};
use mw_words::{Entries, Entry, MAX_TENANTS, MAX_VALUE, MAX_WORDS, is_change};
use mw_world::{OLD_ENTRIES, OLD_PLACES, Tenant};

/// Reads the first lines `old NAME A:V ..`, at most one for each tenant. Returns the tenants with the changes
/// of these lines, and the lines after them.
pub(crate) fn read_olds<'a>(
    new: ArrayVec<Tenant, MAX_TENANTS>,
    lines: Lines<'a>,
    pool: u16,
) -> (ArrayVec<Tenant, MAX_TENANTS>, Lines<'a>)
    requires { AreTenants pool new.items }
    ensures tenants { AreTenants pool result.0.items }
    ensures count { length result.0.items ≡ length new.items }
{
    let mut tenants = new;
    let mut left = lines;
    for _ in 0..MAX_TENANTS {
        let Some((index, change, after)) = old_line(&tenants, left) else {
            break;
        };
        tenants[index].old = Some(change);
        left = after;
    }
    (tenants, left)
}

// Reads the tenant and the change of the first line, if it is the tenant's first such line and the quota fits
// an old file. Returns its index, the change, and the lines after it.
fn old_line<'a>(tenants: &[Tenant], lines: Lines<'a>) -> Option<(usize, Entries, Lines<'a>)>
    ensures there { IfSome result (λ read. read.0 < length tenants.now) }
    ensures old { IfSome result (λ read. IsTrue (may_be_old (get_or tenants.now read.0 no_tenant).words (get_or tenants.now read.0 no_tenant).quota (Some read.1))) }
{
    let (line, after) = lines.split()?;
    let (name, pairs) = item_at(behind(b"old ", line)?);
    let index = tenants
        .iter()
        .position(|tenant| tenant.name.as_slice() == name)?;
    if tenants[index].old.is_some() || tenants[index].quota > OLD_PLACES {
        return None;
    }
    let change = read_change(tenants[index].words, pairs)?;
    Some((index, change, after))
}

// Reads the change `A:V ..` of a tenant with `words` words. Each pair has a space before it.
fn read_change(words: u16, text: &[u8]) -> Option<Entries>
    ensures { IfSome result (λ change. IsTrue (is_old words change.items)) }
{
    let mut change = Entries::new();
    let mut rest = text;
    for _ in 0..OLD_ENTRIES {
        let Some(pairs) = behind(b" ", rest) else {
            break;
        };
        let (pair, after) = item_at(pairs);
        change.push(old_entry(pair)?);
        rest = after;
    }
    if !rest.is_empty() || !is_change(&change, usize::from(words)) {
        return None;
    }
    Some(change)
}

// Reads the entry `A:V`: an address and its new value.
fn old_entry(text: &[u8]) -> Option<Entry> {
    let (addr, value) = field(b':', text)?;
    Some(Entry {
        addr: number_within(0, u64::from(MAX_WORDS) - 1, addr)? as u16,
        expected: 0,
        new: number_within(0, MAX_VALUE, value)?,
    })
}

//! Keeps how many slots each tenant of a world may use at a time, and says which quotas a start can give.
//!
//! Used by: `clauses`, `seen`, `run`.

use mw_words::{MAX_PLACES, MAX_QUOTA};
use mw_world::{Config, Stop};
use std::alloc::{AllocError, Global};

/// What a tenant may use.
#[derive(Clone, Copy)]
pub(crate) struct Share {
    /// How many slots at a time, as the last start gave it.
    pub(crate) quota: u8,
    /// How many places for changes its file has.
    pub(crate) places: u16,
}

/// Gives what the tenants of a new world may use. A file has twice as many places as the first quota, but
/// no more than a file can have.
pub(crate) fn first_shares(alloc: Global, config: &Config) -> Result<Vec<Share>, AllocError> {
    let mut shares = Vec::new(alloc);
    for tenant in &config.tenants {
        shares.push(Share {
            quota: tenant.quota,
            places: (2 * u16::from(tenant.quota)).min(MAX_PLACES),
        })?;
    }
    Ok(shares)
}

/// Gives what they may use after a start, or `None` if the start can't give the quotas of its stops. The stops are
/// one for each tenant, in their order.
pub(crate) fn shares_after(
    alloc: Global,
    shares: &[Share],
    stops: &[Stop],
    pool: u16,
) -> Result<Option<Vec<Share>>, AllocError> {
    let mut after = Vec::new(alloc);
    for (tenant, share) in shares.iter().enumerate() {
        let told = match stops.get(tenant) {
            Some(stop) => stop.quota,
            None => None,
        };
        after.push(Share {
            quota: told.unwrap_or(share.quota),
            places: share.places,
        })?;
    }
    if can_be(&after, u64::from(pool)) {
        Ok(Some(after))
    } else {
        Ok(None)
    }
}

/// Tells whether tenants can have these quotas, from a pool of so many slots.
pub(crate) fn can_be(shares: &[Share], pool: u64) -> bool {
    let mut together: u64 = 0;
    for share in shares {
        if share.quota == 0 || share.quota > MAX_QUOTA || u16::from(share.quota) > share.places {
            return false;
        }
        together = together.saturating_add(u64::from(share.quota));
    }
    together <= pool
}

/// Gives stops with the same quotas, and nothing else.
pub(crate) fn quotas_alone(alloc: Global, stops: &[Stop]) -> Result<Vec<Stop>, AllocError> {
    let mut alone = Vec::new(alloc);
    for stop in stops {
        alone.push(Stop {
            tenant: stop.tenant,
            interrupted: None,
            torn: Vec::new(alloc),
            fails_at: None,
            quota: stop.quota,
        })?;
    }
    Ok(alone)
}

/// Tells whether some of these stops gives a quota.
pub(crate) fn is_gift(stops: &[Stop]) -> bool {
    for stop in stops {
        if stop.quota.is_some() {
            return true;
        }
    }
    false
}

//! Reads how a schedule says that each tenant's file is stopped and opened again.
//!
//! Used by: `commands`. `specs/Playable` has the limits. Another form of an item also changes `forms` and
//! docs/SCHEDULES.
ghost use Rattle.std.specs.Prelude.{◌≡◌, ◌==◌, ◌<◌, length, IfOk, IfSome};
ghost use Rattle.std.specs.List.{list_any};
ghost use Rattle.mw_world.specs.Definition.State.{tenants_of};
ghost use Rattle.mw_schedule.specs.Playable.{AreStops, IsOfWorker};

use crate::commands::{tenant_of, worker_of};
use crate::fields::{item_at, number};
use mw_line::{behind, field};
use mw_world::{Config, Interrupted, Stop};
use std::alloc::{AllocError, Global};

/// Reads the stops that are the whole text, each with a space before it. `None`: the text isn't that, or it
/// names a tenant twice. The only error is that memory is out.
pub fn read_stops(
    alloc: Global,
    text: &[u8],
    config: &Config,
) -> Result<Option<Vec<Stop>>, AllocError>
    ensures { IfOk result (λ read. IfSome read (λ stops. AreStops (tenants_of config.now) stops.items)) }
{
    let mut stops = Vec::new(alloc);
    let mut rest = text;
    while !rest.is_empty() {
        let Some((stop, after)) = next_stop(alloc, rest, config)? else {
            return Ok(None);
        };
        if is_named(&stops, stop.tenant) {
            return Ok(None);
        }
        stops.push(stop)?;
        rest = after;
    }
    Ok(Some(stops))
}

// Reads the first stop, with a space before it. Returns it and the text after it. `None`: there is no stop.
fn next_stop<'a>(
    alloc: Global,
    text: &'a [u8],
    config: &Config,
) -> Result<Option<(Stop, &'a [u8])>, AllocError>
    ensures tenant { IfOk result (λ read. IfSome read (λ next. next.0.tenant < tenants_of config.now)) }
    ensures worker { IfOk result (λ read. IfSome read (λ next. IsOfWorker next.0.interrupted)) }
    ensures shorter { IfOk result (λ read. IfSome read (λ next. length next.1.now < length text.now)) }
{
    let Some(items) = behind(b" ", text) else {
        return Ok(None);
    };
    let (item, after) = item_at(items);
    match read_stop(alloc, item, config)? {
        Some(stop) => Ok(Some((stop, after))),
        None => Ok(None),
    }
}

fn is_named(stops: &[Stop], tenant: u8) -> bool
    ensures { result ≡ list_any (λ stop. stop.tenant == tenant) stops.now }
{
    stops.iter().any(|stop| stop.tenant == tenant)
}

// Reads the stop `NAME=W,K,HEX` or `NAME=W,K,HEX,F`, or one of these with `,qN` after it. `None`: the text is
// none of these.
fn read_stop(alloc: Global, text: &[u8], config: &Config) -> Result<Option<Stop>, AllocError>
    ensures tenant { IfOk result (λ read. IfSome read (λ stop. stop.tenant < tenants_of config.now)) }
    ensures worker { IfOk result (λ read. IfSome read (λ stop. IsOfWorker stop.interrupted)) }
{
    let Some((tenant, interrupted, torn, start)) = stop_parts(text, config) else {
        return Ok(None);
    };
    let Some(torn) = bytes_of(alloc, torn)? else {
        return Ok(None);
    };
    Ok(Some(Stop {
        tenant,
        interrupted,
        torn,
        fails_at: start.fails_at,
        quota: start.quota,
    }))
}

// What an item says of its tenant's start: the device call of the opening that fails, and the quota.
#[derive(Clone, Copy)]
struct Start {
    fails_at: Option<u64>,
    quota: Option<u8>,
}

// Returns the parts of a stop. Its torn bytes are still digits.
fn stop_parts<'a>(
    text: &'a [u8],
    config: &Config,
) -> Option<(u8, Option<Interrupted>, &'a [u8], Start)>
    ensures tenant { IfSome result (λ read. read.0 < tenants_of config.now) }
    ensures worker { IfSome result (λ read. IsOfWorker read.1) }
{
    let (name, rest) = field(b'=', text)?;
    let tenant = tenant_of(config, name)?;
    let (interrupted, rest) = interrupted_at(rest)?;
    let (torn, start) = torn_at(rest)?;
    Some((tenant, interrupted, torn, start))
}

// Reads the call that was under way, `W,K,`, or `-,-,` if none was. Returns it and the text after it.
fn interrupted_at(text: &[u8]) -> Option<(Option<Interrupted>, &[u8])>
    ensures { IfSome result (λ read. IsOfWorker read.0) }
{
    if let Some(rest) = behind(b"-,-,", text) {
        return Some((None, rest));
    }
    let (worker, rest) = field(b',', text)?;
    let (calls, rest) = field(b',', rest)?;
    let interrupted = Interrupted {
        worker: worker_of(worker)?,
        made: number(calls)?,
    };
    Some((Some(interrupted), rest))
}

// Returns the digits of the torn bytes, and what the parts after them say, if there are any.
fn torn_at(text: &[u8]) -> Option<(&[u8], Start)> {
    match field(b',', text) {
        Some((torn, parts)) => Some((torn, start_of(parts)?)),
        None => Some((
            text,
            Start {
                fails_at: None,
                quota: None,
            },
        )),
    }
}

// Reads the parts `F`, `qN` or `F,qN`.
fn start_of(text: &[u8]) -> Option<Start> {
    if text.starts_with(b"q") {
        return Some(Start {
            fails_at: None,
            quota: Some(quota_of(text)?),
        });
    }
    match field(b',', text) {
        Some((call, quota)) => Some(Start {
            fails_at: Some(number(call)?),
            quota: Some(quota_of(quota)?),
        }),
        None => Some(Start {
            fails_at: Some(number(text)?),
            quota: None,
        }),
    }
}

// Reads the quota of the part `qN`. A quota above 255 gives 255, which no tenant may have either.
fn quota_of(text: &[u8]) -> Option<u8> {
    let quota = number(behind(b"q", text)?)?;
    Some(quota.min(u64::from(u8::MAX)) as u8)
}

// Reads bytes that are written as pairs of the digits 0 to 9 and a to f. `None`: the text isn't that.
fn bytes_of(alloc: Global, text: &[u8]) -> Result<Option<Vec<u8>>, AllocError> {
    let mut bytes = Vec::with_capacity(alloc, text.len() / 2)?;
    let mut rest = text;
    while let [high, low, after @ ..] = rest {
        let (Some(high), Some(low)) = (digit(*high), digit(*low)) else {
            return Ok(None);
        };
        bytes.push(high * 16 + low)?;
        rest = after;
    }
    Ok(if rest.is_empty() { Some(bytes) } else { None })
}

fn digit(byte: u8) -> Option<u8>
    ensures { IfSome result (λ value. value < 16) }
{
    match byte {
        b'0'..=b'9' => Some(byte - b'0'),
        b'a'..=b'f' => Some(byte - b'a' + 10),
        _ => None,
    }
}

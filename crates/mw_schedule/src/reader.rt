//! Reads a whole schedule: first its configuration, then what happens.
//!
//! mwreplay reads each schedule by `read_schedule`. docs/SCHEDULES.md describes the text: change both
//! together.
ghost use Rattle.std.specs.Prelude.{◌≡◌, IfOk};
ghost use Rattle.mw_schedule.specs.Playable.{ArePlayable, IsSchedule};

use crate::commands::read_command;
use crate::config::read_config;
use crate::rest::Lines;
use crate::schedule::{Schedule, ScheduleFault, ScheduleLine};
use mw_world::Config;
use std::alloc::Global;

/// Reads a schedule. It has these lines, in this order, each with single spaces and an LF:
///
/// ```text
/// pool P                     how many slots there are, 1 to 256
/// workers N                  how many workers there are, 1 to 64
/// seq S                      if wanted: each slot's first number, 0 to 281474976710654
/// tenant NAME WORDS QUOTA    1 to 16 of them: 1 to 4096 words; a quota of 1 to 64; the sum of the quotas is
///                            at most P
/// old NAME A:V ..            if wanted, at most one for each tenant, with a quota of at most 32: its file is
///                            an old one, which no start has opened yet, and a change of 1 to 8 words is open
///                            in it; A rises, V is 0 to 281474976710655
/// ```
///
/// and then any number of these, where W is a worker, 0 to 63:
///
/// ```text
/// come W NAME JOB            W begins JOB, a line `GET ..` or `CAS ..` that the tenant may ask
/// step W                     W makes a step that is no call on a file
/// file W good                W makes its call on the file
/// file W K                   W makes its call on the file, whose K-th device call fails
/// before W KIND              W makes steps until its next one is of this kind
/// to W KIND                  W makes steps until it has made one of this kind
/// end W                      W makes steps until it has a reply, which is handed out
/// restart ITEM ..            all stops and starts again
/// ```
///
/// KIND is one of `load`, `admit`, `claim`, `fill`, `pin`, `unpin`, `free`, `drop`, `row`, `plant`, `resolve`,
/// `decide-yes`, `decide-no`, `release`, `clean`, `prepare`, `seal`, `settle` and `cancel`.
///
/// ITEM is `NAME=W,K,HEX` or `NAME=W,K,HEX,F`, or one of these with `,qN` after it. No name occurs twice. W's
/// next step is a call on the tenant's file, and K device calls of it were made; or W and K are both `-`, and
/// no call was under way. HEX are the torn bytes, as pairs of the digits 0 to 9 and a to f. F is the device
/// call of the opening that fails. N is the tenant's quota from then on; above 255 it counts as 255.
///
/// A and V are an address of the tenant and the value of its word, and the addresses rise. A number is `0`, or
/// a digit from 1 to 9 and any number of digits; K, F and N may be any number.
///
/// # Errors
///
/// [`ScheduleFault::Wrong`] has the number of the first wrong line. If one of the lines before the commands is
/// missing at the end, it is the number after the last line. [`ScheduleFault::Memory`]: memory is out.
pub fn read_schedule(alloc: Global, text: &[u8]) -> Result<Schedule, ScheduleFault>
    ensures { IfOk result IsSchedule }
{
    match read_config(Lines::new(text)) {
        Ok((config, after)) => {
            let lines = read_lines(alloc, after, &config)?;
            Ok(Schedule { config, lines })
        }
        Err(left) => Err(ScheduleFault::Wrong(left.number)),
    }
}

fn read_lines(
    alloc: Global,
    lines: Lines<'_>,
    config: &Config,
) -> Result<Vec<ScheduleLine>, ScheduleFault>
    ensures { IfOk result (λ read. ArePlayable config.now read.items) }
{
    let mut read = Vec::new(alloc);
    let mut left = lines;
    while !left.rest.is_empty() {
        let number = left.number;
        let Some((line, after)) = left.split() else {
            return Err(ScheduleFault::Wrong(number));
        };
        let Some(command) = read_command(alloc, line, config)? else {
            return Err(ScheduleFault::Wrong(number));
        };
        if read.push(ScheduleLine { number, command }).is_err() {
            return Err(ScheduleFault::Memory);
        }
        left = after;
    }
    Ok(read)
}

//! Makes the same requests of an engine's workers and of the plain store, one after the other.
//!
//! Used by: `cases`, `plays`.
use crate::cases::{Case, Play, lines_of};
use crate::latch::{Latch, LatchedDisk};
use crate::starts::new_files;
use crate::workers::Player;
use mw_disk::Disk;
use mw_plain::Plain;
use mw_session::Service;
use mw_words::{Entries, Entry, Job, MAX_VALUE};
use std::alloc::Global;

/// How many random requests each worker makes of each tenant. Then it reads each word.
const REQUESTS: u16 = 100;

/// How many turns the workers have, each one after the other, with the reads of five words.
const TURNS: u16 = 4 * (REQUESTS + 5);

/// A tenant: its number in the plain store, its name, and how many words it has.
type Tenant = (u8, &'static [u8], u16);

/// The tenants.
const TENANTS: [Tenant; 2] = [(0, b"t", 5), (1, b"u", 2)];

/// Pseudorandom numbers, each made from the one before.
#[derive(Drop)]
struct Numbers {
    last: u64,
}

impl Numbers {
    /// Gives a number below `count`.
    fn below(&mut self, count: u16) -> u16 {
        self.last = self
            .last
            .wrapping_mul(6_364_136_223_846_793_005)
            .wrapping_add(1_442_695_040_888_963_407);
        u16::try_from(self.last >> 48).unwrap_or(0) % count.max(1)
    }

    /// Makes a read of one of so many words, or a change of it and of some after it. A value is one of two, so that a
    /// change's expected value is often right and often wrong.
    fn job(&mut self, words: u16) -> Job {
        let first = self.below(words);
        if self.below(2) == 0 {
            return Job::Get(first);
        }
        let mut entries = Entries::new();
        for addr in first..words {
            if addr == first || self.below(2) == 0 {
                let _ = entries.try_push(Entry {
                    addr,
                    expected: u64::from(self.below(2)).saturating_mul(MAX_VALUE),
                    new: u64::from(self.below(2)).saturating_mul(MAX_VALUE),
                });
            }
        }
        Job::Cas(entries)
    }
}

/// Makes the plain store of a case's tenants, over new files. Gives None if the case doesn't ask it, or memory is refused.
pub(crate) fn new_plain<'l>(
    alloc: Global,
    case: &Case<'_>,
    latch: &'l Latch,
) -> Option<Plain<LatchedDisk<'l>>> {
    let Play::Beside(_) = case.play else {
        return None;
    };
    let lines = lines_of(case)?;
    let files = new_files(alloc, case, &lines, latch)?;
    Plain::new(alloc, &lines, files, case.pool).ok()
}

/// Tells whether a worker and the plain store reply the same to a job of a tenant.
fn reply_the_same<W: Player, D: Disk>(
    worker: &mut W,
    plain: &mut Plain<D>,
    tenant: Tenant,
    job: &Job,
) -> bool {
    let (number, name, _) = tenant;
    if usize::from(number) >= plain.len()
        || !job.is_well_formed(usize::from(plain.words_of(number)))
    {
        return false;
    }
    let reply = worker.reply_to(name, job, false);
    reply == Some(plain.ask(number, job))
}

/// Tells whether a worker and the plain store reply the same to a request of each tenant, and then report the same. The
/// requests are random ones, or from a turn on reads of one word after the other.
fn go_on_the_same<W: Player + Service, D: Disk>(
    worker: &mut W,
    plain: &mut Plain<D>,
    numbers: &mut Numbers,
    turn: u16,
) -> bool {
    for tenant in TENANTS {
        let job = match turn.checked_sub(REQUESTS) {
            Some(address) => Job::Get(address % tenant.2.max(1)),
            None => numbers.job(tenant.2),
        };
        if !reply_the_same(worker, plain, tenant, &job) {
            return false;
        }
    }
    worker.figures() == plain.figures()
}

/// Tells whether the workers, asked by turns, and the plain store reply the same to each request, report
/// the same after each, and have the same words in the end.
pub(crate) fn answer_alike<W: Player + Service, D: Disk>(
    workers: &mut [W],
    plain: &mut Plain<D>,
    first: u64,
) -> bool {
    let mut numbers = Numbers { last: first };
    let mut are_all = true;
    for turn in 0..TURNS {
        let is_same = match workers.get_mut(usize::from(turn % 4)) {
            Some(worker) => go_on_the_same(worker, plain, &mut numbers, turn / 4),
            None => false,
        };
        if !is_same {
            are_all = false;
        }
    }
    are_all
}

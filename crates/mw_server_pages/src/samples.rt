//! Samples of what is counted, and the curves of the status page that they give.
//!
//! `server_pages` takes a sample when it is asked for figures. No contract says what the curves show: it is tested.
//! docs/HTTP and the text of `recents` tell how many samples are kept, and for how long.
ghost use Rattle.std.specs.Prelude.{◌≤◌, vec_capacity};
ghost use Rattle.mw_server_pages.specs.declared.samples.TheConstants.{SAMPLES};

use crate::near::Uses;
use crate::recents::{CURVE_HEIGHT, CURVE_WIDTH, Curve, MAX_POINTS, Point, Recent};
use arrayvec::ArrayVec;
use mw_metrics::Meters;
use mw_report::{Figures, TenantFigures};
use mw_words::{MAX_TENANTS, Name};
use std::alloc::{AllocError, Global};

/// How many samples are kept.
const SAMPLES: usize = 60;

/// How many seconds lie between two samples, at least.
const BETWEEN: u64 = 15;

/// How many seconds a curve shows.
const SHOWN: u64 = 900;

/// How many nanoseconds a microsecond has.
const MICROSECOND: u64 = 1000;

/// What was counted for a tenant since the start.
#[derive(Clone, Copy, Default)]
struct Counted {
    /// The changes that were made.
    made: u64,
    /// The changes that were answered, and how many nanoseconds they took.
    changes: u64,
    change_nanos: u64,
    syncs: u64,
    sync_nanos: u64,
}

/// What was counted for each tenant so many seconds after the start, and the most that was used of each limit since the sample
/// before.
#[derive(Clone, Copy)]
struct Sample {
    at: u64,
    counted: [Counted; MAX_TENANTS],
    uses: Uses,
}

/// What a curve is of.
#[derive(Clone, Copy)]
enum Figure {
    /// How many changes were made in a second.
    Changes,
    /// How many microseconds a change took.
    Change,
    /// How many microseconds a sync took.
    Sync,
}

/// A figure, so many seconds after the start.
#[derive(Clone, Copy, Default)]
struct Value {
    at: u64,
    figure: u64,
}

/// The samples of the last quarter of an hour, the oldest first, the most that was used of each limit since the last one, and since
/// when each tenant is known to be down.
#[derive(Drop)]
pub(crate) struct Samples {
    samples: Vec<Sample>,
    uses: Uses,
    down: [Option<u64>; MAX_TENANTS],
    ghost room: { SAMPLES ≤ vec_capacity samples },
}

impl Samples {
    /// Begins with a sample in which nothing is counted.
    ///
    /// # Errors
    ///
    /// Memory is out.
    pub(crate) fn new(alloc: Global) -> Result<Self, AllocError> {
        let mut samples = Vec::with_capacity(alloc, SAMPLES)?;
        samples.push_reserved(Sample {
            at: 0,
            counted: [Counted::default(); MAX_TENANTS],
            uses: Uses::none(),
        });
        Ok(Samples {
            samples,
            uses: Uses::none(),
            down: [None; MAX_TENANTS],
        })
    }

    /// Looks so many seconds after the start which tenants are down and how much of each limit is used, and takes a sample if the
    /// last one is old enough.
    pub(crate) fn look(&mut self, now: u64, figures: &Figures, meters: &Meters) {
        for (number, (down, tenant)) in self.down.iter_mut().zip(&figures.tenants).enumerate() {
            *down = if tenant.up && meters.place_of(number).takes_changes() {
                None
            } else {
                Some(down.unwrap_or(now))
            };
        }
        let uses = Uses::now(figures, meters);
        self.uses.raise(&uses);
        let last = match self.samples.last() {
            Some(sample) => sample.at,
            None => 0,
        };
        if now.saturating_sub(last) >= BETWEEN {
            self.keep(Sample {
                at: now,
                counted: all_counted(meters),
                uses: self.uses,
            });
            self.uses = uses;
        }
    }

    /// Keeps a sample, in place of the oldest one if there is no room.
    fn keep(&mut self, sample: Sample) {
        if self.samples.len() >= SAMPLES {
            self.samples.remove(0);
        }
        self.samples.push_reserved(sample);
    }

    /// Gives the most that was used of each limit of late, so many seconds after the start.
    pub(crate) fn most_uses(&self, now: u64) -> Uses {
        let mut most = self.uses;
        for sample in &self.samples {
            if now.saturating_sub(sample.at) <= SHOWN {
                most.raise(&sample.uses);
            }
        }
        most
    }

    /// Gives how each of these tenants did of late, so many seconds after the start.
    pub(crate) fn recents(&self, now: u64, figures: &Figures) -> ArrayVec<Recent, MAX_TENANTS> {
        let mut recents = ArrayVec::new();
        for (number, tenant) in figures.tenants.iter().enumerate() {
            // There is room for each tenant.
            if !recents.is_full() {
                recents.push(self.recent(now, number, tenant));
            }
        }
        recents
    }

    /// Gives how the tenant of this number did of late.
    fn recent(&self, now: u64, number: usize, tenant: &TenantFigures) -> Recent {
        let down = match self.down.get(number) {
            Some(Some(since)) => Some(now.saturating_sub(*since)),
            _ => None,
        };
        Recent {
            name: Name::try_from(tenant.name.as_slice()).unwrap_or_default(),
            down,
            changes: self.curve(now, number, Figure::Changes),
            change: self.curve(now, number, Figure::Change),
            sync: self.curve(now, number, Figure::Sync),
        }
    }

    /// Gives a curve of the tenant of this number.
    fn curve(&self, now: u64, tenant: usize, figure: Figure) -> Curve {
        let values = self.values(now, tenant, figure);
        let last = match values.last() {
            Some(value) => value.figure,
            None => 0,
        };
        let mut most = 0;
        for value in &values {
            most = value.figure.max(most);
        }
        Curve {
            last,
            most,
            points: points(now, &values, most),
        }
    }

    /// Gives what a figure was in each pair of samples.
    fn values(&self, now: u64, tenant: usize, figure: Figure) -> ArrayVec<Value, MAX_POINTS> {
        let mut values = ArrayVec::new();
        for pair in self.samples.windows(2) {
            if let [before, after] = pair {
                // There are fewer samples than points, so there is room for each.
                if now.saturating_sub(after.at) <= SHOWN && !values.is_full() {
                    values.push(value_between(before, after, tenant, figure));
                }
            }
        }
        values
    }
}

/// Gives what is counted for each tenant now.
fn all_counted(meters: &Meters) -> [Counted; MAX_TENANTS] {
    let mut all = [Counted::default(); MAX_TENANTS];
    for (number, one) in all.iter_mut().enumerate() {
        // There is room for all tenants.
        if number < MAX_TENANTS {
            let counts = meters.tenant(number).counts();
            *one = Counted {
                made: counts.cas.replies.yes,
                changes: total(&counts.cas.time.counts),
                change_nanos: counts.cas.time.sum_nanos,
                syncs: total(&counts.sync.time.counts),
                sync_nanos: counts.sync.time.sum_nanos,
            };
        }
    }
    all
}

/// Adds counts.
fn total(counts: &[u64]) -> u64 {
    let mut sum: u64 = 0;
    for count in counts {
        sum = sum.saturating_add(*count);
    }
    sum
}

/// Gives what a figure of a tenant was between two samples.
fn value_between(before: &Sample, after: &Sample, tenant: usize, figure: Figure) -> Value {
    let old = before.counted.get(tenant).copied().unwrap_or_default();
    let new = after.counted.get(tenant).copied().unwrap_or_default();
    let seconds = after.at.saturating_sub(before.at);
    let figure = match figure {
        Figure::Changes => share(new.made.saturating_sub(old.made), seconds),
        Figure::Change => {
            let nanos = new.change_nanos.saturating_sub(old.change_nanos);
            share(nanos, new.changes.saturating_sub(old.changes)) / MICROSECOND
        }
        Figure::Sync => {
            let nanos = new.sync_nanos.saturating_sub(old.sync_nanos);
            share(nanos, new.syncs.saturating_sub(old.syncs)) / MICROSECOND
        }
    };
    Value {
        at: after.at,
        figure,
    }
}

/// Gives how much of the sum comes on each, or 0 if there is none.
fn share(sum: u64, count: u64) -> u64 {
    sum.checked_div(count).unwrap_or(0)
}

/// Gives the points of these figures, of which `most` is the highest.
fn points(now: u64, values: &[Value], most: u64) -> ArrayVec<Point, MAX_POINTS> {
    let mut points = ArrayVec::new();
    for value in values {
        // There are no more points than figures, so there is room for each.
        if !points.is_full() {
            points.push(point(now.saturating_sub(value.at), value.figure, most));
        }
    }
    points
}

/// Gives the point of a figure that is so many seconds old.
fn point(age: u64, figure: u64, most: u64) -> Point {
    let left = age.min(SHOWN) / (SHOWN / u64::from(CURVE_WIDTH));
    let up = share(figure.saturating_mul(u64::from(CURVE_HEIGHT)), most);
    Point {
        right: CURVE_WIDTH.saturating_sub(u8::try_from(left).unwrap_or(CURVE_WIDTH)),
        down: CURVE_HEIGHT.saturating_sub(u8::try_from(up).unwrap_or(CURVE_HEIGHT)),
    }
}

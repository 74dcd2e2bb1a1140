//! A histogram of durations: how many were in each bucket, and their sum.
//!
//! Used by: `counters`, `figures`, `histogram_lines`. The bounds are free; mw_serving_tests expects some. Another number
//! of them changes `BOUNDED`, `BUCKETS`, and the room for lines (`MAX_HISTOGRAM`, then `MAX_TENANT_FAMILIES` and
//! `MAX_METRICS`).
ghost use Rattle.std.specs.Prelude.{ℕ, ◌≡◌, ◌<◌, ◌≤◌, length, slice_index};

/// How many buckets have a bound.
pub const BOUNDED: usize = 12;

/// How many buckets a histogram has: the last one has no bound.
pub const BUCKETS: usize = 13;

/// The bounds of the buckets, in nanoseconds: from a microsecond to five seconds.
pub const BOUNDS: [u64; BOUNDED] = [
    1_000,
    5_000,
    25_000,
    100_000,
    250_000,
    1_000_000,
    5_000_000,
    25_000_000,
    100_000_000,
    250_000_000,
    1_000_000_000,
    5_000_000_000,
];

/// The figures of a histogram.
#[derive(Drop)]
pub struct HistogramFigures {
    /// How many durations were in each bucket: at most its bound, and above that of the bucket before it.
    pub counts: [u64; BUCKETS],
    /// The sum of all durations, in nanoseconds.
    pub sum_nanos: u64,
}

/// Gives the bucket of a duration: the first whose bound is at least as long, or else the last bucket.
pub fn bucket_of(nanos: u64) -> usize
    ensures bucket { result ≤ BOUNDED }
    ensures above { (k : ℕ) → k < result → slice_index BOUNDS k < nanos }
    ensures within { result < BOUNDED → nanos ≤ slice_index BOUNDS result }
{
    for (k, bound) in BOUNDS.iter().enumerate() {
        if nanos <= *bound {
            return k;
        }
    }
    BOUNDED
}

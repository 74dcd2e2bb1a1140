//! Writes the samples of a histogram: its buckets, the sum of its durations and their number.
//!
//! Used by: `tenant_lines`. Change it with `specs/Figures`, `specs/Exposition` and `specs/Names`. `MAX_HISTOGRAM` is
//! the room for its lines.
ghost use Rattle.std.specs.Prelude.{◌≡◌, ◌+◌, ◌*◌, ◌<◌, ◌≤◌, [], ◌∷◌, ◌++◌, length, codes, decimal};
ghost use Rattle.mw_metrics.specs.Exposition.{label, sample, seconds};
ghost use Rattle.mw_metrics.specs.Figures as spec;
ghost use Rattle.mw_metrics.specs.Names.{family_name};

use crate::families::Family;
use crate::histogram::{BOUNDED, BOUNDS, HistogramFigures};
use crate::samples::{
    MAX_LABEL_VALUE, MAX_SAMPLE, one_more_label, put_sample, seconds, tenant_labels,
};
use crate::text::{MAX_METRICS, Text};
use itoa::Buffer;

/// The most bytes of the name and the value of a histogram's second label.
pub(crate) const MAX_SECOND: usize = 5;

/// The most bytes of a histogram's samples, and as many of one without its buckets.
pub(crate) const MAX_HISTOGRAM: usize = 3180;

/// Puts the samples of a histogram. It has two labels: the tenant, and another one with this name and this value.
#[tactic(auto, unfolding(crate::specs::Figures::histogram))]
pub(crate) fn put_histogram(
    text: &mut Text,
    family: Family,
    tenant: &[u8],
    name: &[u8],
    value: &[u8],
    figures: &HistogramFigures,
)
    requires tenant { length tenant.now ≤ MAX_LABEL_VALUE }
    requires name { length name.now ≤ MAX_SECOND }
    requires value { length value.now ≤ MAX_SECOND }
    requires room { length text.old.bytes.items + MAX_HISTOGRAM ≤ MAX_METRICS }
    ensures lines { text.new.bytes.items ≡ text.old.bytes.items ++ spec.histogram family (label (codes "tenant") tenant.now) (label name.now value.now) figures.now }
    ensures room { length text.new.bytes.items ≤ length text.old.bytes.items + MAX_HISTOGRAM }
{
    let all = put_buckets(text, family, tenant, name, value, &figures.counts, &BOUNDS);
    put_bucket(text, family, tenant, name, value, b"+Inf", all);
    put_totals(text, family, tenant, name, value, figures.sum_nanos, all);
}

/// Puts the buckets that have these bounds. Gives how many durations were in them and in the one after them.
#[tactic(auto, using(crate::proofs::Buckets::buckets))]
fn put_buckets(
    text: &mut Text,
    family: Family,
    tenant: &[u8],
    name: &[u8],
    value: &[u8],
    counts: &[u64],
    bounds: &[u64],
) -> u64
    requires counts { length bounds.now < length counts.now }
    requires bounds { length bounds.now ≤ BOUNDED }
    requires tenant { length tenant.now ≤ MAX_LABEL_VALUE }
    requires name { length name.now ≤ MAX_SECOND }
    requires value { length value.now ≤ MAX_SECOND }
    requires room { length text.old.bytes.items + 12 * MAX_SAMPLE ≤ MAX_METRICS }
    ensures lines { text.new.bytes.items ≡ text.old.bytes.items ++ spec.bucket_lines family (label (codes "tenant") tenant.now) (label name.now value.now) counts.now 0 bounds.now }
    ensures all { result ≡ spec.before counts.now (length bounds.now + 1) }
    ensures room { length text.new.bytes.items ≤ length text.old.bytes.items + 12 * MAX_SAMPLE }
{
    let mut so_far: u64 = 0;
    for bucket in 0..bounds.len() {
        so_far = so_far.saturating_add(counts[bucket]);
        let bound = seconds(bounds[bucket]);
        put_bucket(text, family, tenant, name, value, &bound, so_far);
    }
    so_far.saturating_add(counts[bounds.len()])
}

/// Puts one bucket: how many durations were at most as long as its bound.
#[tactic(auto, using(crate::proofs::Widths::widths))]
fn put_bucket(
    text: &mut Text,
    family: Family,
    tenant: &[u8],
    name: &[u8],
    value: &[u8],
    bound: &[u8],
    count: u64,
)
    requires tenant { length tenant.now ≤ MAX_LABEL_VALUE }
    requires name { length name.now ≤ MAX_SECOND }
    requires value { length value.now ≤ MAX_SECOND }
    requires bound { length bound.now ≤ 30 }
    requires room { length text.old.bytes.items + MAX_SAMPLE ≤ MAX_METRICS }
    ensures line { text.new.bytes.items ≡ text.old.bytes.items ++ sample (family_name family ++ codes "_bucket") (label (codes "tenant") tenant.now ∷ label name.now value.now ∷ label (codes "le") bound.now ∷ []) (decimal count) }
    ensures room { length text.new.bytes.items ≤ length text.old.bytes.items + MAX_SAMPLE }
{
    let labels = tenant_labels(tenant, name, value);
    let labels = one_more_label(&labels, b"le", bound);
    let mut buffer = Buffer::new();
    let count = buffer.format(count).as_bytes();
    put_sample(text, family.description().name, b"_bucket", &labels, count);
}

/// Puts the sum of the durations, and their number.
#[tactic(auto, using(crate::proofs::Widths::widths))]
fn put_totals(
    text: &mut Text,
    family: Family,
    tenant: &[u8],
    name: &[u8],
    value: &[u8],
    sum_nanos: u64,
    count: u64,
)
    requires tenant { length tenant.now ≤ MAX_LABEL_VALUE }
    requires name { length name.now ≤ MAX_SECOND }
    requires value { length value.now ≤ MAX_SECOND }
    requires room { length text.old.bytes.items + 2 * MAX_SAMPLE ≤ MAX_METRICS }
    ensures lines { text.new.bytes.items ≡ text.old.bytes.items ++ sample (family_name family ++ codes "_sum") (label (codes "tenant") tenant.now ∷ label name.now value.now ∷ []) (seconds sum_nanos) ++ sample (family_name family ++ codes "_count") (label (codes "tenant") tenant.now ∷ label name.now value.now ∷ []) (decimal count) }
    ensures room { length text.new.bytes.items ≤ length text.old.bytes.items + 2 * MAX_SAMPLE }
{
    let labels = tenant_labels(tenant, name, value);
    put_sample(
        text,
        family.description().name,
        b"_sum",
        &labels,
        &seconds(sum_nanos),
    );
    let mut buffer = Buffer::new();
    let count = buffer.format(count).as_bytes();
    put_sample(text, family.description().name, b"_count", &labels, count);
}

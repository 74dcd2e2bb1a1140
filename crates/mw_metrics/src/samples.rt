//! Writes one sample of a metric: its name, its labels and its value, in a line.
//!
//! Used by: what writes lines. Change it with `specs/Exposition` and `specs/Names`. A longer sample (`MAX_SAMPLE`)
//! needs more room in `histogram_lines`, `server_lines`, `tenant_lines` and `text`.
ghost use Rattle.std.specs.Prelude.{◌≡◌, ◌+◌, ◌*◌, ◌≤◌, [], ◌∷◌, ◌++◌, length, codes, ◌<◌, replicate, decimal};
ghost use Rattle.mw_metrics.specs.Exposition.{escape, escaped, label, label_text};
ghost use Rattle.mw_metrics.specs.Exposition as spec;
ghost use Rattle.mw_metrics.specs.Names.{family_name};

use crate::families::Family;
use crate::text::{MAX_METRICS, Text};
use arrayvec::ArrayVec;
use itoa::Buffer;

/// The most bytes of a sample's labels, without the braces.
pub(crate) const MAX_LABELS: usize = 128;

/// The most bytes of a label's value, before it is escaped.
pub const MAX_LABEL_VALUE: usize = 16;

/// The most bytes of a metric's name, with the ending of a histogram's samples.
pub(crate) const MAX_METRIC_NAME: usize = 48;

/// The most bytes of a sample's value.
pub(crate) const MAX_VALUE_TEXT: usize = 32;

/// The most bytes of a sample's line.
pub(crate) const MAX_SAMPLE: usize = 212;

/// The labels of a sample, with commas between them and no braces.
pub(crate) type Labels = ArrayVec<u8, MAX_LABELS>;

/// The digits of a number of seconds.
pub(crate) type Seconds = ArrayVec<u8, MAX_VALUE_TEXT>;

/// How many nanoseconds a second has.
const SECOND: u64 = 1_000_000_000;

/// Gives the labels with this one alone.
pub(crate) fn one_label(name: &[u8], value: &[u8]) -> Labels
    requires { length name.now + length value.now * 2 + 3 ≤ MAX_LABELS }
    ensures label { result.items ≡ label_text (label name.now value.now) }
    ensures room { length result.items ≤ length name.now + length value.now * 2 + 3 }
{
    let mut labels = Labels::new();
    push(&mut labels, name);
    push(&mut labels, b"=\"");
    put_escaped(&mut labels, value);
    push(&mut labels, b"\"");
    labels
}

/// Gives the labels with one more after them.
pub(crate) fn one_more_label(labels: &[u8], name: &[u8], value: &[u8]) -> Labels
    requires { length labels.now + length name.now + length value.now * 2 + 4 ≤ MAX_LABELS }
    ensures labels { result.items ≡ labels.now ++ (codes "," ++ label_text (label name.now value.now)) }
    ensures room { length result.items ≤ length labels.now + length name.now + length value.now * 2 + 4 }
{
    let mut more = Labels::new();
    push(&mut more, labels);
    push(&mut more, b",");
    push(&mut more, &one_label(name, value));
    more
}

/// Gives two labels: the tenant's, and one more.
pub(crate) fn tenant_labels(tenant: &[u8], name: &[u8], value: &[u8]) -> Labels
    requires tenant { length tenant.now ≤ MAX_LABEL_VALUE }
    requires room { length name.now + length value.now * 2 ≤ 80 }
    ensures labels { result.items ≡ label_text (label (codes "tenant") tenant.now) ++ (codes "," ++ label_text (label name.now value.now)) }
    ensures room { length result.items ≤ 45 + length name.now + length value.now * 2 }
{
    one_more_label(&one_label(b"tenant", tenant), name, value)
}

#[tactic(auto, unfolding(crate::specs::Exposition::escaped))]
fn put_escaped(labels: &mut Labels, value: &[u8])
    requires { length labels.old.items + length value.now * 2 ≤ MAX_LABELS }
    ensures value { labels.new.items ≡ labels.old.items ++ escaped value.now }
    ensures room { length labels.new.items ≤ length labels.old.items + length value.now * 2 }
{
    for byte in value {
        put_byte(labels, *byte);
    }
}

fn put_byte(labels: &mut Labels, byte: u8)
    requires { length labels.old.items + 2 ≤ MAX_LABELS }
    ensures byte { labels.new.items ≡ labels.old.items ++ escape byte }
    ensures room { length labels.new.items ≤ length labels.old.items + 2 }
{
    match byte {
        b'\\' => push(labels, b"\\\\"),
        b'"' => push(labels, b"\\\""),
        b'\n' => push(labels, b"\\n"),
        _ => labels.push(byte),
    }
}

fn push<const N: usize>(text: &mut ArrayVec<u8, N>, bytes: &[u8])
    requires { length text.old.items + length bytes.now ≤ N }
    ensures bytes { text.new.items ≡ text.old.items ++ bytes.now }
    ensures room { length text.new.items ≡ length text.old.items + length bytes.now }
{
    text.try_extend_from_slice(bytes).unwrap();
}

/// Gives a number of nanoseconds as seconds, with nine digits after the point.
#[tactic(auto, using(crate::proofs::Widths::widths))]
pub(crate) fn seconds(nanos: u64) -> Seconds
    ensures seconds { result.items ≡ spec.seconds nanos }
    ensures room { length result.items ≤ 30 }
{
    let mut text = Seconds::new();
    let mut whole = Buffer::new();
    push(&mut text, whole.format(nanos / SECOND).as_bytes());
    text.push(b'.');
    put_nine_digits(&mut text, nanos % SECOND);
    text
}

#[tactic(auto, unfolding(crate::specs::Exposition::nine_digits), using(crate::proofs::Widths::widths))]
fn put_nine_digits(text: &mut Seconds, number: u64)
    requires number { number < SECOND }
    requires room { length text.old.items + 9 ≤ MAX_VALUE_TEXT }
    ensures digits { text.new.items ≡ text.old.items ++ spec.nine_digits number }
    ensures room { length text.new.items ≡ length text.old.items + 9 }
{
    let mut buffer = Buffer::new();
    let digits = buffer.format(number).as_bytes();
    put_zeros(text, 9 - digits.len());
    push(text, digits);
}

fn put_zeros(text: &mut Seconds, count: usize)
    requires { length text.old.items + count ≤ MAX_VALUE_TEXT }
    ensures zeros { text.new.items ≡ text.old.items ++ replicate count 48 }
    ensures room { length text.new.items ≡ length text.old.items + count }
{
    for _ in 0..count {
        text.push(b'0');
    }
}

/// Puts a sample's line. The labels are in `labels`, without braces; the sample has at least one. The metric's name is
/// `name` and then `ending`.
pub(crate) fn put_sample(text: &mut Text, name: &[u8], ending: &[u8], labels: &Labels, value: &[u8])
    requires name { length name.now + length ending.now ≤ MAX_METRIC_NAME }
    requires value { length value.now ≤ MAX_VALUE_TEXT }
    requires labels { length labels.now.items ≤ MAX_LABELS }
    requires room { length text.old.bytes.items + MAX_SAMPLE ≤ MAX_METRICS }
    ensures line { text.new.bytes.items ≡ text.old.bytes.items ++ (name.now ++ ending.now ++ (codes "{" ++ labels.now.items ++ codes "}") ++ codes " " ++ value.now ++ codes "\n") }
    ensures room { length text.new.bytes.items ≤ length text.old.bytes.items + MAX_SAMPLE }
{
    text.put(name);
    text.put(ending);
    text.put(b"{");
    text.put(labels);
    text.put(b"} ");
    text.put(value);
    text.put(b"\n");
}

/// Puts the line of a sample with labels, whose value is a number.
#[tactic(auto, using(crate::proofs::Widths::widths))]
pub(crate) fn put_number(text: &mut Text, family: Family, labels: &Labels, number: u64)
    requires labels { length labels.now.items ≤ MAX_LABELS }
    requires room { length text.old.bytes.items + MAX_SAMPLE ≤ MAX_METRICS }
    ensures line { text.new.bytes.items ≡ text.old.bytes.items ++ (family_name family ++ (codes "{" ++ labels.now.items ++ codes "}") ++ codes " " ++ decimal number ++ codes "\n") }
    ensures room { length text.new.bytes.items ≤ length text.old.bytes.items + MAX_SAMPLE }
{
    let mut buffer = Buffer::new();
    let digits = buffer.format(number).as_bytes();
    put_sample(text, family.description().name, b"", labels, digits);
}

/// Puts the line of a sample that has no labels.
pub(crate) fn put_plain_sample(text: &mut Text, name: &[u8], value: &[u8])
    requires name { length name.now ≤ MAX_METRIC_NAME }
    requires value { length value.now ≤ MAX_VALUE_TEXT }
    requires room { length text.old.bytes.items + MAX_SAMPLE ≤ MAX_METRICS }
    ensures line { text.new.bytes.items ≡ text.old.bytes.items ++ spec.sample name.now [] value.now }
    ensures room { length text.new.bytes.items ≤ length text.old.bytes.items + MAX_SAMPLE }
{
    text.put(name);
    text.put(b" ");
    text.put(value);
    text.put(b"\n");
}

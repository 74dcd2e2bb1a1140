//! Writes the text of an administrator's report: a line for each tenant, and a last line for the pool.
//!
//! Used by: mw_session; mw_client, to check that it has understood a report. [`MAX_REPORT`] must have room for a line
//! of each tenant and the last one. Change it with `specs/Table`.
ghost use Rattle.std.specs.Prelude.{◌≡◌, ◌+◌, ◌≤◌, ◌++◌, decimal, length};
ghost use Rattle.mw_report.specs.Table as spec;
ghost use Rattle.mw_report.specs.Table.{AreWithinLimits, IsWithinLimits};

use crate::figures::TenantFigures;
use arrayvec::ArrayVec;
use itoa::Buffer;
use mw_words::MAX_NAME;

/// Room for a report, in bytes.
pub const MAX_REPORT: usize = 640;

/// The width of a tenant's name in the table.
const NAME_WIDTH: usize = MAX_NAME;

/// The width of a tenant's number of words.
const WORDS_WIDTH: usize = 4;

/// The width of a number of slots, and of a number of record places.
const SLOTS_WIDTH: usize = 2;

/// The most bytes of a tenant's line: six columns, a space before each but the first, and a line feed.
const MAX_TENANT_LINE: usize = 36;

/// A report under way.
type Text = ArrayVec<u8, MAX_REPORT>;

/// Gives the report: a line for each tenant in the order given, and a last line with the free slots of the pool.
/// The figures must keep the limits. It takes no memory.
#[tactic(auto, using(crate::proofs::Widths::widths))]
pub fn report_text(tenants: &[TenantFigures], pool_free: u16) -> ArrayVec<u8, MAX_REPORT>
    requires { AreWithinLimits tenants.now pool_free }
    ensures { result.items ≡ spec.report tenants.now pool_free }
{
    let mut text = Text::new();
    for tenant in tenants {
        put_tenant(&mut text, tenant);
    }
    put(&mut text, b"free ");
    put_number(&mut text, pool_free);
    put(&mut text, b"\n");
    text
}

/// Puts a tenant's line.
#[tactic(auto, using(crate::proofs::Widths::widths))]
fn put_tenant(text: &mut Text, tenant: &TenantFigures)
    requires limits { IsWithinLimits tenant.now }
    requires room { length text.old.items + MAX_TENANT_LINE ≤ MAX_REPORT }
    ensures line { text.new.items ≡ text.old.items ++ spec.tenant_line tenant.now }
    ensures room { length text.new.items ≤ length text.old.items + MAX_TENANT_LINE }
{
    put_left(text, &tenant.name, NAME_WIDTH);
    put(text, b" ");
    put_right(text, tenant.words, WORDS_WIDTH);
    put(text, b" ");
    put_right(text, u16::from(tenant.quota), SLOTS_WIDTH);
    put(text, b" ");
    put_right(text, u16::from(tenant.places), SLOTS_WIDTH);
    put(text, b" ");
    put_right(text, u16::from(tenant.used), SLOTS_WIDTH);
    put(text, b" ");
    put(text, if tenant.up { b"up" } else { b"down" });
    put(text, b"\n");
}

/// Puts a text at the left of a column.
#[tactic(auto, unfolding(crate::specs::Table::at_left))]
fn put_left(text: &mut Text, bytes: &[u8], width: usize)
    requires fits { length bytes.now ≤ width }
    requires room { length text.old.items + width ≤ MAX_REPORT }
    ensures column { text.new.items ≡ text.old.items ++ spec.at_left width bytes.now }
    ensures room { length text.new.items ≡ length text.old.items + width }
{
    put(text, bytes);
    put_spaces(text, width - bytes.len());
}

/// Puts a number at the right of a column.
#[tactic(auto, unfolding(crate::specs::Table::at_right))]
fn put_right(text: &mut Text, number: u16, width: usize)
    requires fits { length (decimal number) ≤ width }
    requires room { length text.old.items + width ≤ MAX_REPORT }
    ensures column { text.new.items ≡ text.old.items ++ spec.at_right width number }
    ensures room { length text.new.items ≡ length text.old.items + width }
{
    let mut buffer = Buffer::new();
    let digits = buffer.format(number).as_bytes();
    put_spaces(text, width - digits.len());
    put(text, digits);
}

fn put_number(text: &mut Text, number: u16)
    requires { length text.old.items + length (decimal number) ≤ MAX_REPORT }
    ensures number { text.new.items ≡ text.old.items ++ decimal number }
    ensures room { length text.new.items ≡ length text.old.items + length (decimal number) }
{
    let mut buffer = Buffer::new();
    put(text, buffer.format(number).as_bytes());
}

fn put_spaces(text: &mut Text, count: usize)
    requires { length text.old.items + count ≤ MAX_REPORT }
    ensures spaces { text.new.items ≡ text.old.items ++ spec.spaces count }
    ensures room { length text.new.items ≡ length text.old.items + count }
{
    for _ in 0..count {
        text.push(b' ');
    }
}

fn put(text: &mut Text, bytes: &[u8])
    requires { length text.old.items + length bytes.now ≤ MAX_REPORT }
    ensures bytes { text.new.items ≡ text.old.items ++ bytes.now }
    ensures room { length text.new.items ≡ length text.old.items + length bytes.now }
{
    text.try_extend_from_slice(bytes).unwrap();
}

//! Reads the administrator's report, and gives its figures.
//!
//! Used by: `administrator`. A new figure of mw_report needs its reader here.
ghost use Rattle.std.specs.Prelude.{◌≡◌, ◌≤◌, All, IfSome, length};
ghost use Rattle.std.specs.Io.KnownBytes.{Consumes};
ghost use Rattle.mw_words.specs.declared.limits.TheConstants.{MAX_POOL};
ghost use Rattle.mw_report.specs.Table as table;
ghost use Rattle.mw_report.specs.Table.{IsWithinLimits};
ghost use Rattle.mw_client.specs.Exchanges.{GoesOn};

use crate::conversation::{LINE_FEED, next_byte};
use crate::replies::number;
use arrayvec::ArrayVec;
use mw_report::{Figures, MAX_REPORT, TenantFigures, report_text};
use mw_words::{MAX_PLACES, MAX_POOL, MAX_QUOTA, MAX_TENANTS, MAX_WORDS, Name};
use std::io::Read;

/// The first characters of the last line of a report.
const FREE: &[u8] = b"free ";

/// The text of a report that is read.
type Text = ArrayVec<u8, MAX_REPORT>;

/// The figures of the tenants that were read so far.
type Tenants = ArrayVec<TenantFigures, MAX_TENANTS>;

/// Reads a report. Gives None if it didn't come whole, or what came isn't just the text of a report. Then
/// it isn't known what was read.
pub fn next_report<R: Read>(reader: &mut R) -> Option<Figures>
    ensures { IfSome result (λ figures. Consumes (R.remaining reader.old) (R.remaining reader.new) (table.report figures.tenants.items figures.pool_free)) }
{
    let mut text = Text::new();
    let mut tenants = Tenants::new();
    for _ in 0..=MAX_TENANTS {
        let from = text.len();
        if !put_line(reader, &mut text) {
            return None;
        }
        let line = &text[from..];
        if let Some(pool_free) = free_of(line) {
            return told(tenants, pool_free, &text);
        }
        let Some(figures) = tenant_of(line) else {
            return None;
        };
        if tenants.is_full() {
            return None;
        }
        tenants.push(figures);
    }
    None
}

/// Appends the next line to a text, with its line feed. Gives false if no whole line came, or there is no
/// room for it.
fn put_line<R: Read>(reader: &mut R, text: &mut Text) -> bool
    ensures read { GoesOn result (R.remaining reader.old) (R.remaining reader.new) text.old.items text.new.items }
    ensures longer { length text.old.items ≤ length text.new.items }
{
    for _ in 0..MAX_REPORT {
        let Some(byte) = next_byte(reader) else {
            return false;
        };
        if text.is_full() {
            return false;
        }
        text.push(byte);
        if byte == LINE_FEED {
            return true;
        }
    }
    false
}

/// Gives these figures if the text is just their report.
fn told(tenants: Tenants, pool_free: u16, text: &[u8]) -> Option<Figures>
    requires tenants { All IsWithinLimits tenants.items }
    requires free { pool_free ≤ MAX_POOL }
    ensures { IfSome result (λ figures. text.now ≡ table.report figures.tenants.items figures.pool_free) }
{
    let same = report_text(&tenants, pool_free).as_slice() == text;
    if same {
        Some(Figures { tenants, pool_free })
    } else {
        None
    }
}

/// Gives how many slots are free by a line, if it is the last of a report.
fn free_of(line: &[u8]) -> Option<u16>
    ensures { IfSome result (λ count. count ≤ MAX_POOL) }
{
    match line.strip_prefix(FREE) {
        Some(rest) => within(rest.trim_ascii_end(), MAX_POOL),
        None => None,
    }
}

/// Gives the figures that a line tells of a tenant, if it is such a line.
fn tenant_of(line: &[u8]) -> Option<TenantFigures>
    ensures { IfSome result IsWithinLimits }
{
    let (name, line) = field(line);
    let (words, line) = field(line);
    let (quota, line) = field(line);
    let (places, line) = field(line);
    let (used, line) = field(line);
    let (state, _) = field(line);
    Some(TenantFigures {
        name: name_of(name)?,
        words: within(words, MAX_WORDS)?,
        quota: few(quota, MAX_QUOTA)?,
        places: few(places, MAX_PLACES as u8)?,
        used: few(used, MAX_QUOTA)?,
        up: is_up(state)?,
    })
}

/// Splits a text into its first field and what follows. Fields have spaces between them.
fn field(text: &[u8]) -> (&[u8], &[u8]) {
    let text = text.trim_ascii_start();
    match text.iter().position(|byte| byte.is_ascii_whitespace()) {
        Some(end) => text.split_at(end),
        None => (text, &[]),
    }
}

/// Gives the name that is the whole text, if it isn't too long.
fn name_of(text: &[u8]) -> Option<Name> {
    let mut name = Name::new();
    match name.try_extend_from_slice(text) {
        Ok(()) => Some(name),
        Err(_) => None,
    }
}

/// Gives the number of slots or of places that is the whole text, if it is at most `most`.
fn few(text: &[u8], most: u8) -> Option<u8>
    ensures { IfSome result (λ count. count ≤ most) }
{
    match number(text) {
        Some(count) if count <= u64::from(most) => Some(count as u8),
        _ => None,
    }
}

/// Gives the number that is the whole text, if it is at most `most`.
fn within(text: &[u8], most: u16) -> Option<u16>
    ensures { IfSome result (λ count. count ≤ most) }
{
    match number(text) {
        Some(count) if count <= u64::from(most) => Some(count as u16),
        _ => None,
    }
}

/// Tells whether a text says that a tenant is up. Gives None if it says neither up nor down.
fn is_up(text: &[u8]) -> Option<bool> {
    match text {
        b"up" => Some(true),
        b"down" => Some(false),
        _ => None,
    }
}

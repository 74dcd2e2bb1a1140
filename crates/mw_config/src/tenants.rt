//! Reads the tenants file: which tenants are served, and from which files.
//!
//! mw_opening calls [`read_tenants`] at a start. Change it with `specs/Limits`, `specs/Refusals`, `specs/LineReader`,
//! `specs/LineTexts` and docs/OPERATING. docs/PROMISES cites `read_tenants`.
ghost use Rattle.std.specs.Prelude.{◌≡◌, ◌≤◌, ◌↔◌, [], length, sum_by, IfOk, IfErr};
ghost use Rattle.std.specs.List.{list_all};
ghost use Rattle.mw_words.specs.declared.limits.TheConstants.{MAX_TENANTS as most_tenants, MAX_TENANTS_FILE as longest};
ghost use Rattle.mw_config.specs.LineTexts.{line_of, lines_of};
ghost use Rattle.mw_config.specs.Limits as limits;
ghost use Rattle.mw_config.specs.Refusals.{Answers, as_lines, FailsAtLine, Reaches};
ghost use Rattle.mw_config.specs.LineReader as spec;
ghost use Rattle.mw_config.specs.LineReader.{Takes, line_of_fields};

use crate::lines::{TenantLine, Told, fields_at};
use crate::refusals::Refusal;
use arrayvec::ArrayVec;
use mw_words::{MAX_QUOTA, MAX_TENANTS, MAX_TENANTS_FILE, MAX_WORDS};

/// Reads the tenants of a tenants file, in order. `pool` is how many slots all tenants share.
///
/// Each line is `name words quota path` with single spaces and a line feed. A name is a letter `a` to `z`,
/// and then up to 15 of `a` to `z`, `0` to `9` and `-`. A number has any number of digits, and no 0 before
/// other digits. A path is 1 to [`mw_words::MAX_PATH`] bytes from `!` to `~`.
///
/// # Errors
///
/// The first refusal. It judges lines in order, and each line by the refusals in their order. It checks
/// [`Refusal::File`] before all lines, and [`Refusal::None`] and [`Refusal::Pool`] after them.
pub fn read_tenants(text: &[u8], pool: u16) -> Result<ArrayVec<TenantLine, MAX_TENANTS>, Refusal>
    ensures answers { Answers pool text.now (as_lines (λ tenants. lines_of tenants.items) result) }
    ensures limits { IfOk result (λ tenants. limits.ArePermitted pool tenants.items) }
{
    if text.len() > MAX_TENANTS_FILE {
        return Err(Refusal::File);
    }
    let tenants = read_lines(text)?;
    if tenants.is_empty() {
        return Err(Refusal::None);
    }
    if quota_sum(&tenants) > pool {
        return Err(Refusal::Pool);
    }
    Ok(tenants)
}

fn read_lines(text: &[u8]) -> Result<ArrayVec<TenantLine, MAX_TENANTS>, Refusal>
    requires { length text.now ≤ longest }
    ensures ok { IfOk result (λ tenants. Reaches (lines_of tenants.items) [] text.now) }
    ensures err { IfErr result (λ why. FailsAtLine text.now why) }
{
    let mut tenants = ArrayVec::new();
    let mut rest = text;
    while !rest.is_empty() {
        let (tenant, after) = read_line(rest, &tenants)?;
        tenants.push(tenant);
        rest = after;
    }
    Ok(tenants)
}

/// Reads the first line of `text`, which comes after those of `earlier`. Gives its tenant and the bytes
/// after it.
fn read_line<'a>(text: &'a [u8], earlier: &[TenantLine]) -> Result<(TenantLine, &'a [u8]), Refusal>
    requires { length earlier.now ≤ most_tenants }
    ensures { Takes (lines_of earlier.now) text.now result }
{
    let number = earlier.len() as u16 + 1;
    let Some((told, after)) = fields_at(text) else {
        return Err(Refusal::Form(number));
    };
    if !is_within(MAX_WORDS, told.words) {
        return Err(Refusal::Words(number));
    }
    if !is_within(MAX_QUOTA as u16, told.quota) {
        return Err(Refusal::Quota(number));
    }
    if !is_new(earlier, &told) {
        return Err(Refusal::Twice(number));
    }
    if earlier.len() >= MAX_TENANTS {
        return Err(Refusal::Many(number));
    }
    let tenant = TenantLine {
        name: told.name,
        words: told.words,
        quota: told.quota as u8,
        path: told.path,
    };
    Ok((tenant, after))
}

fn is_within(most: u16, number: u16) -> bool
    ensures { result ≡ spec.is_within most number }
{
    (1..=most).contains(&number)
}

fn is_new(earlier: &[TenantLine], told: &Told) -> bool
    ensures { result ≡ list_all (λ tenant. limits.differ (line_of tenant) (line_of_fields told.now)) earlier.now }
{
    earlier.iter().all(|tenant| told.differs_from(tenant))
}

fn quota_sum(tenants: &[TenantLine]) -> u16
    requires { length tenants.now ≤ most_tenants }
    ensures { result ≡ sum_by (λ tenant. tenant.quota) tenants.now }
{
    tenants.iter().map(|tenant| u16::from(tenant.quota)).sum()
}

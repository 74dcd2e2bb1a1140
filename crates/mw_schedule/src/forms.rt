//! Tells which rule the first wrong line of a schedule breaks.
//!
//! mwreplay tells it after the line's number. It decides that text alone, and not which line is wrong. A new command
//! needs its form here and in `specs/Forms`. The texts repeat the limits that `config`, `olds`, `commands` and
//! `restarts` check; docs/SCHEDULES has them too, and scripts/check-texts expects the texts.
ghost use Rattle.std.specs.Prelude.{◌≡◌};
ghost use Rattle.mw_schedule.specs.Forms as spec;

use crate::first_words::form_of;
use mw_line::field;

/// A form that lines of a schedule have, named by its first word.
#[derive(Clone, Copy, Debug)]
pub enum LineForm {
    /// The first line.
    Pool,
    /// The second line.
    Workers,
    /// The number under which each slot is used first.
    Seq,
    /// A tenant.
    Tenant,
    /// A tenant's old file.
    Old,
    /// A worker begins a request.
    Come,
    /// A worker makes its next step.
    Step,
    /// A worker makes a call on the file.
    File,
    /// A worker goes on until its next step is of a kind.
    Before,
    /// A worker goes on until it has made a step of a kind.
    To,
    /// A worker goes on until it has a reply.
    End,
    /// All stops and starts again.
    Restart,
}

impl LineForm {
    /// Gives what is wrong with a line that hasn't the form, as it is told after the line's number.
    pub fn broken(self) -> &'static str {
        match self {
            LineForm::Pool | LineForm::Workers | LineForm::Seq => self.number_broken(),
            LineForm::Tenant => {
                "the line isn't `tenant NAME WORDS QUOTA` before all old files and commands, with a new name, 1 to 4096 words and a quota of 1 to 64, all quotas together at most the pool"
            }
            LineForm::Old => {
                "the line isn't `old NAME A:V ..` before all commands, of a tenant of quota 32 or less that has no such line yet, with 1 to 8 entries, rising addresses and values up to 281474976710655"
            }
            LineForm::Restart => {
                "the line isn't `restart ITEM ..`, each item NAME=W,K,HEX or NAME=W,K,HEX,F, perhaps with ,qN, and no tenant twice"
            }
            _ => self.command_broken(),
        }
    }

    // Gives the same for a form with a number alone.
    fn number_broken(self) -> &'static str {
        match self {
            LineForm::Pool => "the line isn't `pool P`, with P from 1 to 256",
            LineForm::Workers => "the line isn't `workers N`, with N from 1 to 64",
            _ => "the line isn't `seq S` after the workers, with S from 0 to 281474976710654",
        }
    }

    // Gives the same for a form with a worker.
    fn command_broken(self) -> &'static str {
        match self {
            LineForm::Come => {
                "the line isn't `come W NAME JOB`, with W from 0 to 63 and a job that the tenant may ask"
            }
            LineForm::Step => "the line isn't `step W`, with W from 0 to 63",
            LineForm::File => {
                "the line isn't `file W good` or `file W K`, with W from 0 to 63 and a number K"
            }
            LineForm::Before => {
                "the line isn't `before W KIND`, with W from 0 to 63 and a kind of step"
            }
            LineForm::To => "the line isn't `to W KIND`, with W from 0 to 63 and a kind of step",
            _ => "the line isn't `end W`, with W from 0 to 63",
        }
    }
}

/// A rule that the first wrong line of a schedule breaks.
#[derive(Clone, Copy, Debug)]
pub enum LineRule {
    /// The text doesn't end before `pool P`, the first line.
    HasPool,
    /// The text doesn't end before `workers N`, the second line.
    HasWorkers,
    /// The text doesn't end before the first tenant.
    HasTenant,
    /// The line ends with a line feed.
    LineFeed,
    /// The first tenant comes before all old files and commands.
    TenantFirst,
    /// The line begins with a word of such a line.
    Word,
    /// The line has the form of the lines at its place or of its first word.
    Form(LineForm),
}

impl LineRule {
    /// Gives what is wrong with a line that breaks the rule, as it is told after the line's number.
    pub fn broken(self) -> &'static str {
        match self {
            LineRule::HasPool => "the text ends before the line `pool P`, with P from 1 to 256",
            LineRule::HasWorkers => {
                "the text ends before the line `workers N`, with N from 1 to 64"
            }
            LineRule::HasTenant => {
                "the text ends before a line `tenant NAME WORDS QUOTA`, of which there are 1 to 16"
            }
            LineRule::LineFeed => "the line has no line feed at its end",
            LineRule::TenantFirst => {
                "a line `tenant NAME WORDS QUOTA` is missing before the line"
            }
            LineRule::Word => "the line begins with no word of such a line",
            LineRule::Form(form) => form.broken(),
        }
    }
}

/// Gives the rule that the line of this number breaks, if it is the first wrong one of a text. Lines are numbered
/// from 1.
pub fn broken_rule(text: &[u8], number: u64) -> LineRule
    ensures { result ≡ spec.broken_rule text.now number }
{
    let rest = from_line(text, number);
    match field(b'\n', rest) {
        Some((line, _)) => match number {
            1 => LineRule::Form(LineForm::Pool),
            2 => LineRule::Form(LineForm::Workers),
            _ => rule_of_word(line, is_before_tenants(text, number)),
        },
        None if rest.is_empty() => missing_at(number),
        None => LineRule::LineFeed,
    }
}

// Gives the rule for a text that ends before the line of this number.
fn missing_at(number: u64) -> LineRule
    ensures { result ≡ spec.missing_at number }
{
    match number {
        1 => LineRule::HasPool,
        2 => LineRule::HasWorkers,
        _ => LineRule::HasTenant,
    }
}

// Gives the rule that a line after the first two breaks. `early` tells whether no tenant comes before it.
fn rule_of_word(line: &[u8], early: bool) -> LineRule
    ensures { result ≡ spec.rule_of early (spec.form_of (spec.first_word line.now)) }
{
    match form_of(line) {
        None => LineRule::Word,
        Some(LineForm::Seq) => LineRule::Form(LineForm::Seq),
        Some(LineForm::Tenant) => LineRule::Form(LineForm::Tenant),
        Some(_) if early => LineRule::TenantFirst,
        Some(form) => LineRule::Form(form),
    }
}

// Tells whether no line before the one of this number is a tenant's, if all of these are right.
fn is_before_tenants(text: &[u8], number: u64) -> bool
    ensures { result ≡ spec.is_before_tenants text.now number }
{
    match number {
        3 => true,
        4 => matches!(form_of(from_line(text, 3)), Some(LineForm::Seq)),
        _ => false,
    }
}

// Gives the bytes of a text from the line of this number on.
fn from_line(text: &[u8], number: u64) -> &[u8]
    ensures { result.now ≡ spec.from_line number text.now }
{
    let mut rest = text;
    let mut at = 1;
    while at < number {
        rest = match field(b'\n', rest) {
            Some((_, after)) => after,
            None => return &[],
        };
        at += 1;
    }
    rest
}

//! The reasons why a tenants file is refused.
//!
//! `read_tenants` gives it, and mw_opening notes it (`opening.rt`). A new refusal needs its text here, a case in
//! `specs/Refusals`, and a row in docs/OPERATING. scripts/check-texts, check-stories, check-limits and check-refusals
//! expect texts.

use mw_words::{MAX_QUOTA, MAX_TENANTS, MAX_WORDS};
use std::fmt;

/// Tells why a tenants file is refused. Lines are numbered from 1; no number is above
/// [`mw_words::MAX_TENANTS`] + 1.
///
/// Its text is a line that names the refusal, then a line with the rule that is broken. Those of a file and of a form have no
/// second line: of these mw_opening knows more.
#[derive(Clone, Copy)]
pub enum Refusal {
    /// The file can't be read, or has more than [`mw_words::MAX_TENANTS_FILE`] bytes.
    File,
    /// A line isn't `name words quota path` with single spaces, or has no LF.
    Form(u16),
    /// A line has 0 words, or more than [`mw_words::MAX_WORDS`].
    Words(u16),
    /// A line has a quota of 0, or one above [`mw_words::MAX_QUOTA`].
    Quota(u16),
    /// A line has a name or a path that an earlier line has.
    Twice(u16),
    /// A line comes after [`mw_words::MAX_TENANTS`] others.
    Many(u16),
    /// There is no line.
    None,
    /// The quotas of all lines add up to more than the pool.
    Pool,
}

// The rules have these limits.
const _: () = prove!(MAX_WORDS == 4096);

const _: () = prove!(MAX_QUOTA == 64);

const _: () = prove!(MAX_TENANTS == 16);

impl Refusal {
    /// Gives the first line of its text, without a number, and the number of the tenants file's line, if it is about one.
    fn first_line(self) -> (&'static str, Option<u16>) {
        match self {
            Refusal::File => ("mwserve: refused 2 file", None),
            Refusal::Form(line) => ("mwserve: refused 3 form", Some(line)),
            Refusal::Words(line) => ("mwserve: refused 4 words", Some(line)),
            Refusal::Quota(line) => ("mwserve: refused 5 quota", Some(line)),
            Refusal::Twice(line) => ("mwserve: refused 6 twice", Some(line)),
            Refusal::Many(line) => ("mwserve: refused 7 many", Some(line)),
            Refusal::None => ("mwserve: refused 8 none", None),
            Refusal::Pool => ("mwserve: refused 9 pool", None),
        }
    }

    /// Gives the second line of its text, if there is one, behind a line feed.
    fn second_line(self) -> &'static str {
        match self {
            Refusal::File | Refusal::Form(_) => "",
            Refusal::Words(_) => "\nmwserve: the words are 1 to 4096",
            Refusal::Quota(_) => "\nmwserve: the quota is 1 to 64",
            Refusal::Twice(_) => "\nmwserve: an earlier line has the name or the path",
            Refusal::Many(_) => "\nmwserve: at most 16 lines",
            Refusal::None => "\nmwserve: there is no line",
            Refusal::Pool => "\nmwserve: the quotas together are more than --pool",
        }
    }
}

impl fmt::Display for Refusal {
    fn fmt<W: fmt::Write>(&self, f: &mut fmt::Formatter<W>) -> fmt::Result {
        let (told, line) = self.first_line();
        f.write_str(told)?;
        if let Some(line) = line {
            write!(f, " line {line}")?;
        }
        f.write_str(self.second_line())
    }
}

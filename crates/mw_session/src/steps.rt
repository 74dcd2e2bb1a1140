//! Tells which step a line asks of the session: to refuse it, to bind, to ask for a job or the report, or to end.
//!
//! Used by: `session.rt`, `replies.rt`. A new command needs a [`Step`] here, and a case in `specs/Talk` and
//! `specs/StepOfLine`.
ghost use Rattle.std.specs.Prelude.{◌≡◌, ℕ, IfSome, IsTrue};
ghost use Rattle.mw_words.specs.Change.{is_well_formed};
ghost use Rattle.mw_words.specs.declared.limits.TheConstants.{MAX_WORDS};
ghost use Rattle.mw_session.specs.StepOfLine.{Judges, Suits};
ghost use Rattle.mw_session.specs.SessionParts.{Takes, end_of};
ghost use Rattle.mw_session.specs.Talk as spec;
ghost use Rattle.mw_line.specs.Limits.{FitsLargestTenant};

use crate::session::Ended;
use mw_frame::{Feed, Line};
use mw_line::{ErrCode, Request, read_line};
use mw_words::{Job, Name};

/// For whom a session speaks.
#[derive(Clone, Copy, PartialEq, Eq)]
pub enum Bound {
    /// For nobody yet.
    Nobody,
    /// For the tenant of this number, which has so many words.
    Tenant(u8, u16),
    /// For the administrator.
    Admin,
}

/// What a session does at a line.
#[derive(PartialEq, Eq, Drop)]
pub enum Step {
    /// Say what is wrong with the line.
    Refuse(ErrCode),
    /// Look for the tenant of this name, and bind the session to it.
    Find(Name),
    /// Bind the session to the administrator.
    BindAdmin,
    /// Ask the service for this job of the tenant of this number.
    Ask(u8, Job),
    /// Report the figures.
    Report,
    /// End, as the line asks.
    Leave,
    /// End, because the line is too long.
    Overrun,
}

impl Step {
    /// How the session ends with this step, if it does.
    pub fn end(&self) -> Option<Ended>
        ensures { result ≡ end_of self.now }
    {
        match self {
            Step::Leave => Some(Ended::Quit),
            Step::Overrun => Some(Ended::TooLong),
            _ => None,
        }
    }
}

/// Takes the next line, if it is there, and gives the step that a session does at it, by what it is bound to.
pub fn next_step(feed: &mut Feed, bound: Bound) -> Option<Step>
    ensures takes { Takes feed.old feed.new bound result }
    ensures suits { IfSome result (Suits bound) }
{
    let Some(line) = feed.next() else {
        return None;
    };
    Some(step_at(bound, &line))
}

/// Gives the step that a session does at a line, by what it is bound to.
fn step_at(bound: Bound, line: &Line) -> Step
    ensures judges { Judges bound line.now result }
    ensures suits { Suits bound result }
{
    match line {
        Line::TooLong => Step::Overrun,
        Line::Text(text) => match read_line(text) {
            Ok(request) => step_for(bound, request),
            Err(fault) => Step::Refuse(fault.into()),
        },
    }
}

fn step_for(bound: Bound, request: Request) -> Step
    requires { FitsLargestTenant request }
    ensures step { result ≡ spec.step_for bound request }
    ensures suits { Suits bound result }
{
    match (request, bound) {
        (Request::Quit, _) => Step::Leave,
        (Request::Tenant(name), Bound::Nobody) => Step::Find(name),
        (Request::Admin, Bound::Nobody) => Step::BindAdmin,
        (Request::Job(_) | Request::Report, Bound::Nobody) => Step::Refuse(ErrCode::NotBound),
        (Request::Tenant(_) | Request::Admin, _) => Step::Refuse(ErrCode::AlreadyBound),
        (Request::Job(job), Bound::Tenant(number, words)) => step_for_job(number, words, job),
        (Request::Report, Bound::Admin) => Step::Report,
        (Request::Job(_), Bound::Admin) | (Request::Report, Bound::Tenant(..)) => {
            Step::Refuse(ErrCode::WrongSession)
        }
    }
}

/// Asks for a tenant's job if its addresses are below the tenant's number of words, and else refuses it.
#[tactic(auto, using(crate::proofs::Jobs::reaching_is_formed))]
fn step_for_job(number: u8, words: u16, job: Job) -> Step
    requires { IsTrue (is_well_formed MAX_WORDS job) }
    ensures step { result ≡ spec.step_for (Bound.Tenant number words) (Request.Job job) }
    ensures suits { Suits (Bound.Tenant number words) result }
{
    if reaches(words, &job) {
        Step::Ask(number, job)
    } else {
        Step::Refuse(ErrCode::AddressRange)
    }
}

/// Whether the addresses of a job are below `words`. The job is well formed for a tenant with the most words. A
/// change's addresses rise, so its last one decides.
fn reaches(words: u16, job: &Job) -> bool
    requires { IsTrue (is_well_formed MAX_WORDS job.now) }
    ensures { result ≡ spec.reaches words job.now }
{
    match job {
        Job::Get(addr) => *addr < words,
        Job::Cas(entries) => match entries.last() {
            Some(last) => last.addr < words,
            None => false,
        },
    }
}

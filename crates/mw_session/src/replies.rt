//! Takes the step that a line asks for: asks the service if the step needs it, and gives the line to say or the
//! report.
//!
//! Used by: `session.rt`, for each line. A new `Step` needs a case here, in `does` of `specs/Talk`, in `next_of` and
//! `end_of` (`specs/SessionParts`), `CanAsk` (`specs/ServiceCalls`), `Suits` (`specs/StepOfLine`), and `ends_as` and
//! `goes_as` (`proofs/AnsweredLines`).
ghost use Rattle.std.specs.Prelude.{◌≡◌, ℕ, IfNone, IfSome};
ghost use Rattle.mw_line.specs.Replies.{text_of};
ghost use Rattle.mw_session.specs.declared.steps.Bound.{Bound as BoundRead};
ghost use Rattle.mw_session.specs.declared.steps.Step.TheVariants.{Report};
ghost use Rattle.mw_session.specs.SessionParts.{Performs};
ghost use Rattle.mw_session.specs.ServiceCalls.{AreAnswered, CanAsk, IsServed};

use crate::service::Service;
use crate::steps::{Bound, Step};
use arrayvec::ArrayVec;
use mw_line::{ErrCode, Say};
use mw_report::{MAX_REPORT, report_text};

/// Takes a step: asks the service what the step needs, binds the session, and gives the line to say. None: the step
/// asks for the report, and nothing was done for it yet.
pub fn perform<S: Service>(step: &Step, bound: &mut Bound, service: &mut S) -> Option<Say>
    requires served { IsServed (S.has_words service.old) bound.old }
    requires can_ask { CanAsk (S.has_words service.old) step.now }
    ensures performs { IfSome result (λ say. Performs (AreAnswered S.answered service.old service.new) step.now bound.old bound.new (text_of say)) }
    ensures report { IfNone result (step.now ≡ Report) }
    ensures service { IfNone result (service.new ≡ service.old) }
    ensures bound { IfNone result (bound.new ≡ bound.old) }
    ensures served { IsServed (S.has_words service.new) bound.new }
{
    match step {
        Step::Refuse(fault) => Some(Say::Err(*fault)),
        Step::Find(name) => match service.find(name) {
            Some((number, words)) => {
                *bound = Bound::Tenant(number, words);
                Some(Say::Ok(words))
            }
            None => Some(Say::Err(ErrCode::NoSuchTenant)),
        },
        Step::BindAdmin => {
            *bound = Bound::Admin;
            Some(Say::OkAdmin)
        }
        Step::Ask(tenant, job) => Some(Say::Store(service.ask(*tenant, job))),
        Step::Report => None,
        Step::Leave => Some(Say::Bye),
        Step::Overrun => Some(Say::Err(ErrCode::LineTooLong)),
    }
}

/// Takes the step of a report: asks the service for the figures, and gives their text.
pub fn report<S: Service>(service: &mut S) -> ArrayVec<u8, MAX_REPORT>
    ensures performs { (bound : BoundRead) → Performs (AreAnswered S.answered service.old service.new) Report bound bound result.items }
    ensures words { (number words : ℕ) → S.has_words service.old number words → S.has_words service.new number words }
{
    let figures = service.figures();
    report_text(&figures.tenants, figures.pool_free)
}

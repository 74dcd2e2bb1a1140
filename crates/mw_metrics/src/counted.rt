//! Tells under which kind a request and its reply are counted.
//!
//! Used by: `meters`. A new job or reply needs a case here and in `specs/Counted`.
ghost use Rattle.std.specs.Prelude.{◌≡◌};
ghost use Rattle.mw_metrics.specs.Counted as spec;

use crate::kinds::{ReplyKind, RequestKind};
use mw_words::{Job, Reply};

/// Gives the kind of a request for this job.
pub fn kind_of(job: &Job) -> RequestKind
    ensures { result ≡ spec.kind_of job.now }
{
    match job {
        Job::Get(_) => RequestKind::Get,
        Job::Cas(_) => RequestKind::Cas,
    }
}

/// Gives the kind of this reply.
pub fn reply_kind(reply: &Reply) -> ReplyKind
    ensures { result ≡ spec.reply_kind reply.now }
{
    match reply {
        Reply::Val(_) => ReplyKind::Val,
        Reply::Yes => ReplyKind::Yes,
        Reply::No(_, _) => ReplyKind::No,
        Reply::Busy => ReplyKind::Busy,
        Reply::Fault => ReplyKind::Fault,
        Reply::Worn => ReplyKind::Worn,
    }
}

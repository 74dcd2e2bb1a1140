//! Tells what a reply means for the call that got it: a value, a change made or not made, or a failure.
//!
//! Used by: `administrator`, `client`, `wire`, mwbench, mw_serving_tests. A new reply (`Say`) needs a case here and in
//! `specs/Exchanges`.
ghost use Rattle.std.specs.Prelude.{◌≡◌};
ghost use Rattle.mw_client.specs.Exchanges as spec;

use mw_line::{ErrCode, Say};
use mw_words::{Entry, Reply};

/// Tells what became of a change.
#[derive(Clone, Copy, PartialEq, Eq)]
pub enum Outcome {
    /// Every word had its expected value, and every new value is written durably.
    Made,
    /// Nothing was written. The word at this address, one of the change's, had this value and not the
    /// expected one.
    Differs(u16, u64),
}

/// Tells why a call has no answer.
#[derive(Clone, Copy, PartialEq, Eq)]
pub enum Failure {
    /// An argument is out of its range. Nothing was sent, and the client is unchanged.
    Argument,
    /// The client was closed before. Nothing was sent.
    Closed,
    /// There is no connection; or it ended, broke or was silent for too long before the reply; or what came
    /// was no reply to the call. This call changed nothing. The client is closed.
    Lost,
    /// The same, after a change was sent. The change was made or not, wholly or not at all. If it was not,
    /// the server may still make it. The client is closed.
    MadeOrNot,
    /// The tenant has as many changes under way as its quota allows. Nothing was changed, and the client is
    /// unchanged.
    Busy,
    /// The tenant's file has failed. After a later start, a change answered so is found wholly or not at
    /// all. The client is unchanged.
    Fault,
    /// A number of the server is used up, and the server must be started again. A change answered so was
    /// made or not. The client is unchanged.
    Worn,
    /// The server refuses the line. Nothing was changed, and the client is unchanged.
    Refused(ErrCode),
}

/// Gives what a reply to a read means: the word's value, or why there is none.
pub fn value_told(said: Say) -> Result<u64, Failure>
    ensures { result ≡ spec.value_told said }
{
    match said {
        Say::Store(Reply::Val(value)) => Ok(value),
        other => Err(failure_of(Failure::Lost, other)),
    }
}

/// Gives what a reply to a change of these entries means: what became of it, or why that isn't known.
pub fn outcome_told(entries: &[Entry], said: Say) -> Result<Outcome, Failure>
    ensures { result ≡ spec.outcome_told entries.now said }
{
    match said {
        Say::Store(Reply::Yes) => Ok(Outcome::Made),
        Say::Store(Reply::No(addr, value)) => {
            if differs(entries, addr, value) {
                Ok(Outcome::Differs(addr, value))
            } else {
                Err(Failure::MadeOrNot)
            }
        }
        other => Err(failure_of(Failure::MadeOrNot, other)),
    }
}

/// Tells whether the server was too busy for a change.
pub fn is_busy(told: &Result<Outcome, Failure>) -> bool
    ensures { result ≡ spec.is_busy told.now }
{
    matches!(told, Err(Failure::Busy))
}

fn differs(entries: &[Entry], addr: u16, value: u64) -> bool
    ensures { result ≡ spec.differs entries.now addr value }
{
    entries
        .iter()
        .any(|entry| entry.addr == addr && !(entry.expected == value))
}

fn failure_of(gone: Failure, said: Say) -> Failure
    ensures { result ≡ spec.failure_of gone said }
{
    match said {
        Say::Store(Reply::Busy) => Failure::Busy,
        Say::Store(Reply::Fault) => Failure::Fault,
        Say::Store(Reply::Worn) => Failure::Worn,
        Say::Err(fault) => Failure::Refused(fault),
        _ => gone,
    }
}

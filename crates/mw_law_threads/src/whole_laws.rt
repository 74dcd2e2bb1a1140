//! States which changes are in a tenant's file. The functions are empty: their contracts are the facts, and a change
//! of one changes a theorem. No crate cites them; docs/PROMISES does. Change them with `specs/Whole`.
ghost use Rattle.mw_law_threads.specs.Whole.Refusals.{RefusedRequestsMakeNoChange};
ghost use Rattle.mw_law_threads.specs.Whole.WholeChanges.{DoubtIsWhole, PlacesHoldWholeChanges, RequestsAskForOneChange, RequestsStayAsked, SealedChangesAreWhole};

/// After every run, also when a number was used up:
///
/// - `places`: the change in each place of a tenant's file is just what one request asked for, the one that claimed the
///   slot. While it is prepared, no change of this request is sealed.
/// - `doubt`: the change in doubt, if there is one, is just what one request asked for of which no change is sealed. It
///   fits the words of the file.
/// - `sealed`: each sealed change is just what its own request asked for.
/// - `once`: under one number a request asks for one change only.
/// - `stay`: until the next start, a request that came has asked for the change of its job.
pub fn changes_are_whole()
    ensures places { PlacesHoldWholeChanges }
    ensures doubt { DoubtIsWhole }
    ensures sealed { SealedChangesAreWhole }
    ensures once { RequestsAskForOneChange }
    ensures stay { RequestsStayAsked }
{}

/// A request that was answered VAL, NO or BUSY makes no change: from its reply on, in every run, also when a number was
/// used up. At no moment is a change of it among those sealed since the latest start, nor is the change in doubt its own.
pub fn refused_requests_make_no_change()
    ensures { RefusedRequestsMakeNoChange }
{}

//! States that the replies of all passes are right in one history. The function is empty: its contract is the fact, and a change
//! of it changes a theorem. No crate cites it; docs/JOINTS and docs/PROMISES do. Change it with `specs/History`.
ghost use Rattle.mw_law_threads.specs.History.OneHistory.{MomentsHaveOneHistory};

use mw_rule::Begins;

/// At every moment of the shared words one run of the model is behind what all passes know, whether they ever meet or
/// not: the run by which the words are under their rule.
///
/// `history`: each VAL, NO and YES that any pass has given is right at its position among its tenant's sealed changes in
/// this run. The run handed out each reply. No two replies are to one request, and each YES has a change of its own. What
/// a pass has seen are the first of these changes. None of them is of a request that was answered VAL, NO or BUSY; nor
/// is the change in doubt in the tenant's file.
///
/// When each reply was true, and the order in time of replies that two passes have given: `specs/AfterReplies`.
pub fn every_moment_has_one_history<B: Begins>()
    ensures history { (key : B) → MomentsHaveOneHistory (B.config key) (B.begun key) }
{}

//! States that each reply has a moment. The function is empty: its contract is the fact, and a change of it changes a
//! theorem. No crate cites it; docs/THEOREM does. Change it with `specs/Moments`.
ghost use Rattle.mw_law_threads.specs.Moments.Moments.{RepliesHaveMoments, SharedWordsAreTheFiles};

/// Each reply but WORN was true at a moment of its call, in every run, also when a number was used up. The call is what
/// happens from the arrival of the request until its reply is handed out, with no start in between.
///
/// - VAL: at that moment the word had that value.
/// - NO: at that moment the word had that value, which is not the expected one.
/// - YES: by one event of the call the words that the request expects became the words that it wants.
/// - BUSY: at that moment the tenant's door counted as many slots in use as the quota allows, and had no fault.
/// - FAULT: at that moment the tenant's door had the fault.
///
/// Of VAL, NO and YES, a mark of the request stands for this moment, after the line with which the request came: before
/// the mark the same changes are sealed as at the moment. The words are those of the tenant's file. While numbers are
/// left, the shared words are the same, if the file opened at the last start.
pub fn replies_have_moments()
    ensures moments { RepliesHaveMoments }
    ensures shared { SharedWordsAreTheFiles }
{}

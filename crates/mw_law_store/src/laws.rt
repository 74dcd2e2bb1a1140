//! States what is proved of each tenant and its store alone (the sequential reference model). The functions are
//! empty: their contracts are the facts.
//!
//! mw_rule, mw_simulator and mw_law_threads cite the lemmas behind them. A change of a contract changes a theorem: the
//! last is that of docs/THEOREM.md.
ghost use Rattle.mw_world.specs.Claim.Headline.{EqualMarksHaveEqualReplies, EveryRunIsDurablyLinearizable};
ghost use Rattle.mw_law_store.specs.Durability.{SealsAreDurable};
ghost use Rattle.mw_law_store.specs.DurabilityInRuns.{RunsKeepAcknowledged};
ghost use Rattle.mw_law_store.specs.History.{AsksStandOnce, RepliesHavePlaces, SealedComeInOrder, SealsFit, SealsStay, SealsStayLong, WordsAreOfSealed};
ghost use Rattle.mw_law_store.specs.ReplyPlaces.{AsksTellTheirJobs, CallsKeepTheirPlace, PlacesStayRight, RepliesAreLinearized, RequestsBegin, RequestsHaveBegun, RequestsStayBegun, SealedAreRight, SealedGoOn, SealsBegin, StartsSealNothing};
ghost use Rattle.mw_law_store.specs.Own.{FaultsAreCounted, FaultsAreOwn, MarksAreOwn, NeighboursFaultsLeaveNoMark};
ghost use Rattle.mw_law_store.specs.Quotas.{EventsTellQuotas, QuotasAreTold, QuotasMayStay, QuotasStayWithinThePool};
ghost use Rattle.mw_law_store.specs.Laws.{DecidedChangesFit, EventsAreSimulated, EventsKeepWorldFacts, LateMarksLeaveReplies, LinesAreAbstractStates, RunsAreSimulated, RunsHaveWorldFacts, LabelsKeepHistoryMatch, WordsAreOfMarks};
ghost use Rattle.mw_law_store.specs.ReadRetries.{ReadsFindTheirWay, ReadsTurnBackForThreeReasons};
ghost use Rattle.mw_law_store.specs.Worn.{AttemptsAreNumbers, RunsAreNotWorn};

/// After every legal run of the store alone, its words are the first ones with changes put over them, in the
/// order of the marks: the change of each seal, and of each start that took one. Lines lead to the same
/// abstract state as the marks among them.
pub fn words_are_of_marks()
    ensures words { WordsAreOfMarks }
    ensures lines { LinesAreAbstractStates }
{}

/// Lines without a start put the changes that they seal over the words, in order. The changes sealed before a
/// place are a prefix of those sealed by all lines. At the place of a seal, its request's change comes right
/// after that prefix.
pub fn sealed_come_in_order()
    ensures words { WordsAreOfSealed }
    ensures order { SealedComeInOrder }
{}

/// Acknowledged changes are durable. After every legal run of the store alone, its words are the first ones
/// with all changes put over them. Each request that was handed YES came, was sealed and then got its reply,
/// with no start in between. What it asked for is one of the changes that were put over the words.
pub fn seals_are_held()
    ensures { SealsAreDurable }
{}

/// If lines match a store, they match it after each relaxed step, with any label that may be added.
pub fn labels_keep_history_match()
    ensures { LabelsKeepHistoryMatch }
{}

/// A mark that is put in late leaves the replies that were handed out.
pub fn late_marks_leave_replies()
    ensures { LateMarksLeaveReplies }
{}

/// Every event of a sound world keeps the facts about it that marks need, and they hold after every run.
pub fn runs_have_world_facts()
    ensures keep { EventsKeepWorldFacts }
    ensures runs { RunsHaveWorldFacts }
{}

/// A change that is decided to be made, and not yet made, fits the words of its tenant's file.
pub fn changes_fit()
    ensures { DecidedChangesFit }
{}

/// In a run in which there are numbers left, no request is on the way to WORN.
pub fn runs_are_not_worn()
    ensures { RunsAreNotWorn }
{}

/// After every run, also when numbers are used up, the number of a worker's next attempt is one that an attempt
/// can have, or the next one, which no attempt has.
pub fn attempts_are_numbers()
    ensures { AttemptsAreNumbers }
{}

/// A read begins again for three reasons only, in every run, also when numbers are used up:
///
/// - The word was another one when the read loaded it again.
/// - The gate of its slot was not as the word, or the row of its attempt, implies.
/// - The gate changed between its load and the exchange that should pin it.
///
/// `ways` says why there is no other reason. The gate of such a slot has room for a pin, and a number that is
/// not worn. One of the slot's entries is the word's. No word is held by a change that was made and is done
/// with.
pub fn reads_turn_back_for_three_reasons()
    ensures ways { ReadsFindTheirWay }
    ensures reasons { ReadsTurnBackForThreeReasons }
{}

/// A store alone simulates each tenant's part of a world after every run, also when a number was used up. Each
/// event that is not a start makes at most one step of that store.
pub fn runs_are_simulated()
    ensures keep { EventsAreSimulated }
    ensures runs { RunsAreSimulated }
{}

/// After every run, also when a number was used up, each reply has its place among its tenant's lines and
/// sealed changes. Each of these changes fits the words before it, and each request came at one line alone.
/// Until the next start, each mark among the lines stays at its place.
pub fn replies_have_places()
    ensures places { RepliesHavePlaces }
    ensures asks { AsksStandOnce }
    ensures fit { SealsFit }
    ensures stay { SealsStay }
    ensures long { SealsStayLong }
{}

/// The changes of a tenant that were sealed since its last start grow one by one. There are none when a run
/// begins, and none after each start. Every other event leaves them, or adds one at the end. Each fits the
/// words after those before it, and no request has two. The words after all of them are the words of the
/// tenant's file.
pub fn sealed_changes_go_on()
    ensures begin { SealsBegin }
    ensures start { StartsSealNothing }
    ensures go_on { SealedGoOn }
    ensures right { SealedAreRight }
{}

/// Each worker's request has a count: how many of its tenant's changes were sealed when it came. The count is
/// known when the request comes. It stays known over every event but a start, while the worker has the request.
/// A line that says that the request came has its job.
pub fn requests_have_begun()
    ensures come { RequestsBegin }
    ensures stay { RequestsStayBegun }
    ensures all { RequestsHaveBegun }
    ensures jobs { AsksTellTheirJobs }
{}

/// A reply has a linearization point: it is right at a place among its tenant's sealed changes that is no
/// smaller than the number of changes that were sealed when its request came. The same holds over a whole call.
/// The reply stays right there when more changes are sealed. BUSY, FAULT and WORN are right at every place.
pub fn replies_are_linearized()
    ensures replies { RepliesAreLinearized }
    ensures calls { CallsKeepTheirPlace }
    ensures stay { PlacesStayRight }
{}

/// Only events of a tenant's own requests, and starts, change its tenant state, with its marks and its file. A
/// mark of a failure of its file is added by each call on its own file in which a device call fails, and by
/// nothing else. So a neighbour's failing disk leaves no mark.
pub fn marks_are_own()
    ensures own { MarksAreOwn }
    ensures neighbours { NeighboursFaultsLeaveNoMark }
    ensures faults { FaultsAreOwn }
    ensures counted { FaultsAreCounted }
{}

/// A tenant's marks tell its quota. Only a start changes the quota, and nothing changes how many places the
/// tenant's file has. After every run, also when a number was used up:
///
/// - The quota is the one that the last start among the marks gives, else the one with which the run began.
/// - It is within its limits, and at most the number of the file's places, which are as many as at the
///   beginning.
/// - The pool has slots for the quotas of all tenants together.
///
/// A start that gives no quota to any tenant leaves quotas that fit.
pub fn quotas_are_told()
    ensures events { EventsTellQuotas }
    ensures told { QuotasAreTold }
    ensures together { QuotasStayWithinThePool }
    ensures stay { QuotasMayStay }
{}

/// The theorem. In every run in which there are numbers left, each tenant is served as its store alone would
/// serve it. Two tenants of such runs that began alike and have the same marks are handed the same replies. The
/// words of a tenant's file hold each change that was acknowledged.
pub fn every_run_is_durably_linearizable()
    ensures alone { EveryRunIsDurablyLinearizable }
    ensures equal { EqualMarksHaveEqualReplies }
    ensures held { RunsKeepAcknowledged }
{}

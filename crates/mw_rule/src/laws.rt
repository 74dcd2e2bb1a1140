//! States what is proved of the rule that ties the threads' shared words to a run of the world (`specs/Rule`).
//!
//! The functions are empty: their contracts are the facts. mw_table, mw_service and mw_law_threads cite the lemmas
//! behind them. To change a fact, begin with its definition in `specs`.
ghost use Rattle.mw_rule.specs.WholeCalls.{CallsBegin, CallsTakeFiles, CallsDealt, CallsEnd, CallsFile, CallsGiveBack, CallsGoOn, CallsMeet, CallsOverPlainLoads, CallsStart};
ghost use Rattle.mw_rule.specs.RunEvents.{FileCallsEndOn, FileCallsFindFaultsOn, FileCallsLoadOn, FileCallsMeetFaultsOn, FirstStepsGoOn, JoinsGoOn, PlainLoadsGoOn, PartsGoOn, StepsGoOn};
ghost use Rattle.mw_rule.specs.Laws.{TakingFilesKeepsTheRule, FileCallsEndWell, FileCallsFindFaults, FileCallsLoad, FileCallsMeetFaults, FilesAreOfSeen, ChangesAreOwn, SplitsKeepTheRule, GivingFilesKeepsTheRule, FirstStepsKeepTheRule, MergedPartsAgain, MergingKeepsTheRule, LearningKeepsTheRule, PlainLoadsKeepTheRule, MeetingKeepsTheRule, MeetingsAreRight, NotesKeepTheRule, NotesLoseNothing, PartsAreRight, StartsUnderTheRule, StepsKeepTheRule};
ghost use Rattle.mw_rule.specs.StoreAlone.{FinishedAreOfStoreAlone};
ghost use Rattle.mw_rule.specs.Layout.{PlacesAreInTable, PlacesAreWithin, PlacesStandApart};
ghost use Rattle.mw_rule.specs.WordActions.{AnyNumberFails, FirstStepsAreEvents, PlainLoadsAreNoEvents, ActionsAreAllowed, ActionsChangeWords, ActionsExtendRuns, StepsAreEvents};

use crate::rule::Begins;

/// Each shared word of the world has an index in the table, and two words have two indexes.
pub fn places_stand_apart()
    ensures within { PlacesAreWithin }
    ensures there { PlacesAreInTable }
    ensures apart { PlacesStandApart }
{}

/// The rule holds of a table that is made of a world after a run with which it may begin.
pub fn tables_start_under_the_rule<B: Begins>()
    ensures { (key : B) → StartsUnderTheRule (B.config key) (B.begun key) }
{}

/// The steps of threads keep the rule.
///
/// - A step of the request that a thread carries keeps it, and so does a request's first step, with which it comes.
///   The worker's token then has this step as one event more. A first step adds the coming before it, and a last step
///   adds the hand-out of the reply after it.
/// - With its reply the request is added to the finished ones, at a position where the reply is right. The position
///   is at least the number of changes that the thread had seen when the request came, or 0 if it came before the
///   table was made. No other step adds a finished request.
/// - A load that is no event keeps the rule and tells what the word held.
/// - What a thread has seen and finished is right by itself.
pub fn steps_keep_the_rule<B: Begins>()
    ensures steps { (key : B) → StepsKeepTheRule (B.config key) (B.begun key) }
    ensures first { (key : B) → FirstStepsKeepTheRule (B.config key) (B.begun key) }
    ensures looks { (key : B) → PlainLoadsKeepTheRule (B.config key) (B.begun key) }
{}

/// The steps of a call on a tenant's file keep the rule, if the one thread that has the file makes them.
///
/// - First the thread loads the status of the change. If the call doesn't start from this status, that load was the
///   whole call, which does nothing. Else the call can be made, unless the file has failed.
/// - The thread may then end it as a call that went well, by an exchange of the status, which always wins.
/// - Or it ends it as a call in which a device call failed, by the fault at the tenant's door. It may name any of the
///   call's device calls.
/// - If the file had failed before, it ends it by that fault alone.
///
/// The thread says which of these happened, because the rule knows no device. The request learns how the call went.
/// What the thread knows of the file is then what is true after a call that ended so.
pub fn file_calls_keep_the_rule<B: Begins>()
    ensures load { (key : B) → FileCallsLoad (B.config key) (B.begun key) }
    ensures end { (key : B) → FileCallsEndWell (B.config key) (B.begun key) }
    ensures faults { (key : B) → FileCallsMeetFaults (B.config key) (B.begun key) }
    ensures failed { (key : B) → FileCallsFindFaults (B.config key) (B.begun key) }
{}

/// Each call on a file adds one event to the table's run: this worker's call was made, and which device call failed
/// in it, if the thread ended it so.
pub fn file_calls_are_events<B: Begins>()
    ensures load { (key : B) → FileCallsLoadOn (B.config key) (B.begun key) }
    ensures end { (key : B) → FileCallsEndOn (B.config key) (B.begun key) }
    ensures faults { (key : B) → FileCallsMeetFaultsOn (B.config key) (B.begun key) }
    ensures failed { (key : B) → FileCallsFindFaultsOn (B.config key) (B.begun key) }
{}

/// A step of a request extends the table's run by its own event and, if the request has its reply then, by the hand-
/// out of the reply. A request's first step also adds, before these, that the request came. A load that is no step
/// adds no event; nor does it if threads split or merge what they know. The run's start stays the same.
pub fn the_run_goes_on<B: Begins>()
    ensures steps { (key : B) → StepsGoOn (B.config key) (B.begun key) }
    ensures first { (key : B) → FirstStepsGoOn (B.config key) (B.begun key) }
    ensures looks { (key : B) → PlainLoadsGoOn (B.config key) (B.begun key) }
    ensures parts { (key : B) → PartsGoOn (B.config key) (B.begun key) }
    ensures joins { (key : B) → JoinsGoOn (B.config key) (B.begun key) }
{}

/// The rule allows each action of a thread on a word, and each action extends the table's run by exactly its events.
///
/// - `go_on`, `allowed`: what the thread knew was true before these events, after a run that extends the one that it
///   knew, if it knew one. What it learns is true after them.
/// - `words`: the bits that the action found are in the world before these events, and the bits that it left are in
///   the world after them.
/// - `steps`, `first`, `looks`: a step of a request is one event, and the hand-out of the reply if the request has it
///   then. A first step also adds the coming. A load that is no step is no event.
/// - `numbers`: no law says which device call failed in a call on a file. If the run can be extended with one of the
///   call's device calls, it can be with any other.
pub fn moves_are_of_the_run<B: Begins>()
    ensures go_on { (key : B) → ActionsExtendRuns (B.config key) (B.begun key) }
    ensures allowed { (key : B) → ActionsAreAllowed (B.config key) (B.begun key) }
    ensures words { (key : B) → ActionsChangeWords (B.config key) (B.begun key) }
    ensures steps { (key : B) → StepsAreEvents (B.config key) (B.begun key) }
    ensures first { (key : B) → FirstStepsAreEvents (B.config key) (B.begun key) }
    ensures looks { (key : B) → PlainLoadsAreNoEvents (B.config key) (B.begun key) }
    ensures numbers { AnyNumberFails }
{}

/// Threads may split and merge what they know, and the rule is kept.
///
/// - A thread may give a token to a new thread, with the requests that its worker finished, and may make a note of
///   what it saw.
/// - A thread may learn what a note says. If it saw no more than the note says, it may take the note as seen by
///   itself.
/// - A thread may merge all that another thread knew, if that thread saw no less.
/// - A thread may give a file alone to a new thread, with what it knows of the run. A thread may take another's files
///   and learn what that knew of the run; nothing else of the other is kept.
pub fn what_is_known_is_parted<B: Begins>()
    ensures deals { (key : B) → SplitsKeepTheRule (B.config key) (B.begun key) }
    ensures notes { (key : B) → NotesKeepTheRule (B.config key) (B.begun key) }
    ensures learns { (key : B) → LearningKeepsTheRule (B.config key) (B.begun key) }
    ensures meets { (key : B) → MeetingKeepsTheRule (B.config key) (B.begun key) }
    ensures merges { (key : B) → MergingKeepsTheRule (B.config key) (B.begun key) }
    ensures gives_file { (key : B) → GivingFilesKeepsTheRule (B.config key) (B.begun key) }
    ensures takes_files { (key : B) → TakingFilesKeepsTheRule (B.config key) (B.begun key) }
{}

/// What a thread has seen and finished stays right when it is split, and when two threads meet, which loses no
/// finished request. It follows that each request that was answered YES has a change of its own. After a load, each
/// file that a thread holds has the words that the start gave, with all changes that the thread has seen put over them.
pub fn knowledge_stays_right()
    ensures parts { PartsAreRight }
    ensures meetings { MeetingsAreRight }
    ensures nothing_lost { NotesLoseNothing }
    ensures part_again { MergedPartsAgain }
    ensures own { ChangesAreOwn }
    ensures files { FilesAreOfSeen }
{}

/// A thread serves a request from its first step, or from the making of the table if its worker has it already, until
/// its reply is there.
///
/// Until then, what the thread has seen only grows, and the thread finishes no request. This holds over each further
/// step, over loads that are no step, over meetings with others, and over each call on its file, for which the thread
/// takes the file and gives it back. With its reply one request more is finished. The reply is right at a position
/// that is at least what the thread had seen when the request came.
pub fn calls_are_noted()
    ensures begin { CallsBegin }
    ensures go_on { CallsGoOn }
    ensures take_files { CallsTakeFiles }
    ensures start { CallsStart }
    ensures file { CallsFile }
    ensures give_back { CallsGiveBack }
    ensures stand { CallsOverPlainLoads }
    ensures meet { CallsMeet }
    ensures dealt { CallsDealt }
    ensures end { CallsEnd }
{}

/// The requests that a thread's workers finished are answered as each tenant's store alone answers them, as long as
/// the run behind what the thread knows has numbers left.
///
/// Given the tenant's marks, that store hands out each reply under its request's number. The words of the tenant's
/// file are its first words with all changes of these marks put over them, and each YES has its change among these.
pub fn finished_are_of_the_store_alone()
    ensures { FinishedAreOfStoreAlone }
{}

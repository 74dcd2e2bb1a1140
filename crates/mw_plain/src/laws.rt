//! The law that ties the calls of the plain store to the store alone of mw_lone: the contract of an empty function.
//!
//! Nothing calls it. Change it with `specs/Marks` and `specs/Cases`.
ghost use Rattle.mw_plain.specs.Marks.{StartGoes, FinishGoes, AskGoes, AllGo, OneMoreFits, MayStop, RunsJoin, RepliesJoin};

/// What each call of a plain store is to a tenant's store alone, by the case that the call comes to: the case's
/// marks are legal, hand out the call's reply, and leave the store that the case says.
pub fn marks_of_a_call()
    ensures start { StartGoes }
    ensures finish { FinishGoes }
    ensures ask { AskGoes }
    ensures all { AllGo }
    ensures one_more { OneMoreFits }
    ensures stop { MayStop }
    ensures runs { RunsJoin }
    ensures replies { RepliesJoin }
{}

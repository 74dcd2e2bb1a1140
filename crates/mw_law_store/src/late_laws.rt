//! States what is proved of marks: what each does to a store alone, and that a mark may be put into a history late.
//!
//! The functions are empty: their contracts are the facts. mw_law_threads cites lemmas behind them. To change a fact,
//! begin with its definition in `specs/Late`.
ghost use Rattle.mw_law_store.specs.Late.Examples.{LateMarkComesOut};
ghost use Rattle.mw_law_store.specs.Late.Laws.{MarksDo, DoingIsMarked, LinesAreRun, LinesExtend, EmptyPlaceAddsNothing, RepliesCommute, OthersAreLeft, RunsNumber, LateMark, LateMarkOfAll, NothingBetween, PlaceIsReserved, ReservedBesideALine, ReservedBesideALateMark};

/// Each mark is legal exactly under the conditions that `Does` lists for it, and leaves the store that `Does` lists
/// for it.
pub fn marks_do()
    ensures does { MarksDo }
    ensures legal { DoingIsMarked }
{}

/// Running lines, some of which are empty, is running their marks. A line added at the end is one more step. An empty
/// line adds nothing.
pub fn lines_are_run()
    ensures same { LinesAreRun }
    ensures extend { LinesExtend }
    ensures empty { EmptyPlaceAddsNothing }
{}

/// A legal mark that isn't about a request leaves that request as it was. The mark also commutes with a reply to the
/// request: it stays legal after the reply, and either order leaves the same store.
pub fn replies_commute()
    ensures commute { RepliesCommute }
    ensures left { OthersAreLeft }
{}

/// After every legal run from a new store each request has a number below the next one.
pub fn runs_number()
    ensures { RunsNumber }
{}

/// A Look or a Miss may be put in late, at a place that was reserved for it, if its request has no reply at the end.
/// The marks are then still a legal run, and at the end the store differs only in that the request has its reply.
///
/// While the request has no reply, no mark after the place is about it, and the request is as it was at the place.
pub fn late_marks_are_legal()
    ensures late { LateMark }
    ensures all { LateMarkOfAll }
    ensures between { NothingBetween }
{}

/// An empty place at the end is reserved for each Look or Miss that would answer a request there. It stays reserved
/// when a line is added at the end. It also stays reserved when a late mark is put in at another reserved place, if
/// the request of that mark has no reply at the end.
pub fn places_stay_reserved()
    ensures kept { PlaceIsReserved }
    ensures line { ReservedBesideALine }
    ensures other { ReservedBesideALateMark }
{}

/// An example. At a reserved place a change's only word differs from the value that the change expects; at the end it
/// has that value. So a refusal is illegal at the end. At the place it is legal, and tells the word of that moment.
pub fn a_late_mark_comes_out()
    ensures { LateMarkComesOut }
{}

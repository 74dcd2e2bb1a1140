//! States what is proved of two counts of a world: the pins of each slot, and the slots that each tenant's door
//! counts.
//!
//! The functions are empty: their contracts are the facts. mw_law_store cites the lemmas behind them. To change a fact,
//! begin with its definition in `specs`.
ghost use Rattle.mw_law_runs.specs.Counts.Alone.{DoorsCountTheTaken, WhoFreesIsAlone, WhoWaitsHasRoom};
ghost use Rattle.mw_law_runs.specs.Counts.Exact.{ExchangesAreExact};
ghost use Rattle.mw_law_runs.specs.Counts.Laws.{EventsKeepCounts, RunsKeepCounts, RunsLeaveRoom, StartsStand};

/// The invariant of counts (`CountsStand`) holds at every start with which a run may begin.
pub fn starts_count_right()
    ensures { StartsStand }
{}

/// Every event keeps the invariant of counts (`CountsStand`), if `CountsRestOn` holds before the event.
///
/// The invariant says: the counts are right (pins, slots that will be freed, doors, quotas). A gate that isn't taken
/// has no pins. A slot that is taken is taken for one of the tenants. Each request belongs to its worker and is ready
/// for its next step.
pub fn events_keep_counts()
    ensures { EventsKeepCounts }
{}

/// After every run the invariant of counts holds and there is room in the pool, if `CountsRestOn` holds at each
/// moment of the run.
pub fn runs_keep_counts()
    ensures counts { RunsKeepCounts }
    ensures room { RunsLeaveRoom }
{}

/// If the invariant of counts holds, a worker that will free a slot, because it took the last pin back, is alone with
/// it: see `IsAloneWith`.
pub fn who_frees_is_alone()
    ensures { WhoFreesIsAlone }
{}

/// If the invariant of counts holds, there is room in the pool. No more slots are taken than the doors count. While a
/// tenant's door counts a slot that a request hasn't taken yet, or has already freed, some slot of the pool isn't
/// taken.
pub fn pool_has_room()
    ensures taken { DoorsCountTheTaken }
    ensures free { WhoWaitsHasRoom }
{}

/// An exchange of a door or a gate that finds the bits of the expected value finds exactly that value. The premises:
/// all shared words are in range, and so is the request with the values that it expects.
pub fn exchanges_are_exact()
    ensures { ExchangesAreExact }
{}

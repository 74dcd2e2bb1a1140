//! States what holds of every run of one request, whatever its steps find in the shared words.
//!
//! The functions are empty: their contracts are the facts. No crate cites them, but mw_law_store the lemmas
//! behind them; docs/HOW-IT-IS-PROVED cites two. To change a fact,
//! begin with its definition in `specs`.
ghost use Rattle.mw_law_runs.specs.Requests.Order.{StepsComeInTurn};
ghost use Rattle.mw_law_runs.specs.Requests.HoldOrder.{PlantsRise};
ghost use Rattle.mw_law_runs.specs.Requests.Runs.{FileCallsAreOfPinnedSlots, GatesAreMovedByTheRules, LastPinsAreFreed, RepliesGiveBack, RequestsStayWithTheirTenant};

/// A request names no door and no word of another tenant.
pub fn requests_stay_with_their_tenant()
    ensures { RequestsStayWithTheirTenant }
{}

/// A request calls its file only for a slot of which it holds a pin: it won more pins of that slot than it has taken
/// back.
pub fn file_calls_are_of_pinned_slots()
    ensures { FileCallsAreOfPinnedSlots }
{}

/// A change exchanges a gate only for a claimed one, or for one with one more pin under the same number.
pub fn gates_are_moved_by_the_rules()
    ensures { GatesAreMovedByTheRules }
{}

/// If a change takes back the last pin of a slot, its next step frees the slot under the next number. The step after
/// that counts the slot off the tenant's door.
pub fn last_pins_are_freed()
    ensures { LastPinsAreFreed }
{}

/// When a change gets its reply, it has given back all that it took: it took back every pin that it won, freed each
/// slot whose last pin it took back, and counted each of these off the door. A change that gives up keeps one pin of
/// its own slot.
pub fn replies_give_back()
    ensures { RepliesGiveBack }
{}

/// The steps of a change with at least one entry come in this order: it is admitted, claims a slot, writes all of
/// itself into the slot, and calls its file to prepare it. Only then does it pin, announce a row, plant, resolve,
/// decide, release or clean, or make any other call on its file.
pub fn steps_come_in_turn()
    ensures { StepsComeInTurn }
{}

/// A change with at least one entry plants at the word of an entry only after its last load of a status found its
/// target open, and after it saw the word of each earlier entry held since then. It decides that the target is made
/// only after it saw all words of the target held since then.
pub fn plants_rise()
    ensures { PlantsRise }
{}

//! States that every event keeps a world sound (what holds at every moment of a run, except of files and marks).
//!
//! The functions are empty: their contracts are the facts. mw_law_store, mw_rule and mw_law_threads cite the lemmas
//! behind them. To change a fact, begin with its definition in `specs`.
ghost use Rattle.mw_world.specs.Claim.Headline.{ShortRunsHaveNumbers};
ghost use Rattle.mw_world.specs.Claim.BitExactness.{CallersStatusStays, EveryRunIsBitExact};
ghost use Rattle.mw_law_runs.specs.Laws.{CallsKeepSound, ComesKeepSound, CountsHaveRest, EventsKeepSound, HandsKeepSound, PinnedGatesKeepTheirNumbers, RestartsKeepSound, RoomIsLeft, RunsAreSound, SoundWorldsAreRight, StartsAreSound, TurnsKeepSound};
ghost use Rattle.mw_law_runs.specs.Places.{PlacesAreThere};
ghost use Rattle.mw_law_runs.specs.ObligationLaws.{CallsKeepReleasers, LastPinsAreFree, RequestsReleaseTheirWords, StepsKeepReleasers};

/// If words have releasers as `WordsHaveReleasers` says, then they have them as the world's invariant requires. This
/// is about words held for a refused change, and about words with the value of a made change and its slot.
pub fn requests_release_their_words()
    ensures { RequestsReleaseTheirWords }
{}

/// When a request takes back the last pin of a slot, no word refers to the slot.
///
/// The premises: the invariant of counts holds, and words have releasers. The history tells what each worker may do,
/// as its request's point says. Each request belongs to its worker and is informed (`IsInformed`).
pub fn last_pins_are_free()
    ensures { LastPinsAreFree }
{}

/// Words keep their releasers over a step of a request that is no call on a file, if the precondition of each of its
/// moves holds. The other premises are those of [`last_pins_are_free`].
pub fn steps_keep_releasers()
    ensures { StepsKeepReleasers }
{}

/// Words keep their releasers over a call on a file, however it ends, if each request belongs to its worker and is
/// informed.
pub fn calls_keep_releasers()
    ensures { CallsKeepReleasers }
{}

/// In a sound world the counts of pins and slots have what they rest on (`CountsRestOn`).
pub fn counts_have_rest()
    ensures { CountsHaveRest }
{}

/// A step of a request that is no call on a file leaves a sound world sound.
pub fn turns_keep_sound()
    ensures { TurnsKeepSound }
{}

/// A call on a file leaves a sound world sound, however it ends.
pub fn calls_keep_sound()
    ensures { CallsKeepSound }
{}

/// A request that arrives leaves a sound world sound, if a world can be made of the configuration.
pub fn comes_keep_sound()
    ensures { ComesKeepSound }
{}

/// A reply that is handed out leaves a sound world sound.
pub fn hands_keep_sound()
    ensures { HandsKeepSound }
{}

/// A world is sound at the beginning of a run, if the start gives each tenant words and a quota that fit. A start
/// from a sound world also leaves a sound world, if it finds no word above the greatest value. Both need a
/// configuration of which a world can be made.
pub fn starts_are_sound()
    ensures first { StartsAreSound }
    ensures again { RestartsKeepSound }
{}

/// A run with fewer events than there are numbers, counted from the first one, has numbers left at every moment. The
/// reason: an event raises the number of a slot, or of a worker's next attempt, by at most one.
pub fn short_runs_have_numbers()
    ensures { ShortRunsHaveNumbers }
{}

/// After every run the next step of each request without a reply is at a place that exists, unless it is a call on a
/// file. So no request asks for a step that the definition refuses because of its place.
pub fn places_are_there()
    ensures { PlacesAreThere }
{}

/// Every run is bit-exact. The value at each place is in range. The next step of each request without a reply, if it
/// is no call on a file, is at a place that exists and is in range. In bits it leaves what the definition says.
pub fn runs_are_bit_exact()
    ensures { EveryRunIsBitExact }
{}

/// After every run, a request may be at a call on its file, and its change may have the status that the call starts
/// from. Then no step of another worker changes that status, and no call of another worker on another tenant's file
/// does.
pub fn callers_status_stays()
    ensures { CallersStatusStays }
{}

/// Every event leaves a sound world sound and keeps words that fit in its files. The premises: the files had such
/// words before, and a world can be made of the configuration.
pub fn events_keep_sound()
    ensures { EventsKeepSound }
{}

/// Every run leads to a sound world, and there is room in the pool after it. A sound world has all of the invariant
/// except what is said of files and of changes' places in them.
pub fn runs_are_sound()
    ensures runs { RunsAreSound }
    ensures right { SoundWorldsAreRight }
    ensures room { RoomIsLeft }
{}

/// After every run, if somebody holds a pin of a gate, each event but a start leaves the gate's number.
pub fn pinned_gates_keep_their_numbers()
    ensures { PinnedGatesKeepTheirNumbers }
{}

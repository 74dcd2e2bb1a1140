//! Laws about `HasFiles`: the shared words agree with each tenant's file, and each change that is in its file has a
//! place of its own there.
//!
//! The functions are empty: their contracts are the facts, proved in `proofs/file_laws`. To change a fact, begin with
//! its definition in `specs`. docs/PROMISES and docs/THEOREM cite `every_run_holds`. mw_rule, mw_simulator
//! and mw_law_threads import the proofs.
ghost use Rattle.mw_world.specs.Claim.Headline.{EveryRunHolds};
ghost use Rattle.mw_law_store.specs.Files.Enabled.{CallsCanBeMade, RunsAreEnabled, StartsFindWords};
ghost use Rattle.mw_law_store.specs.Files.Laws.{CallsKeepFiles, ComesKeepFiles, EventsKeepFiles, FirstStartsHaveFiles, HandsKeepFiles, RestartsKeepFiles, RunsGoOn, RunsHaveFiles, SoundWorldsWithFilesAreRight, StartsHaveFiles, TurnsKeepFiles};
ghost use Rattle.mw_law_store.specs.Files.Ready.{OtherEventsDoNot, ReadyEventsHappen};
ghost use Rattle.mw_law_store.specs.Files.Room.{OutsideLeavesRoom};

/// A step of a request that is not a call on a file keeps `HasFiles`, the facts about the files of a sound
/// world.
pub fn turns_keep_files()
    ensures { TurnsKeepFiles }
{}

/// A call on a file keeps `HasFiles`, however it ends.
pub fn calls_keep_files()
    ensures { CallsKeepFiles }
{}

/// A request that comes keeps `HasFiles`.
pub fn comes_keep_files()
    ensures { ComesKeepFiles }
{}

/// A reply that is handed out keeps `HasFiles`.
pub fn hands_keep_files()
    ensures { HandsKeepFiles }
{}

/// `HasFiles` holds at each start at which each tenant's file was just opened. So it holds at every start with
/// which a run may begin, and after a start of a world in which it holds.
pub fn starts_have_files()
    ensures start { StartsHaveFiles }
    ensures first { FirstStartsHaveFiles }
    ensures again { RestartsKeepFiles }
{}

/// Every event of a sound world keeps `HasFiles`.
pub fn events_keep_files()
    ensures { EventsKeepFiles }
{}

/// `HasFiles` holds after every run. It also holds at the end of each list of events that begins in a sound
/// world in which it holds and whose files have words that fit. A sound world in which it holds has the whole
/// invariant.
pub fn runs_have_files()
    ensures goes_on { RunsGoOn }
    ensures files { RunsHaveFiles }
    ensures right { SoundWorldsWithFilesAreRight }
{}

/// After every run the whole invariant holds and there is room in the pool, also when numbers are used up. The
/// world's own tests refuse nothing for which a request asks. The run is one of a server of a configuration
/// that a world can be made of, from any start of its files.
pub fn every_run_holds()
    ensures { EveryRunHolds }
{}

/// While a slot is taken for a tenant and its change is not in the tenant's file, the file has an empty place
/// among its first ones, as many as the tenant may use slots. The lowest of these is the lowest empty place of
/// the whole file.
pub fn outside_leaves_room()
    ensures { OutsideLeavesRoom }
{}

/// The call on a file to which a request has come can be made, in a sound world in which `HasFiles` holds.
pub fn calls_can_be_made()
    ensures { CallsCanBeMade }
{}

/// Some words pass the test for what a start finds, in any world, whatever call is interrupted.
pub fn starts_find_words()
    ensures { StartsFindWords }
{}

/// After any run the world's own tests refuse nothing for which a request asks. About starts this says only
/// that some words pass the test for them.
pub fn runs_are_enabled()
    ensures { RunsAreEnabled }
{}

/// After every run an event can happen exactly if it is ready:
///
/// - A request comes to an idle worker.
/// - A worker hands out the reply that its request has.
/// - A worker makes the step or the call to which its request has come.
/// - A device call fails in a call that makes it.
/// - All stops and starts again, if the files may be found so and the quotas of the start fit.
pub fn ready_events_happen()
    ensures ready { ReadyEventsHappen }
    ensures others { OtherEventsDoNot }
{}

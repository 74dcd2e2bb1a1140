//! States that one store alone takes what a server did before a start, the start, and what the next server does. The
//! functions are empty: their contracts are the facts, and a change of one changes a theorem. No crate cites them;
//! docs/THEOREM cites `tables_in_turn_are_of_one_store`. Change them with `specs/NextRuns`.
ghost use Rattle.mw_law_threads.specs.NextRuns.LaterStores.{StoresGoOn};
ghost use Rattle.mw_law_threads.specs.NextRuns.ServersInTurn.{ServersInTurnAreOfOneStore};
ghost use Rattle.mw_law_threads.specs.NextRuns.FoundAfterCrashes.{CrashesLeaveNextRuns};
ghost use Rattle.mw_law_threads.specs.NextRuns.TablesInTurn.{TablesInTurnAreOfOneStore};

use mw_disk::Disk;
use mw_rule::Begins;

/// A store took some marks and then a start. A new store, which began with the words and the quota that the start gave, took
/// others. One store alone takes all of these marks, and hands out the replies of both. The new store numbers its requests from
/// 0, the one store goes on counting.
pub fn stores_go_on()
    ensures { StoresGoOn }
{}

/// Any number of servers ran one after the other, maybe with other tenants, workers, slots and quotas. Each start found of the
/// tenant's file what the stop before it may have left: its words, or these with the change in doubt put over them. While numbers
/// are left in each run, one store alone takes the tenant's marks of all servers, with a mark for each start between them. It hands
/// out all their replies, in order; the numbers of requests go on from one server to the next. It has the words and the quota of the
/// last server's end.
pub fn servers_in_turn_are_of_one_store()
    ensures { ServersInTurnAreOfOneStore }
{}

/// A crash of running threads leaves whole changes, by [`every_moment_leaves_whole_changes`](crate::every_moment_leaves_whole_changes), and
/// an engine starts with them, by [`engines_start_with_changes`](crate::engines_start_with_changes). So the start found what
/// [`servers_in_turn_are_of_one_store`] asks for, of the run that ties the shared words to the model, if its opening went well. It is so
/// also if the crash cut off a seal.
///
/// A seal's device calls come once its thread has loaded the change's status, and before its event. So the code has it
/// (`file` of mw_core); no contract says it.
pub fn crashes_leave_next_runs<B: Begins, D: Disk>()
    ensures { (key : B) → CrashesLeaveNextRuns D.facts (B.config key) (B.begun key) }
{}

/// Any number of servers ran one after the other, and a crash stopped each but the last. Take one tenant of each. While numbers are
/// left in the runs that tie their tables to the model, until these crashes and until any moment of the last table, one store alone
/// takes the tenant's marks of all these runs, with a mark for each start between them. It hands out the replies that the runs hand
/// out to the tenant, in order. It has the words and the quota that the tenant has in the model after the last run.
///
/// The premises: each crash comes as for [`crashes_leave_next_runs`], and left whole changes, by
/// [`every_moment_leaves_whole_changes`](crate::every_moment_leaves_whole_changes). Each later table was made at a start, as a live
/// thread knows. There the tenant's file opened, and gave what the crash before left: on an honest, synced disk by
/// [`engines_start_with_changes`](crate::engines_start_with_changes) and the contract of `EngineParts::new` of mw_engine (`start`,
/// `passes`).
pub fn tables_in_turn_are_of_one_store<B: Begins, D: Disk>()
    ensures { TablesInTurnAreOfOneStore D.facts B.config B.begun }
{}

//! States which files a crash may leave after a change was answered YES, FAULT or nothing. The functions are empty:
//! their contracts are the facts, and a change of one changes a theorem. No crate cites them; docs/JOINTS and docs/PROMISES
//! do. Change them with `specs/Durable`.
ghost use Rattle.mw_law_threads.specs.Durable.Durable.{CallsKeepChanges, CallsLeaveWholeChanges, CallsLeaveWhollyOrNot, MomentsLeaveWholeChanges};
ghost use Rattle.mw_law_threads.specs.Durable.Locks.{LocksLeaveWholeChanges};
ghost use Rattle.mw_law_threads.specs.Durable.Starts.{EnginesStartWithChanges, StartsFindChanges};

use mw_disk::Disk;
use mw_rule::Begins;

/// Each call that a pass makes on a tenant's file keeps the tenant's changes. It may be a call of any later request of
/// that tenant.
///
/// - `whole`: of an honest disk, a crash during the call leaves the words of the latest start with whole changes put over
///   them. These are the changes that were sealed before the call, or these and one more. A crash after the call leaves
///   the same with the changes that are sealed by then. Each change is just what one request asked for.
/// - `kept`: a change that the pass was answered YES before is one of these changes, at its own place.
/// - `wholly`: the pass was answered before, with any reply, also FAULT. The change of that request is there wholly or not
///   at all.
pub fn calls_keep_changes<D: Disk>()
    ensures whole { CallsLeaveWholeChanges D.facts }
    ensures kept { CallsKeepChanges D.facts }
    ensures wholly { CallsLeaveWhollyOrNot D.facts }
{}

/// At every moment of the shared words a crash leaves whole changes: those of the run that ties the shared words to the
/// model. It comes while no call on the file is under way, in any pass's call, before its device calls, before the call's
/// event, by which the run goes on, or after it, or in a copy for a backup (`CrashMoment`).
///
/// Of an honest disk, it leaves the words of the latest start with all sealed changes put over them. One whole change more may
/// be there: the one that a call seals, before its event, or else the one in doubt. No change of the request is sealed
/// whose change is in doubt. Each change is just what one request asked for, also of one that got no answer. What it leaves
/// of the change of a request that was answered, `specs/AfterReplies` says (`kept`, `wholly`).
///
/// After a call's event its device calls are over. So the code has it (`file` of mw_core); no contract says it.
pub fn every_moment_leaves_whole_changes<B: Begins, D: Disk>()
    ensures { (key : B) → MomentsLeaveWholeChanges D.facts (B.config key) (B.begun key) }
{}

/// The lock of a tenant's file tells what each crash since the start left, whoever had the lock meanwhile.
///
/// Of an honest disk, it is the words of the start with whole changes put over them: some first ones of those that the
/// run sealed, or these and one more. The run is the one that the file pass under the lock knows.
pub fn locks_leave_whole_changes<D: Disk>()
    ensures { LocksLeaveWholeChanges D.facts }
{}

/// A start finds what a crash left. It opens these bytes on a disk that is honest and synced. Other starts may have opened
/// them before, and been cut off in their openings or after them, or failed.
///
/// The crash came at a moment at which it leaves whole changes, by [`calls_keep_changes`] or
/// [`every_moment_leaves_whole_changes`]. If the opening goes well, it finds the words of the start before with all changes put
/// over them that were sealed since, or these with the one at stake. So a change that was answered YES is among the
/// changes that the start finds. If the opening fails, it found no damage.
pub fn starts_find_changes<D: Disk, E: Disk>()
    ensures { StartsFindChanges D.facts E.facts }
{}

/// An engine starts with what a crash left. `EngineParts::new` of mw_engine makes it of the tenants' lines and of their
/// opened files.
///
/// A file that opened well gives the engine's start the words that the opening found. By [`starts_find_changes`] these are
/// the words of the start before with all changes put over them that were sealed since, or these with the one at stake. So
/// a change that was answered YES before the crash is among the words from which the engine's history begins.
pub fn engines_start_with_changes<D: Disk, E: Disk>()
    ensures { EnginesStartWithChanges D.facts E.facts }
{}

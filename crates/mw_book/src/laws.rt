//! Laws (contracts of empty functions) of books: which calls may be made, what a crash leaves, and which files a book
//! can't tell apart.
//!
//! Proofs of mw_core cite the lemmas behind them: a statement may change with mw_core.
ghost use Rattle.mw_book.specs.Alike.{RepresentsAlike};
ghost use Rattle.mw_book.specs.Alone.{AloneLeavesNoneAhead, AloneLeavesNonePrepared, AloneMakesListedCalls, AloneRunsMakeListedCalls};
ghost use Rattle.mw_book.specs.Crashes.{LeavesWords};
ghost use Rattle.mw_book.specs.Permits.{PermitsCalls};

use mw_disk::Disk;

/// If a call can be made on a file, it may be made on each book that represents the file.
pub fn calls_that_can_be_made<D: Disk>()
    ensures { PermitsCalls D.facts }
{}

/// A crash between two calls leaves the words that a book represents, or these with the change in doubt.
pub fn crash_between_calls<D: Disk>()
    ensures { LeavesWords D.facts }
{}

/// A book that represents a file represents every other file that is equal in the used places, in the places of
/// the slots that there can be, and in all else.
pub fn files_that_are_alike<D: Disk>()
    ensures { RepresentsAlike D.facts }
{}

/// If no other change is sealed, and none is settled ahead, prepared ahead or waits, as with one client, a call makes
/// as many device calls as the world lists. Then the number that is told of a device call that failed is that call's
/// own. Such a call leaves no change settled ahead or prepared ahead. So in a run of such calls from a new book on, each
/// makes just the listed device calls.
pub fn a_change_alone_makes_the_listed_calls<D: Disk>()
    ensures listed { AloneMakesListedCalls D.facts }
    ensures none_ahead { AloneLeavesNoneAhead D.facts }
    ensures none_prepared { AloneLeavesNonePrepared D.facts }
    ensures runs { AloneRunsMakeListedCalls D.facts }
{}

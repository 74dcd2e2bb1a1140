//! States what is proved of moves, the elementary changes of which every step on the shared words is made.
//!
//! The functions are empty: their contracts are the facts, proved in `proofs/move_laws`. mw_law_store cites lemmas in
//! `proofs/Moves`. To change a fact, begin with its definition in `specs`.
ghost use Rattle.mw_law_runs.specs.Moves.Laws.{MoveKeepsMemory, MovesKeepMemory, StartsHaveMemory};
ghost use Rattle.mw_law_runs.specs.Moves.Rely.{MovesKeepRely, MoveListsKeepRely, RelyIsTransitive};
ghost use Rattle.mw_law_runs.specs.Moves.StepMoves.{CallsAreMoves, TurnsAreMoves};
ghost use Rattle.mw_law_runs.specs.Moves.Values.{MovesKeepValues, SealsPutValues, TurnsKeepValues, WordsTellValues};
ghost use Rattle.mw_law_runs.specs.Moves.Steps.{CallsKeep, ComesLeaveMemory, EventsTellPoints, ExchangesAreTyped, HandsLeaveMemory, MemoryIsShared, RelyIsOverMemory, RestartsHaveMemory, TurnsKeep};

/// A move whose precondition holds keeps the invariant of the shared words (`Memory`). So do several such moves, one
/// after the other.
pub fn moves_keep_memory()
    ensures one { MoveKeepsMemory }
    ensures all { MovesKeepMemory }
{}

/// If a world can be made of the configuration, the invariant of the shared words holds at each start at which no
/// word of a file is above the greatest value.
pub fn starts_have_memory()
    ensures { StartsHaveMemory }
{}

/// Others may rely on what `Rely` says while one worker moves: over one move, over two stretches one after the other,
/// and over several moves. The premises: the invariant of the shared words holds at first, and each move has its
/// precondition.
pub fn others_may_rely()
    ensures one { MovesKeepRely }
    ensures goes_on { RelyIsTransitive }
    ensures all { MoveListsKeepRely }
{}

/// A worker's step changes the shared words, the history and the numbers of attempts as its moves do. A request that
/// arrives and a reply that is handed out change none of them.
pub fn steps_are_moves()
    ensures turns { TurnsAreMoves }
    ensures calls { CallsAreMoves }
    ensures comes { ComesLeaveMemory }
    ensures hands { HandsLeaveMemory }
{}

/// If the precondition of each move of a worker's step holds, the step keeps the invariant of the shared words, and
/// others may rely on the rest. The invariant also holds after each restart that finds no word above the greatest
/// value, if a world can be made of the configuration.
pub fn steps_keep_memory()
    ensures turns { TurnsKeep }
    ensures calls { CallsKeep }
    ensures restarts { RestartsHaveMemory }
{}

/// The invariant of the shared words, and what others may rely on, depend on nothing but the shared words, the
/// history and the numbers of attempts.
pub fn memory_is_shared()
    ensures memory { MemoryIsShared }
    ensures reliance { RelyIsOverMemory }
{}

/// An exchange that finds the bits of the value that it expects finds that value, if all places and the value are in
/// range.
pub fn exchanges_are_typed()
    ensures { ExchangesAreTyped }
{}

/// Every event keeps `PointsAreTold`: what a worker may do is what its request's point says.
pub fn events_tell_points()
    ensures { EventsTellPoints }
{}

/// The shared words tell each word's value as the history does. Only the move that makes a change changes values: it
/// gives each word of the change its new value, and leaves the others. So a step that is no call on a file changes no
/// value. The premises: the invariant of the shared words holds, and each move has its precondition.
pub fn moves_keep_values()
    ensures told { WordsTellValues }
    ensures same { MovesKeepValues }
    ensures sealed { SealsPutValues }
    ensures turns { TurnsKeepValues }
{}

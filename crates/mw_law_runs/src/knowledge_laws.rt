//! States what a request knows at each point of its program, and which steps leave this true.
//!
//! The functions are empty: their contracts are the facts, proved in `proofs/knowledge_laws`. mw_rule and
//! mw_law_store cite the lemmas in `proofs/Knowledge`. To change a fact, begin with its definition in
//! `specs/Knowledge`.
ghost use Rattle.mw_law_runs.specs.Knowledge.Calls.{CallsHaveGuards, CallsInform};
ghost use Rattle.mw_law_runs.specs.Knowledge.Updates.{UpdatesInform};
ghost use Rattle.mw_law_runs.specs.Knowledge.MoveGuards.{UpdatesHaveGuards, ReadsHaveGuards};
ghost use Rattle.mw_law_runs.specs.Knowledge.Laws.{FactsStay, LiveSlotsGoOn, LiveSlotsStay, OthersKeepOwn};
ghost use Rattle.mw_law_runs.specs.Knowledge.Reads.{ReadsInform};

/// Slots stay live for a request if each of them stays taken under its number: those of which it holds a pin, and the
/// one that it will free. A slot is live for a request if it is taken under the number by which the request knows it.
pub fn live_slots_stay()
    ensures { LiveSlotsStay }
{}

/// If a request's slots are live and its step takes no pin, the slots of its next point are live in the same world.
pub fn live_slots_go_on()
    ensures { LiveSlotsGoOn }
{}

/// Other workers leave what is a request's own. Its pin isn't left behind. Its draft stays a draft, and the draft's
/// slot keeps its contents. The number of its worker's next attempt and its worker's row stay.
pub fn others_keep_own()
    ensures { OthersKeepOwn }
{}

/// What a request knows at its point stays true while a worker moves as workers may, if the request's own is kept and
/// its slots stay live.
pub fn facts_stay()
    ensures { FactsStay }
{}

/// After a step that changes no shared word, an informed request (`IsInformed`) is at a point whose facts hold too,
/// in the world before the step.
pub fn reads_inform()
    ensures { ReadsInform }
{}

/// After a step that changes a shared word, an informed request is at a point whose facts hold too. The premises: the
/// invariant of counts holds, its worker has the request, and the precondition of each move of the step holds.
pub fn updates_inform()
    ensures { UpdatesInform }
{}

/// The precondition of each move of a request's step holds, if the request is informed. A step that changes a shared
/// word has four premises more: the invariant of counts holds, its worker has the request, its place exists, and no
/// word refers to a slot of which it takes back the last pin.
pub fn moves_have_guards()
    ensures looks { ReadsHaveGuards }
    ensures updates { UpdatesHaveGuards }
{}

/// The precondition of each move of a file call holds, if its request is informed. However the call ends, the request
/// is then at a point whose facts hold too.
pub fn calls_inform()
    ensures guards { CallsHaveGuards }
    ensures informs { CallsInform }
{}

//! Laws of every run of the store alone (contracts of empty functions): of its words, its slots and its quota.
//!
//! mw_world, mw_law_store and mw_plain, among others, cite the lemmas behind them. Change them with `specs/Laws`.
ghost use Rattle.mw_lone.specs.Laws.{RunExtends, RepliesExtend, WordsStayWords, UsedStaysWithin, QuotasAreOfStarts};

/// One more mark at the end of a list: the store is the one after that mark, and the replies are those of the list
/// and then what the mark hands out.
pub fn runs_extend()
    ensures store { RunExtends }
    ensures replies { RepliesExtend }
{}

/// In every store that a run leads to, the words are words, and as many as at first.
pub fn words_stay_words()
    ensures { WordsStayWords }
{}

/// Every store that a run leads to uses at most as many slots as its quota.
pub fn used_stays_within()
    ensures { UsedStaysWithin }
{}

/// In every store that a run leads to, the quota is the one that the last start gave, else the first one: no other
/// mark changes it. It is one that a tenant may have, if the first is.
pub fn quotas_are_of_starts()
    ensures { QuotasAreOfStarts }
{}

//! The law that joins `Engine::serve` with the theorem, as the contract of an empty function.
//!
//! No code calls it. It may change with `specs/StoreAlone`. docs/PROMISES.md cites it.
ghost use Rattle.mw_engine.specs.StoreAlone.{AnswersAreOfStoreAlone};

/// Each reply of `serve`, `look` and `try_look` is one that the tenant's store alone hands out, while numbers are left.
///
/// Their contracts say `IsAnswered`. Behind it is a run of the world that has this request and its reply. If no counter
/// was used up in that run, the theorem holds of it. Given the tenant's marks, its store alone then hands out this very
/// reply under the request's number; the tenant's file has its first words with all changes put over them; and a YES has
/// its change among these.
pub fn answers_are_of_the_store_alone()
    ensures { AnswersAreOfStoreAlone }
{}

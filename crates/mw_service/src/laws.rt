//! The law that the replies of a session which borrows its passes come in order: the contract of an empty function.
//!
//! Nothing calls it. Change it with `specs/SessionOrder`, `specs/Borrowed` and `specs/OwnReplies`.
ghost use Rattle.std.specs.Prelude.{List, Option};
ghost use Rattle.mw_session.specs.Talk.{Call};
ghost use Rattle.mw_session.specs.Transitions.{GoesThrough};
ghost use Rattle.mw_engine.specs.Brand.{Identity};
ghost use Rattle.mw_engine.specs.FromBelow.{Note};
ghost use Rattle.mw_service.specs.Borrowed.{AnswersWith};
ghost use Rattle.mw_service.specs.OwnReplies.{AnswersOwn, Kept};
ghost use Rattle.mw_service.specs.SessionOrder.{AreInOrder, seen_in};

/// Whichever passes a session borrows, its replies are right in one history of each tenant, in order: each at a place
/// that is no earlier than what the session had seen before it. The change of each YES is its own. That history is what
/// the session has seen at last.
///
/// - `replies`: this holds of all answers that keep to the session's note of what it has seen (`AnswersWith`).
/// - `notes`: the answers of a [`Borrower`](crate::Borrower) keep to its note. They also have tokens of requests
///   (`AnswersOwn`).
pub fn replies_are_in_order()
    ensures replies { (identity : Identity) (calls : List Call) (old new : Option Note) → GoesThrough (AnswersWith identity) old calls new → AreInOrder identity (seen_in new) (seen_in old) calls }
    ensures notes { (identity : Identity) (calls : List Call) (old new : Kept) → GoesThrough (AnswersOwn identity) old calls new → GoesThrough (AnswersWith identity) old.note calls new.note }
{}

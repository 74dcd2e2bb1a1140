//! Laws of a feed's lines (contracts of empty functions): however the bytes of a connection are cut into pieces, the
//! same lines are given.
//!
//! No other crate cites them. Change them with `specs/Given` and `specs/Texts`. docs/PROMISES cites `however_cut`.
ghost use Rattle.mw_frame.specs.Given.{GivenAtFirst, GivenThenFed, GivenThenMore, HoweverCut, NoneLeft, SameLines};
ghost use Rattle.mw_frame.specs.Texts.{EachIsCut, LinesStay, TextsAreLines, TooLongIsLast};

/// Says what the lines of any bytes are. The bytes are texts, each with a line feed after it, and then a rest. The
/// rest is a part of a text, or begins a line that is too long. The texts are the lines. After them a part gives no
/// line, and the other rest gives one [`Line::TooLong`](crate::Line::TooLong).
pub fn texts_are_lines()
    ensures cut { EachIsCut }
    ensures texts { TextsAreLines }
    ensures too_long { TooLongIsLast }
{}

/// The lines of the first bytes are the first lines of all.
pub fn lines_stay()
    ensures { LinesStay }
{}

/// The lines that a feed has given, and then those that it will give, are the lines of all that was fed. It makes
/// no difference how that was cut into pieces, and when lines were asked for.
pub fn however_cut()
    ensures whole { HoweverCut }
    ensures same_lines { SameLines }
{}

/// The same call by call, for whoever reads pieces and asks for lines in a loop.
pub fn call_by_call()
    ensures at_first { GivenAtFirst }
    ensures then_fed { GivenThenFed }
    ensures then_more { GivenThenMore }
    ensures none_left { NoneLeft }
{}

//! The law that a session hears each line in one way only: the contract of an empty function.
//!
//! Nothing calls it. Change it with `specs/Lines`.
ghost use Rattle.std.specs.Prelude.{◌≡◌, List};
ghost use Rattle.mw_frame.specs.declared.lines.Line.{Line};
ghost use Rattle.mw_session.specs.Talk.{Heard};
ghost use Rattle.mw_session.specs.Lines.{HearsAll};

/// Lines determine what is heard of them. What a session says depends only on that and on the service's answers
/// (`talk` in `specs/Talk`).
pub fn one_hearing()
    ensures { (lines : List Line) (heard others : List Heard) → HearsAll lines heard → HearsAll lines others → heard ≡ others }
{}

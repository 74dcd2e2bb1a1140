//! Reads a text line by line.
//!
//! Used by: `config`, `olds`, `reader`. Change it with `specs/Lines`.
ghost use Rattle.std.specs.Prelude.{◌≡◌, IfSome};
ghost use Rattle.mw_schedule.specs.Lines.{IsFurther};

use crate::rest::Lines;
use mw_line::field;

impl<'a> Lines<'a> {
    /// Makes the lines of a text.
    pub fn new(text: &'a [u8]) -> Self
        ensures { result.rest.now ≡ text.now }
    {
        Lines {
            rest: text,
            number: 1,
        }
    }

    /// Returns the first line, without its LF, and the lines after it. `None`: there is no line, or its LF is
    /// missing.
    pub fn split(self) -> Option<(&'a [u8], Lines<'a>)>
        ensures { IfSome result (λ x. IsFurther self.entry x.1) }
    {
        let Some((line, rest)) = field(b'\n', self.rest) else {
            return None;
        };
        let after = Lines {
            rest,
            number: self.number + 1,
        };
        Some((line, after))
    }
}

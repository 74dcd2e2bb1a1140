//! Writes how long something is so.
//!
//! Used by: `recents`, `status`. Change it with `specs/Spans`.
ghost use Rattle.std.specs.Prelude.{◌≡◌, ◌+◌, ◌≤◌, ◌++◌, length};
ghost use Rattle.mw_server_pages.specs.declared.text.TheConstants.{MAX_PAGE};
ghost use Rattle.mw_server_pages.specs.Spans as spec;

use crate::text::{MAX_PAGE, Text};

/// The most bytes of a span of time.
pub(crate) const MAX_SPAN: usize = 100;

/// Puts a time of so many seconds, in days, hours, minutes and seconds.
#[tactic(auto, unfolding(crate::specs::Spans::span))]
pub(crate) fn put_span(text: &mut Text, seconds: u64)
    requires { length text.old.bytes.items + MAX_SPAN ≤ MAX_PAGE }
    ensures span { text.new.bytes.items ≡ text.old.bytes.items ++ spec.span seconds }
    ensures room { length text.new.bytes.items ≤ length text.old.bytes.items + MAX_SPAN }
{
    text.put_number(seconds / 86400);
    text.put(b" d ");
    text.put_number(seconds / 3600 % 24);
    text.put(b" h ");
    text.put_number(seconds / 60 % 60);
    text.put(b" min ");
    text.put_number(seconds % 60);
    text.put(b" s");
}

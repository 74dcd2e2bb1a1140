//! What the answers to a server's clients keep to, as a type.
//!
//! Used by: `network.rt`, `sockets.rt`, `brief.rt`; mw_server_pages, which passes [`PagesPromise`] on; mw_programs, which has
//! the promise of a server; tests, which have [`Anything`]. Change it with `specs/Promises`, and docs/PROMISES.
ghost use Rattle.std.specs.Prelude.{List};
ghost use Rattle.mw_session.specs.Talk.{Call};
ghost use Rattle.mw_http.specs.Calls as page;

/// What the answers to clients keep to. A listener's type names it, and no other service can serve what the listener gives.
pub trait Promise: Send + Sync + Drop {
    // These calls of a session, in order, were answered as is promised.
    ghost kept: { List Call → Type 0 };
}

/// What the answers of sessions and pages keep to. The type of a listener for the clients of pages names it, and no other pages can
/// answer them.
pub trait PagesPromise: Promise {
    // These calls of the pages, in order, were answered as is promised.
    ghost shown: { List page.Call → Type 0 };
}

/// Promises nothing: any service keeps it, and any pages do.
#[derive(Drop)]
pub struct Anything;

impl Promise for Anything {
    ghost kept = { λ _. Unit {0} };
}

impl PagesPromise for Anything {
    ghost shown = { λ _. Unit {0} };
}

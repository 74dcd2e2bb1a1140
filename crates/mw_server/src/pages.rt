//! Shows the server's pages over HTTP, beside its clients, on a thread of its own.
//!
//! Used by: `addresses`, `clients`; mw_programs, for [`counted`]. Change it with docs/OPERATING.
ghost use Rattle.mw_connections.specs.Promises.{PagesKeep};

use mw_config::{Listening, Mode};
use mw_connections::{BriefLimits, BriefListener, Closer};
use mw_metrics::Meters;
use mw_server_pages::{Pages, PagesPromise, serve_pages};
use std::sync::Wait;
use std::sync::atomic::{AtomicBool, Ordering};
use std::time::Clock;

/// How long a client of the pages may take, in seconds. One is served at a time, and the others wait for it.
pub(crate) const LIMITS: BriefLimits = BriefLimits {
    request: 2,
    whole: 10,
};

/// Ends the pages of another thread.
#[derive(Drop)]
pub(crate) struct PagesEnd {
    is_open: AtomicBool,
    /// Ends the listener's wait. None: the pages have no address.
    closer: Option<Closer>,
}

impl PagesEnd {
    /// Makes what ends the pages, whose listener's wait this closer ends, if they have an address.
    pub(crate) fn new(closer: Option<Closer>) -> Self {
        PagesEnd {
            is_open: AtomicBool::new(true),
            closer,
        }
    }

    /// Ends them: no client is served any more but the one that is.
    pub(crate) fn end(&self) {
        self.is_open.store(false, Ordering::SeqCst);
        if let Some(closer) = &self.closer {
            closer.close();
        }
    }
}

/// Shows the pages to each client that comes and calls the server by one of these names, until they are ended.
pub(crate) fn show_pages<G: Pages + Drop, R: Wait + Clock + Sync, N: Clock + Sync, Q: PagesPromise>(
    rt: &R,
    listener: BriefListener<'_, N, Q>,
    pages: G,
    names: &[String],
    end: &PagesEnd,
)
    requires keeps { PagesKeep G.answered Q.shown }
{
    let (mut listener, mut pages) = (listener, pages);
    serve_pages(rt, &mut listener, &mut pages, names, &end.is_open);
}

/// Gives the meters if there are pages that tell what they count.
pub fn counted<'m>(listening: &Listening, meters: &'m Meters) -> Option<&'m Meters> {
    match &listening.http {
        Some(_) => Some(meters),
        None => None,
    }
}

/// As [`counted`], by what the command line asks for. A script has no pages.
pub fn counted_in<'m>(mode: &Mode, meters: &'m Meters) -> Option<&'m Meters> {
    match mode {
        Mode::Listen(listening) => counted(listening, meters),
        Mode::Script(_) => None,
    }
}

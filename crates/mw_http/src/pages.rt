//! The trait of pages: what the server has to show at each place, and the date of an answer.
//!
//! Used by: `exchanges.rt`, mw_connections, mw_server_pages, which implements it; tests do too. A new call needs a body in each, and a
//! `Call` in `specs/Calls`.
ghost use Rattle.mw_http.specs.Targets.{place_of};
ghost use Rattle.mw_http.specs.Calls.{Call, Dates, Shows};

use crate::heads::{ContentType, MAX_DATE};
use crate::status::Status;
use crate::targets::Route;
use arrayvec::ArrayVec;

/// A date as RFC 9110 writes it, or nothing.
pub type Date = ArrayVec<u8, MAX_DATE>;

/// The answer to a request.
#[derive(Drop)]
pub struct Page {
    pub status: Status,
    /// What the body is.
    pub kind: ContentType,
    pub body: Vec<u8>,
}

/// What a server has to show.
pub trait Pages {
    // A call with its answer leads from one state of the pages to another: what they promise of their answers.
    ghost answered: { Self → Call → Self → Type 0 };

    /// Gives the page of this place.
    fn page(&mut self, route: &Route) -> Page
        ensures answered { answered self.old (Shows (place_of route.now) result) self.new };

    /// Gives the date of an answer, or nothing if it isn't known.
    fn date(&mut self) -> Date
        ensures answered { answered self.old (Dates result.items) self.new };
}

//! The date of an answer.
//!
//! `server_pages.rt` asks for it. No contract says which time it is.

use httpdate::HttpDate;
use mw_http::Date;
use std::time::{Clock, SystemTime};

/// Gives the date of this moment as RFC 9110 writes it, or nothing if the clock can't be read, or its time has no such date.
pub(crate) fn date_now<K: Clock>(clock: &K) -> Date {
    let mut date = Date::new();
    if let Ok(now) = SystemTime::now(clock) {
        if let Ok(now) = HttpDate::try_from(now) {
            date = Date::from(now.to_bytes());
        }
    }
    date
}

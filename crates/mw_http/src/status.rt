//! The statuses of answers (RFC 9110, section 15).
//!
//! Used by: `exchanges`, `pages`, `receiving`, `heads`, `hearing`, mw_server_pages, mw_serving_tests. A new status needs a
//! case here and in `specs/Statuses`, its number in `STATUSES` of scripts/http_parts/server.py, and a row in docs/HTTP.
ghost use Rattle.std.specs.Prelude.{◌≡◌, ◌≤◌, length};
ghost use Rattle.mw_http.specs.Statuses as spec;

/// How a request was answered.
#[derive(Clone, Copy, PartialEq, Eq)]
pub enum Status {
    /// What was asked for comes.
    Ok,
    /// The request is none.
    BadRequest,
    /// Nothing is at the target.
    NotFound,
    /// The target has an answer to `GET` and `HEAD` alone.
    MethodNotAllowed,
    /// The request came too slowly.
    RequestTimeout,
    /// The request line is too long.
    UriTooLong,
    /// The request calls the server by a name that isn't its own.
    Misdirected,
    /// The head is too long, or has too many fields.
    FieldsTooLarge,
    /// The answer could not be made.
    InternalError,
    /// The method is unknown.
    NotImplemented,
    /// The server can't answer now, or isn't well.
    Unavailable,
}

/// The most bytes of a reason.
pub(crate) const MAX_REASON: usize = 31;

impl Status {
    /// Gives the status as a number.
    #[tactic(auto, unfolding(crate::specs::Statuses::code))]
    pub fn code(self) -> u16
        ensures code { result ≡ spec.code self }
        ensures three { (100 ≤ result) × (result ≤ 999) }
    {
        match self {
            Status::Ok => 200,
            Status::BadRequest => 400,
            Status::NotFound => 404,
            Status::MethodNotAllowed => 405,
            Status::RequestTimeout => 408,
            Status::UriTooLong => 414,
            Status::Misdirected => 421,
            Status::FieldsTooLarge => 431,
            Status::InternalError => 500,
            Status::NotImplemented => 501,
            Status::Unavailable => 503,
        }
    }

    /// Gives the status in words.
    #[tactic(auto, unfolding(crate::specs::Statuses::reason))]
    pub fn reason(self) -> &'static [u8]
        ensures reason { result.now ≡ spec.reason self }
        ensures short { length result.now ≤ MAX_REASON }
    {
        match self {
            Status::Ok => b"OK",
            Status::BadRequest => b"Bad Request",
            Status::NotFound => b"Not Found",
            Status::MethodNotAllowed => b"Method Not Allowed",
            Status::RequestTimeout => b"Request Timeout",
            Status::UriTooLong => b"URI Too Long",
            Status::Misdirected => b"Misdirected Request",
            Status::FieldsTooLarge => b"Request Header Fields Too Large",
            Status::InternalError => b"Internal Server Error",
            Status::NotImplemented => b"Not Implemented",
            Status::Unavailable => b"Service Unavailable",
        }
    }
}

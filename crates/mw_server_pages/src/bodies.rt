//! Makes a page of a body, or of none.
//!
//! `server_pages.rt` and `file_pages.rt` call it.
ghost use Rattle.mw_server_pages.specs.Shown.{IsBare, IsPageOf};

use mw_http::{ContentType, Page, Status};
use std::alloc::{AllocError, Global};

/// Gives an answer of this status, without a body.
pub(crate) fn bare(alloc: Global, status: Status) -> Page
    ensures { IsBare status result }
{
    Page {
        status,
        kind: ContentType::Text,
        body: Vec::new(alloc),
    }
}

/// Gives a page of this body, or an error without a body if there was no memory for it.
pub(crate) fn page_of(
    alloc: Global,
    status: Status,
    kind: ContentType,
    body: Result<Vec<u8>, AllocError>,
) -> Page
    ensures { IsPageOf status kind body result }
{
    match body {
        Ok(body) => Page { status, kind, body },
        Err(_) => bare(alloc, Status::InternalError),
    }
}

//! The pages of a tenant's file: the file itself, and the words that it says.
//!
//! `server_pages.rt` gives them a copy of the file. `specs/Shown` says what they are: change both together.
ghost use Rattle.mw_server_pages.specs.Shown.{IsFile, IsNoCopy, IsWords, IsWordsOf};

use crate::bodies::bare;
use crate::file_copies::NoCopy;
use mw_file_text::show_image;
use mw_http::{ContentType, Page, Status};
use mw_record::decode;
use std::alloc::Global;

/// Gives the copy of a tenant's file, or tells by a status why there is none.
pub(crate) fn file(alloc: Global, copy: Result<Vec<u8>, NoCopy>) -> Page
    ensures { IsFile copy result }
{
    match copy {
        Ok(bytes) => Page {
            status: Status::Ok,
            kind: ContentType::Bytes,
            body: bytes,
        },
        Err(fault) => no_copy(alloc, fault),
    }
}

/// Gives the words that the copy of a tenant's file says, or tells by a status why there is no copy.
pub(crate) fn words(alloc: Global, copy: Result<Vec<u8>, NoCopy>) -> Page
    ensures { IsWords copy result }
{
    match copy {
        Ok(bytes) => words_of(alloc, &bytes),
        Err(fault) => no_copy(alloc, fault),
    }
}

/// Tells by a status why there is no copy.
fn no_copy(alloc: Global, fault: NoCopy) -> Page
    ensures { IsNoCopy fault result }
{
    let status = match fault {
        NoCopy::NoTenant => Status::NotFound,
        NoCopy::Failed => Status::Unavailable,
        NoCopy::Disk | NoCopy::Memory => Status::InternalError,
    };
    bare(alloc, status)
}

/// Gives what these bytes of a file say, line by line, or an error without a body if they are damaged, or if there was no memory for
/// it.
fn words_of(alloc: Global, bytes: &[u8]) -> Page
    ensures { IsWordsOf bytes.now result }
{
    let Ok(image) = decode(bytes) else {
        return bare(alloc, Status::InternalError);
    };
    let mut body = Vec::new(alloc);
    if show_image(&image, true, &mut body).is_err() {
        return bare(alloc, Status::InternalError);
    }
    Page {
        status: Status::Ok,
        kind: ContentType::Text,
        body,
    }
}

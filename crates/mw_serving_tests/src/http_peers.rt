//! What pages are made of: copies of a file.
//!
//! Used by: `page_tests`.

use mw_server_pages::{FileCopies, NoCopy};
use mw_words::Name;
use std::alloc::Global;

/// The file of one tenant, `t`, or why there is no copy of it.
#[derive(Drop)]
pub struct OneFile {
    pub alloc: Global,
    pub file: Result<&'static [u8], NoCopy>,
}

impl FileCopies for OneFile {
    ghost copied = { λ _ _ _ _. Unit {0} };

    fn copy(&mut self, name: &Name) -> Result<Vec<u8>, NoCopy> {
        if name.as_slice() != b"t".as_slice() {
            return Err(NoCopy::NoTenant);
        }
        let mut bytes = Vec::new(self.alloc);
        match bytes.extend_from_slice(self.file?) {
            Ok(()) => Ok(bytes),
            Err(_) => Err(NoCopy::Memory),
        }
    }
}

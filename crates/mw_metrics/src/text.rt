//! A text under way, with room for all figures: memory is asked for once, before the first byte.
//!
//! `MAX_METRICS` is the sum of `MAX_SERVER` (`server_lines`) and `MAX_TENANT_FAMILIES` (`tenant_lines`): change them
//! together.
ghost use Rattle.std.specs.Prelude.{◌≡◌, ◌+◌, ◌≤◌, [], ◌++◌, length, IfOk};
ghost use Rattle.std.specs.Vec.{vec_capacity};
ghost use Rattle.mw_metrics.specs.declared.text.TheConstants.{MAX_METRICS};

use std::alloc::{AllocError, Global};

/// The most bytes of the text of all figures: those of the server, and those of all tenants.
pub const MAX_METRICS: usize = 415_872;

/// A text under way.
#[derive(Drop)]
pub(crate) struct Text {
    pub(crate) bytes: Vec<u8>,
    ghost room: { MAX_METRICS ≤ vec_capacity bytes },
}

impl Text {
    /// Begins a text.
    ///
    /// # Errors
    ///
    /// The memory for it is out.
    pub(crate) fn new(alloc: Global) -> Result<Text, AllocError>
        ensures { IfOk result (λ text. text.bytes.items ≡ []) }
    {
        let bytes = Vec::with_capacity(alloc, MAX_METRICS)?;
        Ok(Text { bytes })
    }

    /// Puts some bytes at the end.
    pub(crate) fn put(&mut self, bytes: &[u8])
        requires { length self.old.bytes.items + length bytes.now ≤ MAX_METRICS }
        ensures bytes { self.new.bytes.items ≡ self.old.bytes.items ++ bytes.now }
        ensures room { length self.new.bytes.items ≡ length self.old.bytes.items + length bytes.now }
    {
        self.bytes.extend_from_slice(bytes).unwrap();
    }
}

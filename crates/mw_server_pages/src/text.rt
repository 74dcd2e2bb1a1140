//! A page under way, with room for all of it: memory is asked for once, before the first byte.
//!
//! All that writes a part of a page is proved to have room: a longer part, or more of them, may need a greater
//! `MAX_PAGE`.
ghost use Rattle.std.specs.Prelude.{◌≡◌, ◌+◌, ◌*◌, ◌≤◌, [], ◌++◌, length, decimal, IfOk};
ghost use Rattle.std.specs.Vec.{vec_capacity};
ghost use Rattle.mw_server_pages.specs.declared.text.TheConstants.{MAX_PAGE};
ghost use Rattle.mw_server_pages.specs.Escapes.{escape, escaped};

use itoa::Buffer;
use std::alloc::{AllocError, Global};

/// The most bytes of a page.
pub const MAX_PAGE: usize = 65_536;

/// The most bytes of the version.
pub const MAX_VERSION: usize = 16;

/// The most bytes of a byte that is escaped.
pub(crate) const MAX_ESCAPE: usize = 6;

/// The most digits of a number.
pub(crate) const MAX_DIGITS: usize = 20;

/// The most digits of a number of one byte.
pub(crate) const MAX_SMALL: usize = 3;

/// A page under way.
#[derive(Drop)]
pub(crate) struct Text {
    pub(crate) bytes: Vec<u8>,
    ghost room: { MAX_PAGE ≤ vec_capacity bytes },
}

impl Text {
    /// Begins a page.
    ///
    /// # Errors
    ///
    /// The memory for it is out.
    pub(crate) fn new(alloc: Global) -> Result<Text, AllocError>
        ensures { IfOk result (λ text. text.bytes.items ≡ []) }
    {
        let bytes = Vec::with_capacity(alloc, MAX_PAGE)?;
        Ok(Text { bytes })
    }

    /// Puts some bytes at the end.
    pub(crate) fn put(&mut self, bytes: &[u8])
        requires { length self.old.bytes.items + length bytes.now ≤ MAX_PAGE }
        ensures bytes { self.new.bytes.items ≡ self.old.bytes.items ++ bytes.now }
        ensures room { length self.new.bytes.items ≡ length self.old.bytes.items + length bytes.now }
    {
        self.bytes.extend_from_slice(bytes).unwrap();
    }

    /// Puts a number.
    #[tactic(auto, using(crate::proofs::Widths::widths))]
    pub(crate) fn put_number(&mut self, number: u64)
        requires { length self.old.bytes.items + MAX_DIGITS ≤ MAX_PAGE }
        ensures number { self.new.bytes.items ≡ self.old.bytes.items ++ decimal number }
        ensures room { length self.new.bytes.items ≤ length self.old.bytes.items + MAX_DIGITS }
    {
        let mut buffer = Buffer::new();
        self.put(buffer.format(number).as_bytes());
    }

    /// Puts a number of one byte.
    #[tactic(auto, using(crate::proofs::Widths::widths))]
    pub(crate) fn put_small(&mut self, number: u8)
        requires { length self.old.bytes.items + MAX_SMALL ≤ MAX_PAGE }
        ensures number { self.new.bytes.items ≡ self.old.bytes.items ++ decimal number }
        ensures room { length self.new.bytes.items ≤ length self.old.bytes.items + MAX_SMALL }
    {
        let mut buffer = Buffer::new();
        self.put(buffer.format(number).as_bytes());
    }

    /// Puts a text that is escaped.
    #[tactic(auto, unfolding(crate::specs::Escapes::escaped))]
    pub(crate) fn put_escaped(&mut self, bytes: &[u8])
        requires { length self.old.bytes.items + length bytes.now * MAX_ESCAPE ≤ MAX_PAGE }
        ensures escaped { self.new.bytes.items ≡ self.old.bytes.items ++ escaped bytes.now }
        ensures room { length self.new.bytes.items ≤ length self.old.bytes.items + length bytes.now * MAX_ESCAPE }
    {
        for byte in bytes {
            self.put_byte(*byte);
        }
    }

    fn put_byte(&mut self, byte: u8)
        requires { length self.old.bytes.items + MAX_ESCAPE ≤ MAX_PAGE }
        ensures byte { self.new.bytes.items ≡ self.old.bytes.items ++ escape byte }
        ensures room { length self.new.bytes.items ≤ length self.old.bytes.items + MAX_ESCAPE }
    {
        match byte {
            b'&' => self.put(b"&amp;"),
            b'<' => self.put(b"&lt;"),
            b'>' => self.put(b"&gt;"),
            b'"' => self.put(b"&quot;"),
            _ => self.put(&[byte]),
        }
    }
}

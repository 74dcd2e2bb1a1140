//! A writer that is lent to a stream, of which its lender knows what it took.
//!
//! Used by: `console`.
ghost use Rattle.std.specs.Prelude.{[], ◌∷◌};
ghost use Rattle.std.specs.Io.KnownBytes.{prepend_known};

use std::io::{self, Write};

/// A writer that is lent.
#[derive(Drop)]
pub(crate) struct LentWriter<'a, W> {
    pub(crate) out: &'a mut W,
}

impl<W: Write> Write for LentWriter<'_, W> {
    // The name of the loan comes before the bytes. What writes to a stream appends to them, and so keeps the name: in the end the
    // lender knows that the stream had just this writer.
    ghost contents = { λ lent. prepend_known (lent.out.ghost_name ∷ []) (W.contents lent.out.now) };

    fn write(&mut self, buf: &[u8]) -> io::Result<usize> {
        self.out.write(buf)
    }

    fn flush(&mut self) -> io::Result<()> {
        self.out.flush()
    }
}

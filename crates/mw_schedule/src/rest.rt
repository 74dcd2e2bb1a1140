//! The lines of a text that are left to read.
//!
//! Used by: `lines`, `config`, `olds`, `reader`. `specs/Lines` names its fields: change both together.
ghost use Rattle.std.specs.Prelude.{◌+◌, ◌<◌, ◌^◌, length};

/// The lines of a text that are left to read.
#[derive(Clone, Copy)]
pub struct Lines<'a> {
    /// Their bytes.
    pub rest: &'a [u8],
    /// The number of the first of them, from 1, or the number that it would have if it is missing.
    pub number: u64,
    ghost countable: { number + length rest.now < 2 ^ 64 },
}

//! Names an engine as a type, because what a lock guards is known by its type alone.
//!
//! Used by: `engine` and all that works on one; mw_service, mw_programs and tests, which are generic in it. Change it
//! with `specs/Brand`.
use std::marker::Brand;

/// Names one engine. Its identity is what stays the same for the engine's whole life. What is under a lock is known
/// by its type alone, so the types of the engine and of what its locks guard have this name.
pub trait EngineBrand {
    ghost use Rattle.mw_engine.specs.Brand.{Identity};

    ghost identity: { Identity };
}

impl EngineBrand for Brand {
    ghost use Rattle.mw_engine.specs.Brand.{of_none};

    ghost identity = { of_none };
}

//! The steps of a script: what a machine must ask for, and what it is told that the step found.
//!
//! Used by: `actor_tests`, `look_tests`.
use mw_look::{Call, Got, Kind, Op};
use mw_words::At;

/// A step that is asked for, and what it finds.
#[derive(Clone, Copy)]
pub(crate) enum Step {
    /// A load that finds these bits.
    Load(At, u64),
    /// An exchange of these bits for those, which is won.
    Won(Kind, At, u64, u64),
    /// An exchange that is lost.
    Lost(Kind, At, u64, u64),
    /// A change of one more or less, which finds these bits.
    Found(Kind, At, u64),
    /// A call on the file of a change's slot, and whether it went well.
    File(Call, u8, bool),
}

impl Step {
    /// Gives what must be asked for, and what is told.
    pub(crate) fn played(self) -> (Op, Got) {
        match self {
            Step::Load(at, found) => (Op::Load(at), Got::Word(found)),
            Step::Won(kind, at, from, to) => (Op::Change { kind, at, from, to }, Got::Won),
            Step::Lost(kind, at, from, to) => (Op::Change { kind, at, from, to }, Got::Lost),
            Step::Found(kind, at, found) => {
                let (from, to) = (0, 0);
                (Op::Change { kind, at, from, to }, Got::Word(found))
            }
            Step::File(call, slot, went_well) => (Op::File { call, slot }, Got::File(went_well)),
        }
    }
}

//! The labels of steps. A label says what a request's step means for the history (a ghost record of what has happened
//! to each change) and for its tenant's marks (events of the reference model).
//!
//! Used by: mw_world_memory, mw_simulator, mw_world_trials. A new label needs a case in
//! `specs/Definition/StepLabels`, in `specs/Definition/LabelEffects`, and in `label_of` of mw_world_memory.

use mw_actor::Slot;
use mw_words::Status;

/// What one change has done to one of its words. A word goes through these phases in order, and may skip some.
#[derive(Clone, Copy)]
pub enum Phase {
    /// The change never held the word.
    Fresh,
    /// The word is held for the change.
    Acquired,
    /// The word has the change's new value, and names its slot.
    Written,
    /// The word was released.
    Released,
}

/// What a step means. For what a request's marks mean, see [`Mark`](mw_lone::Mark): they are marks of the
/// tenant's store alone.
#[derive(Clone, Copy)]
pub enum StepLabel {
    /// The step means nothing.
    Nothing,
    /// The request is admitted.
    Admitted,
    /// The request finds the quota used up.
    FoundBusy,
    /// The request finds the fault in the door: the tenant's file has failed.
    FoundFault,
    /// A read takes its value at this step.
    Looked,
    /// A mark may later be put in at this step. The step reserves a place for it among the tenant's lines.
    Reserved,
    /// A read took its value earlier, at the step that reserved the worker's latest place.
    LookedBefore,
    /// The request claims a slot.
    Claimed(Slot),
    /// A change gets another status.
    Decided {
        /// The change.
        target: Slot,
        /// Its new status.
        status: Status,
    },
    /// A change is refused. The refusal's mark goes to the worker's latest reserved place.
    Refused {
        /// The change.
        target: Slot,
        /// The index of the entry whose word has another value.
        entry: u8,
        /// The word's value.
        value: u64,
    },
    /// A word is held for a change, gets the change's new value, or is released.
    Moved {
        /// The change.
        target: Slot,
        /// The word's address.
        address: u16,
        /// The word's new phase.
        phase: Phase,
    },
    /// The request frees a slot.
    Freed(Slot),
    /// The request counts a freed slot off the tenant's door.
    Lowered,
    /// The request gives up, and leaves its pin in the gate.
    GaveUp {
        /// The request's own change.
        own: Slot,
        /// Whether its reply is [`Fault`](mw_words::Reply::Fault).
        says_fault: bool,
    },
    /// A seal made this change durable.
    SealedIt(Slot),
    /// The device failed in the seal of this change.
    FailedToSeal(Slot),
    /// The device failed in a call other than a seal.
    FailedFile,
}

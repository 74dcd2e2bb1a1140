//! The operations that a request's program asks for: load or change a shared word of 64 bits, or call a tenant's
//! file.
//!
//! Used by: many crates from mw_actor on. A new [`Kind`] needs a case in `Kind::shape` and perhaps `specs/Shapes`,
//! its name in mw_schedule (`src/steps.rt`), and a case in `claims_slot` (mwreplay, `specs/Printed`). A new fetch
//! also needs a case in `way_of` (mw_rule), in `fetched` (mw_world, `specs/Definition/Changes`) and in
//! mw_world_memory (`src/cells/steps.rt`); a catch-all in `way_of` and the latter takes it silently.
ghost use Rattle.std.specs.Prelude.{◌≡◌};
ghost use Rattle.mw_look.specs.Shapes.{shape_of};
ghost use Rattle.mw_look.specs.Steps.{place_of};

use mw_words::At;

/// A kind of step that changes a shared word. Unpin, Drop and Fault change whatever the word is; Fill, Row and
/// Free replace it. So these can't lose. All other kinds exchange what they expect for something else, and win
/// or lose.
#[derive(Clone, Copy, PartialEq, Eq)]
pub enum Kind {
    /// The door counts one slot more.
    Admit,
    /// The gate of a free slot is claimed.
    Claim,
    /// A word of the worker's own slot is written.
    Fill,
    /// The gate counts one pin more.
    Pin,
    /// The gate counts one pin less.
    Unpin,
    /// The gate of a slot without pins is freed, with the next number.
    Free,
    /// The door counts one slot less.
    Drop,
    /// The worker's own row names an entry of a change.
    Row,
    /// An attempt to hold a word is planted in it.
    Plant,
    /// The attempt becomes the held word, or the word gets its value back.
    Resolve,
    /// The status becomes YesDirty: it is decided that the change is made.
    DecideYes,
    /// The status becomes No: it is decided that the change is not made.
    DecideNo,
    /// A held word gets the value that the decision gives it.
    Release,
    /// The status becomes Open after a prepare: all of the slot's change is written.
    Ready,
    /// The status becomes Yes after a seal: the change is sealed in its file.
    Seal,
    /// The status becomes DoneYes after a settle: the change is made and done.
    Settle,
    /// The status becomes DoneNo after a cancel: the change is not made, and is done.
    Cancel,
    /// A word with a new value stops naming the change's slot.
    Clean,
    /// The door gets the fault: the tenant's file has failed.
    Fault,
}

/// How a kind of step changes its word.
#[derive(Clone, Copy, PartialEq, Eq)]
pub enum Shape {
    /// An exchange wins if it finds what it expects, and else changes nothing.
    Exchange,
    /// A store leaves one value, whatever it finds.
    Store,
    /// A fetch computes what it leaves from what it finds.
    Fetch,
}

impl Kind {
    /// Returns how a step of this kind changes its word.
    pub fn shape(self) -> Shape
        ensures { result ≡ shape_of self }
    {
        match self {
            Kind::Fill | Kind::Free | Kind::Row => Shape::Store,
            Kind::Unpin | Kind::Drop | Kind::Fault => Shape::Fetch,
            Kind::Admit
            | Kind::Claim
            | Kind::Pin
            | Kind::Plant
            | Kind::Resolve
            | Kind::DecideYes
            | Kind::DecideNo
            | Kind::Release
            | Kind::Ready
            | Kind::Seal
            | Kind::Settle
            | Kind::Cancel
            | Kind::Clean => Shape::Exchange,
        }
    }
}

/// A call on a tenant's file.
#[derive(Clone, Copy, PartialEq, Eq)]
pub enum Call {
    /// Writes a change into a free place of the file.
    Prepare,
    /// Seals the change: from now on a crash leaves it.
    Seal,
    /// Writes the change into its words, and frees its place.
    Settle,
    /// Frees the change's place, and leaves its words.
    Cancel,
}

/// A step on the shared words, of 64 bits each.
#[derive(Clone, Copy, PartialEq, Eq)]
pub enum Op {
    /// Loads the word at a place.
    Load(At),
    /// Changes the word at a place.
    Change {
        /// How it changes the word.
        kind: Kind,
        /// The place.
        at: At,
        /// What an exchange expects there; 0 for other shapes.
        from: u64,
        /// What an exchange or a store leaves there; 0 for a fetch.
        to: u64,
    },
    /// Calls the tenant's file, for the change of a slot.
    File {
        /// The call.
        call: Call,
        /// The slot.
        slot: u8,
    },
}

impl Op {
    /// Returns the place of the word that the step loads or changes. For a call on the file it is the slot's
    /// status.
    pub fn place(self) -> At
        ensures { result ≡ place_of self }
    {
        match self {
            Op::Load(at) => at,
            Op::Change { at, .. } => at,
            Op::File { slot, .. } => At::Status(slot),
        }
    }
}

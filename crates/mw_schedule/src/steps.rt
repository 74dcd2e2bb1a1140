//! The kinds of step that a schedule can name, and which kind a step is.
//!
//! Used by: `commands`, mwreplay. A new kind needs a case here, in `specs/Steps`, and in docs/SCHEDULES. docs/STEPS
//! and scripts/text_parts have the names too.
ghost use Rattle.std.specs.Prelude.{◌≡◌};
ghost use Rattle.mw_schedule.specs.Steps as spec;

use mw_look::{Call, Kind, Op};
use std::fmt::{self, Debug, Display, Formatter, Write};

/// A kind of step that a worker makes by itself.
#[derive(Clone, Copy, PartialEq, Eq)]
pub enum StepKind {
    /// It reads a shared word.
    Load,
    /// It changes a shared word in this way, or is an exchange of this kind that loses.
    Change(Kind),
    /// It makes this call on the file.
    File(Call),
}

impl StepKind {
    /// Returns the kind of a step.
    pub fn of(op: Op) -> StepKind
        ensures { result ≡ spec.kind_of op }
    {
        match op {
            Op::Load(_) => StepKind::Load,
            Op::Change { kind, .. } => StepKind::Change(kind),
            Op::File { call, .. } => StepKind::File(call),
        }
    }

    /// Returns its name. A change that ends a call on the file has the name of the call.
    pub fn name(self) -> &'static str {
        match self {
            StepKind::Load => "load",
            StepKind::Change(kind) => change_name(kind),
            StepKind::File(call) => call_name(call),
        }
    }

    /// Returns the kind with this name. The changes that end a call on the file have no name: they are made
    /// with the call.
    pub fn named(name: &[u8]) -> Option<StepKind> {
        match name {
            b"load" => Some(StepKind::Load),
            _ => change_named(name)
                .map(StepKind::Change)
                .or(call_named(name).map(StepKind::File)),
        }
    }
}

impl Debug for StepKind {
    fn fmt<W: Write>(&self, f: &mut Formatter<W>) -> Result<(), fmt::Error> {
        f.write_str(self.name())
    }
}

impl Display for StepKind {
    fn fmt<W: Write>(&self, f: &mut Formatter<W>) -> Result<(), fmt::Error> {
        f.write_str(self.name())
    }
}

// Returns the name of a change.
fn change_name(kind: Kind) -> &'static str {
    match kind {
        Kind::Admit => "admit",
        Kind::Claim => "claim",
        Kind::Pin => "pin",
        Kind::Unpin => "unpin",
        Kind::Free => "free",
        Kind::Drop => "drop",
        _ => slot_change_name(kind),
    }
}

// Returns the name of a change of a slot, a row, a status or a tenant's word.
fn slot_change_name(kind: Kind) -> &'static str {
    match kind {
        Kind::Fill => "fill",
        Kind::Row => "row",
        Kind::DecideYes => "decide-yes",
        Kind::DecideNo => "decide-no",
        Kind::Plant => "plant",
        Kind::Resolve => "resolve",
        Kind::Release => "release",
        Kind::Clean => "clean",
        _ => end_name(kind),
    }
}

// Returns the name of the call that a change ends.
fn end_name(kind: Kind) -> &'static str {
    match kind {
        Kind::Ready => "prepare",
        Kind::Seal => "seal",
        Kind::Settle => "settle",
        Kind::Cancel => "cancel",
        _ => "fault",
    }
}

// Returns the name of a call on the file.
fn call_name(call: Call) -> &'static str {
    match call {
        Call::Prepare => "prepare",
        Call::Seal => "seal",
        Call::Settle => "settle",
        Call::Cancel => "cancel",
    }
}

// Returns the change with this name.
fn change_named(name: &[u8]) -> Option<Kind> {
    gate_change(name)
        .or(slot_change(name))
        .or(word_change(name))
}

// Returns the change of a door or a gate with this name.
fn gate_change(name: &[u8]) -> Option<Kind> {
    match name {
        b"admit" => Some(Kind::Admit),
        b"claim" => Some(Kind::Claim),
        b"pin" => Some(Kind::Pin),
        b"unpin" => Some(Kind::Unpin),
        b"free" => Some(Kind::Free),
        b"drop" => Some(Kind::Drop),
        _ => None,
    }
}

// Returns the change of a slot, a row or a status with this name.
fn slot_change(name: &[u8]) -> Option<Kind> {
    match name {
        b"fill" => Some(Kind::Fill),
        b"row" => Some(Kind::Row),
        b"decide-yes" => Some(Kind::DecideYes),
        b"decide-no" => Some(Kind::DecideNo),
        _ => None,
    }
}

// Returns the change of a tenant's word with this name.
fn word_change(name: &[u8]) -> Option<Kind> {
    match name {
        b"plant" => Some(Kind::Plant),
        b"resolve" => Some(Kind::Resolve),
        b"release" => Some(Kind::Release),
        b"clean" => Some(Kind::Clean),
        _ => None,
    }
}

// Returns the call on the file with this name.
fn call_named(name: &[u8]) -> Option<Call> {
    match name {
        b"prepare" => Some(Call::Prepare),
        b"seal" => Some(Call::Seal),
        b"settle" => Some(Call::Settle),
        b"cancel" => Some(Call::Cancel),
        _ => None,
    }
}

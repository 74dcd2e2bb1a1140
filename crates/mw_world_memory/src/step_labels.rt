//! Computes the label of a request's step: what the step means for its tenant's marks.
//!
//! Used by: mw_simulator, for each step. A new label also belongs in `claims`, `lines` and `workers`, if it changes
//! what they keep.
ghost use Rattle.std.specs.Prelude.{◌≡◌};
ghost use Rattle.mw_world.specs.Definition.StepLabels.{answer_label, door_label, exchange_label, give_up_label, inspect_label, label_of, read_door_label, read_label, read_point, read_status_label, read_word_label, recheck_label, release_label, resolve_label, won_label};

use mw_actor::{Actor, Point, Slot, Sweep};
use mw_look::{After, Observation, Point as ReadPoint, Trail};
use mw_words::{Reply, Status};
use mw_world::{Phase, StepLabel};

/// Returns the label of a request's step. `actor` is the request before the step, `observation` what the step
/// found, and `after` the point after it.
pub fn label_of(actor: &Actor, observation: Observation, after: Point) -> StepLabel
    ensures { result ≡ label_of actor.now actor.now.point observation after }
{
    match actor.point() {
        Point::Read(look) => read_label(look.point(), read_point(after)),
        Point::ReadDoor => door_label(after),
        Point::Inspect { .. } => inspect_label(after),
        Point::FreeSlot { slot, .. } => StepLabel::Freed(slot),
        Point::LowerDoor(_) => StepLabel::Lowered,
        Point::GiveUp { own, .. } => give_up_label(own, after),
        point => exchange_label(actor, point, observation),
    }
}

// The label of an exchange. An exchange that lost has none.
fn exchange_label(actor: &Actor, point: Point, observation: Observation) -> StepLabel
    ensures { result ≡ exchange_label actor.now point observation }
{
    match observation {
        Observation::Won => won_label(actor, point),
        _ => StepLabel::Nothing,
    }
}

// The label of an exchange that won.
fn won_label(actor: &Actor, point: Point) -> StepLabel
    ensures { result ≡ won_label actor.now point }
{
    match point {
        Point::Admit { .. } => StepLabel::Admitted,
        Point::Claim { slot, from, .. } => StepLabel::Claimed(Slot {
            slot,
            seq: from.seq,
        }),
        Point::DecideYes(task) => StepLabel::Decided {
            target: task.target,
            status: Status::YesDirty,
        },
        Point::DecideNo { task, entry, value } => StepLabel::Refused {
            target: task.target,
            entry,
            value,
        },
        Point::Resolve {
            task,
            entry,
            was_open,
            ..
        } => resolve_label(was_open, task.target, actor.entry(task, entry).addr),
        Point::Release { task, sweep, entry } => {
            release_label(sweep, task.target, actor.entry(task, entry).addr)
        }
        Point::Clean { task, entry, .. } => StepLabel::Moved {
            target: task.target,
            address: actor.entry(task, entry).addr,
            phase: Phase::Released,
        },
        _ => StepLabel::Nothing,
    }
}

// The label of a reply decided at the door: the quota is used up, or the file has failed.
fn door_label(after: Point) -> StepLabel
    ensures { result ≡ door_label after }
{
    match after {
        Point::Replied(Reply::Busy) => StepLabel::FoundBusy,
        Point::Replied(Reply::Fault) => StepLabel::FoundFault,
        _ => StepLabel::Nothing,
    }
}

// The label of a look at a word that may refuse the change.
fn inspect_label(after: Point) -> StepLabel
    ensures { result ≡ inspect_label after }
{
    match after {
        Point::DecideNo { .. } => StepLabel::Reserved,
        _ => StepLabel::Nothing,
    }
}

// The label of an attempt's end: the change holds the word, if the attempt was to hold it.
fn resolve_label(was_open: bool, target: Slot, address: u16) -> StepLabel
    ensures { result ≡ resolve_label was_open target address }
{
    if was_open {
        StepLabel::Moved {
            target,
            address,
            phase: Phase::Acquired,
        }
    } else {
        StepLabel::Nothing
    }
}

// The label of a release: a held word got its new value, or its old one back.
fn release_label(sweep: Sweep, target: Slot, address: u16) -> StepLabel
    ensures { result ≡ release_label sweep target address }
{
    let phase = match sweep {
        Sweep::Yes => Phase::Written,
        Sweep::DoneYes | Sweep::No | Sweep::DoneNo { .. } => Phase::Released,
    };
    StepLabel::Moved {
        target,
        address,
        phase,
    }
}

fn give_up_label(own: Slot, after: Point) -> StepLabel
    ensures { result ≡ give_up_label own after }
{
    StepLabel::GaveUp {
        own,
        says_fault: matches!(after, Point::Replied(Reply::Fault)),
    }
}

// The label of a read's step, by the point before it and the point after it.
fn read_label(before: ReadPoint, after: ReadPoint) -> StepLabel
    ensures { result ≡ read_label before after }
{
    match before {
        ReadPoint::ReadDoor => read_door_label(after),
        ReadPoint::ReadWord => read_word_label(after),
        ReadPoint::ReadStatus(trail) => read_status_label(trail),
        ReadPoint::RecheckWord { trail, .. } => recheck_label(trail, after),
        ReadPoint::FreeSlot { slot, seq, .. } => StepLabel::Freed(Slot { slot, seq }),
        ReadPoint::LowerDoor(_) => StepLabel::Lowered,
        _ => StepLabel::Nothing,
    }
}

// The label of a read's look at the door: the file has failed, or none.
fn read_door_label(after: ReadPoint) -> StepLabel
    ensures { result ≡ read_door_label after }
{
    match after {
        ReadPoint::Replied(Reply::Fault) => StepLabel::FoundFault,
        _ => StepLabel::Nothing,
    }
}

// The label of a read that finds a value at once.
fn read_word_label(after: ReadPoint) -> StepLabel
    ensures { result ≡ read_word_label after }
{
    match after {
        ReadPoint::Replied(_) => StepLabel::Looked,
        _ => StepLabel::Nothing,
    }
}

// The label of a look at the status of a change: if the change holds the word, the status may decide the value.
fn read_status_label(trail: Trail) -> StepLabel
    ensures { result ≡ read_status_label trail }
{
    match trail {
        Trail::Held { .. } => StepLabel::Reserved,
        Trail::Planted { .. } => StepLabel::Nothing,
    }
}

fn recheck_label(trail: Trail, after: ReadPoint) -> StepLabel
    ensures { result ≡ recheck_label trail after }
{
    match after {
        ReadPoint::Unpin { after, .. } => answer_label(trail, after),
        _ => StepLabel::Nothing,
    }
}

// The label of a read that has its value. A held word's value was decided at the status, an attempt's is
// decided now.
fn answer_label(trail: Trail, after: After) -> StepLabel
    ensures { result ≡ answer_label trail after }
{
    match (after, trail) {
        (After::Again, _) => StepLabel::Nothing,
        (After::Answer(_), Trail::Held { .. }) => StepLabel::LookedBefore,
        (After::Answer(_), Trail::Planted { .. }) => StepLabel::Looked,
    }
}

// Returns the point of a read. A change has none, and gets `ReadDoor`.
fn read_point(point: Point) -> ReadPoint
    ensures { result ≡ read_point point }
{
    match point {
        Point::Read(look) => look.point(),
        _ => ReadPoint::ReadDoor,
    }
}

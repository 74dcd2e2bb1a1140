//! Tests the rules for doors and gates (`mw_pool`): admission, claims, pins and freed slots.
use crate::checks::holds;
use mw_pool::*;
use mw_words::{Door, Gate, MAX_PINS, WORN_NUMBER};

// Whether a door has a fault, how many slots it counts, a quota, and what is said to a request.
static DOORS: [(bool, u16, u8, Admission); 6] = [
    (
        false,
        0,
        1,
        Admission::To(Door {
            fault: false,
            used: 1,
        }),
    ),
    (
        false,
        254,
        255,
        Admission::To(Door {
            fault: false,
            used: 255,
        }),
    ),
    (false, 2, 2, Admission::Busy),
    (false, 0, 0, Admission::Busy),
    (true, 0, 1, Admission::Fault),
    (true, 2, 2, Admission::Fault),
];

#[test]
fn a_door_admits_up_to_its_quota(rt: HostRuntime) {
    for (fault, used, quota, said) in &DOORS {
        let (fault, used) = (*fault, *used);
        let is_so = admit(Door { fault, used }, *quota) == *said;
        holds(&rt, "slots in use", usize::from(used), is_so);
    }
}

// A gate: whether it is taken, its pins, and its number.
type Fields = (bool, u16, u64);

fn gate(fields: Fields) -> Gate {
    let (taken, pins, seq) = fields;
    Gate { taken, pins, seq }
}

// Tells whether this gate is found, or none.
fn is_found(found: Option<Gate>, wanted: Option<Fields>) -> bool {
    match (found, wanted) {
        (Some(gate), Some(fields)) => (gate.taken, gate.pins, gate.seq) == fields,
        (None, None) => true,
        _ => false,
    }
}

// Gates, and those that are claimed and freed from them.
static CLAIMED: [(Fields, Option<Fields>, Option<Fields>); 6] = [
    ((false, 0, 7), Some((true, 1, 7)), None),
    ((false, 0, WORN_NUMBER), None, None),
    ((true, 0, 7), None, Some((false, 0, 8))),
    (
        (true, 0, WORN_NUMBER - 1),
        None,
        Some((false, 0, WORN_NUMBER)),
    ),
    ((true, 0, WORN_NUMBER), None, None),
    ((true, 1, 7), None, None),
];

fn is_claimed_and_freed(from: Gate, claimed: Option<Fields>, freed: Option<Fields>) -> bool {
    from.is_in_range() && is_found(claim(from), claimed) && is_found(free(from), freed)
}

#[test]
fn gates_that_are_claimed_and_freed(rt: HostRuntime) {
    for (at, (from, claimed, freed)) in CLAIMED.iter().enumerate() {
        let is_so = is_claimed_and_freed(gate(*from), *claimed, *freed);
        holds(&rt, "row", at, is_so);
    }
}

// Gates, the number under which each is pinned, and the gate then.
static PINNED: [(Fields, u64, Option<Fields>); 6] = [
    ((true, 1, 7), 7, Some((true, 2, 7))),
    ((true, MAX_PINS - 1, 7), 7, Some((true, MAX_PINS, 7))),
    ((true, MAX_PINS, 7), 7, None),
    ((true, 1, 7), 8, None),
    ((true, 0, 7), 7, None),
    ((false, 0, 7), 7, None),
];

// Tells whether a gate is pinned so, and an unpin leads back.
fn is_pinned(from: Gate, seq: u64, wanted: Option<Fields>) -> bool {
    if !from.is_in_range() {
        return false;
    }
    let found = pin(from, seq);
    let leads_back = match found {
        Some(next) => unpin(next) == from,
        None => true,
    };
    leads_back && is_found(found, wanted)
}

#[test]
fn gates_that_are_pinned_and_unpinned(rt: HostRuntime) {
    for (at, (from, seq, pinned)) in PINNED.iter().enumerate() {
        let is_so = is_pinned(gate(*from), *seq, *pinned);
        holds(&rt, "row", at, is_so);
    }
}

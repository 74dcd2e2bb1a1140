//! Tests the bits of the shared words, kind by kind.
use crate::checks::holds;
use mw_words::*;

/// A shared word of one of the kinds.
#[derive(Clone, Copy)]
enum Shared {
    Word(Word),
    Gate(Gate),
    Door(Door),
    Status(Status),
    Row(Row),
}

/// Tells whether a shared word is in range. A door always is.
fn is_in_range(shared: Shared) -> bool {
    match shared {
        Shared::Word(word) => word.is_in_range(),
        Shared::Gate(gate) => gate.is_in_range(),
        Shared::Door(_) => true,
        Shared::Status(status) => status.is_in_range(),
        Shared::Row(row) => row.is_in_range(),
    }
}

/// Tells whether a shared word is in range, and has these bits both ways.
fn has_bits(shared: Shared, bits: u64) -> bool {
    match shared {
        Shared::Word(word) => {
            word.is_in_range() && word.pack() == bits && Word::unpack(bits) == Some(word)
        }
        Shared::Gate(gate) => {
            gate.is_in_range() && gate.pack() == bits && Gate::unpack(bits) == Some(gate)
        }
        Shared::Door(door) => door.pack() == bits && Door::unpack(bits) == Some(door),
        Shared::Status(status) => {
            status.is_in_range() && status.pack() == bits && Status::unpack(bits) == Some(status)
        }
        Shared::Row(row) => {
            row.is_in_range() && row.pack() == bits && Row::unpack(bits) == Some(row)
        }
    }
}

/// Shared words, and their bits.
static PATTERNS: [(Shared, u64); 25] = [
    (Shared::Word(Word::Plain(5)), 0x0000_0000_0000_0005),
    (Shared::Word(Word::Plain(MAX_VALUE)), 0x0000_ffff_ffff_ffff),
    (
        Shared::Word(Word::Planted {
            worker: 3,
            attempt: 9,
        }),
        0x4003_0000_0000_0009,
    ),
    (
        Shared::Word(Word::Planted {
            worker: 63,
            attempt: WORN_NUMBER,
        }),
        0x403f_ffff_ffff_ffff,
    ),
    (
        Shared::Word(Word::Held { slot: 255, seq: 1 }),
        0x80ff_0000_0000_0001,
    ),
    (
        Shared::Word(Word::Dirty {
            slot: 1,
            value: 281_474_976_710_655,
        }),
        0xc001_ffff_ffff_ffff,
    ),
    (
        Shared::Gate(Gate {
            taken: true,
            pins: 2,
            seq: 7,
        }),
        0x8002_0000_0000_0007,
    ),
    (
        Shared::Gate(Gate {
            taken: true,
            pins: 0,
            seq: 1,
        }),
        0x8000_0000_0000_0001,
    ),
    (
        Shared::Gate(Gate {
            taken: true,
            pins: MAX_PINS,
            seq: WORN_NUMBER,
        }),
        0xffff_ffff_ffff_ffff,
    ),
    (
        Shared::Gate(Gate {
            taken: false,
            pins: 0,
            seq: 7,
        }),
        0x0000_0000_0000_0007,
    ),
    (
        Shared::Door(Door {
            fault: true,
            used: 3,
        }),
        0x8000_0000_0000_0003,
    ),
    (
        Shared::Door(Door {
            fault: false,
            used: 0,
        }),
        0x0000_0000_0000_0000,
    ),
    (
        Shared::Door(Door {
            fault: false,
            used: 65_535,
        }),
        0x0000_0000_0000_ffff,
    ),
    (Shared::Status(Status::Draft), 0x0000_0000_0000_0000),
    (Shared::Status(Status::Open), 0x1000_0000_0000_0000),
    (Shared::Status(Status::YesDirty), 0x2000_0000_0000_0000),
    (Shared::Status(Status::Yes), 0x3000_0000_0000_0000),
    (
        Shared::Status(Status::No { entry: 7, value: 0 }),
        0x4007_0000_0000_0000,
    ),
    (
        Shared::Status(Status::No { entry: 0, value: 9 }),
        0x4000_0000_0000_0009,
    ),
    (
        Shared::Status(Status::No {
            entry: 15,
            value: 9,
        }),
        0x400f_0000_0000_0009,
    ),
    (Shared::Status(Status::DoneYes), 0x5000_0000_0000_0000),
    (
        Shared::Status(Status::DoneNo {
            entry: 1,
            value: MAX_VALUE,
        }),
        0x6001_ffff_ffff_ffff,
    ),
    (
        Shared::Row(Row {
            slot: 2,
            entry: 5,
            seq: 9,
        }),
        0x0205_0000_0000_0009,
    ),
    (
        Shared::Row(Row {
            slot: 2,
            entry: 15,
            seq: 9,
        }),
        0x020f_0000_0000_0009,
    ),
    (
        Shared::Row(Row {
            slot: 255,
            entry: 0,
            seq: WORN_NUMBER,
        }),
        0xff00_ffff_ffff_ffff,
    ),
];

#[test]
fn patterns_of_shared_words(rt: HostRuntime) {
    for (at, (shared, bits)) in PATTERNS.iter().enumerate() {
        holds(&rt, "a row", at, has_bits(*shared, *bits));
    }
}

/// Shared words that are out of range by one of their fields: the worker, the value, the pins of a gate that is not
/// taken, and the entry of a status and of a row.
static BEYOND: [(&str, Shared); 5] = [
    (
        "worker",
        Shared::Word(Word::Planted {
            worker: 64,
            attempt: 9,
        }),
    ),
    ("value", Shared::Word(Word::Plain(MAX_VALUE + 1))),
    (
        "pins",
        Shared::Gate(Gate {
            taken: false,
            pins: 1,
            seq: 7,
        }),
    ),
    (
        "status",
        Shared::Status(Status::DoneNo {
            entry: MAX_ENTRIES as u8,
            value: 0,
        }),
    ),
    (
        "row",
        Shared::Row(Row {
            slot: 2,
            entry: MAX_ENTRIES as u8,
            seq: 9,
        }),
    ),
];

#[test]
fn what_is_out_of_range(rt: HostRuntime) {
    for (field, shared) in &BEYOND {
        holds(&rt, field, 0, !is_in_range(*shared));
    }
}

/// The kind of a shared word.
#[derive(Clone, Copy)]
enum Kind {
    Word,
    Gate,
    Door,
    Status,
    Row,
}

/// Tells whether these bits are of no shared word of a kind.
fn is_nothing(kind: Kind, bits: u64) -> bool {
    match kind {
        Kind::Word => Word::unpack(bits).is_none(),
        Kind::Gate => Gate::unpack(bits).is_none(),
        Kind::Door => Door::unpack(bits).is_none(),
        Kind::Status => Status::unpack(bits).is_none(),
        Kind::Row => Row::unpack(bits).is_none(),
    }
}

/// Bits that are of no shared word of this kind.
static NOTHING: [(Kind, u64); 16] = [
    (Kind::Word, 0x0001_0000_0000_0005),
    (Kind::Word, 0x4040_0000_0000_0009),
    (Kind::Word, 0x8100_0000_0000_0001),
    (Kind::Word, 0xd000_0000_0000_0001),
    (Kind::Gate, 0x0001_0000_0000_0007),
    (Kind::Door, 0x0000_0000_0001_0003),
    (Kind::Door, 0x4000_0000_0000_0003),
    (Kind::Status, 0x1000_0000_0000_0001),
    (Kind::Status, 0x3001_0000_0000_0000),
    (Kind::Status, 0x4010_0000_0000_0000),
    (Kind::Status, 0x4100_0000_0000_0000),
    (Kind::Status, 0x60ff_0000_0000_0000),
    (Kind::Status, 0x7000_0000_0000_0000),
    (Kind::Row, 0x0210_0000_0000_0009),
    (Kind::Row, 0x02f5_0000_0000_0009),
    (Kind::Row, 0x02ff_0000_0000_0009),
];

#[test]
fn bits_of_nothing(rt: HostRuntime) {
    for (at, (kind, bits)) in NOTHING.iter().enumerate() {
        holds(&rt, "a row", at, is_nothing(*kind, *bits));
    }
}

#[test]
fn places(rt: HostRuntime) {
    let first = At::Addr { slot: 1, entry: 0 };
    let is_itself = first == At::Addr { slot: 1, entry: 0 };
    let is_another = first == At::New { slot: 1, entry: 0 } || At::Door(1) == At::Gate(1);
    holds(&rt, "places", 1, is_itself && !is_another);
}

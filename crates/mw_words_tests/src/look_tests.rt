//! Tests the machine of a read (`mw_look`): it is told what each of its steps found, and must ask for the right
//! next step.
use crate::checks::holds;
use crate::script::Step;
use mw_look::*;
use mw_words::{At, Reply};

const DOOR: At = At::Door(2);

const WORD: At = At::Data {
    tenant: 2,
    address: 7,
};

const GATE: At = At::Gate(3);

// Bits of words, written out by hand.
const PLAIN_5: u64 = 0x0000_0000_0000_0005;

const DIRTY_9: u64 = 0xc001_0000_0000_0009;

const HELD: u64 = 0x8003_0000_0000_0006;

const PLANTED: u64 = 0x4004_0000_0000_0008;

const ROW: u64 = 0x0302_0000_0000_0006;

const FREE: u64 = 0x0000_0000_0000_0007;

const ONE_PIN: u64 = 0x8001_0000_0000_0006;

const TWO_PINS: u64 = 0x8002_0000_0000_0006;

const OPEN: u64 = 0x1000_0000_0000_0000;

const YES: u64 = 0x3000_0000_0000_0000;

const DONE_YES: u64 = 0x5000_0000_0000_0000;

const NO_PATTERN: u64 = 0x0001_0000_0000_0000;

// The door, the gate with one pin, a pin of it that is won, and an unpin that finds another pin.
const ADMITTED: Step = Step::Load(DOOR, 1);

const PINNABLE: Step = Step::Load(GATE, ONE_PIN);

const PINNED: Step = Step::Won(Kind::Pin, GATE, ONE_PIN, TWO_PINS);

const UNPINNED: Step = Step::Found(Kind::Unpin, GATE, TWO_PINS);

// The statuses of slot 3, its entries 0 and 1, and the values of its entry 2.
const IS_OPEN: Step = Step::Load(At::Status(3), OPEN);

const IS_YES: Step = Step::Load(At::Status(3), YES);

const IS_DONE_YES: Step = Step::Load(At::Status(3), DONE_YES);

const ADDR_0: At = At::Addr { slot: 3, entry: 0 };

const ADDR_1: At = At::Addr { slot: 3, entry: 1 };

const EXPECTED_0: At = At::Expected { slot: 3, entry: 0 };

const EXPECTED_1: At = At::Expected { slot: 3, entry: 1 };

const EXPECTED_2: At = At::Expected { slot: 3, entry: 2 };

const NEW_0: At = At::New { slot: 3, entry: 0 };

const NEW_1: At = At::New { slot: 3, entry: 1 };

const NEW_2: At = At::New { slot: 3, entry: 2 };

// A read that comes to its pin of a held word, one that is told the value 5, and the way back from a held word.
const TO_THE_PIN: &[Step] = &[ADMITTED, Step::Load(WORD, HELD), PINNABLE, PINNED];

const FINDS_5: &[Step] = &[ADMITTED, Step::Load(WORD, PLAIN_5)];

const BACK: &[Step] = &[Step::Load(WORD, HELD), UNPINNED];

const FINDS_DIRTY_9: &[Step] = &[ADMITTED, Step::Load(WORD, DIRTY_9)];

const FINDS_FAULT: &[Step] = &[Step::Load(DOOR, 0x8000_0000_0000_0001)];

const ENTRY_1_OF_YES: &[Step] = &[
    IS_YES,
    Step::Load(ADDR_0, 5),
    Step::Load(ADDR_1, 7),
    Step::Load(EXPECTED_1, 40),
    Step::Load(NEW_1, 41),
];

const ENTRY_1_OF_OPEN: &[Step] = &[
    IS_OPEN,
    Step::Load(ADDR_0, 5),
    Step::Load(ADDR_1, 7),
    Step::Load(EXPECTED_1, 40),
    Step::Load(NEW_1, 41),
];

const ENTRY_0_OF_YES: &[Step] = &[
    IS_YES,
    Step::Load(ADDR_0, 7),
    Step::Load(EXPECTED_0, 40),
    Step::Load(NEW_0, 41),
];

const ENTRY_0_OF_OPEN: &[Step] = &[
    IS_OPEN,
    Step::Load(ADDR_0, 7),
    Step::Load(EXPECTED_0, 40),
    Step::Load(NEW_0, 41),
];

const ENTRY_0_OF_DONE_YES: &[Step] = &[
    IS_DONE_YES,
    Step::Load(ADDR_0, 7),
    Step::Load(EXPECTED_0, 40),
    Step::Load(NEW_0, 41),
];

// A read of a planted word, whose row names entry 2 of slot 3.
const PLANTED_ENTRY_2: &[Step] = &[
    ADMITTED,
    Step::Load(WORD, PLANTED),
    Step::Load(At::Row(4), ROW),
    Step::Load(WORD, PLANTED),
    PINNABLE,
    PINNED,
    IS_YES,
    Step::Load(EXPECTED_2, 40),
    Step::Load(NEW_2, 41),
    Step::Load(WORD, PLANTED),
    UNPINNED,
];

// The word changes behind the row, or behind the pin.
const CHANGED_BEHIND_ROW: &[Step] = &[
    ADMITTED,
    Step::Load(WORD, PLANTED),
    Step::Load(At::Row(4), ROW),
    Step::Load(WORD, PLAIN_5),
];

const BACK_TO_ANOTHER_WORD: &[Step] = &[Step::Load(WORD, PLAIN_5), UNPINNED];

// Gates that can't be pinned: a free one, one without a pin, one of another number, and one with the most pins.
const FREE_GATE: &[Step] = &[ADMITTED, Step::Load(WORD, HELD), Step::Load(GATE, FREE)];

const GATE_WITHOUT_PIN: &[Step] = &[
    ADMITTED,
    Step::Load(WORD, HELD),
    Step::Load(GATE, 0x8000_0000_0000_0006),
];

const GATE_OF_ANOTHER: &[Step] = &[
    ADMITTED,
    Step::Load(WORD, HELD),
    Step::Load(GATE, 0x8001_0000_0000_0007),
];

const GATE_WITH_MOST_PINS: &[Step] = &[
    ADMITTED,
    Step::Load(WORD, HELD),
    Step::Load(GATE, 0xffff_0000_0000_0006),
];

// A pin that is lost, and then a gate whose number is worn.
const LOST_PIN: &[Step] = &[
    ADMITTED,
    Step::Load(WORD, HELD),
    PINNABLE,
    Step::Lost(Kind::Pin, GATE, ONE_PIN, TWO_PINS),
];

const WORN_GATE: &[Step] = &[
    ADMITTED,
    Step::Load(WORD, 0x8003_ffff_ffff_ffff),
    Step::Load(GATE, 0x8001_ffff_ffff_ffff),
];

// The way back of the last pin, which frees the slot and lowers the door.
const BACK_WITH_LAST_PIN: &[Step] = &[
    Step::Load(WORD, HELD),
    Step::Found(Kind::Unpin, GATE, ONE_PIN),
    Step::Won(Kind::Free, GATE, 0, FREE),
    Step::Found(Kind::Drop, DOOR, 1),
];

// A slot without an entry of the word.
const NO_ENTRY: &[Step] = &[
    IS_OPEN,
    Step::Load(ADDR_0, 8),
    Step::Load(ADDR_1, 8),
    Step::Load(At::Addr { slot: 3, entry: 2 }, 8),
    Step::Load(At::Addr { slot: 3, entry: 3 }, 8),
    Step::Load(At::Addr { slot: 3, entry: 4 }, 8),
    Step::Load(At::Addr { slot: 3, entry: 5 }, 8),
    Step::Load(At::Addr { slot: 3, entry: 6 }, 8),
    Step::Load(At::Addr { slot: 3, entry: 7 }, 8),
    Step::Load(At::Addr { slot: 3, entry: 8 }, 8),
    Step::Load(At::Addr { slot: 3, entry: 9 }, 8),
    Step::Load(At::Addr { slot: 3, entry: 10 }, 8),
    Step::Load(At::Addr { slot: 3, entry: 11 }, 8),
    Step::Load(At::Addr { slot: 3, entry: 12 }, 8),
    Step::Load(At::Addr { slot: 3, entry: 13 }, 8),
    Step::Load(At::Addr { slot: 3, entry: 14 }, 8),
    Step::Load(At::Addr { slot: 3, entry: 15 }, 8),
    UNPINNED,
];

// Plays these steps from where the read is. Tells whether it asked for each of them, and had no reply
// before any of them.
fn plays(look: &mut Look, script: &[Step]) -> bool {
    for step in script {
        let (asked, got) = step.played();
        if look.ask() != asked || look.reply().is_some() {
            return false;
        }
        look.tell(Told { got, next: 0 });
    }
    true
}

// A read: its name, the steps for which it asks, part after part, and its reply.
type Row = (&'static str, &'static [&'static [Step]], Reply);

// Gives the reply of a read of word 7 of tenant 2, if it asks for these steps, part after part.
fn reply_after(parts: &[&[Step]]) -> Option<Reply> {
    let mut look = Look::new(2, 7);
    for part in parts {
        if !plays(&mut look, part) {
            return None;
        }
    }
    look.reply()
}

static READS: [Row; 15] = [
    ("plain", &[FINDS_5], Reply::Val(5)),
    ("dirty", &[FINDS_DIRTY_9], Reply::Val(9)),
    ("failed", &[FINDS_FAULT], Reply::Fault),
    (
        "held, sealed",
        &[TO_THE_PIN, ENTRY_1_OF_YES, BACK],
        Reply::Val(41),
    ),
    (
        "held, open",
        &[TO_THE_PIN, ENTRY_1_OF_OPEN, BACK],
        Reply::Val(40),
    ),
    (
        "a last pin frees the slot",
        &[TO_THE_PIN, ENTRY_0_OF_YES, BACK_WITH_LAST_PIN],
        Reply::Val(41),
    ),
    ("planted", &[PLANTED_ENTRY_2], Reply::Val(40)),
    // These begin again.
    (
        "held, done with",
        &[TO_THE_PIN, ENTRY_0_OF_DONE_YES, BACK, FINDS_5],
        Reply::Val(5),
    ),
    (
        "a word that changed",
        &[
            CHANGED_BEHIND_ROW,
            TO_THE_PIN,
            ENTRY_0_OF_OPEN,
            BACK_TO_ANOTHER_WORD,
            FINDS_5,
        ],
        Reply::Val(5),
    ),
    ("a free gate", &[FREE_GATE, FINDS_5], Reply::Val(5)),
    (
        "a gate without a pin",
        &[GATE_WITHOUT_PIN, FINDS_5],
        Reply::Val(5),
    ),
    (
        "a gate of another",
        &[GATE_OF_ANOTHER, FINDS_5],
        Reply::Val(5),
    ),
    (
        "the most pins",
        &[GATE_WITH_MOST_PINS, FINDS_5],
        Reply::Val(5),
    ),
    ("a lost pin", &[LOST_PIN, WORN_GATE, FINDS_5], Reply::Val(5)),
    (
        "no entry of the word",
        &[TO_THE_PIN, NO_ENTRY, FINDS_5],
        Reply::Val(5),
    ),
];

#[test]
fn reads(rt: HostRuntime) {
    for (name, parts, reply) in &READS {
        holds(&rt, name, 7, reply_after(parts) == Some(*reply));
    }
}

// What no step of a read finds at its door.
static UNFIT: [Got; 4] = [Got::Word(NO_PATTERN), Got::Won, Got::Lost, Got::File(true)];

// Tells whether a read asks for its door, and has no reply, whatever it is told that is unfit.
fn stays_at_the_door(look: &mut Look) -> bool {
    for got in &UNFIT {
        look.tell(Told { got: *got, next: 9 });
        if look.ask() != Op::Load(DOOR) || look.reply().is_some() {
            return false;
        }
    }
    true
}

#[test]
fn what_does_not_fit_the_step_changes_nothing(rt: HostRuntime) {
    let mut look = Look::new(2, 7);
    let plays_on = stays_at_the_door(&mut look) && plays(&mut look, FINDS_5);
    let before = look.reply();
    look.tell(Told {
        got: Got::Word(1),
        next: 9,
    });
    let wanted = Some(Reply::Val(5));
    let is_so = plays_on && before == wanted && look.reply() == wanted;
    holds(&rt, "unfit", 0, is_so);
}

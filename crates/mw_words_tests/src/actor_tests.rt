//! Tests the machine of a request (`mw_actor`): it is told what each of its steps found, and must ask for the right
//! next step.
use crate::checks::holds;
use crate::script::Step;
use mw_actor::*;
use mw_look::{Call, Kind, Told};
use mw_words::{At, Entries, Entry, Job, Reply, WORN_NUMBER};

// The statuses that have no fields.
const OPEN: u64 = 0x1000_0000_0000_0000;

const YES_DIRTY: u64 = 0x2000_0000_0000_0000;

const YES: u64 = 0x3000_0000_0000_0000;

const DONE_YES: u64 = 0x5000_0000_0000_0000;

// The word of the tests, of tenant 3 at address 6.
const WORD: At = At::Data {
    tenant: 3,
    address: 6,
};

// The word held for slot 1 under number 7, and dirty by slot 1 with the value 8. The gate of that slot has
// one pin. The held word and that gate have the same bits.
const HELD: u64 = 0x8001_0000_0000_0007;

const DIRTY: u64 = 0xc001_0000_0000_0008;

const TAKEN: u64 = 0x8001_0000_0000_0007;

// The word with attempt 9 of worker 2.
const PLANTED: u64 = 0x4002_0000_0000_0009;

// Slot 0 is taken, so slot 1 is claimed and written.
const OPENING: &[Step] = &[
    Step::Load(At::Door(3), 1),
    Step::Won(Kind::Admit, At::Door(3), 1, 2),
    Step::Load(At::Gate(0), 0x8001_0000_0000_0004),
    Step::Load(At::Gate(1), 7),
    Step::Won(Kind::Claim, At::Gate(1), 7, TAKEN),
    Step::Won(Kind::Fill, At::Status(1), 0, 0),
    Step::Won(Kind::Fill, At::Count(1), 0, 1),
    Step::Won(Kind::Fill, At::Addr { slot: 1, entry: 0 }, 0, 6),
    Step::Won(Kind::Fill, At::Expected { slot: 1, entry: 0 }, 0, 5),
    Step::Won(Kind::Fill, At::New { slot: 1, entry: 0 }, 0, 8),
    Step::File(Call::Prepare, 1, true),
];

// A change alone is made: it holds the word, and lets it go.
const HOLDING: &[Step] = &[
    Step::Load(At::Status(1), OPEN),
    Step::Load(WORD, 5),
    Step::Won(Kind::Row, At::Row(2), 0, 0x0100_0000_0000_0007),
    Step::Won(Kind::Plant, WORD, 5, PLANTED),
    Step::Load(At::Status(1), OPEN),
    Step::Won(Kind::Resolve, WORD, PLANTED, HELD),
    Step::Load(At::Status(1), OPEN),
    Step::Load(WORD, HELD),
    Step::Won(Kind::DecideYes, At::Status(1), OPEN, YES_DIRTY),
    Step::Load(At::Status(1), YES_DIRTY),
    Step::File(Call::Seal, 1, true),
];

const LETTING_GO: &[Step] = &[
    Step::Load(At::Status(1), YES),
    Step::Load(WORD, HELD),
    Step::Won(Kind::Release, WORD, HELD, DIRTY),
    Step::File(Call::Settle, 1, true),
    Step::Load(At::Status(1), DONE_YES),
    Step::Load(WORD, DIRTY),
    Step::Won(Kind::Clean, WORD, DIRTY, 8),
    Step::Found(Kind::Unpin, At::Gate(1), TAKEN),
    Step::Won(Kind::Free, At::Gate(1), 0, 8),
    Step::Found(Kind::Drop, At::Door(3), 2),
];

// The word has another value.
const REFUSING: &[Step] = &[
    Step::Load(At::Status(1), OPEN),
    Step::Load(WORD, 11),
    Step::Won(Kind::DecideNo, At::Status(1), OPEN, 0x4000_0000_0000_000b),
    Step::Load(At::Status(1), 0x4000_0000_0000_000b),
    Step::Load(WORD, 11),
    Step::File(Call::Cancel, 1, true),
    Step::Load(At::Status(1), 0x6000_0000_0000_000b),
    Step::Load(WORD, 11),
    Step::Found(Kind::Unpin, At::Gate(1), 0x8002_0000_0000_0007),
];

// Another change is helped first.
const HELPING: &[Step] = &[
    Step::Load(At::Status(1), OPEN),
    Step::Load(WORD, 0x8000_0000_0000_0004),
    Step::Load(At::Gate(0), 0x8001_0000_0000_0004),
    Step::Won(
        Kind::Pin,
        At::Gate(0),
        0x8001_0000_0000_0004,
        0x8002_0000_0000_0004,
    ),
    Step::Load(At::Count(0), 1),
    Step::Load(At::Addr { slot: 0, entry: 0 }, 6),
    Step::Load(At::Expected { slot: 0, entry: 0 }, 4),
    Step::Load(At::New { slot: 0, entry: 0 }, 5),
    Step::Load(At::Status(0), YES_DIRTY),
    Step::File(Call::Seal, 0, true),
    Step::Load(At::Status(0), YES),
    Step::Load(WORD, 0x8000_0000_0000_0004),
    Step::Won(
        Kind::Release,
        WORD,
        0x8000_0000_0000_0004,
        0xc000_0000_0000_0005,
    ),
    Step::File(Call::Settle, 0, true),
    Step::Load(At::Status(0), DONE_YES),
    Step::Load(WORD, 5),
    Step::Found(Kind::Unpin, At::Gate(0), 0x8001_0000_0000_0004),
    Step::Won(Kind::Free, At::Gate(0), 0, 5),
    Step::Found(Kind::Drop, At::Door(3), 2),
    Step::Load(At::Status(1), OPEN),
    Step::Load(WORD, 5),
];

// The file fails.
const FAILING: &[Step] = &[
    Step::Load(At::Status(1), YES_DIRTY),
    Step::File(Call::Seal, 1, false),
    Step::Load(At::Status(1), YES_DIRTY),
];

const READING: &[Step] = &[Step::Load(At::Door(3), 1), Step::Load(WORD, DIRTY)];

// The next step of the change, after which it is told nothing more.
const ROW: &[Step] = &[Step::Won(Kind::Row, At::Row(2), 0, 0x0100_0000_0000_0007)];

// The door has a fault, the quota is used up, or there is room.
const FAULTY_DOOR: &[Step] = &[Step::Load(At::Door(3), 0x8000_0000_0000_0001)];

const FULL_DOOR: &[Step] = &[Step::Load(At::Door(3), 4)];

const FREE_DOOR: &[Step] = &[Step::Load(At::Door(3), 3)];

// Tells whether the actor asks for these steps, in this order, and so does a copy of it, and it has no reply before
// they are made. It is told this as the next number of a request.
fn follows(actor: &mut Actor, next: u64, script: &[Step]) -> bool {
    for step in script {
        let (asked, got) = step.played();
        let is_asked = actor.ask() == asked && actor.copy().ask() == asked;
        if !is_asked || actor.reply().is_some() {
            return false;
        }
        actor.tell(Told { got, next });
    }
    true
}

// Makes a request of worker 2 to change the word from 5 to 8, for tenant 3 with a quota of 4, in a pool of
// 2 slots.
fn change_of_one_word() -> Actor {
    let mut entries = Entries::new();
    entries.push(Entry {
        addr: 6,
        expected: 5,
        new: 8,
    });
    Actor::new(2, 3, 4, 2, Job::Cas(entries))
}

// A change: its name, the next number of a request, the steps for which it asks, part after part, and its reply.
type Row = (&'static str, u64, &'static [&'static [Step]], Option<Reply>);

// Tells whether the actor asks for these steps, part after part, and ends with this reply.
fn ends(actor: &mut Actor, next: u64, parts: &[&[Step]], reply: Option<Reply>) -> bool {
    for part in parts {
        if !follows(actor, next, part) {
            return false;
        }
    }
    actor.reply() == reply
}

static CHANGES: [Row; 7] = [
    (
        "alone",
        9,
        &[OPENING, HOLDING, LETTING_GO],
        Some(Reply::Yes),
    ),
    (
        "another value",
        9,
        &[OPENING, REFUSING],
        Some(Reply::No(6, 11)),
    ),
    ("the file fails", 9, &[OPENING, FAILING], Some(Reply::Fault)),
    (
        "another change is helped first",
        9,
        &[OPENING, HELPING, ROW],
        None,
    ),
    ("a faulty door", 9, &[FAULTY_DOOR], Some(Reply::Fault)),
    ("a full door", WORN_NUMBER, &[FULL_DOOR], Some(Reply::Busy)),
    ("worn", WORN_NUMBER, &[FREE_DOOR], Some(Reply::Worn)),
];

#[test]
fn changes(rt: HostRuntime) {
    for (name, next, parts, reply) in &CHANGES {
        let mut actor = change_of_one_word();
        holds(
            &rt,
            name,
            *next as usize,
            ends(&mut actor, *next, parts, *reply),
        );
    }
}

#[test]
fn a_read_is_handed_through(rt: HostRuntime) {
    let mut actor = Actor::new(2, 3, 4, 2, Job::Get(6));
    let is_read = ends(&mut actor, 9, &[READING], Some(Reply::Val(8)));
    let is_its_own = actor.worker() == 2 && actor.tenant() == 3;
    let is_its_own = is_its_own && matches!(actor.job(), Job::Get(6));
    holds(&rt, "a read", 6, is_read && is_its_own);
}

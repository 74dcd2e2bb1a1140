//! Tests an engine in which one request is held while others are served. Nobody waits for a worker that is held:
//! neither one that asks for the words that its change holds, nor one that asks another tenant.
//!
//! The latch waits for thirty million turns of a yielding loop. A slow machine, or the host of a virtual one, may
//! keep the processors from the test for up to a minute; if the latch gave up before, a right engine would fail.
use crate::cases::{Case, Device, Play, Row, come_out};
use crate::latch::{Place, Stop};
use crate::talks::Talk;
use mw_engine::Point;

/// How many times each story is played that depends on the order of its threads.
const TIMES: u8 = 100;

/// `t` of two words, and `u` of one.
const TENANTS: &[u8] = b"t 2 2 t.mw\nu 1 1 u.mw\n";

const BOTH_SOUND: &[Device<'static>] = &[Device::Sound, Device::Sound];

/// A change of both words of `t`, which is held.
const CHANGE_OF_BOTH: Talk<'static> = Talk {
    says: b"TENANT t\nCAS 0:0:1 1:0:1\nGET 1\n",
    told: b"OK 2\nYES\nVAL 1\n",
    cut: None,
};

/// What another client says meanwhile.
const CHANGES_BESIDE: &[u8] = b"TENANT t\nGET 0\nCAS 0:1:2\nGET 0\n";

/// What `u` says meanwhile.
const NEIGHBOUR: Talk<'static> = Talk {
    says: b"TENANT u\nCAS 0:0:1\n",
    told: b"OK 1\nYES\n",
    cut: None,
};

/// The held change isn't seen meanwhile.
const NOT_SEEN: &[Talk<'static>] = &[
    CHANGE_OF_BOTH,
    Talk {
        says: CHANGES_BESIDE,
        told: b"OK 2\nVAL 0\nYES\nVAL 2\n",
        cut: None,
    },
    NEIGHBOUR,
];

/// The held change is seen meanwhile.
const SEEN: &[Talk<'static>] = &[
    CHANGE_OF_BOTH,
    Talk {
        says: CHANGES_BESIDE,
        told: b"OK 2\nVAL 1\nYES\nVAL 2\n",
        cut: None,
    },
    NEIGHBOUR,
];

/// A change of word 0 of `t`, which is held.
const CHANGE_OF_ONE: Talk<'static> = Talk {
    says: b"TENANT t\nCAS 0:0:1\n",
    told: b"OK 2\nYES\n",
    cut: None,
};

/// What a client says meanwhile that only reads.
const READS_BESIDE: &[u8] = b"TENANT t\nGET 0\nGET 1\n";

/// The held change isn't read meanwhile.
const NOT_READ: &[Talk<'static>] = &[
    CHANGE_OF_ONE,
    Talk {
        says: READS_BESIDE,
        told: b"OK 2\nVAL 0\nVAL 0\n",
        cut: None,
    },
    NEIGHBOUR,
];

/// The held change is read meanwhile.
const READ: &[Talk<'static>] = &[
    CHANGE_OF_ONE,
    Talk {
        says: READS_BESIDE,
        told: b"OK 2\nVAL 1\nVAL 0\n",
        cut: None,
    },
    NEIGHBOUR,
];

/// Workers 1 and 2 wait for the file while a sync of worker 3 is under way.
const WAITING: &[Talk<'static>] = &[
    Talk {
        says: b"TENANT t\nCAS 0:0:1\n",
        told: b"OK 4\nYES\n",
        cut: None,
    },
    Talk {
        says: b"TENANT t\nCAS 1:0:1\n",
        told: b"OK 4\nYES\n",
        cut: None,
    },
    Talk {
        says: b"TENANT t\nCAS 2:0:1\n",
        told: b"OK 4\nYES\n",
        cut: None,
    },
    Talk {
        says: b"TENANT t\nCAS 3:0:1\nCAS 3:1:2\n",
        told: b"OK 4\nYES\nYES\n",
        cut: None,
    },
];

static STORIES: [Row; 16] = [
    Row {
        name: "held_requests",
        number: 1,
        times: TIMES,
        case: Case {
            tenants: TENANTS,
            pool: 3,
            devices: BOTH_SOUND,
            stop: Stop {
                place: Place::At(Point::Planted),
                before: 0,
                gathers: false,
            },
            play: Play::Story(NOT_SEEN),
            words: &[&[2, 1], &[1]],
        },
    },
    Row {
        name: "held_requests",
        number: 2,
        times: TIMES,
        case: Case {
            tenants: TENANTS,
            pool: 3,
            devices: BOTH_SOUND,
            stop: Stop {
                place: Place::At(Point::BeforeSeal),
                before: 0,
                gathers: false,
            },
            play: Play::Story(NOT_SEEN),
            words: &[&[2, 1], &[1]],
        },
    },
    Row {
        name: "held_requests",
        number: 3,
        times: TIMES,
        case: Case {
            tenants: TENANTS,
            pool: 3,
            devices: BOTH_SOUND,
            stop: Stop {
                place: Place::At(Point::BeforeSettle),
                before: 0,
                gathers: false,
            },
            play: Play::Story(SEEN),
            words: &[&[2, 1], &[1]],
        },
    },
    Row {
        name: "held_replies",
        number: 1,
        times: TIMES,
        case: Case {
            tenants: TENANTS,
            pool: 3,
            devices: BOTH_SOUND,
            stop: Stop {
                place: Place::At(Point::BeforeReply),
                before: 0,
                gathers: false,
            },
            play: Play::Story(SEEN),
            words: &[&[2, 1], &[1]],
        },
    },
    // `t` may have only one change under way.
    Row {
        name: "own_quota_busy",
        number: 1,
        times: 1,
        case: Case {
            tenants: b"t 2 1 t.mw\nu 1 1 u.mw\n",
            pool: 3,
            devices: BOTH_SOUND,
            stop: Stop {
                place: Place::At(Point::Planted),
                before: 0,
                gathers: false,
            },
            play: Play::Story(&[
                CHANGE_OF_ONE,
                Talk {
                    says: b"TENANT t\nCAS 1:0:1\n",
                    told: b"OK 2\nBUSY\n",
                    cut: None,
                },
                NEIGHBOUR,
            ]),
            words: &[&[1, 0], &[1]],
        },
    },
    // Workers that serve one request after the other are caught.
    Row {
        name: "serial_workers",
        number: 1,
        times: TIMES,
        case: Case {
            tenants: TENANTS,
            pool: 3,
            devices: BOTH_SOUND,
            stop: Stop {
                place: Place::Write,
                before: 0,
                gathers: false,
            },
            play: Play::Story(NOT_READ),
            words: &[&[1, 0], &[1]],
        },
    },
    // A read waits for no sync. The change is sealed by its second sync.
    Row {
        name: "reads_wait_for_no_sync",
        number: 0,
        times: 1,
        case: Case {
            tenants: TENANTS,
            pool: 3,
            devices: BOTH_SOUND,
            stop: Stop {
                place: Place::Sync,
                before: 0,
                gathers: false,
            },
            play: Play::Story(NOT_READ),
            words: &[&[1, 0], &[1]],
        },
    },
    Row {
        name: "reads_wait_for_no_sync",
        number: 1,
        times: 1,
        case: Case {
            tenants: TENANTS,
            pool: 3,
            devices: BOTH_SOUND,
            stop: Stop {
                place: Place::Sync,
                before: 1,
                gathers: false,
            },
            play: Play::Story(NOT_READ),
            words: &[&[1, 0], &[1]],
        },
    },
    Row {
        name: "reads_wait_for_no_sync",
        number: 2,
        times: 1,
        case: Case {
            tenants: TENANTS,
            pool: 3,
            devices: BOTH_SOUND,
            stop: Stop {
                place: Place::Sync,
                before: 2,
                gathers: false,
            },
            play: Play::Story(READ),
            words: &[&[1, 0], &[1]],
        },
    },
    Row {
        name: "reads_wait_for_no_sync",
        number: 3,
        times: 1,
        case: Case {
            tenants: TENANTS,
            pool: 3,
            devices: BOTH_SOUND,
            stop: Stop {
                place: Place::Sync,
                before: 3,
                gathers: false,
            },
            play: Play::Story(READ),
            words: &[&[1, 0], &[1]],
        },
    },
    // A settle settles all sealed changes, and their own settles then make no device call. Each of three changes is held
    // after four calls. The one beside them makes four to its seal, and its settle makes ten for all four. So the second
    // change of worker 0 begins with call 27, and its seal's sync is call 30.
    Row {
        name: "one_settle_for_all_sealed_changes",
        number: 30,
        times: 1,
        case: Case {
            tenants: b"t 4 4 t.mw\n",
            pool: 4,
            devices: &[Device::Fails(30)],
            stop: Stop {
                place: Place::AllButOne(Point::BeforeSettle),
                before: 0,
                gathers: false,
            },
            play: Play::Story(&[
                Talk {
                    says: b"TENANT t\nCAS 0:0:1\nCAS 0:1:2\n",
                    told: b"OK 4\nYES\nFAULT\n",
                    cut: None,
                },
                Talk {
                    says: b"TENANT t\nCAS 1:0:1\n",
                    told: b"OK 4\nYES\n",
                    cut: None,
                },
                Talk {
                    says: b"TENANT t\nCAS 2:0:1\n",
                    told: b"OK 4\nYES\n",
                    cut: None,
                },
                Talk {
                    says: b"TENANT t\nCAS 3:0:1\n",
                    told: b"OK 4\nYES\n",
                    cut: None,
                },
            ]),
            words: &[&[2, 1, 1, 1]],
        },
    },
    Row {
        name: "one_settle_for_all_sealed_changes",
        number: 31,
        times: 1,
        case: Case {
            tenants: b"t 4 4 t.mw\n",
            pool: 4,
            devices: &[Device::Fails(31)],
            stop: Stop {
                place: Place::AllButOne(Point::BeforeSettle),
                before: 0,
                gathers: false,
            },
            play: Play::Story(&[
                Talk {
                    says: b"TENANT t\nCAS 0:0:1\nCAS 0:1:2\n",
                    told: b"OK 4\nYES\nYES\n",
                    cut: None,
                },
                Talk {
                    says: b"TENANT t\nCAS 1:0:1\n",
                    told: b"OK 4\nYES\n",
                    cut: None,
                },
                Talk {
                    says: b"TENANT t\nCAS 2:0:1\n",
                    told: b"OK 4\nYES\n",
                    cut: None,
                },
                Talk {
                    says: b"TENANT t\nCAS 3:0:1\n",
                    told: b"OK 4\nYES\n",
                    cut: None,
                },
            ]),
            words: &[&[2, 1, 1, 1]],
        },
    },
    // Worker 0 is held at a point. Meanwhile two others come to their seals while a sync of a third one is under way, so
    // they wait for the file. All three are answered, and so is the third one's next change.
    Row {
        name: "waiting_workers_pass_a_held_one",
        number: 1,
        times: 1,
        case: Case {
            tenants: b"t 4 4 t.mw\n",
            pool: 4,
            devices: &[Device::Sound],
            stop: Stop {
                place: Place::At(Point::Planted),
                before: 0,
                gathers: true,
            },
            play: Play::Story(WAITING),
            words: &[&[1, 1, 1, 2]],
        },
    },
    Row {
        name: "waiting_workers_pass_a_held_one",
        number: 2,
        times: 1,
        case: Case {
            tenants: b"t 4 4 t.mw\n",
            pool: 4,
            devices: &[Device::Sound],
            stop: Stop {
                place: Place::At(Point::BeforeSeal),
                before: 0,
                gathers: true,
            },
            play: Play::Story(WAITING),
            words: &[&[1, 1, 1, 2]],
        },
    },
    Row {
        name: "waiting_workers_pass_a_held_one",
        number: 3,
        times: 1,
        case: Case {
            tenants: b"t 4 4 t.mw\n",
            pool: 4,
            devices: &[Device::Sound],
            stop: Stop {
                place: Place::At(Point::BeforeSettle),
                before: 0,
                gathers: true,
            },
            play: Play::Story(WAITING),
            words: &[&[1, 1, 1, 2]],
        },
    },
    Row {
        name: "waiting_workers_pass_a_held_one",
        number: 4,
        times: 1,
        case: Case {
            tenants: b"t 4 4 t.mw\n",
            pool: 4,
            devices: &[Device::Sound],
            stop: Stop {
                place: Place::At(Point::BeforeReply),
                before: 0,
                gathers: true,
            },
            play: Play::Story(WAITING),
            words: &[&[1, 1, 1, 2]],
        },
    },
];

#[test]
fn stories(rt: HostRuntime) {
    come_out(&rt, &STORIES);
}

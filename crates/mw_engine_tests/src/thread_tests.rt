//! Tests requests that several threads make of an engine at once, and clients that they serve over sockets.
use crate::cases::{Case, Device, Play, Row, come_out};
use crate::latch::{FIRST_SYNC, NOBODY, Place, Stop};
use crate::races::Race;
use mw_engine::Point;

static ROWS: [Row; 4] = [
    // Four workers count up one word.
    Row {
        name: "counter_race",
        number: 1,
        times: 1,
        case: Case {
            tenants: b"t 1 4 t.mw\n",
            pool: 4,
            devices: &[Device::Sound],
            stop: NOBODY,
            play: Play::Race(Race {
                names: &[b"t", b"t", b"t", b"t"],
                word: 400,
            }),
            words: &[&[400]],
        },
    },
    // Four workers count up words of two tenants.
    Row {
        name: "two_tenants_at_once",
        number: 1,
        times: 1,
        case: Case {
            tenants: b"t 1 2 t.mw\nu 1 2 u.mw\n",
            pool: 4,
            devices: &[Device::Sound, Device::Sound],
            stop: NOBODY,
            play: Play::Race(Race {
                names: &[b"t", b"u", b"t", b"u"],
                word: 200,
            }),
            words: &[&[200], &[200]],
        },
    },
    // Eight workers change a word and the next one's word, while the first sync is held until all have come.
    Row {
        name: "a_ring_of_eight",
        number: 1,
        times: 1,
        case: Case {
            tenants: b"t 8 8 t.mw\n",
            pool: 8,
            devices: &[Device::Sound],
            stop: FIRST_SYNC,
            play: Play::Ring,
            words: &[&[]],
        },
    },
    // One client is served over a socket while another one's request is held.
    Row {
        name: "held_sockets",
        number: 1,
        times: 100,
        case: Case {
            tenants: b"t 2 2 t.mw\nu 1 1 u.mw\n",
            pool: 3,
            devices: &[Device::Sound, Device::Sound],
            stop: Stop {
                place: Place::Anyone(Point::Planted),
                before: 0,
                gathers: false,
            },
            play: Play::Sockets,
            words: &[&[2, 1], &[0]],
        },
    },
];

#[test]
fn workers_at_once(rt: HostRuntime) {
    come_out(&rt, &ROWS);
}

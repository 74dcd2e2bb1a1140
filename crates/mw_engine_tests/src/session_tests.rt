//! Tests sessions of an engine's workers, one after the other, and the tenants' files after them.
use crate::cases::{Case, Device, Play, Row, come_out};
use crate::latch::NOBODY;
use crate::talks::{Cut, Talk, WHOLE};
use mw_session::Ended;
use mw_test_peers::Failure;

/// A change of sixteen words, twice.
const SIXTEEN_ENTRIES: &[u8] = b"\
TENANT t
CAS 0:0:1 1:0:1 2:0:1 3:0:1 4:0:1 5:0:1 6:0:1 7:0:1 8:0:1 9:0:1 10:0:1 11:0:1 12:0:1 13:0:1 14:0:1 15:0:1
CAS 0:0:1 1:0:1 2:0:1 3:0:1 4:0:1 5:0:1 6:0:1 7:0:1 8:0:1 9:0:1 10:0:1 11:0:1 12:0:1 13:0:1 14:0:1 15:0:1
";

const LARGEST_VALUE: &[u8] =
    b"TENANT t\nCAS 0:0:281474976710655\nGET 0\nCAS 0:281474976710655:281474976710656\n";

static SESSIONS: [Row; 9] = [
    Row {
        name: "largest_value",
        number: 1,
        times: 1,
        case: Case {
            tenants: b"t 2 1 t.mw\n",
            pool: 1,
            devices: &[Device::Sound],
            stop: NOBODY,
            play: Play::Talks(&[Talk {
                says: LARGEST_VALUE,
                told: b"OK 2\nYES\nVAL 281474976710655\nERR 9\n",
                cut: None,
            }]),
            words: &[&[281_474_976_710_655, 0]],
        },
    },
    Row {
        name: "single_bytes",
        number: 1,
        times: 1,
        case: Case {
            tenants: b"t 2 1 t.mw\n",
            pool: 1,
            devices: &[Device::Sound],
            stop: NOBODY,
            play: Play::Talks(&[Talk {
                says: LARGEST_VALUE,
                told: b"OK 2\nYES\nVAL 281474976710655\nERR 9\n",
                cut: Some(WHOLE),
            }]),
            words: &[&[281_474_976_710_655, 0]],
        },
    },
    // The change is made, though the peer doesn't take the reply to it.
    Row {
        name: "failing_writer",
        number: 1,
        times: 1,
        case: Case {
            tenants: b"t 2 1 t.mw\n",
            pool: 1,
            devices: &[Device::Sound],
            stop: NOBODY,
            play: Play::Talks(&[
                Talk {
                    says: b"TENANT t\nCAS 0:0:1\n",
                    told: b"OK 2\n",
                    cut: Some(Cut {
                        takes: 5,
                        failure: Failure::Error,
                        ended: Ended::WriteFault(5),
                    }),
                },
                Talk {
                    says: b"TENANT t\nGET 0\n",
                    told: b"OK 2\nVAL 1\n",
                    cut: Some(WHOLE),
                },
            ]),
            words: &[&[1]],
        },
    },
    Row {
        name: "last_entry_differs",
        number: 1,
        times: 1,
        case: Case {
            tenants: b"t 8 1 t.mw\n",
            pool: 1,
            devices: &[Device::Sound],
            stop: NOBODY,
            play: Play::Talks(&[Talk {
                says: b"TENANT t\nCAS 0:0:1 1:0:1 2:0:1 3:0:1 4:0:1 5:0:1 6:0:1 7:5:1\nGET 0\n",
                told: b"OK 8\nNO 7 0\nVAL 0\n",
                cut: None,
            }]),
            words: &[&[0, 0, 0, 0, 0, 0, 0, 0]],
        },
    },
    Row {
        name: "sixteen_entries",
        number: 1,
        times: 1,
        case: Case {
            tenants: b"t 16 1 t.mw\n",
            pool: 1,
            devices: &[Device::Sound],
            stop: NOBODY,
            play: Play::Talks(&[Talk {
                says: SIXTEEN_ENTRIES,
                told: b"OK 16\nYES\nNO 0 1\n",
                cut: None,
            }]),
            words: &[&[1; 16]],
        },
    },
    Row {
        name: "address_order",
        number: 1,
        times: 1,
        case: Case {
            tenants: b"t 4 1 t.mw\n",
            pool: 1,
            devices: &[Device::Sound],
            stop: NOBODY,
            play: Play::Talks(&[Talk {
                says: b"TENANT t\nCAS 3:0:1 3:1:2\nCAS 3:0:1 2:0:1\nCAS 0:9:1 1:9:1\n",
                told: b"OK 4\nERR 7\nERR 7\nNO 0 0\n",
                cut: None,
            }]),
            words: &[&[0, 0, 0, 0]],
        },
    },
    Row {
        name: "two_sessions",
        number: 1,
        times: 1,
        case: Case {
            tenants: b"t 2 1 t.mw\n",
            pool: 1,
            devices: &[Device::Sound],
            stop: NOBODY,
            play: Play::Talks(&[
                Talk {
                    says: b"TENANT t\nCAS 0:0:1 1:0:2\n",
                    told: b"OK 2\nYES\n",
                    cut: None,
                },
                Talk {
                    says: b"TENANT t\nGET 1\n",
                    told: b"OK 2\nVAL 2\n",
                    cut: None,
                },
            ]),
            words: &[&[1, 2]],
        },
    },
    Row {
        name: "report_places",
        number: 1,
        times: 1,
        case: Case {
            tenants: b"t 2 1 t.mw\nu 4096 32 u.mw\n",
            pool: 33,
            devices: &[Device::Sound, Device::Sound],
            stop: NOBODY,
            play: Play::Talks(&[Talk {
                says: b"ADMIN\nREPORT\n",
                told: b"OK ADMIN\nt                   2  1  2  0 up\nu                4096 32 64  0 up\nfree 33\n",
                cut: None,
            }]),
            words: &[&[0, 0], &[0]],
        },
    },
    // Each kind of reply is given back. A worker that serves for ever is caught.
    Row {
        name: "endless_serve",
        number: 1,
        times: 1,
        case: Case {
            tenants: b"t 2 2 t.mw\nu 1 1 u.mw\n",
            pool: 3,
            devices: &[Device::Sound, Device::Missing],
            stop: NOBODY,
            play: Play::Talks(&[
                Talk {
                    says: b"TENANT t\nGET 0\nCAS 0:0:3 1:0:4\nCAS 0:3:5 1:0:6\nCAS 0:3:5\nGET 1\n",
                    told: b"OK 2\nVAL 0\nYES\nNO 1 4\nYES\nVAL 4\n",
                    cut: None,
                },
                Talk {
                    says: b"TENANT u\nGET 0\nCAS 0:0:1\nQUIT\n",
                    told: b"OK 1\nFAULT\nFAULT\nBYE\n",
                    cut: None,
                },
                Talk {
                    says: b"ADMIN\nREPORT\n",
                    told: b"OK ADMIN\nt                   2  2  4  0 up\nu                   1  1  0  0 down\nfree 3\n",
                    cut: None,
                },
            ]),
            words: &[&[5, 4], &[]],
        },
    },
];

#[test]
fn sessions(rt: HostRuntime) {
    come_out(&rt, &SESSIONS);
}

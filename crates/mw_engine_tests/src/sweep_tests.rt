//! Tests sweeps: each device call fails, the device stops after each call, and each byte of a session is the last
//! that is said or taken. Also requests that the plain store must answer in the same way.
use crate::cases::{Case, Device, Play, comes_out};
use crate::latch::NOBODY;
use crate::talks::{ALL, Cut, Talk, WHOLE};
use mw_session::Ended;
use mw_test_peers::{Failure, INPUT, OUTPUT, replied};
use std::fs::File;
use std::net::{Net, TcpListener, TcpStream};
use std::process::Abort;
use std::rt::Files;
use std::sync::Wait;
use std::thread::Threads;
use std::time::Clock;

const BEFORE: &[u64] = &[0, 0];

const CHANGED: &[u64] = &[1, 2];

const FAULTS: &[u8] = b"OK 2\nFAULT\nFAULT\n";

const YES_FAULT: &[u8] = b"OK 2\nYES\nFAULT\n";

const YES_VALUE: &[u8] = b"OK 2\nYES\nVAL 1\n";

/// More bytes than are ever unsynced: a prepared place of a file has 263.
const ZEROS: &[u8] = &[0; 300];

/// How the device of `t` fails, what `t` is told at a change of two words and a read, and which words its file has
/// afterwards. Its neighbour, with as many words, is served all the same.
///
/// Each of the nine calls of a change of two words fails in turn. From the fifth call on the client is told YES, because
/// the change is sealed. From the fourth on the change is found when the file is opened again. Then the device stops
/// after each of these calls in turn, and the power fails. If only the commit byte is not synced, it may be found or not.
static DEVICES: [(&str, Device<'static>, &[u8], &[u64]); 29] = [
    ("call 1 fails", Device::Fails(1), FAULTS, BEFORE),
    ("call 2 fails", Device::Fails(2), FAULTS, BEFORE),
    ("call 3 fails", Device::Fails(3), FAULTS, BEFORE),
    ("call 4 fails", Device::Fails(4), FAULTS, CHANGED),
    ("call 5 fails", Device::Fails(5), YES_FAULT, CHANGED),
    ("call 6 fails", Device::Fails(6), YES_FAULT, CHANGED),
    ("call 7 fails", Device::Fails(7), YES_FAULT, CHANGED),
    ("call 8 fails", Device::Fails(8), YES_FAULT, CHANGED),
    ("call 9 fails", Device::Fails(9), YES_FAULT, CHANGED),
    ("stop 0", Device::Stops(0, b""), FAULTS, BEFORE),
    ("stop 1", Device::Stops(1, b""), FAULTS, BEFORE),
    ("stop 2", Device::Stops(2, b""), FAULTS, BEFORE),
    ("stop 3", Device::Stops(3, b""), FAULTS, CHANGED),
    ("stop 4", Device::Stops(4, b""), YES_FAULT, CHANGED),
    ("stop 5", Device::Stops(5, b""), YES_FAULT, CHANGED),
    ("stop 6", Device::Stops(6, b""), YES_FAULT, CHANGED),
    ("stop 7", Device::Stops(7, b""), YES_FAULT, CHANGED),
    ("stop 8", Device::Stops(8, b""), YES_FAULT, CHANGED),
    ("stop 9", Device::Stops(9, b""), YES_VALUE, CHANGED),
    ("stop 0, zeros", Device::Stops(0, ZEROS), FAULTS, BEFORE),
    ("stop 1, zeros", Device::Stops(1, ZEROS), FAULTS, BEFORE),
    ("stop 2, zeros", Device::Stops(2, ZEROS), FAULTS, BEFORE),
    ("stop 3, zeros", Device::Stops(3, ZEROS), FAULTS, BEFORE),
    ("stop 4, zeros", Device::Stops(4, ZEROS), YES_FAULT, CHANGED),
    ("stop 5, zeros", Device::Stops(5, ZEROS), YES_FAULT, CHANGED),
    ("stop 6, zeros", Device::Stops(6, ZEROS), YES_FAULT, CHANGED),
    ("stop 7, zeros", Device::Stops(7, ZEROS), YES_FAULT, CHANGED),
    ("stop 8, zeros", Device::Stops(8, ZEROS), YES_FAULT, CHANGED),
    ("stop 9, zeros", Device::Stops(9, ZEROS), YES_VALUE, CHANGED),
];

#[test]
fn devices_that_fail_or_stop(rt: HostRuntime) {
    for (name, device, told, left) in &DEVICES {
        let talks = [
            Talk {
                says: b"TENANT t\nCAS 0:0:1 1:0:2\nGET 0\n",
                told,
                cut: None,
            },
            Talk {
                says: b"TENANT u\nCAS 0:0:1\nGET 0\n",
                told: YES_VALUE,
                cut: None,
            },
        ];
        let devices = [*device, Device::Sound];
        let words: [&[u64]; 2] = [left, &[1, 0]];
        let play = Play::Talks(&talks);
        let case = Case {
            tenants: b"t 2 1 t.mw\nu 2 1 u.mw\n",
            pool: 2,
            devices: &devices,
            stop: NOBODY,
            play,
            words: &words,
        };
        comes_out(&rt, name, 1, 1, &case);
    }
}

/// A case in which the plain store is asked too, from this request on.
fn beside<'c>(devices: &'c [Device<'c>], first: u64) -> Case<'c> {
    let play: Play<'c> = Play::Beside(first);
    Case {
        tenants: b"t 5 2 t.mw\nu 2 1 u.mw\n",
        pool: 3,
        devices,
        stop: NOBODY,
        play,
        words: &[],
    }
}

/// The engine and the plain store, which serves one request at a time, answer alike to requests made from several
/// numbers, and leave files with the same words. From the fifth time on a call of the device of `t` fails.
#[test]
fn answers_and_fails_as_the_plain_store(rt: HostRuntime) {
    for number in 0..44u64 {
        let (device, first) = match number.checked_sub(3) {
            Some(call) if call > 0 => (Device::Fails(call), call),
            _ => (Device::Sound, number),
        };
        let devices = [device, Device::Sound];
        let case = beside(&devices, first);
        comes_out(&rt, "beside the plain store", number, 1, &case);
    }
}

/// Says where a peer breaks off.
#[derive(Clone, Copy)]
enum End {
    /// After so many bytes that it says.
    Said,
    /// After so many bytes that it takes.
    Taken,
}

/// A peer in a new session, which takes single bytes and reads the first word: it is 0, or 1.
const READS_0: Talk<'static> = Talk {
    says: b"TENANT t\nGET 0\n",
    told: b"OK 2\nVAL 0\n",
    cut: Some(WHOLE),
};

const READS_1: Talk<'static> = Talk {
    says: b"TENANT t\nGET 0\n",
    told: b"OK 2\nVAL 1\n",
    cut: Some(WHOLE),
};

/// Where peers break off, how they fail, and how many bytes the last of them says or takes, and one.
static PEERS: [(&str, End, Failure, u8); 4] = [
    ("a reader fails", End::Said, Failure::Error, 24),
    ("a reader ends", End::Said, Failure::Nothing, 24),
    ("a writer fails", End::Taken, Failure::Error, 13),
    ("a writer takes nothing", End::Taken, Failure::Nothing, 13),
];

/// Gives what a peer of `t` says that breaks off after so many bytes, and the value of the first word afterwards. The peer
/// is told the replies to the lines that it said, or as much as it takes. Its change is made when its line was said, or
/// when the reply before it was taken.
fn broken_off(end: End, failure: Failure, count: usize) -> (Talk<'static>, u64) {
    let ended = match (end, failure) {
        (End::Taken, _) => Ended::WriteFault(count as u64),
        (End::Said, Failure::Error) => Ended::ReadFault,
        (End::Said, Failure::Nothing) => Ended::PeerEnd,
    };
    let (said, takes, told, is_made) = match end {
        End::Said => (count, ALL, replied(count), count >= 19),
        End::Taken => (INPUT.len(), count, count, count >= 5),
    };
    let talk = Talk {
        says: INPUT.get(..said).unwrap_or(b""),
        told: OUTPUT.get(..told).unwrap_or(b""),
        cut: Some(Cut {
            takes,
            failure,
            ended,
        }),
    };
    (talk, u64::from(is_made))
}

/// Peers that break off after each number of bytes below `most` are told what they must be told. Afterwards the first
/// word is changed or not, in a new session and in the file.
fn break_off<R>(rt: &R, name: &str, end: End, failure: Failure, most: u8)
where
    R: Abort
        + AllocGlobal
        + Files<File = File>
        + Net<Listener = TcpListener, Stream = TcpStream>
        + Threads
        + Wait
        + Clock
        + Sync,
{
    for count in 0..most {
        let (talk, value) = broken_off(end, failure, usize::from(count));
        let talks = [talk, if value == 0 { READS_0 } else { READS_1 }];
        let words = [value];
        let play = Play::Talks(&talks);
        let case = Case {
            tenants: b"t 2 1 t.mw\n",
            pool: 1,
            devices: &[Device::Sound],
            stop: NOBODY,
            play,
            words: &[&words],
        };
        comes_out(rt, name, u64::from(count), 1, &case);
    }
}

#[test]
fn peers_that_break_off(rt: HostRuntime) {
    for (name, end, failure, most) in &PEERS {
        break_off(&rt, name, *end, *failure, *most);
    }
}

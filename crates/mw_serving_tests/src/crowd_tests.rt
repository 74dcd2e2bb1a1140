//! Tests workers that serve clients in memory, each once, and a listener that waits while there is no room for one.
ghost use Rattle.std.specs.Prelude.{◌<◌};

use crate::checks::holds;
use crate::guests::{Answer, Crowd, Heard};
use crate::serving::{Shop, serve};
use arrayvec::ArrayVec;
use mw_connections::{Listener, Patient, RoomWatch};
use mw_session::Ended;
use mw_words::MAX_LINE;
use mw_workers::ServeEnd;
use std::cell::RefCell;
use std::io;
use std::io::ErrorKind;
use std::sync::{Mutex, Wait};
use std::thread::Threads;
use std::time::{Clock, Duration};

/// Who comes for the tenant's 32 words.
static CROWD: [Answer<'static>; 9] = [
    Answer::Client {
        says: b"TENANT t\nCAS 0:0:7\nGET 0\nQUIT\nGET 0\n",
        told: b"OK 32\nYES\nVAL 7\nBYE\n",
        ends: Ended::Quit,
    },
    Answer::Client {
        says: b"TENANT t\nCAS 1:0:5\nGET 1\n",
        told: b"OK 32\nYES\nVAL 5\n",
        ends: Ended::PeerEnd,
    },
    // A client that didn't get through.
    Answer::Fault(ErrorKind::ConnectionAborted),
    Answer::Client {
        says: b"GET 0\nTENA",
        told: b"ERR 3\n",
        ends: Ended::PeerEnd,
    },
    Answer::Client {
        says: b"",
        told: b"",
        ends: Ended::PeerEnd,
    },
    // A client that goes away in the midst of a reply.
    Answer::Client {
        says: b"TENANT t\nCAS 2:0:9\nGET 2\n",
        told: b"OK 32\nYE",
        ends: Ended::WriteFault(8),
    },
    Answer::Client {
        says: b"TENANT t\nCAS 3:0:1 4:0:2\nGET 4\nADMIN\n",
        told: b"OK 32\nYES\nVAL 2\nERR 4\n",
        ends: Ended::PeerEnd,
    },
    Answer::Client {
        says: &[b'x'; MAX_LINE + 1],
        told: b"ERR 1\n",
        ends: Ended::TooLong,
    },
    Answer::Client {
        says: b"TENANT t\nGET 5\nQUIT\n",
        told: b"OK 32\nVAL 0\nBYE\n",
        ends: Ended::Quit,
    },
];

/// Serves them all by so many workers. Gives how many of them, from the first on, were told what they must be, and 0 if
/// serving didn't end well.
fn serves_all<R: Threads + Wait + Clock + AllocGlobal + Sync>(
    rt: &R,
    workers: u8,
    wait: Option<u32>,
) -> usize
    requires { 0 < workers }
{
    let heard = [(); 9].map(|_| Mutex::new(Heard::new()));
    let crowd = Crowd {
        answers: &CROWD,
        heard: &heard,
        asked: 0,
    };
    let shop = Shop {
        words: 32,
        workers,
        connections: 9,
        wait,
    };
    match serve(rt, rt.alloc(), crowd, shop) {
        Ok((ServeEnd::Served, crowd)) if crowd.asked == 9 => served_well(rt, &CROWD, &heard),
        _ => 0,
    }
}

/// Gives how many clients, from the first on, were told what they must be.
fn served_well<R: Wait>(rt: &R, answers: &[Answer<'_>], heard: &[Mutex<Heard>]) -> usize {
    for (at, answer) in answers.iter().enumerate() {
        let is_right = match heard.get(at) {
            Some(heard) => is_as_it_must(answer, *heard.lock(rt)),
            None => false,
        };
        if !is_right {
            return at;
        }
    }
    answers.len()
}

/// Tells whether what a client heard is what it must hear.
fn is_as_it_must(answer: &Answer<'_>, heard: Heard) -> bool {
    match answer {
        Answer::Client { told, ends, .. } => heard.is(told, *ends),
        Answer::Fault(_) => heard.is_nothing(),
    }
}

#[test]
fn each_client_is_served_once(rt: HostRuntime) {
    for workers in [1, 3, 12] {
        let for_ever = serves_all(&rt, workers, None);
        let limited = serves_all(&rt, workers, Some(30));
        let count = usize::from(workers);
        holds(
            &rt,
            "workers whose clients wait for ever",
            count,
            for_ever == 9,
        );
        holds(
            &rt,
            "workers whose clients wait a while",
            count,
            limited == 9,
        );
    }
}

/// What a listener's clock and watch were told, in order: how many milliseconds to wait, and 0 if there is
/// no room.
#[derive(Drop)]
struct Told {
    all: RefCell<ArrayVec<u128, 32>>,
}

impl Told {
    fn note(&self, number: u128) {
        if let Ok(mut all) = self.all.try_borrow_mut() {
            // If there is no room, the test finds that something is missing.
            let _ = all.try_push(number);
        }
    }

    fn is(&self, numbers: &[u128]) -> bool {
        match self.all.try_borrow() {
            Ok(all) => all.as_slice() == numbers,
            Err(_) => false,
        }
    }
}

impl Clock for Told {
    fn monotonic(&self) -> io::Result<Duration> {
        Ok(Duration::ZERO)
    }

    fn since_1970(&self) -> io::Result<Duration> {
        Ok(Duration::ZERO)
    }

    fn sleep(&self, duration: Duration) {
        self.note(duration.as_millis());
    }
}

impl RoomWatch for Told {
    fn no_room(&self, _fault: &io::Error) {
        self.note(0);
    }
}

/// Somebody comes.
const COMES: Answer<'static> = Answer::Client {
    says: b"",
    told: b"",
    ends: Ended::PeerEnd,
};

/// A client went away.
const GONE: Answer<'static> = Answer::Fault(ErrorKind::ConnectionAborted);

/// There is no room for a client.
const FULL: Answer<'static> = Answer::Fault(ErrorKind::Other);

/// What a listener answers, and what it waits and says then.
static PATIENCE: [(&[Answer<'static>], &[u128]); 5] = [
    (&[COMES, COMES], &[]),
    (&[FULL], &[0, 1]),
    (
        &[FULL; 12],
        &[0, 1, 2, 4, 8, 16, 32, 64, 128, 256, 512, 1000, 1000],
    ),
    (&[FULL, FULL, COMES, FULL, FULL], &[0, 1, 2, 0, 1, 2]),
    (&[GONE, GONE, FULL, GONE, FULL], &[0, 1, 2]),
];

/// Tells whether a listener that answers so waits, and says that there is no room, as these numbers say.
fn waits_so(answers: &[Answer<'_>], wanted: &[u128]) -> bool {
    let told = Told {
        all: RefCell::new(ArrayVec::new()),
    };
    let heard = [(); 12].map(|_| Mutex::new(Heard::new()));
    let crowd = Crowd {
        answers,
        heard: &heard,
        asked: 0,
    };
    let mut listener = Patient::new(crowd, &told, &told);
    for _ in answers {
        let _ = listener.accept();
    }
    told.is(wanted)
}

#[test]
fn a_listener_waits_longer_each_time(rt: HostRuntime) {
    for (row, (answers, wanted)) in PATIENCE.iter().enumerate() {
        holds(&rt, "a row", row, waits_so(answers, wanted));
    }
}

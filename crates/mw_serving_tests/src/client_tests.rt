//! Tests clients of a server that is a text in memory, and clients that come by a socket.
ghost use Rattle.std.specs.Prelude.{◌<◌};

use crate::checks::{MEMORY, holds};
use crate::serving::{Shop, serve};
use arrayvec::ArrayVec;
use mw_client::{
    Administrator, Client, Failure, Outcome, connect, connect_administrator, read_reply,
};
use mw_connections::{Anything, Network, TimeLimits, listen_at, port_of};
use mw_report::{Figures, TenantFigures};
use mw_words::{Entries, Entry, Name};
use mw_workers::ServeEnd;
use std::alloc::{AllocError, Global};
use std::fs::File;
use std::io::{Read, Write};
use std::net::{Net, TcpListener, TcpStream};
use std::rt::Files;
use std::sync::Wait;
use std::thread::Threads;
use std::time::{Clock, Duration};
use std::{io, thread};

/// How long the clients ask again if they may, in seconds.
const PATIENCE: u64 = 5;

/// What a test says if no session begins.
pub const BEGINS: &str = "a session begins";

/// What a test says if it gets no socket.
const SOCKET: &str = "a socket";

/// A client that reads its replies from a text.
pub type TextClient<'a> = Client<&'a [u8], Vec<u8>>;

/// Gives the name t.
fn name() -> Name {
    let mut name = ArrayVec::new();
    let _ = name.try_push(b't');
    name
}

/// Makes the change of word 0 from 0 to 1.
pub fn entries() -> Entries {
    let mut entries = ArrayVec::new();
    let _ = entries.try_push(Entry {
        addr: 0,
        expected: 0,
        new: 1,
    });
    entries
}

/// Makes a client to which the server says this.
pub fn client(alloc: Global, said: &[u8]) -> Option<TextClient<'_>> {
    Client::begin(said, Vec::new(alloc), &name()).ok()
}

/// Tells whether a client is told a value, that its change is made at last, and that another isn't.
fn asks<K: Clock>(clock: &K, client: &mut TextClient<'_>) -> bool {
    let found = client.get(1) == Ok(7);
    let made = client.cas(clock, &entries(), Duration::from_secs(PATIENCE)) == Ok(Outcome::Made);
    let differs = client.try_cas(&entries()) == Ok(Outcome::Differs(0, 5));
    found && made && differs
}

#[test]
fn asks_and_is_told(rt: HostRuntime) {
    let said = b"OK 2\nVAL 7\nBUSY\nYES\nNO 0 5\n";
    let mut client = client(rt.alloc(), said).expect(&rt, BEGINS);
    let is_told = asks(&rt, &mut client) && client.words == 2;
    let sent = b"TENANT t\nGET 1\nCAS 0:0:1\nCAS 0:0:1\nCAS 0:0:1\n";
    let has_sent = client.writer.as_slice() == sent.as_slice();
    holds(&rt, "a client", 2, is_told && has_sent);
}

/// Tells whether a client whose reply breaks off can't ask any more.
fn is_closed(client: &mut TextClient<'_>) -> bool {
    let range = client.get(2) == Err(Failure::Argument);
    let lost = client.try_cas(&entries()) == Err(Failure::MadeOrNot);
    let closed = client.get(0) == Err(Failure::Closed);
    range && lost && closed
}

#[test]
fn a_lost_reply_closes(rt: HostRuntime) {
    let mut client = client(rt.alloc(), b"OK 2\nYE").expect(&rt, BEGINS);
    holds(&rt, "a lost reply", 2, is_closed(&mut client));
}

/// Lines that are no reply.
const NO_REPLIES: &str =
    "yes|YES |VAL|VAL 01|VAL 281474976710656|NO 1|NO 4096 0|OK 0|OK 4097|OK|ERR 0|ERR 11|";

#[test]
fn no_replies(rt: HostRuntime) {
    for line in NO_REPLIES.split('|') {
        holds(&rt, line, 0, read_reply(line.as_bytes()).is_none());
    }
}

/// Gives the value of the entry at a place, 0 if there is none.
fn value_at(seen: &Entries, place: usize) -> u64 {
    match seen.get(place) {
        Some(entry) => entry.new,
        None => 0,
    }
}

/// Gives the values of words 0 and 1 that a client reads at once.
fn values_read<K: Clock>(clock: &K, client: &mut TextClient<'_>) -> Option<(u64, u64)> {
    match client.read(clock, &[0, 1], Duration::from_secs(PATIENCE)) {
        Ok(seen) => Some((value_at(&seen, 0), value_at(&seen, 1))),
        Err(_) => None,
    }
}

#[test]
fn several_words_of_one_moment(rt: HostRuntime) {
    let said = b"OK 2\nVAL 5\nVAL 6\nNO 1 7\nYES\n";
    let mut client = client(rt.alloc(), said).expect(&rt, BEGINS);
    let values = values_read(&rt, &mut client);
    holds(&rt, "two words", 2, values == Some((5, 7)));
}

/// What the server says to the administrator, and then a report of two tenants. One tenant's name is the
/// word with which the last line begins.
const REPORTED: &[u8] =
    b"OK ADMIN\nfree                2  1  2  0 up\nu                4096 64 64  3 down\nfree 30\n";

/// A tenant's figures: its name, words, quota, places and slots in use, and whether its file takes changes.
type Tenant = (&'static str, u16, u8, u8, u8, bool);

/// Tenants, and how many slots of the pool are free.
type Report = (&'static [Tenant], u16);

/// The figures of that report.
static TWO_TENANTS: Report = (
    &[("free", 2, 1, 2, 0, true), ("u", 4096, 64, 64, 3, false)],
    30,
);

/// Tells whether these are a tenant's figures.
fn are_of(figures: &TenantFigures, tenant: &Tenant) -> bool {
    let (name, words, quota, places, used, up) = *tenant;
    let numbers = (figures.words, figures.quota, figures.places, figures.used);
    let is_named = figures.name.as_slice() == name.as_bytes();
    is_named && numbers == (words, quota, places, used) && figures.up == up
}

/// Tells whether these are the figures of a report.
fn are_reported(figures: &Figures, report: &Report) -> bool {
    let (tenants, free) = report;
    for (at, tenant) in tenants.iter().enumerate() {
        let is_right = match figures.tenants.get(at) {
            Some(found) => are_of(found, tenant),
            None => false,
        };
        if !is_right {
            return false;
        }
    }
    figures.tenants.len() == tenants.len() && figures.pool_free == *free
}

/// Tells whether an administrator is told this report, and can go on.
fn is_told<R: Read + Drop, W: Write + Drop>(
    client: &mut Administrator<R, W>,
    report: &Report,
) -> bool {
    match client.report() {
        Ok(figures) => are_reported(&figures, report) && client.connected,
        Err(_) => false,
    }
}

#[test]
fn asks_for_the_report(rt: HostRuntime) {
    let begun = Administrator::begin(REPORTED, Vec::new(rt.alloc()));
    let mut client = begun.ok().expect(&rt, BEGINS);
    let is_told = is_told(&mut client, &TWO_TENANTS);
    let has_sent = client.writer.as_slice() == b"ADMIN\nREPORT\n".as_slice();
    holds(&rt, "a report", 2, is_told && has_sent);
}

/// What the server says to an administrator whom it refuses, or then tells no report.
const NO_REPORTS: &str =
    "OK ADMIN\nfree 030\n|OK ADMIN\nfree 257\n|OK ADMIN\nfree 30|OK ADMIN\nt 2 1 2 0 up\nfree 30\n|\
OK ADMIN\nt                   2  1  2  0 off\nfree 30\n|OK ADMIN\nERR 10\n|OK ADMIN\nt                4097  1  2  0 up\nfree 30\n|\
OK ADMIN\nt                   2  1  0 up\nfree 30\n|OK ADMIN\nt                   2  1 65  0 up\nfree 30\n|ERR 4\n";

/// Tells whether a client to which this is said is refused, if it says so; or else has no report, and can't ask any more.
fn has_no_report(alloc: Global, said: &[u8]) -> bool {
    let is_refused = said.starts_with(b"ERR");
    match Administrator::begin(said, Vec::new(alloc)) {
        Ok(mut client) => {
            let lost = client.report().err() == Some(Failure::Lost);
            let closed = client.report().err() == Some(Failure::Closed);
            lost && closed && !is_refused
        }
        Err(failure) => is_refused && matches!(failure, Failure::Refused(_)),
    }
}

#[test]
fn what_is_no_report(rt: HostRuntime) {
    for said in NO_REPORTS.split('|') {
        holds(&rt, said, 0, has_no_report(rt.alloc(), said.as_bytes()));
    }
}

/// Gives the address at which a server has this port.
fn address_of(alloc: Global, port: u16) -> Result<String, AllocError> {
    format!(in alloc; "127.0.0.1:{port}")
}

/// The report of the tests' server.
static ONE_TENANT: Report = (&[("t", 2, 1, 2, 0, true)], 256);

/// Tells whether an administrator that comes to this port by a socket is told the report of the tests' server.
fn is_told_by_a_socket<R: Net<Stream = TcpStream>>(
    rt: &R,
    alloc: Global,
    port: u16,
) -> Result<bool, AllocError> {
    let address = address_of(alloc, port)?;
    let patience = Duration::from_secs(PATIENCE);
    match connect_administrator(rt, alloc, address.as_str(), patience) {
        Ok(mut client) => Ok(is_told(&mut client, &ONE_TENANT)),
        Err(_) => Ok(false),
    }
}

/// Serves one client over loopback, an administrator. Tells whether it was told what it must be, and the server has ended
/// with it.
fn serves_right<R>(rt: &R) -> io::Result<bool>
where
    R: Files<File = File>
        + Net<Listener = TcpListener, Stream = TcpStream>
        + AllocGlobal
        + Threads
        + Wait
        + Clock
        + Sync,
{
    let limits = TimeLimits {
        silence: None,
        line: None,
    };
    let network: Network<'_, R, Anything> = Network::new(rt);
    let listener = listen_at(&network, "127.0.0.1:0", 0, limits)?;
    let port = port_of(&listener)?.unwrap_or(0);
    let come = || {
        let told = is_told_by_a_socket(rt, rt.alloc(), port);
        // If the client didn't come, the server still waits for one.
        let _ = TcpStream::connect(rt, ("127.0.0.1", port));
        told
    };
    let shop = Shop {
        words: 2,
        workers: 1,
        connections: 1,
        wait: None,
    };
    let (told, served) = thread::join(
        rt,
        come,
        ||
            requires { 0 < shop.workers }
        { serve(rt, rt.alloc(), listener, shop) },
    );
    let (end, _) = served?;
    Ok(told? && end == ServeEnd::Served)
}

#[test]
fn the_administrator_connects_and_asks(rt: HostRuntime) {
    let is_told = serves_right(&rt).expect(&rt, SOCKET);
    holds(&rt, "an administrator", 256, is_told);
}

#[test]
fn a_silent_server_is_left(rt: HostRuntime) {
    let silent = TcpListener::bind(&rt, "127.0.0.1:0").expect(&rt, SOCKET);
    let port = silent.local_addr().expect(&rt, SOCKET).port();
    let address = address_of(rt.alloc(), port).expect(&rt, MEMORY);
    let patience = Duration::from_millis(200);
    let told = connect(&rt, rt.alloc(), address.as_str(), &name(), patience).err();
    holds(&rt, "a silent server", 200, told == Some(Failure::Lost));
}

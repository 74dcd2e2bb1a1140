//! Tests what command lines ask for. scripts/text_parts has command lines and tenants files that are refused.
use crate::checks::{MEMORY, same};
use mw_config::{Args, Listening, Mode, read_args};
use std::process::Abort;

/// Gives an owned text.
fn owned<R: Abort + AllocGlobal>(rt: &R, text: &str) -> String {
    String::from_str(rt.alloc(), text).expect(rt, MEMORY)
}

/// Splits a command line at its spaces.
fn words_of<R: Abort + AllocGlobal>(rt: &R, line: &str) -> Vec<String> {
    let mut words = Vec::new(rt.alloc());
    for word in line.split(' ') {
        words.push(owned(rt, word)).expect(rt, MEMORY);
    }
    words
}

/// Reads a command line. Gives what it asks for.
fn read<R: Abort + AllocGlobal>(rt: &R, line: &str) -> String {
    match read_args(rt.alloc(), &words_of(rt, line)) {
        Ok(args) => told(rt, &args),
        Err(_) => owned(rt, "refused"),
    }
}

/// Tells what a command line asks for.
fn told<R: Abort + AllocGlobal>(rt: &R, args: &Args) -> String {
    let Args {
        tenants,
        pool,
        workers,
        strict,
        verbose,
        journal,
        times,
        mode,
    } = args;
    let mode = match mode {
        Mode::Listen(listening) => told_listening(rt, listening),
        Mode::Script(path) => format!(in rt.alloc(); "script {path}").expect(rt, MEMORY),
    };
    format!(in rt.alloc();
        "tenants {tenants}, pool {pool}, workers {workers}, strict {strict}, verbose {verbose}, journal {journal}, times {times}, {mode}"
    ).expect(rt, MEMORY)
}

/// Tells how a command line asks for connections.
fn told_listening<R: Abort + AllocGlobal>(rt: &R, listening: &Listening) -> String {
    let Listening {
        address,
        admin,
        http,
        http_names,
        connections,
        shared,
        wait,
        idle,
        line_time,
        faults,
        end_on_failure,
        lease,
        open,
        socket_mode,
    } = listening;
    let shared = match shared {
        Some(shared) => Some((shared.clients, shared.readers)),
        None => None,
    };
    let lease = match lease {
        Some(lease) => Some((lease.path.as_str(), lease.seconds)),
        None => None,
    };
    format!(in rt.alloc();
        "listen {address}, admin {admin:?}, http {http:?}, http names {http_names:?}, connections {connections:?}, shared {shared:?}, wait {wait:?}, idle {idle:?}, line time {line_time:?}, faults {faults:?}, end on failure {end_on_failure}, lease {lease:?}, open {open}, socket mode {socket_mode}"
    ).expect(rt, MEMORY)
}

/// What command lines ask for, and these lines.
static ACCEPTED: [(&str, &str); 7] = [
    (
        "tenants t, pool 256, workers 4, strict false, verbose false, journal false, times false, script s",
        "mwserve --tenants t --script s",
    ),
    (
        "tenants t, pool 256, workers 4, strict false, verbose false, journal false, times false, listen a:1, admin None, http None, http names [], connections None, shared None, wait None, idle None, line time None, faults None, end on failure false, lease None, open false, socket mode 384",
        "mwserve --listen a:1 --tenants t",
    ),
    (
        "tenants t, pool 1, workers 64, strict false, verbose false, journal false, times false, listen a:1, admin None, http None, http names [], connections Some(1000000), shared None, wait None, idle Some(86400), line time Some(86400), faults None, end on failure false, lease None, open false, socket mode 511",
        "mwserve --tenants t --pool 1 --workers 64 --listen a:1 --connections 1000000 --idle 86400 --mode 777",
    ),
    (
        "tenants t, pool 256, workers 1, strict true, verbose true, journal true, times true, listen a:1, admin Some(\"a:2\"), http None, http names [], connections Some(1), shared None, wait None, idle Some(1), line time Some(1), faults None, end on failure false, lease None, open false, socket mode 432",
        "mwserve --tenants t --pool=256 --workers=1 --listen=a:1 --connections=1 --strict --idle=1 --admin=a:2 --verbose --times --journal --mode=0660",
    ),
    (
        "tenants t, pool 256, workers 2, strict false, verbose false, journal false, times false, listen a:1, admin None, http Some(\"unix:h\"), http names [], connections None, shared Some((1, 1)), wait Some(1), idle None, line time Some(86400), faults None, end on failure false, lease None, open false, socket mode 384",
        "mwserve --tenants t --workers 2 --listen a:1 --clients 1 --wait 1 --line-time 86400 --http unix:h",
    ),
    (
        "tenants t, pool 256, workers 64, strict false, verbose false, journal false, times false, listen a:1, admin None, http None, http names [], connections None, shared Some((4096, 63)), wait Some(86400), idle Some(9), line time Some(2), faults None, end on failure false, lease None, open false, socket mode 384",
        "mwserve --tenants t --workers 64 --listen a:1 --clients 4096 --readers 63 --wait 86400 --idle 9 --line-time 2",
    ),
    (
        "tenants t, pool 256, workers 4, strict false, verbose false, journal false, times false, listen a:1, admin None, http Some(\"a:2\"), http names [\"w\", \"W-1.example\"], connections None, shared None, wait None, idle None, line time None, faults Some(1000000), end on failure false, lease None, open true, socket mode 384",
        "mwserve --tenants t --listen a:1 --http a:2 --http-name w --open --faults 1000000 --http-name=W-1.example",
    ),
];

#[test]
fn command_lines_that_are_accepted(rt: HostRuntime) {
    for (wanted, line) in &ACCEPTED {
        same(&rt, line, 0, &read(&rt, line).as_str(), wanted);
    }
}

//! `mwserve --tenants FILE` serves tenants' words: to the clients that connect with `--listen ADDR`, or to
//! one session that it reads from a file with `--script FILE`.
//!
//! mw_programs does the work (`serve`), and documents the command line. Here are only the program's name, what it says
//! if it can't begin, and the thread that serves with `--end-on-failure`. docs/OPERATING and
//! scripts/fail-each-allocation have the text `memory`: change them together.
#![tactic(auto)]

mod promise;

use mw_main::{Program, run};
use mw_programs::{
    Printed, PromptErrors, ServedApart, ServerEnd, ServerNetwork, ends_on_failure, serve,
};
use promise::EngineServes;
use std::process::ExitCode;
use std::thread;

const PROGRAM: Program = Program {
    name: "mwserve",
    no_text: "refused 1 command\nmwserve: an argument is no text",
    no_memory: "memory",
};

/// With `--end-on-failure` a thread of its own serves, so that the program ends, and gives back the locks of all files, while
/// other threads of the server wait for clients.
fn main(rt: HostRuntime) -> ExitCode {
    run(&rt, &PROGRAM, |args| {
        if !ends_on_failure(rt.alloc(), args) {
            let mut errors = PromptErrors::new(rt.stderr());
            let network: ServerNetwork<'_, HostRuntime, EngineServes> = ServerNetwork::new(&rt);
            let end = ServerEnd::new();
            return serve(
                &rt,
                network,
                args,
                &mut Printed::new(rt.stdout()),
                &mut errors,
                &end,
            );
        }
        let own = rt;
        if let Ok((apart, end)) = ServedApart::new(rt.alloc(), args) {
            let begun = thread::spawn(&rt, move || {
                let mut errors = PromptErrors::new(own.stderr());
                let network: ServerNetwork<'_, HostRuntime, EngineServes> = ServerNetwork::new(
                    &own,
                );
                let status = serve(
                    &own,
                    network,
                    &apart.args,
                    &mut Printed::new(own.stdout()),
                    &mut errors,
                    &apart.end,
                );
                apart.end.end(&own, status);
            });
            if begun.is_ok() {
                return end.wait(&rt);
            }
        }
        let _ = eprintln!(rt; "mwserve: memory");
        1
    })
}

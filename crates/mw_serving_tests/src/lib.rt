//! Tests sessions, connections and workers, with clients in memory, which `guests` plays: tests are tables of these.
//! Tests figures and pages by examples from outside, and a client of the server. `scripts/check-scenes` plays clients over
//! sockets. The tests are apart from the crates that they test, so that those are proved once.
#![tactic(auto)]

#[cfg(test)]
mod checks;
#[cfg(test)]
mod client_tests;
#[cfg(test)]
mod crowd_tests;
#[cfg(test)]
mod guests;
#[cfg(test)]
mod hand_clock;
#[cfg(test)]
mod http_peers;
#[cfg(test)]
mod metrics_tests;
#[cfg(test)]
mod notebook;
#[cfg(test)]
mod page_tests;
#[cfg(test)]
mod patience_tests;
#[cfg(test)]
mod serving;
#[cfg(test)]
mod session_tests;

//! Tests the engine: whole sessions by one worker, requests of several threads at once, requests that are held
//! while others go on, and the box in which they are lent. A test is a table of cases or a sweep, and `cases` plays
//! each. The tests are apart from the crates that they test, so that those are proved once.
#![tactic(auto)]

#[cfg(test)]
mod cases;
#[cfg(test)]
mod disks;
#[cfg(test)]
mod held_tests;
#[cfg(test)]
mod latch;
#[cfg(test)]
mod loan_tests;
#[cfg(test)]
mod plays;
#[cfg(test)]
mod races;
#[cfg(test)]
mod rings;
#[cfg(test)]
mod session_tests;
#[cfg(test)]
mod sockets;
#[cfg(test)]
mod starts;
#[cfg(test)]
mod steps;
#[cfg(test)]
mod sweep_tests;
#[cfg(test)]
mod talks;
#[cfg(test)]
mod thread_tests;
#[cfg(test)]
mod twins;
#[cfg(test)]
mod workers;

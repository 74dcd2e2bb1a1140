//! Tests the table of shared words, two threads that drive requests or read on one, and the lock and bells of threads that wait.
//! The tests are apart from the crates that they test, so that those are proved once.
#![tactic(auto)]

#[cfg(test)]
mod lock_tests;
#[cfg(test)]
mod making_tests;
#[cfg(test)]
mod neighbour_tests;
#[cfg(test)]
mod race_tests;
#[cfg(test)]
mod reading_tests;
#[cfg(test)]
mod two_tenants;
#[cfg(test)]
mod world_table;
#[cfg(test)]
mod worlds;

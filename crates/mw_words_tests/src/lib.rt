//! Tests words, lines, the machines of requests, a tenant's store alone, the plain store, and which command lines start a
//! server, by examples from outside: paths through their programs, and each public function once. The tests are apart from the
//! crates that they test, so that those are proved once.
#![tactic(auto)]

#[cfg(test)]
mod actor_tests;
#[cfg(test)]
mod checks;
#[cfg(test)]
mod config_tests;
#[cfg(test)]
mod frame_tests;
#[cfg(test)]
mod line_tests;
#[cfg(test)]
mod lone_tests;
#[cfg(test)]
mod look_tests;
#[cfg(test)]
mod pattern_tests;
#[cfg(test)]
mod plain_tests;
#[cfg(test)]
mod pool_tests;
#[cfg(test)]
mod report_tests;
#[cfg(test)]
mod script;
#[cfg(test)]
mod words_tests;

//! Tests random runs of worlds, and runs that are written out event by event.
//!
//! In a trial of a small world workers take turns in any order, device calls fail, and all stops and starts again,
//! also with other quotas, or from an old file. Then each tenant's marks are given to a new store alone with its
//! words. The store must take each mark, hand out the replies that the world handed out, and have the words that the
//! world has after each start. Quotas that don't fit must be refused.
//!
//! Larger worlds are played too. After every event, all that must hold of a world is checked.
#![tactic(auto)]

#[cfg(test)]
mod checks;
#[cfg(test)]
mod dice;
#[cfg(test)]
mod example_marks_tests;
#[cfg(test)]
mod fault;
#[cfg(test)]
mod jobs;
#[cfg(test)]
mod judge;
#[cfg(test)]
mod larger;
#[cfg(test)]
mod run;
#[cfg(test)]
mod shares;
#[cfg(test)]
mod stale_helper_tests;
#[cfg(test)]
mod tests;

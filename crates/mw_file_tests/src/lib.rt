//! Tests the disks, the file's layout, a tenant's file and its book. The tests are apart from the crates that they
//! test, so that those are proved once.
#![tactic(auto)]

#[cfg(test)]
mod book_tests;
#[cfg(test)]
mod byte_tests;
#[cfg(test)]
mod calls;
#[cfg(test)]
mod damage_tests;
#[cfg(test)]
mod disk_tests;
#[cfg(test)]
mod file_tests;
#[cfg(test)]
mod files;
#[cfg(test)]
mod opening_tests;
#[cfg(test)]
mod power_tests;
#[cfg(test)]
mod same;
#[cfg(test)]
mod shared_tests;
#[cfg(test)]
mod turn_tests;

//! Tests what opens a server's files and its local sockets: a watched file, over a file in memory, and who may come to a
//! local socket while it is made. Tests also how often a server notes that it has no room for connections.
#![tactic(auto)]

#[cfg(test)]
mod checks;
#[cfg(test)]
mod fake_file;
#[cfg(test)]
mod file_tests;
#[cfg(test)]
mod folders;
#[cfg(test)]
mod mode_runtime;
#[cfg(test)]
mod mode_tests;
#[cfg(test)]
mod room_tests;

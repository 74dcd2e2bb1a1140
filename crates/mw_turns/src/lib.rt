//! How workers take turns at a tenant's file: a fair lock, a bell, and the waiting room of the file.
//!
//! # The lock
//!
//! A [`FairLock`] is a [`Mutex`](std::sync::Mutex) and a queue. Its waiters take turns once waiting is long.
//!
//! The thread that released a `Mutex` mostly takes it again, which is fast, but with holds of milliseconds a thread
//! may wait for tens of them. A lock that is always handed to the first of a queue is fair, but with holds of
//! microseconds each hold waits for a thread to wake.
//!
//! Any thread may take a lock that is free, until the first of its queue has slept for a millisecond or was woken in
//! vain twice. Then the lock is *starving*, as in Go's `sync.Mutex`: only the first may take it, and after that any
//! thread again. So long holds come in the order of the queue, and few short ones wait for a thread to wake.
//!
//! The value is in the `Mutex`, and what is known of it rests on that lock alone.
//!
//! # The bell
//!
//! A [`Bell`] (an event count) wakes a thread that waits outside the queue.
//!
//! # The waiting room
//!
//! A [`WaitingRoom`] has the workers that wait for calls on a file, and the changes whose records a call writes along
//! with its own bytes. It says whose call is made next, and who is woken. mw_engine makes the calls and rings the bells.
//!
//! No contract is about who waits, who is next, or whether a wait ends. mw_table_tests tries the last two of the lock;
//! scripts/check-waits and scripts/check-wakes look for workers that nobody wakes. A mistake in the queue or the room can
//! make a wait long, and no more.
//!
//! Used by: mw_engine, for the files of the tenants, and mw_table_tests. Requests wait in a room, by a bell; copies of a
//! file and `Engine::file` queue.
#![tactic(auto)]

mod bell;
mod call_flag;
mod fair_lock;
mod hints;
mod order;
mod queue;
mod waiting_room;

pub use bell::{Bell, Heard};
pub use call_flag::CallFlag;
pub use fair_lock::{FairGuard, FairLock};
pub use order::{Choosing, DueCall, Waiter};
pub use waiting_room::{Look, WaitingChanges, WaitingRoom, Workers, strike_off};

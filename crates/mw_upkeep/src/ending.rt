//! Ends a server while its threads run, so that the system takes the locks of its files.
//!
//! `mwserve` has a thread of its own serve, and waits for the [`ServerEnd`]. mw_programs ends
//! the server. docs/OPERATING tells the exit status: change both together.
ghost use Rattle.std.specs.Prelude.{◌≡◌, IfOk, map, string_bytes};

use mw_config::{Mode, read_args};
use std::alloc::{AllocError, Global};
use std::sync::{Arc, Condvar, Mutex, Wait};

/// The exit status of a server that ends because a tenant's file has failed or was given up.
pub const FILE_LOST: u8 = 3;

/// The end of a server: its exit status, once it has one.
#[derive(Drop)]
pub struct ServerEnd {
    status: Mutex<Option<u8>>,
    told: Condvar,
}

impl ServerEnd {
    /// Makes the end of a server that has no exit status yet.
    pub fn new() -> Self {
        ServerEnd {
            status: Mutex::new(None),
            told: Condvar::new(),
        }
    }

    /// Gives the server this exit status, if it has none. Whoever waits for it is woken.
    pub fn end<R: Wait>(&self, rt: &R, status: u8) {
        let mut kept = self.status.lock(rt);
        if kept.is_none() {
            *kept = Some(status);
        }
        drop(kept);
        self.told.notify_all();
    }

    /// Waits until the server has an exit status, and gives it. This may wait for ever.
    pub fn wait<R: Wait>(&self, rt: &R) -> u8 {
        let kept = self.status.lock(rt);
        let kept = self.told.wait_while(rt, kept, |status| status.is_none());
        (*kept).unwrap_or(FILE_LOST)
    }
}

/// What a thread needs that serves beside the main thread: a command line of its own, and the end of the server.
#[derive(Drop)]
pub struct ServedApart {
    pub args: Vec<String>,
    pub end: Arc<ServerEnd, Global>,
}

impl ServedApart {
    /// Copies the command line `args`, and gives also the end of the server, for whoever waits for it.
    ///
    /// # Errors
    ///
    /// Memory was refused.
    pub fn new(alloc: Global, args: &[String]) -> Result<(Self, Arc<ServerEnd, Global>), AllocError>
        ensures { IfOk result (λ made. map string_bytes made.0.args.items ≡ map string_bytes args.now) }
    {
        let end = Arc::new(alloc, ServerEnd::new())?;
        let apart = ServedApart {
            args: copies_of(alloc, args)?,
            end: Arc::try_clone(&end)?,
        };
        Ok((apart, end))
    }
}

/// Copies these texts.
///
/// # Errors
///
/// Memory was refused.
fn copies_of(alloc: Global, texts: &[String]) -> Result<Vec<String>, AllocError>
    ensures { IfOk result (λ copies. map string_bytes copies.items ≡ map string_bytes texts.now) }
{
    let mut copies = Vec::with_capacity(alloc, texts.len())?;
    for text in texts {
        copies.push(String::from_str(alloc, text.as_str())?)?;
    }
    Ok(copies)
}

/// Tells whether a command line asks for a server that ends when a tenant's file fails. One that is refused doesn't.
pub fn ends_on_failure(alloc: Global, args: &[String]) -> bool {
    match read_args(alloc, args) {
        Ok(args) => match &args.mode {
            Mode::Listen(listening) => listening.end_on_failure,
            Mode::Script(_) => false,
        },
        Err(_) => false,
    }
}

//! What a server tells on its standard output: where it listens, or what its command line asks to be told.
//!
//! Used by: `wrong_lines`; mw_server; mw_programs, which prints it. docs/OPERATING tells what is printed: change both
//! together. Scripts read the words `ready`, `admin` and `http`.
use mw_config::ArgFault;
use std::io;

/// At which of its addresses clients find a server.
#[derive(Clone, Copy)]
pub enum Address {
    /// That of all clients. It is told last, when the server is ready.
    Clients,
    /// That of the administrator.
    Admin,
    /// That of the pages.
    Pages,
}

impl Address {
    /// Gives the word before it.
    pub fn word(self) -> &'static str {
        match self {
            Address::Clients => "ready",
            Address::Admin => "admin",
            Address::Pages => "http",
        }
    }
}

/// Where a server writes what it has to tell.
pub trait Console {
    /// Writes at which port clients find the server, or at which address if it has no port.
    ///
    /// # Errors
    ///
    /// It could not be written.
    fn tell(&mut self, which: Address, port: Option<u16>, address: &str) -> io::Result<()>;

    /// Writes what a command line asks to be told.
    ///
    /// # Errors
    ///
    /// It could not be written.
    fn help(&mut self, asked: &ArgFault) -> io::Result<()>;
}

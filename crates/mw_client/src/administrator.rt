//! A client's session as the administrator, who may ask for the report.
//!
//! `wire` makes one by a socket. A new call of the administrator belongs here, and what it sends and reads in
//! `specs/Exchanges`.
ghost use Rattle.std.specs.Prelude.{◌≡◌, true, false, Err, IfOk, IfSome};
ghost use Rattle.mw_line.specs.declared.requests.Request.TheVariants.{Admin};
ghost use Rattle.mw_line.specs.declared.replies.Say.TheVariants.{OkAdmin};
ghost use Rattle.mw_client.specs.Exchanges.{Exchanged, Reported};

use crate::conversation::exchange;
use crate::meanings::Failure;
use crate::report::next_report;
use crate::requests::request_text;
use mw_line::{Request, Say};
use mw_report::Figures;
use std::io::{Read, Write};

/// A session for the administrator, who may ask how all tenants are. Until its connection is closed it holds a
/// worker of the server, or with `--clients` one of its sessions, which takes a worker for each request only.
#[derive(Drop)]
pub struct Administrator<R, W> {
    /// The reader of the replies. It is asked for a byte at a time.
    pub reader: R,
    /// The writer of the lines. It must send at once what it takes.
    pub writer: W,
    /// Whether the connection is open. After it is closed each call fails, and nothing is sent.
    pub connected: bool,
}

impl<R: Read + Drop, W: Write + Drop> Administrator<R, W> {
    /// Begins a session for the administrator, by its first line.
    ///
    /// # Errors
    ///
    /// [`Failure::Refused`] if the server refuses the line, or [`Failure::Lost`]. The connection is closed.
    pub fn begin(reader: R, writer: W) -> Result<Administrator<R, W>, Failure>
        ensures bound { IfOk result (λ client. Exchanged (R.remaining reader) (R.remaining client.reader)
            (W.contents writer) (W.contents client.writer) Admin OkAdmin) }
        ensures connected { IfOk result (λ client. client.connected ≡ true) }
    {
        let (mut reader, mut writer) = (reader, writer);
        match exchange(&mut reader, &mut writer, &Request::Admin) {
            Some(Say::OkAdmin) => Ok(Administrator {
                reader,
                writer,
                connected: true,
            }),
            Some(Say::Err(fault)) => Err(Failure::Refused(fault)),
            _ => Err(Failure::Lost),
        }
    }

    /// Asks for the report. It tells, for each tenant, its name, its words, its quota, how many places its
    /// file has, how many slots it uses, and whether its file takes changes. It also tells how many slots
    /// of the pool are free. The text that came is just the report of these figures.
    ///
    /// # Errors
    ///
    /// [`Failure::Closed`]: nothing was sent. [`Failure::Lost`], also if what came isn't the text of a
    /// report.
    pub fn report(&mut self) -> Result<Figures, Failure>
        ensures closed { self.old.connected ≡ false → (result ≡ Err Failure.Closed) × (self.new ≡ self.old) }
        ensures told { IfOk result (Reported (R.remaining self.old.reader) (R.remaining self.new.reader)
            (W.contents self.old.writer) (W.contents self.new.writer)) }
        ensures lost { result ≡ Err Failure.Lost → self.new.connected ≡ false }
    {
        if !self.connected {
            return Err(Failure::Closed);
        }
        match self.ask() {
            Some(figures) => Ok(figures),
            None => {
                self.connected = false;
                Err(Failure::Lost)
            }
        }
    }

    fn ask(&mut self) -> Option<Figures>
        ensures { IfSome result (Reported (R.remaining self.old.reader) (R.remaining self.new.reader)
            (W.contents self.old.writer) (W.contents self.new.writer)) }
    {
        let text = request_text(&Request::Report);
        if self.writer.write_all(&text).is_err() {
            return None;
        }
        next_report(&mut self.reader)
    }
}

//! A client's session for one tenant: it reads words, changes them, and repeats a change that was answered `BUSY`.
//!
//! Used by: `wire.rt`, mwbench. Change it with `specs/Exchanges`, `specs/RequestLines` and docs/CLIENTS.md.
//! docs/PROMISES cites `try_cas`.
ghost use Rattle.std.specs.Prelude.{◌≡◌, true, false, Ok, Err, IfOk, IfSome, IsTrue};
ghost use Rattle.std.specs.List.{list_all};
ghost use Rattle.mw_words.specs.declared.jobs.Job.TheVariants.{Get, Cas};
ghost use Rattle.mw_line.specs.declared.requests.Request.TheVariants.{Tenant, Job as AskedJob};
ghost use Rattle.mw_line.specs.declared.replies.Say.TheVariants.{Ok as Bound};
ghost use Rattle.mw_client.specs.RequestLines.{IsSendable};
ghost use Rattle.mw_client.specs.Exchanges as spec;
ghost use Rattle.mw_client.specs.Exchanges.{Exchanged, IsAnswered, IsAnsweredAtLast, IsConfirmed};

use crate::conversation::exchange;
use crate::meanings::{Failure, Outcome, is_busy, outcome_told, value_told};
use crate::pauses::Pauses;
use mw_line::{Request, Say};
use mw_words::{Entries, Entry, Job, MAX_WORDS, Name, copy_of, copy_of_name, is_name};
use std::io::{Read, Write};
use std::time::{Clock, Duration};

/// A session for one tenant, which reads and changes the tenant's words. Until its connection is closed it
/// holds a worker of the server, or with `--clients` one of its sessions, which takes a worker for each
/// request only.
#[derive(Drop)]
pub struct Client<R, W> {
    /// The reader of the replies. It is asked for a byte at a time.
    pub reader: R,
    /// The writer of the lines. It must send at once what it takes.
    pub writer: W,
    /// How many words the tenant has, from 1 to [`MAX_WORDS`]. Each address is below this number.
    pub words: u16,
    /// Whether the connection is open. After it is closed each call fails, and nothing is sent.
    pub connected: bool,
}

impl<R: Read + Drop, W: Write + Drop> Client<R, W> {
    /// Begins a session for the tenant of this name, by its first line.
    ///
    /// # Errors
    ///
    /// [`Failure::Argument`] if it isn't a name; nothing was sent. [`Failure::Refused`] if no tenant has
    /// the name, or [`Failure::Lost`]. The connection is closed.
    pub fn begin(reader: R, writer: W, name: &Name) -> Result<Client<R, W>, Failure>
        ensures bound { IfOk result (λ client. Exchanged (R.remaining reader) (R.remaining client.reader)
            (W.contents writer) (W.contents client.writer) (Tenant name.now) (Bound client.words)) }
        ensures connected { IfOk result (λ client. client.connected ≡ true) }
    {
        if !is_name(name) {
            return Err(Failure::Argument);
        }
        let (mut reader, mut writer) = (reader, writer);
        let request = Request::Tenant(copy_of_name(name));
        match exchange(&mut reader, &mut writer, &request) {
            Some(Say::Ok(words)) => Ok(Client {
                reader,
                writer,
                words,
                connected: true,
            }),
            Some(Say::Err(fault)) => Err(Failure::Refused(fault)),
            _ => Err(Failure::Lost),
        }
    }

    /// Reads the word at an address. The value is durable.
    ///
    /// # Errors
    ///
    /// [`Failure::Argument`] if the tenant has no such word, and [`Failure::Closed`]: nothing was sent.
    /// [`Failure::Lost`], [`Failure::Fault`].
    pub fn get(&mut self, address: u16) -> Result<u64, Failure>
        ensures closed { self.old.connected ≡ false → (result ≡ Err Failure.Closed) × (self.new ≡ self.old) }
        ensures argument { self.old.connected ≡ true → spec.may_ask self.old.words (Get address) ≡ false
            → (result ≡ Err Failure.Argument) × (self.new ≡ self.old) }
        ensures answered { self.old.connected ≡ true → IsTrue (spec.may_ask self.old.words (Get address))
            → IsAnswered (Exchanged (R.remaining self.old.reader) (R.remaining self.new.reader)
            (W.contents self.old.writer) (W.contents self.new.writer) (AskedJob (Get address))) spec.value_told Failure.Lost result }
        ensures lost { result ≡ Err Failure.Lost → self.new.connected ≡ false }
        ensures words { self.new.words ≡ self.old.words }
    {
        if !self.connected {
            return Err(Failure::Closed);
        }
        let job = Job::Get(address);
        if !may_ask(self.words, &job) {
            return Err(Failure::Argument);
        }
        let told = match self.ask(&Request::Job(job)) {
            Some(said) => value_told(said),
            None => Err(Failure::Lost),
        };
        self.connected = !matches!(told, Err(Failure::Lost));
        told
    }

    /// Compares and swaps: writes each entry's new value if all words have their expected values, and
    /// writes nothing otherwise. If the server is busy, it doesn't ask again.
    ///
    /// # Errors
    ///
    /// [`Failure::Argument`] if the entries are no change of this tenant, and [`Failure::Closed`]: nothing
    /// was sent. [`Failure::Busy`], [`Failure::Refused`]: nothing was changed. [`Failure::MadeOrNot`],
    /// [`Failure::Fault`], [`Failure::Worn`]: the change was made or not, wholly or not at all.
    pub fn try_cas(&mut self, entries: &Entries) -> Result<Outcome, Failure>
        ensures closed { self.old.connected ≡ false → (result ≡ Err Failure.Closed) × (self.new ≡ self.old) }
        ensures argument { self.old.connected ≡ true → spec.may_ask self.old.words (Cas entries.now) ≡ false
            → (result ≡ Err Failure.Argument) × (self.new ≡ self.old) }
        ensures answered { self.old.connected ≡ true → IsTrue (spec.may_ask self.old.words (Cas entries.now))
            → IsAnswered (Exchanged (R.remaining self.old.reader) (R.remaining self.new.reader)
            (W.contents self.old.writer) (W.contents self.new.writer) (AskedJob (Cas entries.now))) (spec.outcome_told entries.now.items) Failure.MadeOrNot result }
        ensures lost { result ≡ Err Failure.MadeOrNot → self.new.connected ≡ false }
        ensures words { self.new.words ≡ self.old.words }
    {
        if !self.connected {
            return Err(Failure::Closed);
        }
        let job = Job::Cas(copy_of(entries));
        if !may_ask(self.words, &job) {
            return Err(Failure::Argument);
        }
        self.change(entries, &Request::Job(job))
    }

    /// Compares and swaps as [`Client::try_cas`] does. If the server is busy, it asks again, with pauses
    /// that grow, until the time `patience` has passed. If the server is still busy then, it gives
    /// [`Failure::Busy`].
    ///
    /// # Errors
    ///
    /// As [`Client::try_cas`].
    pub fn cas<K: Clock>(
        &mut self,
        clock: &K,
        entries: &Entries,
        patience: Duration,
    ) -> Result<Outcome, Failure>
        ensures closed { self.old.connected ≡ false → (result ≡ Err Failure.Closed) × (self.new ≡ self.old) }
        ensures argument { self.old.connected ≡ true → spec.may_ask self.old.words (Cas entries.now) ≡ false
            → (result ≡ Err Failure.Argument) × (self.new ≡ self.old) }
        ensures answered { self.old.connected ≡ true → IsTrue (spec.may_ask self.old.words (Cas entries.now))
            → IsAnsweredAtLast (R.remaining self.old.reader) (R.remaining self.new.reader) (W.contents self.old.writer) (W.contents self.new.writer)
            (AskedJob (Cas entries.now)) (spec.outcome_told entries.now.items) Failure.MadeOrNot result }
        ensures lost { result ≡ Err Failure.MadeOrNot → self.new.connected ≡ false }
        ensures words { self.new.words ≡ self.old.words }
    {
        if !self.connected {
            return Err(Failure::Closed);
        }
        let job = Job::Cas(copy_of(entries));
        if !may_ask(self.words, &job) {
            return Err(Failure::Argument);
        }
        self.change_patiently(clock, entries, &Request::Job(job), patience)
    }

    fn change_patiently<K: Clock>(
        &mut self,
        clock: &K,
        entries: &Entries,
        request: &Request,
        patience: Duration,
    ) -> Result<Outcome, Failure>
        requires { IsSendable request.now }
        ensures answered { IsAnsweredAtLast (R.remaining self.old.reader) (R.remaining self.new.reader)
            (W.contents self.old.writer) (W.contents self.new.writer) request.now (spec.outcome_told entries.now.items) Failure.MadeOrNot result }
        ensures lost { result ≡ Err Failure.MadeOrNot → self.new.connected ≡ false }
        ensures words { self.new.words ≡ self.old.words }
    {
        let mut pauses = Pauses::begin(clock, patience);
        for _ in 0..u64::MAX {
            let told = self.change(entries, request);
            if !is_busy(&told) || !pauses.wait(clock) {
                return told;
            }
        }
        self.change(entries, request)
    }

    /// Reads several words, all as they were at one moment: as many as a change may have, at rising
    /// addresses. Gives an entry for each word, whose expected value and new value are both the word's.
    /// These entries, as a change that changes nothing, were answered `YES`.
    ///
    /// It first reads the words one by one, and then asks for that change. So it costs the server's disk as
    /// much as a change; read a single word by [`Client::get`]. If a value is no longer right, it corrects
    /// it and asks again, with pauses that grow, until the time `patience` has passed.
    ///
    /// # Errors
    ///
    /// [`Failure::Argument`] if these are not addresses of a change, and [`Failure::Closed`]: nothing was
    /// sent. [`Failure::Busy`] if the server was busy, or the words kept changing, for so long.
    /// [`Failure::Lost`], [`Failure::Fault`], [`Failure::Worn`], [`Failure::Refused`]. Nothing was changed.
    pub fn read<K: Clock>(
        &mut self,
        clock: &K,
        addresses: &[u16],
        patience: Duration,
    ) -> Result<Entries, Failure>
        ensures confirmed { IfOk result (IsConfirmed (R.remaining self.new.reader) (W.contents self.new.writer)) }
        ensures same { IfOk result (λ seen. IsTrue (list_all spec.keeps seen.items)) }
    {
        let mut seen = self.guess(addresses)?;
        let mut pauses = Pauses::begin(clock, patience);
        for _ in 0..u64::MAX {
            if self.confirm(&mut seen)? {
                return Ok(seen);
            }
            if !pauses.wait(clock) {
                return Err(Failure::Busy);
            }
        }
        Err(Failure::Busy)
    }

    /// Reads the words at these addresses one by one. Gives them as entries that change nothing.
    fn guess(&mut self, addresses: &[u16]) -> Result<Entries, Failure>
        ensures { IfOk result (λ seen. IsTrue (list_all spec.keeps seen.items)) }
    {
        if !self.connected {
            return Err(Failure::Closed);
        }
        let Some(blank) = blank(addresses) else {
            return Err(Failure::Argument);
        };
        if !may_ask(self.words, &Job::Cas(blank)) {
            return Err(Failure::Argument);
        }
        let mut seen = Entries::new();
        for address in addresses {
            match self.get(*address) {
                Ok(value) => note(&mut seen, *address, value),
                Err(failure) => return Err(failure),
            }
        }
        Ok(seen)
    }

    /// Asks for a change that changes nothing once, if the tenant may ask for it. Tells whether it was
    /// answered `YES`. If a value is not right, it corrects it.
    fn confirm(&mut self, seen: &mut Entries) -> Result<bool, Failure>
        requires { IsTrue (list_all spec.keeps seen.old.items) }
        ensures confirmed { result ≡ Ok true → IsConfirmed (R.remaining self.new.reader) (W.contents self.new.writer) seen.new }
        ensures same { IsTrue (list_all spec.keeps seen.new.items) }
    {
        let job = Job::Cas(copy_of(seen));
        if !may_ask(self.words, &job) {
            return Err(Failure::Argument);
        }
        match self.change(seen, &Request::Job(job)) {
            Ok(Outcome::Made) => Ok(true),
            Ok(Outcome::Differs(addr, value)) => {
                *seen = mended(seen, addr, value);
                Ok(false)
            }
            Err(Failure::Busy) => Ok(false),
            Err(Failure::MadeOrNot) => Err(Failure::Lost),
            Err(failure) => Err(failure),
        }
    }

    /// Asks for a change once.
    fn change(&mut self, entries: &Entries, request: &Request) -> Result<Outcome, Failure>
        requires { IsSendable request.now }
        ensures answered { IsAnswered (Exchanged (R.remaining self.old.reader) (R.remaining self.new.reader)
            (W.contents self.old.writer) (W.contents self.new.writer) request.now) (spec.outcome_told entries.now.items) Failure.MadeOrNot result }
        ensures lost { result ≡ Err Failure.MadeOrNot → self.new.connected ≡ false }
        ensures words { self.new.words ≡ self.old.words }
    {
        let told = match self.ask(request) {
            Some(said) => outcome_told(entries, said),
            None => Err(Failure::MadeOrNot),
        };
        self.connected = !matches!(told, Err(Failure::MadeOrNot));
        told
    }

    fn ask(&mut self, request: &Request) -> Option<Say>
        requires { IsSendable request.now }
        ensures words { self.new.words ≡ self.old.words }
        ensures told { IfSome result (Exchanged (R.remaining self.old.reader) (R.remaining self.new.reader)
            (W.contents self.old.writer) (W.contents self.new.writer) request.now) }
    {
        exchange(&mut self.reader, &mut self.writer, request)
    }
}

/// Tells whether a tenant with so many words may ask for this job, also if no tenant can have so many
/// words.
fn may_ask(words: u16, job: &Job) -> bool
    ensures { result ≡ spec.may_ask words job.now }
{
    job.is_well_formed(usize::from(MAX_WORDS)) && job.is_well_formed(usize::from(words))
}

/// Makes an entry for each address, without values. Gives None if a change has no room for so many.
fn blank(addresses: &[u16]) -> Option<Entries> {
    let mut entries = Entries::new();
    for address in addresses {
        let entry = Entry {
            addr: *address,
            expected: 0,
            new: 0,
        };
        if entries.try_push(entry).is_err() {
            return None;
        }
    }
    Some(entries)
}

/// Appends an entry that expects and writes this value, if there is room for it.
fn note(seen: &mut Entries, addr: u16, value: u64)
    requires { IsTrue (list_all spec.keeps seen.old.items) }
    ensures { IsTrue (list_all spec.keeps seen.new.items) }
{
    let _ = seen.try_push(Entry {
        addr,
        expected: value,
        new: value,
    });
}

/// Gives the entries with this value for the word at an address.
fn mended(seen: &Entries, addr: u16, value: u64) -> Entries
    ensures { IsTrue (list_all spec.keeps result.items) }
{
    let mut entries = Entries::new();
    for entry in seen {
        let kept = if entry.addr == addr {
            value
        } else {
            entry.expected
        };
        note(&mut entries, entry.addr, kept);
    }
    entries
}

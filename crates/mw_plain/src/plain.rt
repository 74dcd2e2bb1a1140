//! The plain store of all tenants, which serves one call at a time: start, finish, ask, run, and the report's figures, each
//! for the tenant that it names, and the search for a tenant by its name. It is made of its tenants' opened files, and
//! taken apart into their disks again.
//!
//! Used by: mw_words_tests, mw_engine_tests. A new field needs a value in `new`, and its name in `into_disks`. Change the
//! calls with `specs/Answers`, `specs/Tasks`, `specs/Cases`, `specs/Parts`, `specs/Quotas`, `specs/Report`, `specs/Search`
//! and `specs/Tickets`, and `new` with `specs/Lines` and `specs/Made`. docs/PROMISES cites `ask`.
ghost use Rattle.std.specs.Prelude.{◌≡◌, ◌<◌, ◌≤◌, ◌-◌, length, map, vec_capacity, vec_len, IsTrue, IfOk, MatchOption, OnErr};
ghost use Rattle.mw_words.specs.Change.{is_well_formed};
ghost use Rattle.mw_words.specs.declared.limits.TheConstants.{MAX_POOL, MAX_TENANTS};
ghost use Rattle.mw_report.specs.Table.{AreWithinLimits};
ghost use Rattle.mw_plain.specs.Quotas.{quotas_of};

use crate::loaded_file::Begun;
use crate::tenant::Part;
use crate::tickets::{Start, Task, Ticket};
use arrayvec::ArrayVec;
use mw_config::TenantLine;
use mw_disk::Disk;
use mw_file::TenantFile;
use mw_report::{Figures, TenantFigures};
use mw_words::{Job, MAX_TENANTS, Name, Reply};
use std::alloc::{AllocError, Global};

/// Every tenant's part of the store, by the tenant's number, and how many slots they share: at least the sum of the
/// quotas. It also has the room for its disks, empty while the store is there, so that its end asks for no memory.
#[derive(Drop)]
pub struct Plain<D> {
    pub(crate) parts: Vec<Part<D>>,
    pub(crate) pool: u16,
    pub(crate) disks: Vec<Option<D>>,
    ghost few: { length parts.items ≤ MAX_TENANTS },
    ghost shared: { quotas_of parts.items ≤ pool },
    ghost small: { pool ≤ MAX_POOL },
    ghost empty: { vec_len disks ≡ 0 },
    ghost room: { length parts.items ≤ vec_capacity disks },
}

impl<D: Disk + Drop> Plain<D> {
    ghost use Rattle.mw_plain.specs.Lines.{FitLines, AreMadeOf, StartsWith, quotas_in};
    ghost use Rattle.mw_plain.specs.Made.{EachStands};
    ghost use Rattle.mw_plain.specs.Quotas.{disk_in};

    /// Makes the store of the tenants with these lines. For each line in order `files` has the opened file with the
    /// words that were read; `None` if the file didn't open, or doesn't fit its line. A tenant without a file has
    /// faulted from the start. All tenants share a pool of `pool` slots.
    ///
    /// # Errors
    ///
    /// [`AllocError`] if memory is out. The files are dropped.
    pub fn new(
        alloc: Global,
        lines: &[TenantLine],
        files: Vec<Option<(TenantFile<D>, Vec<u64>)>>,
        pool: u16,
    ) -> Result<Plain<D>, AllocError>
        requires few { length lines.now ≤ MAX_TENANTS }
        requires fit { FitLines lines.now files.items }
        requires shared { quotas_in lines.now ≤ pool }
        requires small { pool ≤ MAX_POOL }
        ensures made { IfOk result (λ plain. AreMadeOf lines.now files.items plain.parts.items) }
        ensures pool { IfOk result (λ plain. plain.pool ≡ pool) }
        ensures stands { IfOk result (EachStands D.facts lines.now files.items) }
    {
        let disks = Vec::with_capacity(alloc, lines.len())?;
        let mut parts = Vec::with_capacity(alloc, lines.len())?;
        for file in files {
            let part = Part::new(&lines[parts.len()], file);
            parts.push(part)?;
        }
        Ok(Plain { parts, pool, disks })
    }

    /// Gives the disks of the tenants' files, by the tenant's number; `None` for a file that didn't open. Asks for no
    /// memory.
    pub fn into_disks(self) -> Vec<Option<D>>
        ensures { result.items ≡ map disk_in self.parts.items }
    {
        let Plain {
            parts,
            pool: _,
            disks,
        } = self;
        let mut disks = disks;
        for part in parts {
            disks.push_reserved(part.into_disk());
        }
        disks
    }
}

impl<D: Disk> Plain<D> {
    ghost use Rattle.mw_plain.specs.Parts.{tenants, words_at, ServesOne};
    ghost use Rattle.mw_plain.specs.Quotas.{used_by};
    ghost use Rattle.mw_plain.specs.Report.{figures_of};
    ghost use Rattle.mw_plain.specs.Search.{HasNone, IsFirst};
    ghost use Rattle.mw_plain.specs.Tasks.{AreTasks, AskedAll, ServesAll};
    ghost use Rattle.mw_plain.specs.Tickets.{IsOpen};
    ghost use Rattle.mw_plain.specs.Cases.{StartCase, FinishCase, AskCase};
    ghost use Rattle.mw_plain.specs.Answers.{StartsAs, FinishesAs, AsksAs};

    /// How many tenants there are.
    pub fn len(&self) -> usize
        ensures { result ≡ tenants self.now }
    {
        self.parts.len()
    }

    /// How many words a tenant has.
    pub fn words_of(&self, tenant: u8) -> u16
        requires { tenant < tenants self.now }
        ensures { result ≡ words_at self.now tenant }
    {
        self.parts[tenant as usize].words
    }

    /// Finds the first tenant with this name: its number, and how many words it has. `None` if no tenant has the
    /// name.
    pub fn find(&self, name: &Name) -> Option<(u8, u16)>
        ensures { MatchOption result (HasNone self.now (tenants self.now) name.now.items) (IsFirst self.now name.now.items) }
    {
        for (tenant, part) in self.parts.iter().enumerate() {
            if part.name.as_slice() == name.as_slice() {
                return Some((tenant as u8, part.words));
            }
        }
        None
    }

    /// Starts a job of a tenant. A read is answered with the word's value. A change is counted as one of the
    /// tenant's slots in use and prepared in the tenant's file, and the ticket finishes it. If the quota is used
    /// up, the change is answered BUSY. A tenant that has faulted answers FAULT. If the file fails in this call,
    /// the answer is FAULT too: the tenant has faulted from then on, and the slot stays in use.
    ///
    /// On an honest disk a crash at any moment of the call leaves the tenant's words from before it, with the change
    /// that an earlier failed seal left in doubt, or without.
    ///
    /// A ticket can't be dropped: it is finished, or given up by [`Ticket::abandon`].
    pub fn start(&mut self, tenant: u8, job: &Job) -> Start
        requires tenant { tenant < tenants self.old }
        requires formed { IsTrue (is_well_formed (words_at self.old tenant) job.now) }
        ensures one { ServesOne self.old self.new tenant }
        // `StartsAs (moments)`: a crash in the call leaves the words from before it, with the change in doubt or without.
        ensures answers { (case : StartCase) × StartsAs D.facts case self.old self.new tenant job.now result }
    {
        match self.parts[tenant as usize].start(job) {
            Begun::Done(reply) => Start::Done(reply),
            Begun::Prepared(place, entries) => Start::Open(Ticket {
                tenant,
                place,
                entries,
            }),
        }
    }

    /// Finishes a change that was started. If a word doesn't have the expected value, the change and its slot are
    /// given up. The answer is then NO with the first such address and the word there. Else the change is written,
    /// its slot is given back, and the answer is YES. If the tenant has faulted since the start, or the file fails
    /// before the change is in it, the answer is FAULT. If the file fails later, the answer is YES. In these last
    /// three cases the tenant has faulted from then on, and the slot stays in use.
    ///
    /// On an honest disk a crash at any moment of the call leaves the tenant's words from before it, with the change at
    /// stake or without. This is the ticket's change if the call comes to its seal, else the one that an earlier failed
    /// seal left in doubt.
    pub fn finish(&mut self, ticket: Ticket) -> Reply
        requires { IsOpen self.old ticket }
        ensures one { ServesOne self.old self.new ticket.tenant }
        // `FinishesAs (moments)`: a crash in the call leaves the words from before it, with the change at stake or without.
        ensures answers { (case : FinishCase) × FinishesAs D.facts case self.old self.new ticket result }
    {
        let Ticket {
            tenant,
            place,
            entries,
        } = ticket;
        self.parts[tenant as usize].finish(place, &entries)
    }

    /// Serves a job of a tenant: starts it, and finishes it if the start left it open.
    ///
    /// On an honest disk a crash at any moment of the call leaves the tenant's words from before it, with the change at
    /// stake or without. This is the job's own if the call comes to its seal, else the one that an earlier failed seal
    /// left in doubt.
    pub fn ask(&mut self, tenant: u8, job: &Job) -> Reply
        requires tenant { tenant < tenants self.old }
        requires formed { IsTrue (is_well_formed (words_at self.old tenant) job.now) }
        ensures one { ServesOne self.old self.new tenant }
        // `AsksAs (moments)`: a crash in the call leaves the words from before it, with the change at stake or without.
        ensures answers { (case : AskCase) × AsksAs D.facts case self.old self.new tenant job.now result }
    {
        match self.start(tenant, job) {
            Start::Done(reply) => reply,
            Start::Open(ticket) => self.finish(ticket),
        }
    }

    /// Asks these tasks one after the other and gives their replies.
    ///
    /// # Errors
    ///
    /// [`AllocError`] if memory is out. Nothing was done.
    pub fn run(&mut self, alloc: Global, tasks: &[Task]) -> Result<Vec<Reply>, AllocError>
        requires { AreTasks self.old tasks.now }
        ensures done { IfOk result (λ replies. AskedAll D.facts self.old tasks.now replies.items self.new) }
        ensures serves { IfOk result (λ replies. ServesAll D.facts self.old self.new tasks.now replies.items) }
        ensures refused { OnErr result (self.new ≡ self.old) }
    {
        let mut replies = Vec::with_capacity(alloc, tasks.len())?;
        for task in tasks {
            let reply = self.ask(task.tenant, &task.job);
            replies.push_reserved(reply);
        }
        Ok(replies)
    }

    /// The figures of every tenant, in order of number, and how many slots of the pool are free.
    pub fn figures(&self) -> Figures
        ensures within { AreWithinLimits result.tenants.items result.pool_free }
        ensures each { result.tenants.items ≡ map figures_of self.now.parts.items }
        ensures free { result.pool_free ≡ self.now.pool - used_by self.now.parts.items }
    {
        Figures {
            tenants: self.each_figures(),
            pool_free: self.pool - self.used(),
        }
    }

    fn each_figures(&self) -> ArrayVec<TenantFigures, MAX_TENANTS>
        ensures { result.items ≡ map figures_of self.now.parts.items }
    {
        let mut tenants = ArrayVec::new();
        for part in &self.parts {
            tenants.push(part.figures());
        }
        tenants
    }

    /// How many slots all tenants use.
    fn used(&self) -> u16
        ensures sum { result ≡ used_by self.now.parts.items }
        ensures within { result ≤ self.now.pool }
    {
        let mut used: u16 = 0;
        for part in &self.parts {
            used += u16::from(part.used());
        }
        used
    }
}

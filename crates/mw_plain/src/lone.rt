//! The store alone (the sequential specification of one tenant) as a program that tests can run, mark by mark.
//!
//! Used by: mw_words_tests, mw_world_trials. Each call must do what `specs/Store` of mw_lone says. docs/PROMISES cites
//! `Lone::mark`.
ghost use Rattle.std.specs.Prelude.{◌≡◌, ◌↔◌, length, IsTrue, IfOk, OnOk, OnErr, IfSome, IsErrOf, Some, None, if◌then◌else◌};
ghost use Rattle.std.specs.Option.{option_map};
ghost use Rattle.std.specs.List.{list_all};
ghost use Rattle.mw_words.specs.Change as change;
ghost use Rattle.mw_lone.specs.Store as spec;
ghost use Rattle.mw_plain.specs.Lone.{Takes, reply_of, is_refused, is_ask};

use crate::asked::Requests;
use crate::changes::{put, word_at};
use mw_lone::Mark;
use mw_words::{Entries, Job, MAX_QUOTA, Reply, copy_of};
use std::alloc::{AllocError, Global};
use std::marker::Model;

/// Why a mark was not taken. The store is then as it was.
#[derive(Clone, Copy, Debug, PartialEq, Eq)]
pub enum LoneFault {
    /// The mark is illegal in this state of the store, or it asks under the last number, `2^64 - 1`.
    Illegal,
    /// Memory is out.
    Memory,
}

/// One tenant's words and requests, on their own.
#[derive(Drop)]
pub struct Lone {
    words: Vec<u64>,
    quota: u8,
    requests: Requests,
    faulted: bool,
    in_doubt: Entries,
}

impl Model for Lone {
    ghost use Rattle.std.specs.Coded.{codes};
    ghost use Rattle.std.specs.FinMap as map;
    ghost use Rattle.mw_lone.specs.Store.{Store};

    ghost Value = { Store };

    ghost coded = { Prim.hlevel (codes, map.code) };

    ghost use Rattle.mw_plain.specs.Lone.{store_of};
    ghost use Rattle.mw_lone.specs.Sound.{IsSound};

    ghost view = { store_of };

    ghost invariant = { λ a. IsSound a.words.items a.requests.requests a.in_doubt.items };
}

impl Lone {
    /// Makes a store with these words, of which nothing was asked. `faulted`: its file has failed from the start,
    /// because it didn't open.
    ///
    /// # Errors
    ///
    /// [`AllocError`] if memory is out.
    pub fn new(alloc: Global, words: &[u64], quota: u8, faulted: bool) -> Result<Lone, AllocError>
        ensures { IfOk result (λ lone. lone ≡ spec.first_store words.now quota faulted) }
    {
        Ok(Lone {
            words: Vec::from_slice(alloc, words)?,
            quota,
            requests: Requests::new(alloc),
            faulted,
            in_doubt: Entries::new(),
        })
    }

    /// Takes a mark, and gives the reply that it hands out: there is one for [`Mark::Reply`], and for no other
    /// mark.
    ///
    /// # Errors
    ///
    /// [`LoneFault::Illegal`] if the mark is illegal in this state of the store, or asks under number `2^64 - 1`,
    /// which has no next one. [`LoneFault::Memory`] if there is no memory for one more request; only [`Mark::Ask`]
    /// needs it. After an error the store is as it was.
    pub fn mark(&mut self, mark: Mark) -> Result<Option<Reply>, LoneFault>
        ensures taken { OnOk result (spec.step self.old mark ≡ Some self.new) }
        ensures reply { IfOk result (λ reply. reply ≡ reply_of self.old mark) }
        ensures refused { IsErrOf result LoneFault.Illegal ↔ IsTrue (is_refused self.old mark) }
        ensures memory { IsErrOf result LoneFault.Memory → IsTrue (is_ask mark) }
        ensures unchanged { OnErr result (self.new ≡ self.old) }
    {
        match mark {
            Mark::Ask(n, job) => self.ask(n, job),
            Mark::Admit(n) => self.admit(n),
            Mark::Busy(n) => self.refuse_busy(n),
            Mark::Look(n) => self.look(n),
            Mark::Miss(n, i) => self.miss(n, i),
            Mark::Seal(n) => self.seal(n),
            Mark::SealFail(n) => self.fail_seal(n),
            Mark::FileFail => self.fail_file(),
            Mark::GiveUp(n) => self.give_up(n),
            Mark::Retire(n) => self.retire(n),
            Mark::Reply(n) => self.hand_out(n),
            Mark::Restart {
                interrupted,
                take,
                opened,
                quota,
            } => self.restart(interrupted, take, opened, quota),
        }
    }

    /// Request `n` comes, with its job.
    fn ask(&mut self, n: u64, job: Job) -> Result<Option<Reply>, LoneFault>
        ensures taken { OnOk result (spec.step self.old (Mark.Ask n job) ≡ Some self.new) }
        ensures reply { IfOk result (λ reply. reply ≡ None) }
        ensures refused { IsErrOf result LoneFault.Illegal ↔ IsTrue (is_refused self.old (Mark.Ask n job)) }
        ensures unchanged { OnErr result (self.new ≡ self.old) }
    {
        if n != self.requests.next() || n == u64::MAX || !job.is_well_formed(self.words.len()) {
            return Err(LoneFault::Illegal);
        }
        match self.requests.ask(job) {
            Ok(()) => Ok(None),
            Err(AllocError) => Err(LoneFault::Memory),
        }
    }

    /// A change gets a slot.
    fn admit(&mut self, n: u64) -> Result<Option<Reply>, LoneFault>
        ensures { Takes self.old (Mark.Admit n) result self.new }
    {
        let Some(request) = self.requests.get(n) else {
            return Err(LoneFault::Illegal);
        };
        if !(request.is_waiting() && !self.faulted && self.requests.used() < self.quota) {
            return Err(LoneFault::Illegal);
        }
        self.requests.admit(n);
        Ok(None)
    }

    /// A change finds the quota used up.
    fn refuse_busy(&mut self, n: u64) -> Result<Option<Reply>, LoneFault>
        ensures { Takes self.old (Mark.Busy n) result self.new }
    {
        let Some(request) = self.requests.get(n) else {
            return Err(LoneFault::Illegal);
        };
        if !(request.is_waiting() && !self.faulted && self.requests.used() == self.quota) {
            return Err(LoneFault::Illegal);
        }
        self.requests.place(n, Reply::Busy);
        Ok(None)
    }

    /// A read of a word takes place.
    fn look(&mut self, n: u64) -> Result<Option<Reply>, LoneFault>
        ensures { Takes self.old (Mark.Look n) result self.new }
    {
        let Some(request) = self.requests.get(n) else {
            return Err(LoneFault::Illegal);
        };
        let Job::Get(addr) = request.job else {
            return Err(LoneFault::Illegal);
        };
        if request.placed.is_some() {
            return Err(LoneFault::Illegal);
        }
        let value = word_at(&self.words, addr);
        self.requests.place(n, Reply::Val(value));
        Ok(None)
    }

    /// A change under way is refused at its entry `i`.
    fn miss(&mut self, n: u64, i: u8) -> Result<Option<Reply>, LoneFault>
        ensures { Takes self.old (Mark.Miss n i) result self.new }
    {
        let Some(request) = self.requests.get(n) else {
            return Err(LoneFault::Illegal);
        };
        let Some(entry) = request.entry(i) else {
            return Err(LoneFault::Illegal);
        };
        let value = word_at(&self.words, entry.addr);
        if !(request.is_under_way() && value != entry.expected) {
            return Err(LoneFault::Illegal);
        }
        self.requests.place(n, Reply::No(entry.addr, value));
        Ok(None)
    }

    /// A change is written, all of it.
    fn seal(&mut self, n: u64) -> Result<Option<Reply>, LoneFault>
        ensures { Takes self.old (Mark.Seal n) result self.new }
    {
        let Some(request) = self.requests.get(n) else {
            return Err(LoneFault::Illegal);
        };
        if !request.may_be_written(&self.words, self.faulted) {
            return Err(LoneFault::Illegal);
        }
        let entries = request.entries();
        put(&mut self.words, &entries);
        self.requests.place(n, Reply::Yes);
        Ok(None)
    }

    /// The file fails while it writes a change.
    fn fail_seal(&mut self, n: u64) -> Result<Option<Reply>, LoneFault>
        ensures { Takes self.old (Mark.SealFail n) result self.new }
    {
        let Some(request) = self.requests.get(n) else {
            return Err(LoneFault::Illegal);
        };
        if !request.may_be_written(&self.words, self.faulted) {
            return Err(LoneFault::Illegal);
        }
        self.in_doubt = request.entries();
        self.faulted = true;
        self.requests.place(n, Reply::Fault);
        Ok(None)
    }

    /// The file fails, and leaves no change in doubt.
    fn fail_file(&mut self) -> Result<Option<Reply>, LoneFault>
        ensures { Takes self.old Mark.FileFail result self.new }
    {
        if self.faulted {
            return Err(LoneFault::Illegal);
        }
        self.faulted = true;
        Ok(None)
    }

    /// A request is answered that the file has failed.
    fn give_up(&mut self, n: u64) -> Result<Option<Reply>, LoneFault>
        ensures { Takes self.old (Mark.GiveUp n) result self.new }
    {
        let Some(request) = self.requests.get(n) else {
            return Err(LoneFault::Illegal);
        };
        if !self.faulted || request.placed.is_some() {
            return Err(LoneFault::Illegal);
        }
        self.requests.place(n, Reply::Fault);
        Ok(None)
    }

    /// A change that has its reply gives its slot back.
    fn retire(&mut self, n: u64) -> Result<Option<Reply>, LoneFault>
        ensures { Takes self.old (Mark.Retire n) result self.new }
    {
        let Some(request) = self.requests.get(n) else {
            return Err(LoneFault::Illegal);
        };
        if !request.admitted || request.retired || request.placed.is_none() {
            return Err(LoneFault::Illegal);
        }
        self.requests.retire(n);
        Ok(None)
    }

    /// A reply is handed out.
    fn hand_out(&mut self, n: u64) -> Result<Option<Reply>, LoneFault>
        ensures { Takes self.old (Mark.Reply n) result self.new }
    {
        let Some(request) = self.requests.get(n) else {
            return Err(LoneFault::Illegal);
        };
        if request.handed {
            return Err(LoneFault::Illegal);
        }
        let Some(reply) = request.placed else {
            return Err(LoneFault::Illegal);
        };
        self.requests.hand_out(n);
        Ok(Some(reply))
    }

    /// All stops and starts again, with this quota.
    fn restart(
        &mut self,
        interrupted: Option<u64>,
        take: bool,
        opened: bool,
        quota: u8,
    ) -> Result<Option<Reply>, LoneFault>
        ensures { Takes self.old (Mark.Restart interrupted take opened quota) result self.new }
    {
        if quota == 0 || quota > MAX_QUOTA {
            return Err(LoneFault::Illegal);
        }
        let Some(doubt) = self.entries_in_doubt(interrupted) else {
            return Err(LoneFault::Illegal);
        };
        if take && !self.has_in_doubt(interrupted) {
            return Err(LoneFault::Illegal);
        }
        if take {
            put(&mut self.words, &doubt);
        }
        self.requests.restart();
        self.quota = quota;
        self.faulted = !opened;
        self.in_doubt = Entries::new();
        Ok(None)
    }

    /// Whether there is a change in doubt, which a start may find.
    fn has_in_doubt(&self, interrupted: Option<u64>) -> bool
        ensures { result ≡ spec.has_in_doubt self.now interrupted }
    {
        match interrupted {
            None => !self.in_doubt.is_empty(),
            Some(_) => true,
        }
    }

    /// The change in doubt; without entries if none is in doubt. `None`: the interrupted request could not have
    /// been interrupted while it was written.
    fn entries_in_doubt(&self, interrupted: Option<u64>) -> Option<Entries>
        ensures change { option_map (λ doubt. doubt.items) result ≡ (if spec.may_be_interrupted self.now interrupted then Some (spec.entries_in_doubt self.now interrupted) else None) }
        ensures fits { IfSome result (λ doubt. IsTrue (list_all (change.is_in_range (length self.now.words)) doubt.items)) }
    {
        let Some(n) = interrupted else {
            return Some(copy_of(&self.in_doubt));
        };
        let request = self.requests.get(n)?;
        if !request.may_be_written(&self.words, self.faulted) {
            return None;
        }
        Some(request.entries())
    }
}

//! The list of the requests that a store alone was asked since its last start, in the order of their numbers.
//!
//! Only `lone.rt` uses it. Change it with `specs/Asked`.
ghost use Rattle.std.specs.Prelude.{◌≡◌, ◌+◌, ◌-◌, ◌<◌, ◌&&◌, OnOk, OnErr, IsSome, IsSomeAnd, IfSome, IsTrue, true, not, length, slice_get};
ghost use Rattle.std.specs.Option.{option_map};
ghost use Rattle.std.specs.FinMap as map;
ghost use Rattle.mw_words.specs.Change.{is_well_formed};
ghost use Rattle.mw_lone.specs.Store.{asked};
ghost use Rattle.mw_lone.specs.Store as spec;
ghost use Rattle.mw_plain.specs.Asked.{seen};

use crate::changes::fits;
use mw_words::{Entries, Entry, Job, Reply, copy_of};
use std::alloc::{AllocError, Global};
use std::marker::Model;

/// A request, and how far it has come.
#[derive(Drop)]
pub struct Request {
    /// What it asks for.
    pub job: Job,
    /// It was admitted: a slot was counted for it.
    pub admitted: bool,
    /// Its reply, once it is decided.
    pub placed: Option<Reply>,
    /// Its slot was given back.
    pub retired: bool,
    /// Its reply was handed out.
    pub handed: bool,
}

impl Request {
    /// The entries of its change; none if it is a read.
    pub fn entries(&self) -> Entries
        ensures { result.items ≡ spec.entries_of self.now.job }
    {
        match &self.job {
            Job::Get(_) => Entries::new(),
            Job::Cas(entries) => copy_of(entries),
        }
    }

    /// Its entry `i`, counted from 0, if there is one.
    pub fn entry(&self, i: u8) -> Option<Entry>
        ensures { result ≡ slice_get (spec.entries_of self.now.job) i }
    {
        self.entries().get(i as usize).copied()
    }

    /// Whether it is a change that has neither a slot nor a reply.
    pub fn is_waiting(&self) -> bool
        ensures { result ≡ spec.is_waiting (seen self.now) }
    {
        matches!(self.job, Job::Cas(_)) && !self.admitted && self.placed.is_none()
    }

    /// Whether it has a slot and no reply yet.
    pub fn is_under_way(&self) -> bool
        ensures { result ≡ spec.is_under_way (seen self.now) }
    {
        self.admitted && self.placed.is_none()
    }

    /// Whether it could be written now: it is under way, each word has the expected value, and the file has not
    /// failed.
    pub fn may_be_written(&self, words: &[u64], faulted: bool) -> bool
        requires { IsTrue (is_well_formed (length words.now) self.now.job) }
        ensures { result ≡ spec.may_be_written words.now faulted (seen self.now) }
    {
        self.is_under_way() && !faulted && fits(words, &self.entries())
    }
}

/// The requests asked since the last start, each under its number, and how many slots they use.
///
/// Request `n` is element `n - first` of the list.
#[derive(Drop)]
pub struct Requests {
    first: u64,
    list: Vec<Request>,
    used: u8,
}

impl Model for Requests {
    ghost use Rattle.mw_plain.specs.Asked.{Asked, asked_of, IsCounted};
    ghost use Rattle.std.specs.Coded.{codes};
    ghost use Rattle.std.specs.FinMap as map;

    ghost Value = { Asked };

    ghost coded = { Prim.hlevel (codes, map.code) };

    ghost view = { asked_of };

    ghost invariant = { λ a. IsCounted a.first a.list.items a.used };
}

impl Requests {
    /// No request yet: the next number is 0.
    pub fn new(alloc: Global) -> Requests
        ensures { result ≡ record { next = 0; used = 0; requests = map.empty } }
    {
        Requests {
            first: 0,
            list: Vec::new(alloc),
            used: 0,
        }
    }

    /// The number of the next request.
    pub fn next(&self) -> u64
        ensures { result ≡ self.now.next }
    {
        self.first + self.list.len() as u64
    }

    /// How many slots are used.
    pub fn used(&self) -> u8
        ensures { result ≡ self.now.used }
    {
        self.used
    }

    /// Request `n`, if it was asked since the last start.
    pub fn get(&self, n: u64) -> Option<&Request>
        ensures { option_map (λ r. seen r.now) result ≡ map.get self.now.requests n }
    {
        if n < self.first {
            return None;
        }
        self.list.get((n - self.first) as usize)
    }

    /// Adds a request under the next number.
    ///
    /// # Errors
    ///
    /// [`AllocError`] if memory is out. Then nothing changes.
    pub fn ask(&mut self, job: Job) -> Result<(), AllocError>
        requires { self.old.next < u64.MAX }
        ensures ok { OnOk result (self.new ≡ record self.old { next = self.old.next + 1; requests = map.insert self.old.requests self.old.next (asked job) }) }
        ensures err { OnErr result (self.new ≡ self.old) }
    {
        self.list.push(Request {
            job,
            admitted: false,
            placed: None,
            retired: false,
            handed: false,
        })?;
        Ok(())
    }

    /// Counts a slot for request `n`.
    pub fn admit(&mut self, n: u64)
        requires asked { IsSomeAnd (map.get self.old.requests n) (λ r. IsTrue (not r.admitted)) }
        requires room { self.old.used < u8.MAX }
        ensures { IfSome (map.get self.old.requests n) (λ r. self.new ≡ record self.old { used = self.old.used + 1; requests = map.insert self.old.requests n (record r { admitted = true }) }) }
    {
        let i = (n - self.first) as usize;
        self.list[i].admitted = true;
        self.used += 1;
    }

    /// Gives request `n` its reply.
    pub fn place(&mut self, n: u64, reply: Reply)
        requires { IsSome (map.get self.old.requests n) }
        ensures { IfSome (map.get self.old.requests n) (λ r. self.new ≡ record self.old { requests = map.insert self.old.requests n (record r { placed = Some reply }) }) }
    {
        let i = (n - self.first) as usize;
        self.list[i].placed = Some(reply);
    }

    /// Gives back the slot of request `n`.
    pub fn retire(&mut self, n: u64)
        requires { IsSomeAnd (map.get self.old.requests n) (λ r. IsTrue (r.admitted && not r.retired)) }
        ensures { IfSome (map.get self.old.requests n) (λ r. self.new ≡ record self.old { used = self.old.used - 1; requests = map.insert self.old.requests n (record r { retired = true }) }) }
    {
        let i = (n - self.first) as usize;
        self.list[i].retired = true;
        self.used -= 1;
    }

    /// Hands out the reply of request `n`.
    pub fn hand_out(&mut self, n: u64)
        requires { IsSome (map.get self.old.requests n) }
        ensures { IfSome (map.get self.old.requests n) (λ r. self.new ≡ record self.old { requests = map.insert self.old.requests n (record r { handed = true }) }) }
    {
        let i = (n - self.first) as usize;
        self.list[i].handed = true;
    }

    /// Stops all: no request is left, and no slot is used. The numbers go on.
    pub fn restart(&mut self)
        ensures { self.new ≡ record self.old { used = 0; requests = map.empty } }
    {
        self.first += self.list.len() as u64;
        self.list.clear();
        self.used = 0;
    }
}

//! A service in memory, for tests: one tenant, `t`, and its words. Many workers may ask for them if they are under
//! a lock.
//!
//! Used by: mw_serving_tests.
use arrayvec::ArrayVec;
use mw_report::{Figures, TenantFigures};
use mw_session::Service;
use mw_words::{Entries, Entry, Job, Name, Reply};
use std::sync::{Mutex, Wait};

/// The tenant's words.
#[derive(Drop)]
pub struct Shelf {
    words: [u64; 32],
    /// How many of the words the tenant has.
    len: u16,
}

impl Shelf {
    pub fn new(len: u16) -> Self {
        Shelf {
            words: [0; 32],
            len,
        }
    }

    pub fn word(&self, addr: u16) -> u64 {
        self.words.get(usize::from(addr)).copied().unwrap_or(0)
    }

    fn first_miss(&self, entries: &Entries) -> Option<Entry> {
        for entry in entries {
            if self.word(entry.addr) != entry.expected {
                return Some(*entry);
            }
        }
        None
    }

    fn put(&mut self, entries: &Entries) {
        for entry in entries {
            if let Some(word) = self.words.get_mut(usize::from(entry.addr)) {
                *word = entry.new;
            }
        }
    }

    fn change(&mut self, entries: &Entries) -> Reply {
        match self.first_miss(entries) {
            Some(entry) => Reply::No(entry.addr, self.word(entry.addr)),
            None => {
                self.put(entries);
                Reply::Yes
            }
        }
    }
}

impl Service for Shelf {
    ghost answered = { λ _ _ _. Unit {0} };

    ghost has_words = { λ _ _ _. Unit {0} };

    fn find(&self, name: &Name) -> Option<(u8, u16)> {
        if name.as_slice() == b"t".as_slice() {
            Some((0, self.len))
        } else {
            None
        }
    }

    fn ask(&mut self, _: u8, job: &Job) -> Reply {
        match job {
            Job::Get(addr) => Reply::Val(self.word(*addr)),
            Job::Cas(entries) => self.change(entries),
        }
    }

    #[tactic(auto, using(crate::proofs::Figured::one_within))]
    fn figures(&mut self) -> Figures {
        let tenant = TenantFigures {
            name: Name::try_from(b"t".as_slice()).unwrap_or_default(),
            words: 2,
            quota: 1,
            places: 2,
            used: 0,
            up: true,
        };
        let mut tenants = ArrayVec::new();
        tenants.push(tenant);
        Figures {
            tenants,
            pool_free: 256,
        }
    }
}

/// One worker's access to the words.
#[derive(Drop)]
pub struct Clerk<'a, R: Wait> {
    pub rt: &'a R,
    pub shelf: &'a Mutex<Shelf>,
}

impl<'a, R: Wait> Service for Clerk<'a, R> {
    ghost answered = { λ _ _ _. Unit {0} };

    ghost has_words = { λ _ _ _. Unit {0} };

    fn find(&self, name: &Name) -> Option<(u8, u16)> {
        self.shelf.lock(self.rt).find(name)
    }

    fn ask(&mut self, tenant: u8, job: &Job) -> Reply {
        self.shelf.lock(self.rt).ask(tenant, job)
    }

    fn figures(&mut self) -> Figures {
        self.shelf.lock(self.rt).figures()
    }
}

//! Keeps what can be seen of a world between two events.
//!
//! Used by: `larger/clauses` and its modules, `larger/past`, `larger/pins`, `larger/planted_faults`, `larger/tests`,
//! `run`.
ghost use Rattle.std.specs.Prelude.{◌<◌, ◌≤◌, length};

use crate::larger::past::Past;
use crate::shares::{Share, first_shares};
use mw_actor::{Actor, Slot};
use mw_lone::Mark;
use mw_simulator::World;
use mw_words::{
    At, Door, Entry, Gate, MAX_ENTRIES, MAX_POOL, MAX_TENANTS, MAX_WORKERS, Row, Status, Word,
};
use std::alloc::{AllocError, Global};

/// A word of a tenant.
#[derive(Clone, Copy)]
pub(crate) struct Datum {
    pub(crate) tenant: u8,
    pub(crate) address: u16,
    pub(crate) word: Word,
}

/// What a slot has.
#[derive(Clone, Copy)]
pub(crate) struct Written {
    pub(crate) gate: Gate,
    pub(crate) status: Status,
    pub(crate) count: u64,
    pub(crate) entries: [Entry; MAX_ENTRIES],
}

/// A worker.
#[derive(Drop)]
pub(crate) struct WorkerState {
    pub(crate) actor: Option<Actor>,
    pub(crate) attempt: u64,
    pub(crate) row: Row,
}

/// What the readers of a world show, and its past as its events have shown it.
#[derive(Drop)]
pub(crate) struct Seen {
    /// By tenant: how many words it has, what it may use since the last start, and its door.
    pub(crate) words: Vec<u16>,
    pub(crate) shares: Vec<Share>,
    pub(crate) doors: Vec<Door>,
    pub(crate) slots: Vec<Written>,
    pub(crate) worker_states: Vec<WorkerState>,
    pub(crate) data: Vec<Datum>,
    pub(crate) past: Past,
    /// A shared word has bits that no word of its kind has.
    pub(crate) is_junk: bool,
}

impl Seen {
    /// Makes one in which nothing is seen yet.
    pub(crate) fn new(alloc: Global) -> Seen {
        Seen {
            words: Vec::new(alloc),
            shares: Vec::new(alloc),
            doors: Vec::new(alloc),
            slots: Vec::new(alloc),
            worker_states: Vec::new(alloc),
            data: Vec::new(alloc),
            past: Past {
                changes: Vec::new(alloc),
                contents: Vec::new(alloc),
                is_stray: false,
            },
            is_junk: false,
        }
    }

    /// Looks at a world that has just started.
    pub(crate) fn begin(&mut self, alloc: Global, world: &World) -> Result<(), AllocError> {
        self.look(world)?;
        self.shares = first_shares(alloc, world.config())?;
        self.past.start(&self.data)
    }

    /// Records a start, with the words that are seen and the quotas that the marks say.
    pub(crate) fn start(&mut self, world: &World) -> Result<(), AllocError> {
        for tenant in 0..MAX_TENANTS {
            if tenant < world.config().tenants.len() && tenant < self.shares.len() {
                let told = last_quota(&world.marks(tenant as u8)?);
                self.shares[tenant].quota = told.unwrap_or(self.shares[tenant].quota);
            }
        }
        self.past.start(&self.data)
    }

    /// Looks at a world.
    pub(crate) fn look(&mut self, world: &World) -> Result<(), AllocError> {
        self.is_junk = false;
        self.words.clear();
        self.doors.clear();
        self.data.clear();
        for tenant in 0..MAX_TENANTS {
            if tenant < world.config().tenants.len() {
                self.look_at_tenant(world, tenant as u8)?;
            }
        }
        self.look_at_slots(world)?;
        self.look_at_workers(world)
    }

    fn look_at_tenant(&mut self, world: &World, tenant: u8) -> Result<(), AllocError>
        requires { tenant < length world.now.config.tenants.items }
    {
        match Door::unpack(world.word(At::Door(tenant))) {
            Some(door) => self.doors.push(door)?,
            None => self.is_junk = true,
        }
        let words = world.config().tenants[usize::from(tenant)].words;
        self.words.push(words)?;
        for address in 0..words {
            match Word::unpack(world.word(At::Data { tenant, address })) {
                Some(word) => self.data.push(Datum {
                    tenant,
                    address,
                    word,
                })?,
                None => self.is_junk = true,
            }
        }
        Ok(())
    }

    fn look_at_slots(&mut self, world: &World) -> Result<(), AllocError> {
        self.slots.clear();
        for slot in 0..MAX_POOL {
            let slot = slot as u8;
            if u16::from(slot) >= world.config().pool {
                return Ok(());
            }
            let gate = Gate::unpack(world.word(At::Gate(slot)));
            let status = Status::unpack(world.word(At::Status(slot)));
            match (gate, status) {
                (Some(gate), Some(status)) => self.slots.push(Written {
                    gate,
                    status,
                    count: world.word(At::Count(slot)),
                    entries: entries(world, slot),
                })?,
                _ => self.is_junk = true,
            }
        }
        Ok(())
    }

    fn look_at_workers(&mut self, world: &World) -> Result<(), AllocError> {
        self.worker_states.clear();
        for worker in 0..MAX_WORKERS {
            if worker >= world.config().workers {
                return Ok(());
            }
            match Row::unpack(world.word(At::Row(worker))) {
                Some(row) => self.worker_states.push(worker_state(world, worker, row))?,
                None => self.is_junk = true,
            }
        }
        Ok(())
    }

    /// Gives the gate of a slot. For a slot that isn't there it is a gate that isn't taken.
    pub(crate) fn gate(&self, slot: u8) -> Gate {
        match self.slots.get(usize::from(slot)) {
            Some(written) => written.gate,
            None => Gate {
                taken: false,
                pins: 0,
                seq: 0,
            },
        }
    }

    /// Gives the status of a slot.
    pub(crate) fn status(&self, slot: u8) -> Status {
        match self.slots.get(usize::from(slot)) {
            Some(written) => written.status,
            None => Status::Draft,
        }
    }

    /// Gives a word of a tenant.
    pub(crate) fn word(&self, tenant: u8, address: u16) -> Option<Word> {
        for datum in &self.data {
            if datum.tenant == tenant && datum.address == address {
                return Some(datum.word);
            }
        }
        None
    }

    /// Tells whether the slot is taken and pinned, under this number.
    pub(crate) fn is_pinned(&self, change: Slot) -> bool {
        let gate = self.gate(change.slot);
        gate.taken && gate.pins >= 1 && gate.seq == change.seq
    }

    /// Tells whether the slot is taken for this change.
    pub(crate) fn is_taken(&self, change: Slot) -> bool {
        let gate = self.gate(change.slot);
        gate.taken && gate.seq == change.seq
    }
}

/// Gives what is seen of a worker that has this row.
fn worker_state(world: &World, worker: u8, row: Row) -> WorkerState
    requires { worker < world.now.config.workers }
{
    let actor = match world.actor(worker) {
        Some(actor) => Some(actor.copy()),
        None => None,
    };
    WorkerState {
        actor,
        attempt: world.attempt(worker),
        row,
    }
}

/// Gives the quota of the last start, by the marks.
fn last_quota(marks: &[Mark]) -> Option<u8> {
    let mut last = None;
    for mark in marks {
        if let Mark::Restart { quota, .. } = mark {
            last = Some(*quota);
        }
    }
    last
}

/// Gives the entries in a slot.
fn entries(world: &World, slot: u8) -> [Entry; MAX_ENTRIES] {
    let mut entries = [Entry::default(); MAX_ENTRIES];
    if u16::from(slot) >= world.config().pool {
        return entries;
    }
    for index in 0..MAX_ENTRIES {
        let entry = index as u8;
        entries[index] = Entry {
            addr: u16::try_from(world.word(At::Addr { slot, entry })).unwrap_or(u16::MAX),
            expected: world.word(At::Expected { slot, entry }),
            new: world.word(At::New { slot, entry }),
        };
    }
    entries
}

//! What is known of a tenant's file, and of the workers around it, without a look into its room.
//!
//! Used by: `waiting_room`, `order`. All of it is a hint, which may be old or wrong, and then costs a sync more or a
//! short sleep. No contract rests on it. After a change run scripts/check-wakes and scripts/check-waits, whose model
//! (scripts/wait_parts/model.py) changes with it.
use std::sync::atomic::{AtomicBool, AtomicU64, AtomicUsize, Ordering};

/// How many slots a word of a set has.
const SLOTS_IN_WORD: u8 = 64;

/// A set of slots.
#[derive(Drop)]
struct SlotSet {
    first: AtomicU64,
    second: AtomicU64,
    third: AtomicU64,
    fourth: AtomicU64,
}

/// The hints of one file.
#[derive(Drop)]
pub(crate) struct Hints {
    /// How many workers wait in the room for a call.
    waiting: AtomicUsize,
    /// How many workers' calls others have made, whose requests they haven't taken back.
    served: AtomicUsize,
    /// The workers whose changes are prepared, and who haven't come to their next call: a bit for each.
    expected: AtomicU64,
    /// The workers who left others waiting, because they are to come back soon: a bit for each.
    owing: AtomicU64,
    /// The slots whose changes are sealed in the file, and not settled there.
    sealed: SlotSet,
    /// Whether a call that syncs is being made.
    is_syncing: AtomicBool,
}

impl SlotSet {
    fn new() -> SlotSet {
        SlotSet {
            first: AtomicU64::new(0),
            second: AtomicU64::new(0),
            third: AtomicU64::new(0),
            fourth: AtomicU64::new(0),
        }
    }

    /// The word with a slot's bit.
    fn word(&self, slot: u8) -> &AtomicU64 {
        match slot / SLOTS_IN_WORD {
            0 => &self.first,
            1 => &self.second,
            2 => &self.third,
            _ => &self.fourth,
        }
    }

    fn contains(&self, slot: u8) -> bool {
        self.word(slot).load(Ordering::SeqCst) & bit(slot) != 0
    }

    fn add(&self, slot: u8) {
        self.word(slot).fetch_or(bit(slot), Ordering::SeqCst);
    }

    fn clear(&self) {
        self.first.store(0, Ordering::SeqCst);
        self.second.store(0, Ordering::SeqCst);
        self.third.store(0, Ordering::SeqCst);
        self.fourth.store(0, Ordering::SeqCst);
    }
}

impl Hints {
    /// Makes the hints of a file that nobody uses.
    pub(crate) fn new() -> Hints {
        Hints {
            waiting: AtomicUsize::new(0),
            served: AtomicUsize::new(0),
            expected: AtomicU64::new(0),
            owing: AtomicU64::new(0),
            sealed: SlotSet::new(),
            is_syncing: AtomicBool::new(false),
        }
    }

    /// Notes how many workers wait, and how many were served.
    pub(crate) fn count(&self, waiting: usize, served: usize) {
        self.waiting.store(waiting, Ordering::SeqCst);
        self.served.store(served, Ordering::SeqCst);
    }

    /// Whether no worker waits for a call.
    pub(crate) fn is_nobody_waiting(&self) -> bool {
        self.waiting.load(Ordering::SeqCst) == 0
    }

    /// Whether each worker whose call another one made has its request back.
    pub(crate) fn is_nobody_served(&self) -> bool {
        self.served.load(Ordering::SeqCst) == 0
    }

    /// A worker is expected to come with its seal.
    pub(crate) fn expect(&self, worker: u8) {
        self.expected.fetch_or(bit(worker), Ordering::SeqCst);
    }

    /// Whether no worker is expected with its seal.
    pub(crate) fn expects_nobody(&self) -> bool {
        self.expected.load(Ordering::SeqCst) == 0
    }

    /// Expects nobody from now on.
    pub(crate) fn give_up(&self) {
        self.expected.store(0, Ordering::SeqCst);
    }

    /// A worker goes and leaves others waiting.
    pub(crate) fn owe(&self, worker: u8) {
        self.owing.fetch_or(bit(worker), Ordering::SeqCst);
    }

    /// A worker comes to its next call, or has its reply. Tells whether it was expected, or left others waiting.
    pub(crate) fn come(&self, worker: u8) -> bool {
        let own = bit(worker);
        if (self.expected.load(Ordering::SeqCst) | self.owing.load(Ordering::SeqCst)) & own == 0 {
            return false;
        }
        self.expected.fetch_and(!own, Ordering::SeqCst);
        self.owing.fetch_and(!own, Ordering::SeqCst);
        true
    }

    /// The change of a slot is sealed in the file.
    pub(crate) fn seal(&self, slot: u8) {
        self.sealed.add(slot);
    }

    /// Whether the change of a slot is sealed in the file, and not settled there.
    pub(crate) fn is_sealed(&self, slot: u8) -> bool {
        self.sealed.contains(slot)
    }

    /// All sealed changes are settled in the file.
    pub(crate) fn settle(&self) {
        self.sealed.clear();
    }

    /// Notes whether a call that syncs is being made.
    pub(crate) fn set_syncing(&self, is_syncing: bool) {
        self.is_syncing.store(is_syncing, Ordering::SeqCst);
    }

    /// Whether a call that syncs is being made.
    pub(crate) fn is_syncing(&self) -> bool {
        self.is_syncing.load(Ordering::SeqCst)
    }
}

/// The bit of a worker or a slot in a word.
fn bit(number: u8) -> u64 {
    1 << (number % SLOTS_IN_WORD)
}

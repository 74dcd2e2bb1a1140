//! Keeps the request that each slot was claimed for.
//!
//! A world of mw_simulator has one [`ClaimLog`]; `lines` and `workers` ask it. `specs/Claims` says what the log keeps
//! of a history (`Recalls`): change it with a field here.
ghost use Rattle.std.specs.Prelude.{◌≡◌, ℕ, OnOk};
ghost use Rattle.mw_actor.specs.ActorState.{ActorState};
ghost use Rattle.mw_world.specs.Definition.History.{History, no_history};
ghost use Rattle.mw_world.specs.Definition.LabelEffects.{with_label};
ghost use Rattle.mw_world_memory.specs.Claims.{HasRoomForLabel, Recalls, SameClaims, is_fault_decided_in, latest, request_in};

use mw_actor::Slot;
use mw_world::StepLabel;
use std::alloc::{AllocError, Global};

/// A slot was claimed for a request.
#[derive(Clone, Copy)]
struct Claim {
    /// The slot, with the sequence number of the claim.
    own: Slot,
    /// The request's number among its tenant's.
    request: u64,
}

/// What is known of each change since the last start: the request that its slot was claimed for, and whether
/// the reply [`Fault`] was decided for it.
///
/// [`Fault`]: mw_words::Reply::Fault
#[derive(Drop)]
pub struct ClaimLog {
    /// The claims, the latest last.
    claims: Vec<Claim>,
    /// The changes whose requests' FAULT was decided.
    fault_decided: Vec<Slot>,
}

impl ClaimLog {
    /// Makes a log without claims.
    pub fn new(alloc: Global) -> ClaimLog
        ensures { Recalls result no_history }
    {
        ClaimLog {
            claims: Vec::new(alloc),
            fault_decided: Vec::new(alloc),
        }
    }

    /// Makes room for one more label. If memory is out, the log is unchanged.
    pub fn reserve(&mut self) -> Result<(), AllocError>
        ensures room { OnOk result (HasRoomForLabel self.new) }
        ensures same { SameClaims self.old self.new }
        ensures keeps { (past : History) → Recalls self.old past → Recalls self.new past }
    {
        self.claims.reserve(1)?;
        self.fault_decided.reserve(1)?;
        Ok(())
    }

    /// Takes in the label of a worker's step, made for this request of its tenant. There is room for it, so it
    /// takes no memory.
    pub fn label(&mut self, label: StepLabel, request: u64)
        requires { HasRoomForLabel self.old }
        ensures { (worker : ℕ) (actor : ActorState) (past : History) → Recalls self.old past → Recalls self.new (with_label label worker actor request past) }
    {
        match label {
            StepLabel::Claimed(own) => self.claims.push_reserved(Claim { own, request }),
            StepLabel::GaveUp {
                own,
                says_fault: true,
            } => self.fault_decided.push_reserved(own),
            StepLabel::FailedToSeal(target) => self.fault_decided.push_reserved(target),
            _ => {}
        }
    }

    /// Returns the request that the slot was claimed for under this sequence number. 0: it wasn't.
    pub fn request(&self, change: Slot) -> u64
        ensures { result ≡ request_in self.now change.slot change.seq }
    {
        self.latest(change).map_or(0, |claim| claim.request)
    }

    // Returns the latest claim of the slot under this sequence number.
    fn latest(&self, change: Slot) -> Option<Claim>
        ensures { result ≡ latest self.now.claims.items change.slot change.seq }
    {
        self.claims
            .iter()
            .rev()
            .find(|claim| claim.own.slot == change.slot && claim.own.seq == change.seq)
            .copied()
    }

    /// Whether FAULT was decided for the change's request, by a seal that failed or by its worker when it gave
    /// up.
    pub fn is_fault_decided(&self, change: Slot) -> bool
        ensures { result ≡ is_fault_decided_in self.now change.slot change.seq }
    {
        self.fault_decided.iter().any(|fault_decided| fault_decided.slot == change.slot
            && fault_decided.seq == change.seq)
    }

    /// Forgets all that is known, as all stops.
    pub fn clear(&mut self)
        ensures { Recalls self.new no_history }
    {
        self.claims.clear();
        self.fault_decided.clear();
    }
}

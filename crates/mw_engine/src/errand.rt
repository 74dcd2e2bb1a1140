//! A request that is at a call on its tenant's file, which any thread may make: its pass and its machine.
//!
//! Used by: `errand_boxes`, `combiner`, `one_call`. `specs/Errands` says how a request comes back: change them together.
use crate::brand::EngineBrand;
use mw_actor::Actor;
use mw_core::Pass;
use mw_disk::Disk;
use mw_loan::Lasting;
use std::marker::PhantomData;

/// A request: its pass and its machine.
#[derive(Drop)]
pub(crate) struct Errand {
    pub(crate) pass: Pass,
    pub(crate) actor: Actor,
}

/// Relates a request that was left to what it has become: `GoesOn`.
pub(crate) struct ErrandLasts<J, D>(PhantomData<J>, PhantomData<D>);

impl<J: EngineBrand, D: Disk> Lasting<Errand> for ErrandLasts<J, D> {
    ghost use Rattle.mw_engine.specs.Errands.{GoesOn};

    ghost lasts = { GoesOn D.facts J.identity };
}

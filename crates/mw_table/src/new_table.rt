//! Makes the atomic words of a new table, and the passes that go with it.
//!
//! Used by: `at_start`, `after_run`. Change it with `specs/NewPasses`, `specs/TableAtStart`, `specs/NewFilePasses` and
//! `specs/Origins`.
ghost use Rattle.std.specs.Prelude.{◌≡◌, ◌<◌, All, [], IfOk, length, ℕ};
ghost use Rattle.mw_actor.specs.ActorState.{ActorState};
ghost use Rattle.atomic_table.specs.Table.{opening};
ghost use Rattle.mw_world.specs.Definition.State.{IsConfig, tenants_of};
ghost use Rattle.mw_rule.specs.Steps.{IsReadyFor};
ghost use Rattle.mw_rule.specs.Rule.{TableInvariant};
ghost use Rattle.mw_table.specs.NewPasses.{ArePassStates, AreInOrder, IsDealt, left_of};
ghost use Rattle.mw_table.specs.TableAtStart.{held_from};
ghost use Rattle.mw_table.specs.NewFilePasses.{AreOpened};
ghost use Rattle.mw_table.specs.Origins.{basis_of, begun_of, config_of, first_of, openings_of};

use crate::file_pass::FilePass;
use crate::origin::Origin;
use crate::shared::{Pass, Shared};
use atomic_table::{Seat, Table};
use mw_actor::Actor;
use mw_rule::{Deals, GivesFile, View};
use mw_world::Config;
use std::alloc::{AllocError, Global};

/// What a worker's new pass says of its worker.
#[derive(Clone, Copy)]
pub(crate) struct PassState {
    /// The number of the worker's next attempt to hold a word.
    pub(crate) attempt: u64,
    /// Whether the worker has no request.
    pub(crate) idle: bool,
}

impl Shared {
    /// Makes a table with these words, each at its index, and a pass for each worker, in their order. Also returns
    /// what is known beside the passes. The only error is that memory is out.
    pub(crate) fn open(
        alloc: Global,
        words: &[u64],
        origin: &Origin,
        config: &Config,
        pass_states: &[PassState],
    ) -> Result<(Shared, Vec<Pass>, Seat<Actor, View>), AllocError>
        requires made { IsConfig config.now }
        requires config { config.now ≡ config_of origin.now }
        requires tied { TableInvariant (config_of origin.now) (begun_of origin.now) (opening {S = ActorState} words.now [] (first_of origin.now)) }
        requires pass_states { ArePassStates (basis_of origin.now).worker_states config.now.workers pass_states.now }
        requires ready { (worker : ℕ) → worker < config.now.workers → IsReadyFor config.now ((basis_of origin.now).worker_states worker).actor }
        ensures table { IfOk result (λ made. made.0.table.shared.key ≡ origin.now) }
        ensures count { IfOk result (λ made. length made.1.items ≡ config.now.workers) }
        ensures passes { IfOk result (λ made. All (IsDealt made.0 (basis_of origin.now)) made.1.items) }
        ensures order { IfOk result (λ made. AreInOrder made.1.items) }
        ensures left_table { IfOk result (λ made. made.2.table_id ≡ made.0.table.shared.table_id) }
        ensures left { IfOk result (λ made. made.2.me ≡ (left_of (basis_of origin.now), [])) }
    {
        let (table, seat) = Table::of_words(alloc, words, origin)?;
        let shared = Shared {
            table,
            pool: config.pool,
        };
        let (passes, left) = shared.deal(alloc, seat, config.workers, pass_states)?;
        Ok((shared, passes, left))
    }

    /// Makes a pass for each worker. Also returns what is left, which is known beside the passes.
    fn deal(
        &self,
        alloc: Global,
        mut seat: Seat<Actor, View>,
        workers: u8,
        pass_states: &[PassState],
    ) -> Result<(Vec<Pass>, Seat<Actor, View>), AllocError>
        requires table { seat.table_id ≡ self.now.table.shared.table_id }
        requires first { seat.me ≡ (first_of self.now.table.shared.key, []) }
        requires workers { workers ≡ (config_of self.now.table.shared.key).workers }
        requires pass_states { ArePassStates (basis_of self.now.table.shared.key).worker_states workers pass_states.now }
        requires ready { (worker : ℕ) → worker < workers → IsReadyFor (config_of self.now.table.shared.key) ((basis_of self.now.table.shared.key).worker_states worker).actor }
        ensures count { IfOk result (λ dealt. length dealt.0.items ≡ workers) }
        ensures passes { IfOk result (λ dealt. All (IsDealt self.now (basis_of self.now.table.shared.key)) dealt.0.items) }
        ensures order { IfOk result (λ dealt. AreInOrder dealt.0.items) }
        ensures left_table { IfOk result (λ dealt. dealt.1.table_id ≡ self.now.table.shared.table_id) }
        ensures left { IfOk result (λ dealt. dealt.1.me ≡ (left_of (basis_of self.now.table.shared.key), [])) }
    {
        let mut passes = Vec::with_capacity(alloc, pass_states.len())?;
        for worker in 0..workers {
            let own = self.table.shared.split_seat::<Deals>(&mut seat);
            let pass_state = pass_states[usize::from(worker)];
            passes.push(Pass {
                seat: own,
                worker,
                attempt: pass_state.attempt,
                idle: pass_state.idle,
            })?;
        }
        Ok((passes, seat))
    }

    /// Makes a file pass for each tenant, in their order. The only error is that memory is out.
    pub(crate) fn give_file(
        &self,
        alloc: Global,
        mut seat: Seat<Actor, View>,
        tenants: u8,
    ) -> Result<Vec<FilePass>, AllocError>
        requires table { seat.table_id ≡ self.now.table.shared.table_id }
        requires left { seat.me ≡ (left_of (basis_of self.now.table.shared.key), []) }
        requires tenants { tenants ≡ tenants_of (config_of self.now.table.shared.key) }
        requires files { (basis_of self.now.table.shared.key).files ≡ held_from (config_of self.now.table.shared.key).pool (openings_of self.now.table.shared.key) 0 tenants }
        ensures { IfOk result (λ file_passes. AreOpened self.now (basis_of self.now.table.shared.key) file_passes.items) }
    {
        let mut file_passes = Vec::with_capacity(alloc, usize::from(tenants))?;
        for tenant in 0..tenants {
            let own = self.table.shared.split_seat::<GivesFile>(&mut seat);
            file_passes.push(FilePass { seat: own, tenant })?;
        }
        Ok(file_passes)
    }
}

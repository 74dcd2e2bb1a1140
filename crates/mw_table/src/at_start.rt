//! Makes a table (array of shared words) at a start, from what each tenant's file gave: `Shared::new`.
//!
//! Used by: mw_engine, mw_table_tests. Change it with `specs/NewPasses`, `specs/TableAtStart`, `specs/NewFilePasses`,
//! `specs/Origins` and `specs/Places`.
ghost use Rattle.std.specs.Prelude.{◌≡◌, ◌<◌, All, IfOk, length, slice_get};
ghost use Rattle.mw_look.specs.Places.{pack};
ghost use Rattle.mw_world.specs.Definition.Cells.{read};
ghost use Rattle.mw_world.specs.Definition.State.{IsConfig, IsStart, idle_worker_state, tenants_of};
ghost use Rattle.mw_rule.specs.Layout.{words_of};
ghost use Rattle.mw_rule.specs.Rule.{BitsMatch};
ghost use Rattle.mw_table.specs.NewPasses.{ArePassStates, AreInOrder, IsDealt};
ghost use Rattle.mw_table.specs.TableAtStart.{basis_of_start, door_given, start_given, value_given, word_given, world_given};
ghost use Rattle.mw_table.specs.NewFilePasses.{AreOpened};
ghost use Rattle.mw_table.specs.Origins.{basis_of};
ghost use Rattle.mw_table.specs.Places.{IsAt};

use crate::file_pass::FilePass;
use crate::new_table::PassState;
use crate::origin::{FileOpening, Origin};
use crate::places::{has_place, place_at};
use crate::shared::{Pass, Shared};
use mw_rule::index_of;
use mw_words::{At, Door, Gate};
use mw_world::Config;
use std::alloc::{AllocError, Global};
use std::snapshot::Snapshot;

impl Shared {
    /// Makes a table at a start from what each tenant's file gave, with a pass for each worker and a file pass for
    /// each tenant, both in order. A file pass knows of its file what the opening gave.
    ///
    /// There is one opening for each tenant, in the order of the tenants. An opened file has as many words as the
    /// tenant has, each a word's value. Each quota is 1 to [`MAX_QUOTA`] slots and at most the places of its file,
    /// and the pool has room for all quotas together.
    ///
    /// Each tenant has the words of its file. If the file didn't open, its words are 0 and its door has the fault. No
    /// worker has a request, and all passes are idle. The only error is that memory is out; then there is no table.
    ///
    /// [`MAX_QUOTA`]: mw_words::MAX_QUOTA
    pub fn new(
        alloc: Global,
        config: &Config,
        openings: &Vec<FileOpening>,
    ) -> Result<(Shared, Vec<Pass>, Vec<FilePass>), AllocError>
        requires config { IsConfig config.now }
        requires one_each { length openings.now.items ≡ tenants_of config.now }
        requires start { IsStart config.now (start_given config.now openings.now.items) }
        ensures table { IfOk result (λ made. basis_of made.0.table.shared.key ≡ basis_of_start config.now openings.now.items) }
        ensures count { IfOk result (λ made. length made.1.items ≡ config.now.workers) }
        ensures passes { IfOk result (λ made. All (IsDealt made.0 (basis_of_start config.now openings.now.items)) made.1.items) }
        ensures order { IfOk result (λ made. AreInOrder made.1.items) }
        ensures file_passes { IfOk result (λ made. AreOpened made.0 (basis_of_start config.now openings.now.items) made.2.items) }
    {
        let words = words_at_start(alloc, config, openings)?;
        let pass_states = idle_pass_states(alloc, config.workers)?;
        let origin = Origin::Start(Snapshot::of(config), Snapshot::of(openings));
        let (shared, passes, left) = Shared::open(alloc, &words, &origin, config, &pass_states)?;
        let file_passes = shared.give_file(alloc, left, config.tenants.len() as u8)?;
        Ok((shared, passes, file_passes))
    }
}

/// Returns what the passes of idle workers say of them.
fn idle_pass_states(alloc: Global, workers: u8) -> Result<Vec<PassState>, AllocError>
    ensures { IfOk result (λ pass_states. ArePassStates (λ worker. idle_worker_state) workers pass_states.items) }
{
    let idle = PassState {
        attempt: 0,
        idle: true,
    };
    vec![in alloc; idle; usize::from(workers)]
}

/// Returns the bits of the table's words, each at its index.
fn words_at_start(
    alloc: Global,
    config: &Config,
    openings: &[FileOpening],
) -> Result<Vec<u64>, AllocError>
    requires config { IsConfig config.now }
    requires one_each { length openings.now ≡ tenants_of config.now }
    ensures long { IfOk result (λ words. length words.items ≡ words_of config.now) }
    ensures ties { IfOk result (λ words. BitsMatch config.now (world_given config.now openings.now).cells words.items) }
{
    let past = At::Data {
        tenant: config.tenants.len() as u8,
        address: 0,
    };
    let count = index_of(config.pool, past);
    let mut words = Vec::with_capacity(alloc, count)?;
    for index in 0..count {
        words.push(bits_at(config, openings, index))?;
    }
    Ok(words)
}

/// Returns the bits at an index; 0 if there is no shared word.
fn bits_at(config: &Config, openings: &[FileOpening], index: usize) -> u64
    requires config { IsConfig config.now }
    requires one_each { length openings.now ≡ tenants_of config.now }
    requires index { index < words_of config.now }
    ensures { IsAt config.now (world_given config.now openings.now).cells index result }
{
    let at = place_at(config.pool, index);
    if has_place(config, at) {
        bits_of(config, openings, at)
    } else {
        0
    }
}

/// Returns the bits at a place.
fn bits_of(config: &Config, openings: &[FileOpening], at: At) -> u64
    requires config { IsConfig config.now }
    requires one_each { length openings.now ≡ tenants_of config.now }
    ensures { result ≡ pack at (read (world_given config.now openings.now).cells at) }
{
    match at {
        At::Door(tenant) => door_of(openings, tenant),
        At::Gate(_) => {
            let gate = Gate {
                taken: false,
                pins: 0,
                seq: config.seq,
            };
            gate.pack()
        }
        At::Data { tenant, address } => value_of(openings, tenant, address),
        At::Row(_)
        | At::Status(_)
        | At::Count(_)
        | At::Addr { .. }
        | At::Expected { .. }
        | At::New { .. } => 0,
    }
}

/// Returns the bits of a tenant's door: no slot is in use.
fn door_of(openings: &[FileOpening], tenant: u8) -> u64
    ensures { result ≡ door_given (slice_get openings.now tenant) }
{
    let fault = match openings.get(usize::from(tenant)) {
        Some(opening) => opening.words.is_none(),
        None => false,
    };
    let door = Door { used: 0, fault };
    door.pack()
}

/// Returns the bits of a tenant's word, which are its value.
fn value_of(openings: &[FileOpening], tenant: u8, address: u16) -> u64
    ensures { result ≡ value_given (slice_get openings.now tenant) address }
{
    match openings.get(usize::from(tenant)) {
        Some(opening) => word_of(&opening.words, address),
        None => 0,
    }
}

/// Returns a word of a file that opened; else 0.
fn word_of(words: &Option<Vec<u64>>, address: u16) -> u64
    ensures { result ≡ word_given words.now address }
{
    match words {
        Some(words) => match words.get(usize::from(address)) {
            Some(value) => *value,
            None => 0,
        },
        None => 0,
    }
}

//! Blobs below a number go, once all are synced.
ghost use Rattle.std.specs.Prelude.{◌∷◌, ◌++◌, map};
ghost use Rattle.store.specs.Disk.{Open, Remove, Sync, insert, numbers};
ghost use Rattle.rules.specs.Calls.{up_to};
ghost use Rattle.journal.specs.Steps.{Asks, TookAll};

use crate::fault::StoreFault;
use crate::steps;
use crate::sweep::{remove_below, sync_all};
use store::store::Store;

#[tactic(auto, using(crate::proofs::Taken::asks_then, crate::proofs::Taken::asks_early, crate::proofs::Taken::done_up, crate::proofs::Pruning::synced_numbers, crate::proofs::Pruning::asks_took))]
fn sync_and_remove<S: Store>(store: &mut S, b: u64) -> Result<(), StoreFault>
    ensures { Asks (map Sync (numbers (S.view store.old).disk.blobs) ++ map Remove (up_to b (numbers (S.view store.old).disk.blobs))) (S.view store.old) result (S.view store.new) }
{
    sync_all(store)?;
    remove_below(store, Some(b))
}

#[tactic(auto, using(crate::proofs::Taken::next, crate::proofs::Pruning::up_to_insert, crate::proofs::Pruning::asks_took))]
pub fn prune_to<S: Store>(store: &mut S, b: u64) -> Result<(), StoreFault>
    ensures { TookAll (Open b ∷ (map Sync (numbers (insert b (S.view store.old).disk.blobs)) ++ map Remove (up_to b (numbers (S.view store.old).disk.blobs)))) (S.view store.old) result (S.view store.new) }
{
    steps::open(store, b)?;
    sync_and_remove(store, b)
}

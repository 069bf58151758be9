//! A staged clear is carried out: every blob goes, the target's blob is made, and the keys say so.
ghost use Rattle.std.specs.Prelude.{◌∷◌};
ghost use Rattle.store.specs.Disk.{Open, DropKey, numbers};
ghost use Rattle.store.specs.declared.keys.Key.TheVariants.{Target};
ghost use Rattle.rules.specs.Rules.{blob_of, clearing};
ghost use Rattle.rules.specs.Rules.{persist as persisting};
ghost use Rattle.journal.specs.Configs.{ruled};
ghost use Rattle.journal.specs.Steps.{Asks, TookAll};

use crate::checkpoint::persist;
use crate::config::Config;
use crate::fault::StoreFault;
use crate::steps;
use crate::sweep::remove_below;
use store::keys::Key;
use store::store::Store;

fn begin_at<S: Store>(store: &mut S, config: Config, target: u64) -> Result<(), StoreFault>
    ensures { TookAll (Open (blob_of (ruled config) target) ∷ (DropKey Target ∷ persisting (ruled config) target target)) (S.view store.old) result (S.view store.new) }
{
    steps::open(store, config.blob_of(target))?;
    steps::drop_key(store, Key::Target)?;
    persist(store, config, target, target)
}

#[tactic(auto, using(crate::proofs::Taken::asks_then, crate::proofs::Taken::asks_early, crate::proofs::Pruning::up_to_all))]
pub fn complete_clear<S: Store>(
    store: &mut S,
    config: Config,
    target: u64,
) -> Result<(), StoreFault>
    ensures { Asks (clearing (ruled config) target (numbers (S.view store.old).disk.blobs)) (S.view store.old) result (S.view store.new) }
{
    remove_below(store, None)?;
    begin_at(store, config, target)
}

//! The keys that recovery reads before it trusts the blobs: the boundary, the clear target and the watermark.
ghost use Rattle.std.specs.Prelude.{[], ◌∷◌, if◌then◌else◌};
ghost use Rattle.store.specs.Disk.{Put, DropKey, SyncKeys};
ghost use Rattle.rules.specs.Rules.{aligned, is_above, staging};
ghost use Rattle.rules.specs.Rules.{persist as persisting};
ghost use Rattle.store.specs.declared.keys.Key.TheVariants.{Hint, Target, Watermark};
ghost use Rattle.journal.specs.Configs.{ruled};
ghost use Rattle.journal.specs.Steps.{Asks, Took, TookAll};

use crate::config::Config;
use crate::fault::StoreFault;
use crate::steps;
use store::keys::Key;
use store::store::Store;

// A boundary at a blob's first position needs no hint.
fn note_boundary<S: Store>(store: &mut S, config: Config, boundary: u64) -> Result<(), StoreFault>
    ensures { Took (if aligned (ruled config) boundary then DropKey Hint else Put Hint boundary) (S.view store.old) result (S.view store.new) }
{
    if config.is_aligned(boundary) {
        steps::drop_key(store, Key::Hint)
    } else {
        steps::put(store, Key::Hint, boundary)
    }
}

// Records the boundary and the watermark; the keys are always synced.
#[tactic(auto, using(crate::proofs::Taken::next, crate::proofs::Taken::one))]
pub(crate) fn persist<S: Store>(
    store: &mut S,
    config: Config,
    boundary: u64,
    watermark: u64,
) -> Result<(), StoreFault>
    ensures { TookAll (persisting (ruled config) boundary watermark) (S.view store.old) result (S.view store.new) }
{
    note_boundary(store, config, boundary)?;
    steps::put(store, Key::Watermark, watermark)?;
    steps::sync_keys(store)
}

// Lowers the watermark to a limit if it is above.
#[tactic(auto, using(crate::proofs::Taken::halts_looked))]
fn lower_watermark<S: Store>(store: &mut S, limit: u64) -> Result<(), StoreFault>
    ensures { Asks (if is_above (S.view store.old).disk.present.watermark limit then Put Watermark limit ∷ [] else []) (S.view store.old) result (S.view store.new) }
{
    if steps::look(store, Key::Watermark)?.is_some_and(|mark| mark > limit) {
        steps::put(store, Key::Watermark, limit)?;
    }
    Ok(())
}

fn intend<S: Store>(store: &mut S, target: u64) -> Result<(), StoreFault>
    ensures { TookAll (Put Target target ∷ (SyncKeys ∷ [])) (S.view store.old) result (S.view store.new) }
{
    steps::put(store, Key::Target, target)?;
    steps::sync_keys(store)
}

// Records the intent to clear to a target.
#[tactic(auto, using(crate::proofs::Taken::asks_early))]
pub(crate) fn stage_clear<S: Store>(store: &mut S, target: u64) -> Result<(), StoreFault>
    ensures { Asks (staging (S.view store.old).disk.present target) (S.view store.old) result (S.view store.new) }
{
    lower_watermark(store, target)?;
    intend(store, target)
}

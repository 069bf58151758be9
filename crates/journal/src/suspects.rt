//! The two highest blobs may end in records that were never whole: they are examined, and cut.
ghost use Rattle.std.specs.Prelude.{◌≡◌, true, Some};
ghost use Rattle.store.specs.Disk.{Blob, find};
ghost use Rattle.rules.specs.Open.{edge_at};
ghost use Rattle.journal.specs.Configs.{ruled};
ghost use Rattle.journal.specs.Recovery.{Examined, ExaminedTwo, Gives, cut_of};

use crate::fault::{Corrupt, Fault, StoreFault};
use crate::live::Live;
use crate::scope::Scope;
use crate::steps;
use store::store::Store;

// Where a suspect is to be cut: after its whole records. One that passes is not.
fn inspect<S: Store>(live: &Live<S>, scope: Scope, b: u64) -> Result<Option<u64>, StoreFault>
    ensures { (x : Blob) → find (S.view live.now.store.now).disk.blobs b ≡ Some x → Gives (cut_of (ruled scope.config) scope.start scope.ceiling (b, x)) result }
{
    let len = steps::len(live.store, b)?;
    let limit = scope.limit_of(b, len);
    let scanned = steps::scan(live.store, b, limit)?;
    let valid = scanned / scope.config.size * scope.config.size;
    let passes = valid == len || scope.holds(b, scanned, limit);
    Ok((!passes).then_some(valid))
}

// A suspect is passed over, refused or cut.
#[tactic(auto, using(crate::proofs::Examining::cut_none, crate::proofs::Examining::stood_below, crate::proofs::Examining::stood_passed))]
fn examine_suspect<S: Store>(store: &mut S, scope: Scope, floor: u64, b: u64) -> Result<(), Fault>
    requires { (S.view store.old).up ≡ true }
    ensures { (x : Blob) → find (S.view store.old).disk.blobs b ≡ Some x → Examined (ruled scope.config) scope.start scope.ceiling floor b x (S.view store.old) result (S.view store.new) }
{
    if b < scope.config.blob_of(floor) {
        return Ok(());
    }
    let owed = scope.acknowledged(floor, b)?;
    let Some(valid) = inspect(&Live { store }, scope, b)? else {
        return Ok(());
    };
    if valid < owed {
        return Err(Fault::Corruption(Corrupt::Acknowledged));
    }
    Ok(steps::truncate(store, b, valid)?)
}

/// The two highest blobs below the edge, the higher first.
pub fn examine_two<S: Store>(store: &mut S, scope: Scope, floor: u64) -> Result<(), Fault>
    requires { (S.view store.old).up ≡ true }
    ensures { ExaminedTwo (ruled scope.config) scope.start scope.ceiling floor (edge_at (ruled scope.config) scope.start scope.ceiling) (S.view store.old) result (S.view store.new) }
{
    let Some(high) = Live { store }.highest_below(scope.edge())? else {
        return Ok(());
    };
    examine_suspect(store, scope, floor, high)?;
    let Some(next) = Live { store }.highest_below(Some(high))? else {
        return Ok(());
    };
    examine_suspect(store, scope, floor, next)
}

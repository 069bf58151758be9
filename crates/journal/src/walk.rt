//! The walk over the blobs: how many records stand one after the other.
ghost use Rattle.std.specs.Prelude.{◌≡◌, ◌/◌, length, Some};
ghost use Rattle.store.specs.Disk.{Blob, find};
ghost use Rattle.rules.specs.Open.{below, edge_at, walk, walk_all};
ghost use Rattle.journal.specs.Configs.{ruled};
ghost use Rattle.journal.specs.Recovery.{Fills, Walks, rest};

use crate::fault::{Corrupt, Fault};
use crate::live::Live;
use crate::scope::Scope;
use crate::steps;
use store::store::Store;

/// The size with a blob's records added: the blob is full and the walk goes on, or it is short and ends it.
pub enum Filled {
    Full(u64),
    Short(u64),
}

fn fill<S: Store>(live: &Live<S>, scope: Scope, size: u64, b: u64) -> Result<Filled, Fault>
    ensures { (x : Blob) → find (S.view live.now.store.now).disk.blobs b ≡ Some x → Fills (ruled scope.config) scope.start size b (length x.bytes / scope.config.size) result }
{
    let records = scope.config.records;
    let len = steps::len(live.store, b)? / scope.config.size;
    let before = scope.start.saturating_sub(b.saturating_mul(records));
    let capacity = records.saturating_sub(before);
    if len > capacity {
        return Err(Fault::Corruption(Corrupt::Overfull));
    }
    let grown = size.checked_add(len).ok_or(Fault::OffsetOverflow)?;
    if len == capacity {
        Ok(Filled::Full(grown))
    } else {
        Ok(Filled::Short(grown))
    }
}

// From a blob on, up to the first that is missing or short: the size, and whether there are blobs beyond.
// The pair, and the loop that yields it by `break`, are as in the Rust journal of which this is a port.
fn walk_from<S: Store>(live: &Live<S>, scope: Scope, lowest: u64) -> Result<(u64, bool), Fault>
    ensures { Walks (walk (ruled scope.config) scope.start scope.start lowest (rest lowest (below (edge_at (ruled scope.config) scope.start scope.ceiling) (S.view live.now.store.now).disk.blobs))) result }
{
    let edge = scope.edge();
    let mut size = scope.start;
    let mut b = lowest;
    let (size, gap) = 'walk: loop {
        let Some(next) = live.next_below(b, edge)? else {
            break 'walk (size, false);
        };
        if next != b {
            break 'walk (size, true);
        }
        match fill(live, scope, size, b)? {
            Filled::Full(grown) => size = grown,
            Filled::Short(grown) => break 'walk (grown, live.more_after(b, edge)?),
        }
        let Some(above) = b.checked_add(1) else {
            break 'walk (size, false);
        };
        b = above;
    };
    Ok((size, gap))
}

/// The walk's answer is a pair, as in the Rust journal.
pub fn recover_by_walking_lengths<S: Store>(
    live: &Live<S>,
    scope: Scope,
) -> Result<(u64, bool), Fault>
    ensures { Walks (walk_all (ruled scope.config) scope.start (below (edge_at (ruled scope.config) scope.start scope.ceiling) (S.view live.now.store.now).disk.blobs)) result }
{
    let Some(lowest) = live.next_below(0, scope.edge())? else {
        return Ok((scope.start, false));
    };
    walk_from(live, scope, lowest)
}

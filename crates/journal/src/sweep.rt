//! Calls for each blob, lowest first. A synced blob is still listed and a removed one is not, so each goes on in its own way.
ghost use Rattle.std.specs.Prelude.{map};
ghost use Rattle.store.specs.Disk.{Remove, Sync, numbers};
ghost use Rattle.rules.specs.Calls.{up_to};
ghost use Rattle.journal.specs.Logs.{edge_of};
ghost use Rattle.journal.specs.Steps.{Asks};

use crate::fault::StoreFault;
use crate::steps;
use store::store::Store;

/// The next number is asked for by hand: each question may be refused, so it is no iterator.
pub fn sync_all<S: Store>(store: &mut S) -> Result<(), StoreFault>
    ensures { Asks (map Sync (numbers (S.view store.old).disk.blobs)) (S.view store.old) result (S.view store.new) }
{
    let mut at = 0;
    'blobs: while let Some(b) = steps::at_or_above(store, at)? {
        steps::sync(store, b)?;
        let Some(above) = b.checked_add(1) else {
            return Ok(());
        };
        at = above;
    }
    Ok(())
}

/// The blobs below an edge, or all where there is none.
pub fn remove_below<S: Store>(store: &mut S, edge: Option<u64>) -> Result<(), StoreFault>
    ensures { Asks (map Remove (up_to (edge_of edge) (numbers (S.view store.old).disk.blobs))) (S.view store.old) result (S.view store.new) }
{
    'blobs: while let Some(b) = steps::next_below(store, 0, edge)? {
        steps::remove(store, b)?;
    }
    Ok(())
}

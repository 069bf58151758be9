//! The calls of a store, whose refusals name the step.
ghost use Rattle.std.specs.Prelude.{◌≡◌, length, nat_lt};
ghost use Rattle.store.specs.Ask.{while_up, above_of, below_of, length_of, scan_of, key_of, read_of};
ghost use Rattle.store.specs.Disk.{at_or_above, Append, Open, Truncate, Sync, Remove, Put, DropKey, SyncKeys};
ghost use Rattle.rules.specs.Open.{below};
ghost use Rattle.journal.specs.Logs.{edge_of};
ghost use Rattle.journal.specs.Steps.{Asked, Took, Read, named};
ghost use Rattle.journal.specs.declared.fault.Step.TheVariants.{Listed, Measured, Scanned, Looked};

use crate::fault::{Step, StoreFault};
use store::cause::Cause;
use store::keys::Key;
use store::store::Store;

// A refusal names its step.
fn named<X>(step: Step, answer: Result<X, Cause>) -> Result<X, StoreFault>
    ensures { result ≡ named step answer }
{
    answer.map_err(|cause| StoreFault { cause, step })
}

pub fn put<S: Store>(store: &mut S, k: Key, v: u64) -> Result<(), StoreFault>
    ensures { Took (Put k v) (S.view store.old) result (S.view store.new) }
{
    named(Step::Put(k), store.put(k, v))
}

pub fn drop_key<S: Store>(store: &mut S, k: Key) -> Result<(), StoreFault>
    ensures { Took (DropKey k) (S.view store.old) result (S.view store.new) }
{
    named(Step::DropKey(k), store.drop_key(k))
}

pub fn sync_keys<S: Store>(store: &mut S) -> Result<(), StoreFault>
    ensures { Took SyncKeys (S.view store.old) result (S.view store.new) }
{
    named(Step::SyncKeys, store.sync_keys())
}

pub fn open<S: Store>(store: &mut S, b: u64) -> Result<(), StoreFault>
    ensures { Took (Open b) (S.view store.old) result (S.view store.new) }
{
    named(Step::Open(b), store.open(b))
}

pub fn sync<S: Store>(store: &mut S, b: u64) -> Result<(), StoreFault>
    ensures { Took (Sync b) (S.view store.old) result (S.view store.new) }
{
    named(Step::Sync(b), store.sync(b))
}

pub fn remove<S: Store>(store: &mut S, b: u64) -> Result<(), StoreFault>
    ensures { Took (Remove b) (S.view store.old) result (S.view store.new) }
{
    named(Step::Remove(b), store.remove(b))
}

pub fn at_or_above<S: Store>(store: &S, b: u64) -> Result<Option<u64>, StoreFault>
    ensures { Asked Listed (above_of (S.view store.now) b) result }
{
    named(Step::Listed, store.at_or_above(b))
}

fn is_below(edge: Option<u64>, b: u64) -> bool
    ensures { result ≡ nat_lt b (edge_of edge) }
{
    edge.is_none_or(|edge| b < edge)
}

/// The lowest number from b on, if it is below an edge.
pub fn next_below<S: Store>(store: &S, b: u64, edge: Option<u64>) -> Result<Option<u64>, StoreFault>
    ensures { Asked Listed (while_up (S.view store.now) (Ok (at_or_above b (below (edge_of edge) (S.view store.now).disk.blobs)))) result }
{
    let found = at_or_above(store, b)?;
    Ok(found.filter(|found| is_below(edge, *found)))
}

pub fn look<S: Store>(store: &S, k: Key) -> Result<Option<u64>, StoreFault>
    ensures { Asked (Looked k) (key_of (S.view store.now) k) result }
{
    named(Step::Looked(k), store.key(k))
}

/// As many bytes as out has, from `at` on.
pub fn read<S: Store>(store: &S, b: u64, at: u64, out: &mut [u8]) -> Result<(), StoreFault>
    ensures { Read b (read_of (S.view store.now) b at (length out.old)) result out.new }
{
    named(Step::Copied(b), store.read(b, at, out))
}

pub fn at_or_below<S: Store>(store: &S, b: u64) -> Result<Option<u64>, StoreFault>
    ensures { Asked Listed (below_of (S.view store.now) b) result }
{
    named(Step::Listed, store.at_or_below(b))
}

pub fn len<S: Store>(store: &S, b: u64) -> Result<u64, StoreFault>
    ensures { Asked (Measured b) (length_of (S.view store.now) b) result }
{
    named(Step::Measured(b), store.len(b))
}

pub fn scan<S: Store>(store: &S, b: u64, limit: u64) -> Result<u64, StoreFault>
    ensures { Asked (Scanned b) (scan_of (S.view store.now) b limit) result }
{
    named(Step::Scanned(b), store.scan(b, limit))
}

pub fn truncate<S: Store>(store: &mut S, b: u64, n: u64) -> Result<(), StoreFault>
    ensures { Took (Truncate b n) (S.view store.old) result (S.view store.new) }
{
    named(Step::Truncate(b), store.truncate(b, n))
}

pub fn append<S: Store>(store: &mut S, b: u64, bytes: &[u8]) -> Result<(), StoreFault>
    ensures { Took (Append b bytes.now) (S.view store.old) result (S.view store.new) }
{
    named(Step::Append(b), store.append(b, bytes))
}

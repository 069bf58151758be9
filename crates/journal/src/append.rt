//! One record is appended.
ghost use Rattle.std.specs.Prelude.{◌≡◌, ◌+◌, ◌<◌, [], ◌∷◌, ◌++◌, if◌then◌else◌};
ghost use Rattle.store.specs.Disk.{Sync, numbers};
ghost use Rattle.rules.specs.Rules.{MAX, aligned, blob_of};
ghost use Rattle.rules.specs.Calls.{has, open_if};
ghost use Rattle.journal.specs.Configs.{ruled};
ghost use Rattle.journal.specs.Steps.{Asks, TookAll};
ghost use Rattle.journal.specs.Trimming.{Finds, adding};

use crate::config::Config;
use crate::fault::StoreFault;
use crate::steps;
use record::record::Record;
use std::marker::PhantomData;
use store::store::Store;

/// Where a record of the kind K goes: there is a position, and the log is one of records as large.
#[derive(Drop)]
pub struct Tail<K: Record> {
    pub config: Config,
    pub end: u64,
    pub kind: PhantomData<K>,
    ghost room: { end < MAX },
    ghost sized: { K.Record.size ≡ config.size },
}

#[tactic(auto, using(crate::proofs::Listing::has_is, crate::proofs::Walking::up_all, crate::proofs::Taken::answers))]
fn has_blob<S: Store>(store: &S, b: u64) -> Result<bool, StoreFault>
    ensures { Finds (has b (numbers (S.view store.now).disk.blobs)) (S.view store.now) result }
{
    Ok(steps::at_or_above(store, b)? == Some(b))
}

// A missing blob is made.
fn ensure_blob<S: Store>(store: &mut S, b: u64) -> Result<(), StoreFault>
    ensures { Asks (open_if (has b (numbers (S.view store.old).disk.blobs)) b) (S.view store.old) result (S.view store.new) }
{
    if has_blob(store, b)? {
        return Ok(());
    }
    steps::open(store, b)
}

impl<K: Record> Tail<K> {
    fn blob(&self) -> u64
        ensures { result ≡ blob_of (ruled self.now.config) self.now.end }
    {
        self.config.blob_of(self.end)
    }

    // A blob that is full is synced.
    fn seal<S: Store>(&self, store: &mut S) -> Result<(), StoreFault>
        ensures { TookAll (if aligned (ruled self.now.config) (self.now.end + 1) then Sync (blob_of (ruled self.now.config) self.now.end) ∷ [] else []) (S.view store.old) result (S.view store.new) }
    {
        if !self.config.is_aligned(self.end + 1) {
            return Ok(());
        }
        steps::sync(store, self.blob())
    }

    fn add_bytes<S: Store>(&self, store: &mut S, bytes: &[u8]) -> Result<(), StoreFault>
        ensures { TookAll (adding (ruled self.now.config) self.now.end bytes.now) (S.view store.old) result (S.view store.new) }
    {
        steps::append(store, self.blob(), bytes)?;
        self.seal(store)
    }

    fn write_bytes<S: Store>(&self, store: &mut S, bytes: &[u8]) -> Result<(), StoreFault>
        ensures { Asks (open_if (has (blob_of (ruled self.now.config) self.now.end) (numbers (S.view store.old).disk.blobs)) (blob_of (ruled self.now.config) self.now.end) ++ adding (ruled self.now.config) self.now.end bytes.now) (S.view store.old) result (S.view store.new) }
    {
        ensure_blob(store, self.blob())?;
        self.add_bytes(store, bytes)
    }

    /// Through bytes on the stack, as many as a record has, since the journal uses no heap.
    pub fn write<S: Store>(&self, store: &mut S, item: K) -> Result<(), StoreFault>
        ensures { Asks (open_if (has (blob_of (ruled self.now.config) self.now.end) (numbers (S.view store.old).disk.blobs)) (blob_of (ruled self.now.config) self.now.end) ++ adding (ruled self.now.config) self.now.end (K.encode item)) (S.view store.old) result (S.view store.new) }
    {
        let mut buffer = [0u8; 4096];
        let bytes = &mut buffer[..self.config.size as usize];
        item.write(bytes).unwrap();
        self.write_bytes(store, bytes)
    }
}

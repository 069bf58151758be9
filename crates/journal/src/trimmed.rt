//! The calls of a trimmed log.
ghost use Rattle.std.specs.Prelude.{◌≡◌, ◌++◌, map, Err, ◌≢◌};
ghost use Rattle.store.specs.Disk.{Sync, numbers};
ghost use Rattle.rules.specs.Rules.{persist as persisting};
ghost use Rattle.journal.specs.Configs.{ruled};
ghost use Rattle.journal.specs.Steps.{Asks};
ghost use Rattle.journal.specs.Trimming.{Appended, Pruned, Synced};
ghost use Rattle.journal.specs.declared.fault.Fault.TheVariants.{BadConfig};
ghost use Rattle.journal.specs.declared.log.Stop.TheVariants.{Refused};

use crate::append::Tail;
use crate::checkpoint::persist;
use crate::config::Config;
use crate::fault::{Fault, StoreFault};
use crate::log::{Held, Lost, Stop, Trimmed};
use crate::prune::prune_to;
use crate::sweep::sync_all;
use record::record::Record;
use std::marker::PhantomData;
use store::store::Store;

#[tactic(auto, using(crate::proofs::Taken::asks_then, crate::proofs::Taken::asks_early))]
fn sync_and_persist<S: Store>(
    store: &mut S,
    config: Config,
    start: u64,
    end: u64,
) -> Result<(), StoreFault>
    ensures { Asks (map Sync (numbers (S.view store.old).disk.blobs) ++ persisting (ruled config) start end) (S.view store.old) result (S.view store.new) }
{
    sync_all(store)?;
    persist(store, config, start, end)
}

impl<S: Store, K> Trimmed<S, K> {
    /// All its records are acknowledged.
    pub fn sync(mut self) -> Result<Trimmed<S, K>, Lost<S>>
        ensures { Synced S.view self result }
    {
        let Held { start, end, .. } = self.held;
        // No `?`: the fault goes back with the store, which `self` holds.
        match sync_and_persist(&mut self.store, self.config, start, end) {
            Ok(()) => {
                self.held = Held {
                    mark: end,
                    edge: None,
                    ..self.held
                };
                Ok(self)
            }
            Err(e) => Err(self.ended_by(e)),
        }
    }

    /// Blobs below the one of a position go. Beside the log, whether any position went: an enum would only have to be
    /// taken apart for the log again.
    pub fn prune(mut self, position: u64) -> Result<(Trimmed<S, K>, bool), Lost<S>>
        ensures { Pruned S.view self position result }
    {
        let b = self.config.blob_of(position.min(self.held.end));
        let first = b * self.config.records;
        if first <= self.held.start {
            return Ok((self, false));
        }
        // No `?`: the fault goes back with the store, which `self` holds.
        match prune_to(&mut self.store, b) {
            Ok(()) => {
                self.held = Held {
                    start: first,
                    edge: None,
                    ..self.held
                };
                Ok((self, true))
            }
            Err(e) => Err(self.ended_by(e)),
        }
    }
}

impl<S: Store, K: Record> Trimmed<S, K> {
    /// One record after the last. A log that was configured for records of another size refuses it.
    pub fn append(mut self, item: K) -> Result<Trimmed<S, K>, Stop<Trimmed<S, K>, S>>
        ensures sized { K.Record.size ≡ self.config.size → Appended S.view self (K.encode item) result }
        ensures other { (K.Record.size ≢ self.config.size) → result ≡ Err (Refused self BadConfig) }
    {
        if K::size() as u64 != self.config.size {
            return Err(Stop::Refused(self, Fault::BadConfig));
        }
        let end = self.held.end;
        if end == u64::MAX {
            return Err(Stop::Refused(self, Fault::SizeOverflow));
        }
        let tail = Tail {
            config: self.config,
            end,
            kind: PhantomData,
        };
        // No `?`: the fault goes back with the store, which `self` holds.
        match tail.write(&mut self.store, item) {
            Ok(()) => {
                self.held = Held {
                    end: end + 1,
                    edge: None,
                    ..self.held
                };
                Ok(self)
            }
            Err(e) => Err(self.ended_by(e).into()),
        }
    }
}

//! A clear is staged, and then completed or left.
ghost use Rattle.std.specs.Prelude.{◌≡◌};
ghost use Rattle.journal.specs.Clears.{Staged, Completed};

use crate::checkpoint;
use crate::clear::complete_clear;
use crate::config::Config;
use crate::fault::Fault;
use crate::log::{Held, Log, Lost, Stop, Trimmed};
use std::marker::PhantomData;
use store::store::Store;

/// Beside the store whose keys tell the target. It is not Drop: it is spent by `complete` or by `leave`.
pub struct StagedClear<K> {
    pub(crate) target: u64,
    pub(crate) config: Config,
    pub(crate) kind: PhantomData<K>,
}

impl<P, S: Store, K> Log<P, S, K> {
    /// The log ends here: what is left is the store, with the clear staged in its keys.
    pub fn stage_clear(mut self, target: u64) -> Result<(S, StagedClear<K>), Stop<Log<P, S, K>, S>>
        ensures { Staged S.view self.config target (S.view self.store) self result }
    {
        if target == u64::MAX {
            return Err(Stop::Refused(self, Fault::SizeOverflow));
        }
        // No `?`: the fault goes back with the store, which `self` holds.
        match checkpoint::stage_clear(&mut self.store, target) {
            Ok(()) => {
                let clear = StagedClear {
                    target,
                    config: self.config,
                    kind: self.kind,
                };
                Ok((self.into_store(), clear))
            }
            Err(e) => Err(self.ended_by(e).into()),
        }
    }
}

impl<K> StagedClear<K> {
    /// Carries the clear out. A refusal hands the store back: so a match, and no `?`.
    pub fn complete<S: Store>(self, mut store: S) -> Result<Trimmed<S, K>, Lost<S>>
        ensures { Completed S.view self (S.view store) result }
    {
        let StagedClear {
            target,
            config,
            kind,
        } = self;
        match complete_clear(&mut store, config, target) {
            Ok(()) => Ok(Log {
                store,
                config,
                held: Held::empty_at(target),
                state: PhantomData,
                kind,
            }),
            Err(e) => Err(Lost {
                store,
                fault: Fault::Store(e),
            }),
        }
    }

    /// The clear stays staged: the next open completes it.
    pub fn leave<S>(self, store: S) -> S
        ensures { result ≡ store }
    {
        let StagedClear {
            target: _,
            config: _,
            kind: _,
        } = self;
        store
    }
}

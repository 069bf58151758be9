//! Opening a store's log, up to a ceiling if there is one.
ghost use Rattle.journal.specs.Opens.{Opens};

use crate::config::Config;
use crate::log::{Log, Lost, Opened};
use crate::recover::recover_all;
use record::record::Record;
use std::marker::PhantomData;
use store::store::Store;

impl<S: Store, K: Record> Opened<S, K> {
    /// A refusal hands the store back, with what was repaired of it: so a match, and no `?`.
    pub fn open(mut store: S, config: Config, ceiling: Option<u64>) -> Result<Opened<S, K>, Lost<S>>
        ensures { Opens S.view config ceiling (S.view store) result }
    {
        match recover_all(&mut store, config, ceiling) {
            Ok(held) => Ok(Log {
                store,
                config,
                held,
                state: PhantomData,
                kind: PhantomData,
            }),
            Err(fault) => Err(Lost { store, fault }),
        }
    }
}

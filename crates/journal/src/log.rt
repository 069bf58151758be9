//! The log of a store, and how a call of it ends.
ghost use Rattle.std.specs.Prelude.{◌≡◌};
ghost use Rattle.journal.specs.declared.fault.Fault.TheVariants.{Store as InStore};
ghost use Rattle.journal.specs.declared.log.Stop.TheVariants.{Ended};
ghost use Rattle.journal.specs.Logs.{empty_at, held_of};

use crate::config::Config;
use crate::fault::{Fault, StoreFault};
use std::marker::PhantomData;

/// Positions from start to end, of which those below mark are acknowledged. Blobs from edge on are set aside.
/// A log that was opened under a ceiling stays bounded when none is set aside any more: edge does not tell it.
#[derive(Clone, Copy)]
pub struct Held {
    pub(crate) start: u64,
    pub(crate) end: u64,
    pub(crate) mark: u64,
    pub(crate) bounded: bool,
    pub(crate) edge: Option<u64>,
}

impl Held {
    // No positions, and the one that comes first.
    pub(crate) fn empty_at(position: u64) -> Held
        ensures { held_of result ≡ empty_at position }
    {
        Held {
            start: position,
            end: position,
            mark: position,
            bounded: false,
            edge: None,
        }
    }
}

/// The state of a log as it was found: its store may have more than the log has positions for.
pub struct Found;

/// The state of a log with nothing above its end.
pub struct Clean;

/// Records of the kind K in a store. The state P says what may be called.
pub struct Log<P, S, K> {
    pub(crate) store: S,
    pub(crate) config: Config,
    pub(crate) held: Held,
    pub(crate) state: PhantomData<P>,
    pub(crate) kind: PhantomData<K>,
}

/// Takes no records: a trimmed log does.
pub type Opened<S, K> = Log<Found, S, K>;

pub type Trimmed<S, K> = Log<Clean, S, K>;

/// A refused call hands the log back as it was, and one that ends it the store.
pub enum Stop<L, S> {
    Refused(L, Fault),
    Ended(S, Fault),
}

/// The store of a log that has ended.
pub struct Lost<S> {
    pub(crate) store: S,
    pub(crate) fault: Fault,
}

impl<S> Lost<S> {
    pub fn into_parts(self) -> (S, Fault)
        ensures { (result.0 ≡ self.store) × (result.1 ≡ self.fault) }
    {
        let Lost { store, fault } = self;
        (store, fault)
    }
}

impl<L, S> From<Lost<S>> for Stop<L, S> {
    ghost from_gives = { λ e r. r ≡ Ended e.store e.fault };

    fn from(e: Lost<S>) -> Stop<L, S> {
        let Lost { store, fault } = e;
        Stop::Ended(store, fault)
    }
}

impl<P, S, K> Log<P, S, K> {
    /// Its first position, and the one after its last.
    pub fn span(&self) -> (u64, u64)
        ensures { (result.0 ≡ self.now.held.start) × (result.1 ≡ self.now.held.end) }
    {
        (self.held.start, self.held.end)
    }

    /// The log is let go, and its store handed back.
    pub fn into_store(self) -> S
        ensures { result ≡ self.store }
    {
        let Log {
            store,
            config: _,
            held: _,
            state: _,
            kind: _,
        } = self;
        store
    }

    // A log ends by what its store refused.
    pub(crate) fn ended_by(self, e: StoreFault) -> Lost<S>
        ensures { result ≡ record { store = self.store; fault = InStore e } }
    {
        Lost {
            store: self.into_store(),
            fault: Fault::Store(e),
        }
    }
}

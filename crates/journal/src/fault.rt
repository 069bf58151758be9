//! What a call of the log is refused for, or stopped by.
ghost use Rattle.std.specs.Prelude.{◌≡◌};
ghost use Rattle.journal.specs.Faults.{number_of};
ghost use Rattle.journal.specs.declared.fault.Fault.TheVariants.{Store as InStore};

use store::cause::Cause;
use store::keys::Key;

/// The store call that was refused, with its blob or its key.
#[derive(Clone, Copy, PartialEq, Eq, Debug)]
pub enum Step {
    Open(u64),
    Append(u64),
    Truncate(u64),
    Sync(u64),
    Remove(u64),
    Put(Key),
    DropKey(Key),
    SyncKeys,
    Listed,
    Measured(u64),
    Scanned(u64),
    Copied(u64),
    Looked(Key),
}

#[derive(Clone, Copy, PartialEq, Eq, Debug)]
pub struct StoreFault {
    pub cause: Cause,
    pub step: Step,
}

/// How a store contradicts itself.
#[derive(Clone, Copy, PartialEq, Eq, Debug)]
pub enum Corrupt {
    HintNewer,
    HintWithoutBlobs,
    Acknowledged,
    Overfull,
    Watermark,
    Gap,
}

#[derive(Clone, Copy, PartialEq, Eq, Debug)]
pub enum Fault {
    BadConfig,
    ItemPruned(u64),
    ItemOutOfRange(u64),
    SizeOverflow,
    OffsetOverflow,
    EmptyAppend,
    Corruption(Corrupt),
    Layout,
    NotRising(u64),
    NoSpace(u64),
    Codec(u64),
    Store(StoreFault),
}

// The number that a fault is known by.
impl From<Fault> for u8 {
    ghost from_gives = { λ f n. n ≡ number_of f };

    fn from(f: Fault) -> u8 {
        match f {
            Fault::BadConfig => 1,
            Fault::ItemPruned(_) => 2,
            Fault::ItemOutOfRange(_) => 3,
            Fault::SizeOverflow => 4,
            Fault::OffsetOverflow => 5,
            Fault::EmptyAppend => 6,
            Fault::Corruption(_) => 7,
            Fault::Layout => 8,
            Fault::NotRising(_) => 9,
            Fault::NoSpace(_) => 10,
            Fault::Codec(_) => 11,
            Fault::Store(_) => 12,
        }
    }
}

impl From<StoreFault> for Fault {
    ghost from_gives = { λ e r. r ≡ InStore e };

    fn from(e: StoreFault) -> Fault {
        Fault::Store(e)
    }
}

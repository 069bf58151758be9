//! Why a run is not recorded or not read back.
ghost use Rattle.std.specs.Prelude.{◌≡◌};
ghost use Rattle.runs.specs.declared.fault.RunFault.TheVariants.{Store, NoMemory};

use std::alloc::AllocFailed;
use store::cause::Cause;

/// What stopped, an append or the sync after it, and why.
#[derive(Clone, Copy, PartialEq, Eq, Debug)]
pub enum Halt {
    Append(Cause),
    Sync(Cause),
}

/// Where a recording stopped: at which scan.
#[derive(Clone, Copy, PartialEq, Eq, Debug)]
pub struct Stopped {
    pub at: usize,
    pub halt: Halt,
}

#[derive(Clone, Copy, PartialEq, Eq, Debug)]
pub enum RunFault {
    Store(Cause),
    NoMemory,
}

impl From<Cause> for RunFault {
    ghost from_gives = { λ c r. r ≡ Store c };

    fn from(cause: Cause) -> RunFault {
        RunFault::Store(cause)
    }
}

impl<T: Drop> From<AllocFailed<T>> for RunFault {
    ghost from_gives = { λ _ r. r ≡ NoMemory };

    fn from(_failed: AllocFailed<T>) -> RunFault {
        RunFault::NoMemory
    }
}

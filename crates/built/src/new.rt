//! A memory checked, a new store on it, and the memory handed back.
ghost use Rattle.std.specs.Prelude.{◌≡◌, [], MatchResult};
ghost use Rattle.store.specs.Disk.{New};
ghost use Rattle.catalog.specs.Seen.{calls_left};
ghost use Rattle.built.specs.Seen.{seen};

use crate::built::Built;
use crate::medium::Medium;
use catalog::catalog::Catalog;
use store::config::BadConfig;

impl<M: Medium> Built<M> {
    /// Tells whether a memory is fit. It is lent as the Vec that a store will own.
    pub fn check(memory: &Vec<u8>) -> Result<(), BadConfig>
        ensures { MatchResult result (λ _. M.layout.Fit memory.now) (λ _. M.layout.Fit memory.now → ⊥) }
    {
        M::check(memory)
    }

    /// A new store, of which `calls` writing calls succeed before the power goes. Any memory is taken, fit or not.
    pub fn new(memory: Vec<u8>, calls: u64) -> Built<M>
        ensures fresh { New (seen result) }
        ensures laid { M.layout.Laid memory result.medium }
        ensures room { (seen result).room ≡ M.layout.room result.medium [] }
        ensures calls { calls_left result.catalog ≡ calls }
    {
        let (medium, table) = M::lay_out(memory);
        let catalog = Catalog::new(table, calls);
        Built { medium, catalog }
    }

    pub fn into_memory(self) -> Vec<u8>
        ensures { result ≡ M.layout.memory self.medium }
    {
        self.medium.into_memory()
    }
}

//! A store that is up, to be asked what it holds.
ghost use Rattle.std.specs.Prelude.{◌≡◌, true};
ghost use Rattle.store.specs.Disk.{at_or_above};
ghost use Rattle.rules.specs.Open.{below};
ghost use Rattle.journal.specs.Logs.{edge_of};
ghost use Rattle.journal.specs.Recovery.{Gives, highest, is_more};

use crate::fault::StoreFault;
use crate::steps;
use store::store::Store;

/// It answers each question, since no question brings it down.
#[derive(Drop)]
pub struct Live<'a, S: Store> {
    pub store: &'a S,
    ghost up: { (S.view store.now).up ≡ true },
}

impl<S: Store> Live<'_, S> {
    /// The lowest blob from b on that is not set aside.
    pub fn next_below(&self, b: u64, edge: Option<u64>) -> Result<Option<u64>, StoreFault>
        ensures { Gives (at_or_above b (below (edge_of edge) (S.view self.now.store.now).disk.blobs)) result }
    {
        steps::next_below(self.store, b, edge)
    }

    /// Whether there are blobs above b that are not set aside.
    #[tactic(auto, using(crate::proofs::Walking::more_is, crate::proofs::Walking::none_more))]
    pub fn more_after(&self, b: u64, edge: Option<u64>) -> Result<bool, StoreFault>
        ensures { Gives (is_more b (below (edge_of edge) (S.view self.now.store.now).disk.blobs)) result }
    {
        let Some(above) = b.checked_add(1) else {
            return Ok(false);
        };
        Ok(self.next_below(above, edge)?.is_some())
    }

    /// The highest blob below an edge.
    #[tactic(auto, using(crate::proofs::Highest::below_last, crate::proofs::Highest::below_none, crate::proofs::Walking::gives))]
    pub fn highest_below(&self, edge: Option<u64>) -> Result<Option<u64>, StoreFault>
        ensures { Gives (highest (below (edge_of edge) (S.view self.now.store.now).disk.blobs)) result }
    {
        let Some(edge) = edge else {
            return steps::at_or_below(self.store, u64::MAX);
        };
        let Some(top) = edge.checked_sub(1) else {
            return Ok(None);
        };
        steps::at_or_below(self.store, top)
    }
}

//! A chain that takes sectors from the free chain, or gives them back.
ghost use Rattle.std.specs.Prelude.{◌≡◌, ℕ, ◌+◌, ◌*◌, ◌≤◌, take};
ghost use Rattle.sectors.specs.Sectors.{payload};
ghost use Rattle.sectors.specs.Chains.{list, joint, Both, Moved};

use crate::chain::Chain;
use crate::link::{join, split};

// A memory and its free chain are two fields of a store, lent side by side: a struct of two loans would be made and taken
// apart at each call.

/// Takes k sectors from the front of the free chain.
pub fn lengthen(memory: &mut [u8], free: &mut Chain, chain: Chain, k: usize) -> Chain
    requires { Both memory.old chain free.old × (k ≤ free.old.count) }
    ensures moved { Moved memory.old chain free.old memory.new result free.new }
    ensures count { result.count ≡ chain.count + k }
    ensures front { take chain.count (list memory.new result) ≡ list memory.old chain }
    ensures payloads { (q : ℕ) → payload memory.new q ≡ payload memory.old q }
{
    let (taken, left) = split(memory, *free, k);
    *free = left;
    join(memory, chain, taken)
}

/// Keeps the first k sectors of a chain, and gives the others back.
pub fn keep(memory: &mut [u8], free: &mut Chain, chain: Chain, k: usize) -> Chain
    requires { Both memory.old chain free.old × (k ≤ chain.count) }
    ensures moved { Moved memory.old chain free.old memory.new result free.new }
    ensures count { result.count ≡ k }
    ensures bytes { joint memory.new result ≡ take (60 * k) (joint memory.old chain) }
{
    let (kept, rest) = split(memory, chain, k);
    *free = join(memory, rest, *free);
    kept
}

//! A memory whose sectors are all free.
ghost use Rattle.std.specs.Prelude.{◌≡◌, ℕ, ◌-◌, ◌*◌, ◌≤◌, length};
ghost use Rattle.store.specs.Occurs.{occurs};
ghost use Rattle.sectors.specs.Sectors.{once};
ghost use Rattle.sectors.specs.Chains.{list, Stands, Relinked};

use crate::chain::Chain;
use crate::sector::set_next;

/// One chain of the sectors 1 to n − 1.
pub fn link_all(memory: &mut [u8], n: usize) -> Chain
    requires { (64 * n ≤ length memory.old) × (n ≤ 65536) }
    ensures stands { Stands memory.new result }
    ensures all { (p : ℕ) → occurs p (list memory.new result) ≡ once n p }
    ensures count { result.count ≡ n - 1 }
    ensures relinked { Relinked memory.old (list memory.new result) memory.new }
{
    if n < 2 {
        return Chain::NONE;
    }
    for s in 1..n - 1 {
        set_next(memory, s, s + 1);
    }
    set_next(memory, n - 1, 0);
    Chain {
        first: 1,
        last: n - 1,
        count: n - 1,
    }
}

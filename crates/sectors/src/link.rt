//! Chains joined and cut.
ghost use Rattle.std.specs.Prelude.{◌≡◌, ◌≤◌};
ghost use Rattle.sectors.specs.Sectors.{next_of, sectors, after, Apart};
ghost use Rattle.sectors.specs.Chains.{list, Both, Stands, Joined, Split};

use crate::chain::Chain;
use crate::sector::{parts, set_next};

/// The sector that k steps lead to.
pub fn walk(memory: &[u8], first: usize, k: usize) -> usize
    requires { Apart memory.now (sectors k (next_of memory.now) first) }
    ensures { result ≡ after k (next_of memory.now) first }
{
    let mut s = first;
    for _i in 0..k {
        let (next, _) = parts(memory, s);
        s = next;
    }
    s
}

/// One chain after another.
pub fn join(memory: &mut [u8], a: Chain, b: Chain) -> Chain
    requires { Both memory.old a b }
    ensures { Joined memory.old a b memory.new result }
{
    if a.count == 0 {
        return b;
    }
    if b.count == 0 {
        return a;
    }
    set_next(memory, a.last, b.first);
    Chain {
        first: a.first,
        last: b.last,
        count: a.count + b.count,
    }
}

/// A chain cut after its first k sectors.
pub fn split(memory: &mut [u8], c: Chain, k: usize) -> (Chain, Chain)
    requires { Stands memory.old c × Apart memory.old (list memory.old c) × (k ≤ c.count) }
    ensures { Split memory.old c k memory.new result.0 result.1 }
{
    if k == 0 {
        return (Chain::NONE, c);
    }
    if k == c.count {
        return (c, Chain::NONE);
    }
    let last = walk(memory, c.first, k - 1);
    let (next, _) = parts(memory, last);
    set_next(memory, last, 0);
    let front = Chain {
        first: c.first,
        last,
        count: k,
    };
    let rest = Chain {
        first: next,
        last: c.last,
        count: c.count - k,
    };
    (front, rest)
}

//! Bytes added at the end of a chain, or put in the place of its last ones.
ghost use Rattle.std.specs.Prelude.{◌≡◌, ◌+◌, ◌-◌, ◌*◌, ◌<◌, ◌≤◌, ◌++◌, length, take};
ghost use Rattle.sectors.specs.Sectors.{need, next_of, after, Apart};
ghost use Rattle.sectors.specs.Chains.{list, joint, Both, Moved, Filled};

use crate::chain::Chain;
use crate::grow::{keep, lengthen};
use crate::payloads::write;

/// How many sectors so many bytes need.
pub fn needed(n: usize) -> usize
    requires { n ≤ 60 * 65536 }
    ensures { result ≡ need n }
{
    n.div_ceil(60)
}

// Writes into a chain from its sector k on, which is s: those before it are not walked.
fn write_from(memory: &mut [u8], c: Chain, k: usize, s: usize, at: usize, bytes: &[u8])
    requires apart { Apart memory.old (list memory.old c) }
    requires within { (at + length bytes.now ≤ 60 * c.count) × (c.count ≤ 65536) }
    requires here { (k < c.count) × (s ≡ after k (next_of memory.old) c.first) × (60 * k ≤ at) }
    ensures { Filled memory.old c at bytes.now memory.new }
{
    let rest = Chain {
        first: s,
        last: c.last,
        count: c.count - k,
    };
    write(memory, rest, at - 60 * k, bytes);
}

// Writes into a chain that was `old` before it was lengthened, from the last sector on that it had then.
fn write_past(memory: &mut [u8], c: Chain, old: Chain, at: usize, bytes: &[u8])
    requires apart { Apart memory.old (list memory.old c) }
    requires within { (at + length bytes.now ≤ 60 * c.count) × (c.count ≤ 65536) }
    requires here { (old.count ≤ c.count) × (0 < old.count → old.last ≡ after (old.count - 1) (next_of memory.old) c.first) × (60 * (old.count - 1) ≤ at) }
    ensures { Filled memory.old c at bytes.now memory.new }
{
    if old.count == 0 {
        write(memory, c, at, bytes);
        return;
    }
    write_from(memory, c, old.count - 1, old.last, at, bytes);
}

/// Adds bytes to a chain that holds `len` of them.
pub fn append(memory: &mut [u8], free: &mut Chain, chain: Chain, len: usize, bytes: &[u8]) -> Chain
    requires both { Both memory.old chain free.old }
    requires long { chain.count ≡ need len }
    requires room { len + length bytes.now ≤ 60 * (chain.count + free.old.count) }
    ensures moved { Moved memory.old chain free.old memory.new result free.new }
    ensures count { result.count ≡ need (len + length bytes.now) }
    ensures bytes { take (len + length bytes.now) (joint memory.new result) ≡ take len (joint memory.old chain) ++ bytes.now }
{
    let k = needed(len + bytes.len()) - chain.count;
    let longer = lengthen(memory, free, chain, k);
    write_past(memory, longer, chain, len, bytes);
    longer
}

/// The first `kept` bytes of a chain stay, and these follow them. Sectors come from the free chain or go back to it.
pub fn recast(memory: &mut [u8], free: &mut Chain, chain: Chain, kept: usize, bytes: &[u8]) -> Chain
    requires both { Both memory.old chain free.old }
    requires within { need kept ≤ chain.count }
    requires room { kept + length bytes.now ≤ 60 * (chain.count + free.old.count) }
    ensures moved { Moved memory.old chain free.old memory.new result free.new }
    ensures count { result.count ≡ need (kept + length bytes.now) }
    ensures bytes { take (kept + length bytes.now) (joint memory.new result) ≡ take kept (joint memory.old chain) ++ bytes.now }
{
    let front = keep(memory, free, chain, needed(kept));
    if bytes.is_empty() {
        return front;
    }
    append(memory, free, front, kept, bytes)
}

//! Bytes of a chain: its payloads, one after another. The three loops go over the same sectors, and differ in which bytes they
//! lend to a sector: a closure for that would be longer than the loop.
ghost use Rattle.std.specs.Prelude.{◌≡◌, ◌+◌, ◌*◌, ◌≤◌, length, take, drop, replicate};
ghost use Rattle.sectors.specs.Sectors.{Apart};
ghost use Rattle.sectors.specs.Chains.{list, joint, Filled};

use crate::append::needed;
use crate::chain::Chain;
use crate::link::walk;
use crate::sector::{copy_in, copy_out};

/// Copies bytes out, from `at` on.
pub fn read(memory: &[u8], c: Chain, at: usize, out: &mut [u8])
    requires { Apart memory.now (list memory.now c) × (at + length out.old ≤ 60 * c.count) × (c.count ≤ 65536) }
    ensures { out.new ≡ take (length out.old) (drop at (joint memory.now c)) }
{
    let end = at + out.len();
    let mut s = walk(memory, c.first, at / 60);
    for k in at / 60..needed(end) {
        let from = at.max(60 * k);
        let to = end.min(60 * k + 60);
        s = copy_out(memory, s, from - 60 * k, &mut out[from - at..to - at]);
    }
}

/// Copies bytes in, from `at` on.
pub fn write(memory: &mut [u8], c: Chain, at: usize, bytes: &[u8])
    requires { Apart memory.old (list memory.old c) × (at + length bytes.now ≤ 60 * c.count) × (c.count ≤ 65536) }
    ensures { Filled memory.old c at bytes.now memory.new }
{
    let end = at + bytes.len();
    let mut s = walk(memory, c.first, at / 60);
    for k in at / 60..needed(end) {
        let from = at.max(60 * k);
        let to = end.min(60 * k + 60);
        s = copy_in(memory, s, from - 60 * k, &bytes[from - at..to - at]);
    }
}

/// Writes one value many times, from `at` on.
pub fn fill(memory: &mut [u8], c: Chain, at: usize, many: usize, value: u8)
    requires { Apart memory.old (list memory.old c) × (at + many ≤ 60 * c.count) × (c.count ≤ 65536) }
    ensures { Filled memory.old c at (replicate many value) memory.new }
{
    let end = at + many;
    let block = [value; 60];
    let mut s = walk(memory, c.first, at / 60);
    for k in at / 60..needed(end) {
        let from = at.max(60 * k);
        let to = end.min(60 * k + 60);
        s = copy_in(memory, s, from - 60 * k, &block[0..to - from]);
    }
}

//! One sector of the memory. That it lies there is asked at each call: it is true of a number only in the memory of the moment.
ghost use Rattle.std.specs.Prelude.{◌≡◌, ◌+◌, ◌*◌, ◌^◌, ◌<◌, ◌≤◌, length, take, drop};
ghost use Rattle.sectors.specs.Sectors.{next_of, payload, Linked, Stored};

use octets::copies::put_bytes;
use octets::numbers::put;

/// The next number of a sector, and its payload.
pub fn parts(memory: &[u8], s: usize) -> (usize, &[u8])
    requires { 64 * s + 64 ≤ length memory.now }
    ensures next { result.0 ≡ next_of memory.now s }
    ensures rest { result.1.now ≡ payload memory.now s }
    ensures long { length result.1.now ≡ 60 }
{
    let at = 64 * s;
    let sector = &memory[at..at + 64];
    // Four named bytes and the rest; a sector has 64 bytes, so the else is never taken.
    let [a, b, c, d, payload @ ..] = sector else {
        return (0, sector);
    };
    (u32::from_be_bytes([*a, *b, *c, *d]) as usize, payload)
}

pub fn set_next(memory: &mut [u8], s: usize, n: usize)
    requires { (64 * s + 64 ≤ length memory.old) × (n < 2 ^ 32) }
    ensures { Linked memory.old s n memory.new }
{
    put(memory, 64 * s, n as u32);
}

/// Copies bytes out of a sector's payload, and says which sector is next.
pub fn copy_out(memory: &[u8], s: usize, from: usize, out: &mut [u8]) -> usize
    requires { (64 * s + 64 ≤ length memory.now) × (from + length out.old ≤ 60) }
    ensures next { result ≡ next_of memory.now s }
    ensures bytes { out.new ≡ take (length out.old) (drop from (payload memory.now s)) }
{
    let (next, payload) = parts(memory, s);
    let end = from + out.len();
    out.copy_from_slice(&payload[from..end]);
    next
}

/// Copies bytes into a sector's payload, and says which sector is next.
pub fn copy_in(memory: &mut [u8], s: usize, from: usize, bytes: &[u8]) -> usize
    requires { (64 * s + 64 ≤ length memory.old) × (from + length bytes.now ≤ 60) }
    ensures next { result ≡ next_of memory.old s }
    ensures stored { Stored memory.old s from bytes.now memory.new }
{
    put_bytes(memory, 64 * s + 4 + from, bytes);
    let (next, _) = parts(memory, s);
    next
}

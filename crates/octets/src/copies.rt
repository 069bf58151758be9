//! Bytes in and out of the memory.
ghost use Rattle.std.specs.Prelude.{◌≡◌, ◌+◌, ◌≤◌, length, take, drop, replicate, vec_len};
ghost use Rattle.octets.specs.Written.{written};

pub fn put_bytes(memory: &mut [u8], at: usize, bytes: &[u8])
    requires { at + length bytes.now ≤ length memory.old }
    ensures { memory.new ≡ written memory.old at bytes.now }
{
    let end = at + bytes.len();
    memory[at..end].copy_from_slice(bytes);
}

/// Copies bytes into the memory, from `at` on. This and `fill_at` stand beside the same calls on a slice, since they say
/// that the Vec is as long as before; a slice is so by itself.
pub fn write_at(memory: &mut Vec<u8>, at: usize, bytes: &[u8])
    requires { at + length bytes.now ≤ vec_len memory.old }
    ensures items { memory.new.items ≡ written memory.old.items at bytes.now }
    ensures len { vec_len memory.new ≡ vec_len memory.old }
{
    put_bytes(memory.as_mut_slice(), at, bytes);
}

/// Copies bytes out of the memory, from `at` on.
pub fn read_at(memory: &[u8], at: usize, out: &mut [u8])
    requires { at + length out.old ≤ length memory.now }
    ensures { out.new ≡ take (length out.old) (drop at memory.now) }
{
    let end = at + out.len();
    out.copy_from_slice(&memory[at..end]);
}

fn put_fill(memory: &mut [u8], at: usize, n: usize, value: u8)
    requires { at + n ≤ length memory.old }
    ensures { memory.new ≡ written memory.old at (replicate n value) }
{
    memory[at..at + n].fill(value);
}

/// Writes one value n times into the memory, from `at` on.
pub fn fill_at(memory: &mut Vec<u8>, at: usize, n: usize, value: u8)
    requires { at + n ≤ vec_len memory.old }
    ensures items { memory.new.items ≡ written memory.old.items at (replicate n value) }
    ensures len { vec_len memory.new ≡ vec_len memory.old }
{
    put_fill(memory.as_mut_slice(), at, n, value);
}

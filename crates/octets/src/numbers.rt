//! Numbers as bytes, the highest first.
ghost use Rattle.std.specs.Prelude.{◌≡◌, ℕ, ◌+◌, ◌^◌, ◌<◌, ◌≤◌, length, take, drop};
ghost use Rattle.octets.specs.BigEndian.{digits, number_of};
ghost use Rattle.octets.specs.Written.{written};
ghost use Rattle.std.proofs.Common.{rules};

use crate::copies::put_bytes;

/// An unsigned number that takes so many bytes, eight at most.
pub trait Unsigned: Copy {
    ghost WIDTH: { ℕ };

    ghost value: { Self → ℕ };

    const WIDTH: usize;

    fn widen(self) -> u64
        ensures { result ≡ value self };

    fn narrow(n: u64) -> Self
        requires { n < 256 ^ WIDTH }
        ensures { value result ≡ n };

    ghost short: { WIDTH ≤ 8 };
}

// One `impl` for each width: the gate refuses those that a macro of the repository writes.
impl Unsigned for u16 {
    ghost WIDTH = { 2 };

    ghost value = { λ n. n };

    const WIDTH: usize = 2;

    fn widen(self) -> u64 {
        self.into()
    }

    fn narrow(n: u64) -> u16 {
        n as u16
    }

    ghost short = { Prim.search rules };
}

impl Unsigned for u32 {
    ghost WIDTH = { 4 };

    ghost value = { λ n. n };

    const WIDTH: usize = 4;

    fn widen(self) -> u64 {
        u64::from(self)
    }

    fn narrow(n: u64) -> u32 {
        n as u32
    }

    ghost short = { Prim.search rules };
}

impl Unsigned for u64 {
    ghost WIDTH = { 8 };

    ghost value = { λ n. n };

    const WIDTH: usize = 8;

    fn widen(self) -> u64 {
        self
    }

    fn narrow(n: u64) -> u64 {
        n
    }

    ghost short = { Prim.search rules };
}

// The number that at most eight bytes stand for.
fn number(bytes: &[u8]) -> u64
    requires { length bytes.now ≤ 8 }
    ensures value { result ≡ number_of bytes.now }
    ensures bound { result < 256 ^ length bytes.now }
{
    let mut n = 0u64;
    for b in bytes {
        n = n * 256 + u64::from(*b);
    }
    n
}

/// Writes a number into out, from `at` on.
pub fn put<N: Unsigned>(out: &mut [u8], at: usize, n: N)
    requires { at + N.WIDTH ≤ length out.old }
    ensures { out.new ≡ written out.old at (digits N.WIDTH (N.value n)) }
{
    let eight = n.widen().to_be_bytes();
    put_bytes(out, at, &eight[8 - N::WIDTH..]);
}

/// The number that the bytes from `at` on stand for.
pub fn get<N: Unsigned>(bytes: &[u8], at: usize) -> N
    requires { at + N.WIDTH ≤ length bytes.now }
    ensures { N.value result ≡ number_of (take N.WIDTH (drop at bytes.now)) }
{
    N::narrow(number(&bytes[at..at + N::WIDTH]))
}

//! The slot store: a memory that it owns, cut into 64 parts of `each` bytes.
ghost use Rattle.std.specs.Prelude.{◌≡◌, ◌/◌, vec_len};

use built::built::Built;

/// A row's place is its part. The rows that are not in use hold the free parts, so that every part stands in one row:
/// a new blob takes the part of the first free row, and nothing is ever searched for a free part.
#[derive(Drop)]
pub struct Parts {
    pub(crate) memory: Vec<u8>,
    pub(crate) each: usize,
    ghost cut: { each ≡ vec_len memory / 64 },
}

pub type Slots = Built<Parts>;

//! The chain store: a memory that it owns, cut into sectors of 64 bytes.
ghost use Rattle.std.specs.Prelude.{◌≡◌, ◌/◌, vec_len};
ghost use Rattle.chains.specs.Cover.{usable};

use built::built::Built;
use sectors::chain::Chain;

/// Each blob is a chain of as many sectors as its bytes need, and the other sectors are the free chain.
/// They stand in the memory itself, by their numbers: the store has no heap but that memory.
/// A row's place is its first sector and its tail the last, 0 where there is none.
#[derive(Drop)]
pub struct Sectors {
    pub(crate) memory: Vec<u8>,
    pub(crate) sectors: usize,
    pub(crate) free: Chain,
    ghost cut: { sectors ≡ usable (vec_len memory / 64) },
}

pub type Chains = Built<Sectors>;

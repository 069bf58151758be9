//! What a restart is told.

/// What becomes of the bytes past the sound ones: they are cut off, or each becomes one byte.
#[derive(Clone, Copy, PartialEq, Eq, Debug)]
pub enum Past {
    Cut,
    Fill(u8),
}

/// How many of the unsafe bytes stay sound, what becomes of the rest, and how many writing calls
/// succeed until the power goes again.
#[derive(Clone, Copy, PartialEq, Eq, Debug)]
pub struct Restart {
    pub keep: u64,
    pub past: Past,
    pub calls: u64,
}

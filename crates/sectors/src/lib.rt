//! Sectors of 64 bytes in chains: the memory of the chain store, without its blobs.
#![tactic(auto)]

pub mod append;
pub mod chain;
pub mod grow;
pub mod link;
pub mod payloads;
pub mod sector;
pub mod set_up;

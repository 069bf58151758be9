//! A run of scans: read from text, written to a store, read back, and compared.
#![tactic(auto)]

pub mod back;
pub mod fault;
pub mod keep;
pub mod text;

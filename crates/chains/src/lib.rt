//! A store of sectors of 64 bytes in chains.
#![tactic(auto)]

pub mod chains;
pub mod medium;
mod steps;

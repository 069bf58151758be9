//! A store of 64 equal parts of one memory.
#![tactic(auto)]

pub mod layout;
pub mod parts;

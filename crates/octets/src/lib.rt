//! Bytes copied into and out of memory, and numbers as bytes, the highest first.
#![tactic(auto)]

pub mod copies;
pub mod numbers;

//! What a store is: its causes, its keys, and the trait with a contract for each call.
#![tactic(auto)]

pub mod cause;
pub mod config;
pub mod keys;
pub mod restart;
pub mod store;

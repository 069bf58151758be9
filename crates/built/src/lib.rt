//! A built store: the table, the keys and the power of a catalog, over any memory that holds the bytes of its blobs.
#![tactic(auto)]

pub mod again;
pub mod built;
pub mod medium;
pub mod new;
pub mod setup;
pub mod steps;
pub mod stores;

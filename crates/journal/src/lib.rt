//! The journal: a log is opened, read, cleared, appended to, synced and pruned.
#![tactic(auto)]

mod append;
mod bounds;
mod checkpoint;
mod clear;
pub mod config;
pub mod fault;
mod live;
pub mod log;
pub mod opening;
mod prune;
pub mod reads;
mod recover;
mod scope;
pub mod staged;
mod steps;
mod suspects;
mod sweep;
pub mod trimmed;
mod walk;

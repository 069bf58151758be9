//! What the built stores share: the table of 64 blob rows, the keys and the power, and the calls that need no more than these.
#![tactic(auto)]

pub mod ask;
pub mod catalog;
pub mod edits;
pub mod find;
pub mod power;
pub mod row;
pub mod table;
pub mod write;

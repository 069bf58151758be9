//! What a record kind is, and the two kinds of an inspection run.
#![tactic(auto)]

pub mod distance;
pub mod distances;
pub mod record;
pub mod scan;
pub mod scans;

//! The stores, run on examples.
#![tactic(auto)]

#[cfg(test)]
mod chained;
#[cfg(test)]
mod checks;
#[cfg(test)]
mod cuts;
#[cfg(test)]
mod differs;

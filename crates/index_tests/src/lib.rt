//! The worked example, the edges of what is accepted and words that no index wrote, on the index itself.
#![tactic(auto)]

#[cfg(test)]
mod edges;
#[cfg(test)]
mod garbage;
pub mod lends;
#[cfg(test)]
mod loads;
#[cfg(test)]
mod tickets;
#[cfg(test)]
mod truck_seven;

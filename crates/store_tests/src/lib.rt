//! What a caller of the crate `store` knows by its contracts, and examples at the edges.
#![tactic(auto)]

#[cfg(test)]
mod columns;
pub mod lends;
#[cfg(test)]
mod stores;
#[cfg(test)]
mod texts;

//! Examples of keys and orders, at the edges of their ranges.
//!
//! They stand in a crate of their own, so that a check of `order` need not wait for them.
#![tactic(auto)]

#[cfg(test)]
mod loads;
#[cfg(test)]
mod places;

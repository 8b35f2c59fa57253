//! Lines and runs at the edges of what is taken, and programs over readers and writers of all sorts.
#![tactic(auto)]

pub mod lends;
#[cfg(test)]
mod programs;
#[cfg(test)]
mod runs;

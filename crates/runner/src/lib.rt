//! The runner: call lines in, answer lines out, over an index.
#![tactic(auto)]

pub mod lines;
pub mod loads;
pub mod places;
pub mod program;
pub mod runs;

//! The steps of the index as definitions, and what is proved of every history of calls.
#![tactic(auto)]

pub mod answers;
pub mod jobs;
pub mod promises;

pub use answers::{Answer, Done, Refusal, pair};
pub use jobs::{Job, Kind, NoKind, Task};

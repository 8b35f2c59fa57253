//! How a trial fails: an answer or a word differs, or memory runs out.
use std::alloc::{AllocError, AllocFailed};

/// Why a trial did not come to its end.
#[derive(Debug, Drop)]
pub(crate) enum Failure {
    // Index and model differ.
    Differs {
        // How, and all that repeats it.
        how: String,
        // The calls that were compared in this trial.
        calls: u64,
    },
    Memory,
}

impl From<AllocError> for Failure {
    fn from(_error: AllocError) -> Failure {
        Failure::Memory
    }
}

impl<T: Drop> From<AllocFailed<T>> for Failure {
    fn from(_error: AllocFailed<T>) -> Failure {
        Failure::Memory
    }
}

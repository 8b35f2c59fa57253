//! How often each code came.
use std::alloc::{AllocError, Global};

// The codes that must come: those of all calls, of the text test and of the runner.
const REFUSALS: std::ops::Range<usize> = 1..14;

const ANSWERS: std::ops::Range<usize> = 20..33;

/// How many calls were compared, and how often each code came.
#[derive(Clone, Copy, Debug)]
pub(crate) struct Counts {
    calls: u64,
    codes: [u64; 33],
}

impl Counts {
    pub(crate) fn new() -> Counts {
        Counts {
            calls: 0,
            codes: [0; 33],
        }
    }

    /// Counts a call that was answered by a code.
    pub(crate) fn add(&mut self, code: u64) {
        self.calls = self.calls.saturating_add(1);
        if let Some(count) = self.codes.get_mut(code as usize) {
            *count = count.saturating_add(1);
        }
    }

    /// Counts a call that has no code.
    pub(crate) fn add_plain(&mut self) {
        self.calls = self.calls.saturating_add(1);
    }

    /// Counts what others counted.
    pub(crate) fn add_all(&mut self, others: &Counts) {
        self.calls = self.calls.saturating_add(others.calls);
        for (count, more) in self.codes.iter_mut().zip(others.codes.iter()) {
            *count = count.saturating_add(*more);
        }
    }

    pub(crate) fn calls(&self) -> u64 {
        self.calls
    }

    /// The codes that came, each with how often it did, as `20:31`.
    pub(crate) fn shown(&self, alloc: Global) -> Result<String, AllocError> {
        let mut text = String::new(alloc);
        for (code, count) in self.codes.iter().enumerate() {
            if *count > 0 {
                text.push_str(format!(in alloc; " {code}:{count}")?.as_str())?;
            }
        }
        Ok(text)
    }

    /// The codes that should have come and did not.
    pub(crate) fn missing(&self, alloc: Global) -> Result<String, AllocError> {
        let mut text = String::new(alloc);
        for (code, count) in self.codes.iter().enumerate() {
            if *count == 0 && (REFUSALS.contains(&code) || ANSWERS.contains(&code)) {
                text.push_str(format!(in alloc; " {code}")?.as_str())?;
            }
        }
        Ok(text)
    }
}

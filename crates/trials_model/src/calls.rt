//! The calls of an index, as values.
use crate::keys::Key;

/// A call with its arguments.
#[derive(Clone, Copy, PartialEq, Eq, Debug)]
pub enum Call {
    /// Makes an index with a fill.
    Format(u64),
    /// Takes the index that the store holds.
    Attach,
    /// Gives a console a job.
    Begin {
        /// The console.
        console: u64,
        /// What is to be done: 1 look, 2 enter, 3 strike.
        kind: u64,
        /// At which key.
        key: Key,
        /// The value to enter.
        value: u64,
    },
    /// Takes one turn of a console's job.
    Turn(u64),
    /// Drops a console's job.
    Withdraw(u64),
    /// Enters a child's right neighbour into an inner page.
    Post(u64),
    /// Joins two children of an inner page.
    Merge(u64),
    /// Puts a new root over the root.
    Raise,
    /// Frees the gone pages.
    Sweep,
}

//! A key of two words.

/// A key as an index holds it: two words, whose meaning is the order's.
// It has no `Ord`: how two keys stand to each other is the order's business too.
#[derive(Clone, Copy, PartialEq, Eq, Debug, Default, Hash)]
pub struct Key {
    /// The first word.
    pub hi: u64,
    /// The second word.
    pub lo: u64,
}

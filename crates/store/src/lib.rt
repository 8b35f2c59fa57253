//! Stores of 64-bit words: over a caller's words, and over a caller's text of decimal lines.
#![tactic(auto)]

ghost use Rattle.std.specs.Prelude.{◌≡◌, ℕ, List, [], ◌∷◌, false, length, nat_lt, slice_set};
ghost use Rattle.std.specs.Borrow.{GName};
ghost use Rattle.store.specs.Words.{word_at};

pub mod check;
pub mod columns;
pub mod form;
pub mod text;
pub mod words;

/// Words at the places from 0 up to a length. A place at or beyond the length holds none.
pub trait Store {
    ghost words: { Self → List ℕ };

    // the references that a store holds, by name; each call leaves them in their places, so whoever lent them knows
    // what is behind them. A store that holds none gives this member no value of its own.
    ghost lenders: { Self → List GName } = { λ _. [] };

    /// How many words there are.
    fn length(&self) -> u64
        ensures { result ≡ length (words self.now) };

    /// The word at a place, or `None` at and beyond the length.
    fn read(&self, at: u64) -> Option<u64>
        ensures { result ≡ word_at (words self.now) at };

    /// Puts a word at a place, and says whether the place is within the length. Beyond it nothing changes, the store
    /// itself included.
    fn write(&mut self, at: u64, word: u64) -> bool
        ensures said { result ≡ nat_lt at (length (words self.old)) }
        ensures written { words self.new ≡ slice_set (words self.old) at word }
        ensures kept { result ≡ false → self.new ≡ self.old }
        ensures tied { lenders self.new ≡ lenders self.old };
}

/// A store that is lent is a store: what is written to it stays with the lender.
impl<S: Store> Store for &mut S {
    ghost words = { λ s. S.words s.now };

    ghost lenders = { λ s. s.ghost_name ∷ S.lenders s.now };

    fn length(&self) -> u64 {
        (**self).length()
    }

    fn read(&self, at: u64) -> Option<u64> {
        (**self).read(at)
    }

    fn write(&mut self, at: u64, word: u64) -> bool {
        (**self).write(at, word)
    }
}

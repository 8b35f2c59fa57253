//! A store over a caller's words.
ghost use Rattle.std.specs.Prelude.{◌≡◌, [], ◌∷◌, false, length, nat_lt, slice_set};

use crate::Store;

/// A store whose words are those of a caller's slice.
#[derive(Debug, Drop)]
pub struct WordStore<'a> {
    words: &'a mut [u64],
}

impl<'a> WordStore<'a> {
    /// The store over these words. What is written to it is written to them.
    pub fn new(words: &'a mut [u64]) -> WordStore<'a>
        ensures same { result.words.now ≡ words.old }
        ensures tied { result.words.ghost_name ≡ words.entry.ghost_name }
    {
        WordStore { words }
    }

    /// The words as they are now.
    pub fn words(&self) -> &[u64]
        ensures { result.now ≡ self.now.words.now }
    {
        &*self.words
    }
}

impl Store for WordStore<'_> {
    ghost words = { λ s. s.words.now };

    ghost lenders = { λ s. s.words.ghost_name ∷ [] };

    fn length(&self) -> u64 {
        self.words.len() as u64
    }

    fn read(&self, at: u64) -> Option<u64> {
        self.words.get(at as usize).copied()
    }

    fn write(&mut self, at: u64, word: u64) -> bool
        ensures said { result ≡ nat_lt at (length self.old.words.now) }
        ensures written { self.new.words.now ≡ slice_set self.old.words.now at word }
        ensures kept { result ≡ false → self.new ≡ self.old }
        ensures tied { self.new.words.ghost_name ∷ [] ≡ self.old.words.ghost_name ∷ [] }
    {
        // what `get_mut` lends would leave the proof nothing of the words
        let i = at as usize;
        if i < self.words.len() {
            self.words[i] = word;
            true
        } else {
            false
        }
    }
}

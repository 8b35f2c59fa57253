//! Whoever lends words or a text to a store knows what they hold when the store is gone.
ghost use Rattle.std.specs.Prelude.{◌≡◌, ◌*◌, false, length, if◌then◌else◌, nat_lt, slice_set};
ghost use Rattle.store.specs.Overlay.{overlay};
ghost use Rattle.store.specs.Text.{word_line, InForm, words_in};

use store::Store;
use store::text::TextStore;
use store::words::WordStore;

/// Puts a word into words through a store over them.
pub fn put_word(words: &mut [u64], at: u64, word: u64) -> bool
    ensures said { result ≡ nat_lt at (length words.old) }
    ensures written { words.new ≡ slice_set words.old at word }
{
    let mut store = WordStore::new(words);
    store.write(at, word)
}

/// Puts a word into a text through a store over it. Every byte outside the word's line is left as it was.
pub fn put_line(text: &mut [u8], at: u64, word: u64) -> bool
    ensures said { InForm text.old → result ≡ nat_lt at (length (words_in text.old)) }
    ensures refused { (InForm text.old → ⊥) → result ≡ false }
    ensures written { text.new
        ≡ (if result then overlay text.old (21 * at) (word_line word) else text.old) }
{
    let mut store = TextStore::open(text);
    store.write(at, word)
}

// Puts a word into any store, which holds on to what it was lent.
fn put<S: Store>(store: &mut S, at: u64, word: u64)
    ensures written { S.words store.new ≡ slice_set (S.words store.old) at word }
    ensures tied { S.lenders store.new ≡ S.lenders store.old }
{
    store.write(at, word);
}

/// Puts a word into words by code that takes any store.
pub fn put_word_in_any(words: &mut [u64], at: u64, word: u64)
    ensures { words.new ≡ slice_set words.old at word }
{
    let mut over_words = WordStore::new(words);
    put(&mut over_words, at, word);
}

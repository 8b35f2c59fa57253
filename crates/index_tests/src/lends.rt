//! Whoever lends words or a text to an index knows what they hold when the index is taken apart.
ghost use Rattle.std.specs.Prelude.{◌≡◌};
ghost use Rattle.store.specs.Text.{text_of, words_in, InForm};
ghost use Rattle.model.specs.Answers.{code, figure};
ghost use Rattle.model.specs.Starts.{format, unmade};

use index::Index;
use order::LoadOrder;
use store::Store;
use store::text::TextStore;
use store::words::WordStore;

// Makes an index over any store, which holds on to what it was lent, and takes it apart.
fn make<S: Store>(store: &mut S, fill: u64) -> (u64, u64)
    ensures code { result.0 ≡ code (format fill (unmade (S.words store.old))).answer }
    ensures figure { result.1 ≡ figure (format fill (unmade (S.words store.old))).answer }
    ensures words { S.words store.new ≡ (format fill (unmade (S.words store.old))).after.words }
    ensures tied { S.lenders store.new ≡ S.lenders store.old }
{
    let mut index: Index<&mut S, LoadOrder> = Index::new(store);
    let answer = index.format(fill);
    let _ = index.into_store();
    answer
}

/// Makes an index over words, which then hold it.
pub fn make_in_words(words: &mut [u64], fill: u64) -> (u64, u64)
    ensures code { result.0 ≡ code (format fill (unmade words.old)).answer }
    ensures figure { result.1 ≡ figure (format fill (unmade words.old)).answer }
    ensures words { words.new ≡ (format fill (unmade words.old)).after.words }
{
    let mut store = WordStore::new(words);
    make(&mut store, fill)
}

/// Makes an index over a text. Where it is made, the text is that of the words of the index.
pub fn make_in_text(text: &mut [u8], fill: u64) -> (u64, u64)
    ensures code { InForm text.old → result.0 ≡ code (format fill (unmade (words_in text.old))).answer }
    ensures figure { InForm text.old → result.1 ≡ figure (format fill (unmade (words_in text.old))).answer }
    ensures text { result.0 ≡ 20 → text.new ≡ text_of (format fill (unmade (words_in text.old))).after.words }
{
    let mut store = TextStore::open(text);
    make(&mut store, fill)
}

// The store over a caller's words after an index was made in it by value, and taken apart.
fn store_made<'a>(words: &'a mut [u64], fill: u64) -> WordStore<'a>
    ensures words { result.words.now ≡ (format fill (unmade words.old)).after.words }
    ensures tied { result.words.ghost_name ≡ words.entry.ghost_name }
{
    let mut index: Index<WordStore, LoadOrder> = Index::new(WordStore::new(words));
    index.format(fill);
    index.into_store()
}

/// Makes an index over words by an index that has their store by value.
pub fn make_by_value(words: &mut [u64], fill: u64)
    ensures { words.new ≡ (format fill (unmade words.old)).after.words }
{
    let _store = store_made(words, fill);
}

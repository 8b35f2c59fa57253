//! Whoever lends words or a text to a run knows what they hold when it is over.
//!
//! A run takes a store of any type, by value. What it was lent is found again by a function of one type of store, which
//! gives back that store and nothing beside it, and says that it holds what it was lent.
ghost use Rattle.std.specs.Prelude.{◌≡◌, ◌<◌, length};
ghost use Rattle.store.specs.Text.{InForm, text_of, words_in, words_to};
ghost use Rattle.model.specs.Example.{load_order, place_order};
ghost use Rattle.runner_tests.specs.Lends.{words_after};

use order::{FoldedPlaceOrder, LoadOrder};
use runner::runs::run_new;
use store::text::TextStore;
use store::words::WordStore;

// The store over a caller's words after a run in load order.
fn word_store_after<'a>(words: &'a mut [u64], input: &[u8], output: &mut [u8]) -> WordStore<'a>
    ensures words { result.words.now ≡ words_after load_order words.old input.now output.old }
    ensures tied { result.words.ghost_name ≡ words.entry.ghost_name }
{
    let (store, _) = run_new::<WordStore, LoadOrder>(WordStore::new(words), input, output);
    store
}

/// Runs call lines over a new index on a caller's words, in load order.
pub fn run_on_words(words: &mut [u64], input: &[u8], output: &mut [u8])
    ensures { words.new ≡ words_after load_order words.old input.now output.old }
{
    let _store = word_store_after(words, input, output);
}

// The store over a caller's text after a run in place order.
fn text_store_after<'a>(text: &'a mut [u8], input: &[u8], output: &mut [u8]) -> TextStore<'a>
    ensures words { InForm text.old → words_to result.bytes.now result.lines
        ≡ words_after place_order (words_in text.old) input.now output.old }
    ensures text { 0 < result.lines → result.bytes.now ≡ text_of (words_to result.bytes.now result.lines) }
    ensures tied { result.bytes.ghost_name ≡ text.entry.ghost_name }
{
    let (store, _) = run_new::<TextStore, FoldedPlaceOrder>(TextStore::open(text), input, output);
    // what `bytes` says of the store holds of it from here on
    let _ = store.bytes();
    store
}

/// Runs call lines over a new index on a caller's text, in place order: the text is that of the words that it leaves.
#[tactic(auto, using(store::proofs::Texts::length_words))]
pub fn run_on_text(text: &mut [u8], input: &[u8], output: &mut [u8])
    ensures { InForm text.old → 0 < length (words_after place_order (words_in text.old) input.now output.old)
        → text.new ≡ text_of (words_after place_order (words_in text.old) input.now output.old) }
{
    let _store = text_store_after(text, input, output);
}

//! A store over a caller's text, each word a line of 21 bytes.
ghost use Rattle.std.specs.Prelude.{◌≡◌, ◌+◌, ◌*◌, ◌<◌, [], ◌∷◌, false, length, if◌then◌else◌, Some, None, nat_lt, slice_set};
ghost use Rattle.store.specs.Overlay.{overlay};
ghost use Rattle.store.specs.Text.{word_line, text_of, InForm, LinesTo, words_to, words_in, OneTextForm};

use crate::Store;
use crate::form::{LINE, read_word, test_text, write_word};
use std::ops::Range;

/// A store whose words are the lines of a caller's text.
// `lines` beside the bytes: it is 0 for a text that is not in form, and tested once. Where there are any, they are all of
// the text.
#[derive(Debug, Drop)]
pub struct TextStore<'a> {
    bytes: &'a mut [u8],
    lines: usize,
    ghost whole: { 0 < lines → 21 * lines ≡ length bytes.now },
    ghost formed: { LinesTo bytes.now lines },
}

impl<'a> TextStore<'a> {
    /// The store over a text. What is written to it is written to the text.
    /// A text in form makes a store of its words, and any other one of length 0. The text is not changed.
    #[tactic(auto, using(crate::proofs::Texts::words_none, crate::proofs::Texts::form_from_lines))]
    pub fn open(bytes: &'a mut [u8]) -> TextStore<'a>
        ensures in_form { InForm bytes.old →
            words_to result.bytes.now result.lines ≡ words_in bytes.old }
        ensures others { (InForm bytes.old → ⊥) → words_to result.bytes.now result.lines ≡ [] }
        ensures same { result.bytes.now ≡ bytes.old }
        ensures tied { result.bytes.ghost_name ≡ bytes.entry.ghost_name }
        ensures one_form { OneTextForm }
    {
        let lines = test_text(bytes).unwrap_or(0) as usize;
        TextStore { bytes, lines }
    }

    /// The bytes of the text as they are now: the text of the store's words, if it has any.
    #[tactic(auto, using(crate::proofs::Texts::text_from_lines))]
    pub fn bytes(&self) -> &[u8]
        ensures same { result.now ≡ self.now.bytes.now }
        ensures text { 0 < self.now.lines →
            result.now ≡ text_of (words_to self.now.bytes.now self.now.lines) }
    {
        &*self.bytes
    }

    // Where the line of the word at a place stands, if it is there.
    fn line(&self, at: u64) -> Option<Range<usize>>
        ensures { result ≡ (if nat_lt at self.now.lines
            then Some (record { start = 21 * at; end = 21 * at + 21 }) else None) }
    {
        // the lines are within the text, so the products fit
        prove!(self.lines <= self.bytes.len() / LINE);
        let i = at as usize;
        (i < self.lines).then(|| LINE * i..LINE * (i + 1))
    }
}

impl Store for TextStore<'_> {
    ghost words = { λ s. words_to s.bytes.now s.lines };

    ghost lenders = { λ s. s.bytes.ghost_name ∷ [] };

    #[tactic(auto, using(crate::proofs::Texts::length_words))]
    fn length(&self) -> u64 {
        self.lines as u64
    }

    #[tactic(auto, using(crate::proofs::Rewrites::read_is, crate::proofs::Rewrites::read_past))]
    fn read(&self, at: u64) -> Option<u64> {
        read_word(&self.bytes[self.line(at)?])
    }

    #[tactic(auto, using(std::proofs::lemmas::List::set_past, crate::proofs::Texts::length_words))]
    fn write(&mut self, at: u64, word: u64) -> bool
        ensures said { result
            ≡ nat_lt at (length (words_to self.old.bytes.now self.old.lines)) }
        ensures written { words_to self.new.bytes.now self.new.lines
            ≡ slice_set (words_to self.old.bytes.now self.old.lines) at word }
        ensures laid { self.new.bytes.now
            ≡ (if result then overlay self.old.bytes.now (21 * at) (word_line word)
            else self.old.bytes.now) }
        ensures kept { result ≡ false → self.new ≡ self.old }
        ensures tied { self.new.bytes.ghost_name ∷ [] ≡ self.old.bytes.ghost_name ∷ [] }
    {
        match self.line(at) {
            Some(line) => write_word(&mut self.bytes[line], word),
            None => false,
        }
    }
}

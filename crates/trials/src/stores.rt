//! Stores whose words can be held against others at once.
use crate::failures::Failure;
use std::alloc::Global;
use store::Store;
use store::text::TextStore;
use store::words::WordStore;
use trials_model::{text_of, words_line};

// The bytes of a word's line.
const LINE: usize = 21;

/// Words, and their text form, kept up to date.
#[derive(Debug, Drop)]
pub(crate) struct Mirror {
    alloc: Global,
    words: Vec<u64>,
    text: Vec<u8>,
}

impl Mirror {
    /// The mirror of these words. A text is kept only for a store of text.
    pub(crate) fn new(alloc: Global, words: &[u64], is_text: bool) -> Result<Mirror, Failure> {
        let text = text_of(alloc, if is_text { words } else { &[] })?;
        Ok(Mirror {
            alloc,
            words: Vec::from_slice(alloc, words)?,
            text: Vec::from_slice(alloc, text.as_bytes())?,
        })
    }

    /// Takes over the words that changed.
    pub(crate) fn follow(&mut self, words: &[u64]) -> Result<(), Failure> {
        if self.text.is_empty() {
            return Ok(());
        }
        let lines = self.text.as_mut_slice().chunks_mut(LINE);
        for ((old, new), line) in self.words.iter_mut().zip(words).zip(lines) {
            if *old != *new {
                *old = *new;
                let shown = words_line(self.alloc, *new)?;
                for (place, byte) in line.iter_mut().zip(shown.as_bytes()) {
                    *place = *byte;
                }
            }
        }
        Ok(())
    }

    /// The text as it is now.
    pub(crate) fn text(&self) -> &[u8] {
        self.text.as_slice()
    }
}

/// A store that shows all that it holds.
pub(crate) trait Shown: Store {
    /// Whether it holds just these words, of which this is the text form.
    fn shows(&self, words: &[u64], mirror: &Mirror) -> bool;
}

impl Shown for WordStore<'_> {
    fn shows(&self, words: &[u64], _mirror: &Mirror) -> bool {
        self.words() == words
    }
}

impl Shown for TextStore<'_> {
    fn shows(&self, words: &[u64], mirror: &Mirror) -> bool {
        self.length() == words.len() as u64 && self.bytes() == mirror.text()
    }
}

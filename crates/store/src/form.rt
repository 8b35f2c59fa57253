//! The text form of words: each word is a line of 21 bytes, the word at the right of 20 bytes and a newline.
ghost use Rattle.std.specs.Prelude.{◌≡◌, ◌==◌, ◌++◌, length, if◌then◌else◌, Some, codes, decimal};
ghost use Rattle.store.specs.Text.{word_line, line_word, OneTextForm};
ghost use Rattle.store.specs.Test.{Found, answer_of};

use crate::columns::{read_line, write_line};
use std::error::Error;
use std::fmt;

/// How many bytes of a line the word stands in.
pub const COLUMN: usize = 20;

/// How many bytes a line has, with its newline.
pub const LINE: usize = COLUMN + 1;

// The word of a line, if the bytes are one.
#[tactic(auto, using(crate::proofs::Texts::first_word), unfolding(crate::specs::Text::line_word))]
pub(crate) fn read_word(line: &[u8]) -> Option<u64>
    ensures { result ≡ line_word line.now }
{
    let [word] = read_line(&[COLUMN], line)?;
    Some(word)
}

// Writes the line of a word, and says whether it could: there are as many bytes as a line has.
#[tactic(auto, using(crate::proofs::Texts::word_fits_line), unfolding(crate::specs::Text::word_line))]
pub(crate) fn write_word(line: &mut [u8], word: u64) -> bool
    ensures said { result ≡ (length line.old == 21) }
    ensures written { line.new ≡ (if result then word_line word else line.old) }
{
    write_line(&[COLUMN], &[word], line)
}

/// Why a text is not in form: the first line, counted from 1, that is not that of a word. A last line that is cut off
/// is such a line.
#[derive(Clone, Copy, PartialEq, Eq, Debug)]
pub struct BadLine(pub u64);

impl BadLine {
    /// The number of this error, which is 12, and its line.
    // A pair of a code and a figure, as each call of an index answers, so that whoever shows answers shows one kind.
    pub fn answer(self) -> (u64, u64)
        ensures { result ≡ answer_of self }
    {
        (12, self.0)
    }
}

/// `12 3` where line 3 is the first that is not in form.
// Written by hand: the derive of `thiserror` says nothing of what is printed, and this does.
impl fmt::Display for BadLine {
    ghost output = { λ bad. Some (codes "12 " ++ decimal bad.0) };

    fn fmt<W: fmt::Write>(&self, f: &mut fmt::Formatter<W>) -> fmt::Result {
        write!(f, "12 {}", self.0)
    }
}

impl Error for BadLine {}

/// Tests whether a text is in form, and says how many words it has. An empty text is in form, with no words.
// `one_form` is a theorem: each public function that it is about names it.
#[tactic(auto, using(crate::proofs::Texts::one_text_form))]
pub fn test_text(bytes: &[u8]) -> Result<u64, BadLine>
    ensures found { Found bytes.now result }
    ensures one_form { OneTextForm }
{
    for (i, line) in bytes.chunks(LINE).enumerate() {
        read_word(line).ok_or(BadLine(i as u64 + 1))?;
    }
    Ok((bytes.len() / LINE) as u64)
}

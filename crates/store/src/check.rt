//! What is said of a text that a program is given.
ghost use Rattle.std.specs.Prelude.{◌≡◌, Ok, Err, Some};
ghost use Rattle.store.specs.Check.{Finds, shown_of};
ghost use Rattle.store.specs.declared.check.TextError.TheVariants.{BadLine};

use crate::form::{BadLine, LINE, test_text};
use std::error::Error;
use std::fmt;

/// How many bytes a text may have: 4,096 pages of 64 lines, which are 262,144 lines.
// The numbers of the crates above, which know this one.
pub const MOST_BYTES: usize = 4_096 * 64 * LINE;

/// How many words a text holds.
#[derive(Clone, Copy, PartialEq, Eq, Debug)]
pub struct Words(pub u64);

/// `words 128` for a text of 128 words.
impl fmt::Display for Words {
    ghost output = { λ words. Some (shown_of (Ok words)) };

    fn fmt<W: fmt::Write>(&self, f: &mut fmt::Formatter<W>) -> fmt::Result {
        write!(f, "words {}", self.0)
    }
}

/// Why a text is refused.
#[derive(Clone, Copy, PartialEq, Eq, Debug)]
pub enum TextError {
    /// It is not in form.
    BadLine(BadLine),
    /// It has more than 262,144 lines.
    TooLong,
}

/// `12 3` where line 3 is the first that is not in form, and plain words for a text that is too long.
// Written by hand: the derive of `thiserror` says nothing of what is printed, and this does.
impl fmt::Display for TextError {
    ghost output = { λ error. Some (shown_of (Err error)) };

    fn fmt<W: fmt::Write>(&self, f: &mut fmt::Formatter<W>) -> fmt::Result {
        match self {
            TextError::BadLine(error) => write!(f, "{error}"),
            TextError::TooLong => f.write_str("the input has more than 262144 lines"),
        }
    }
}

impl Error for TextError {}

impl From<BadLine> for TextError {
    ghost from_gives = { λ bad error. error ≡ BadLine bad };

    fn from(bad: BadLine) -> TextError {
        TextError::BadLine(bad)
    }
}

/// Tests a text that has at most 262,144 lines, and refuses a longer one.
pub fn check_text(input: &[u8]) -> Result<Words, TextError>
    ensures { Finds input.now result }
{
    if input.len() > MOST_BYTES {
        return Err(TextError::TooLong);
    }
    Ok(Words(test_text(input)?))
}

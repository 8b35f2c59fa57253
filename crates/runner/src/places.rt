//! The run of call lines over text, in the order of place names.
ghost use Rattle.std.specs.Prelude.{◌≡◌, OnOk};
ghost use Rattle.store.specs.Text.{word_line};
ghost use Rattle.model.specs.Example.{place_order, zeros};
ghost use Rattle.runner.specs.Programs.{AnsweredNew};
ghost use Rattle.runner.specs.RunPromises.{NewRun};

use crate::program::answer_calls;
use crate::runs::{NEW_WORDS, run_new};
use order::FoldedPlaceOrder;
use std::io;
use std::io::{Read, Write};
use store::columns::write_line;
use store::form::{COLUMN, LINE};
use store::text::TextStore;

// The line of the word 0.
fn zero_line() -> [u8; LINE]
    ensures { result ≡ word_line 0 }
{
    let mut line = [0; LINE];
    write_line(&[COLUMN], &[0], &mut line);
    line
}

/// Runs call lines, as `run` does, over 48 pages of zeros, as text, in which place names are kept.
pub fn run_places(input: &[u8], output: &mut [u8]) -> usize
    ensures { NewRun place_order (zeros 3072) input.now output.old output.new result }
{
    // `run_new` is all that it shares with `run_loads`: the memory, fixed so that no run fails for want of it,
    // differs in type, and stays here while it is lent
    let mut lines = [zero_line(); NEW_WORDS];
    let store = TextStore::open(lines.as_flattened_mut());
    let (_, answered) = run_new::<TextStore, FoldedPlaceOrder>(store, input, output);
    answered
}

/// Reads up to 800 call lines, runs them as `run_places` does, and writes their answer lines. What there is to read
/// beyond them is ignored.
pub fn answer_place_calls<R: Read + Drop, W: Write>(reader: R, writer: &mut W) -> io::Result<()>
    ensures { OnOk result (AnsweredNew place_order (zeros 3072) (R.remaining reader)
        (W.contents writer.old) (W.contents writer.new)) }
{
    answer_calls(reader, writer, run_places)
}

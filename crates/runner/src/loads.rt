//! The run of call lines over words, in load order.
ghost use Rattle.std.specs.Prelude.{OnOk};
ghost use Rattle.model.specs.Example.{load_order, zeros};
ghost use Rattle.runner.specs.Programs.{AnsweredNew};
ghost use Rattle.runner.specs.RunPromises.{NewRun};

use crate::program::answer_calls;
use crate::runs::{NEW_WORDS, run_new};
use order::LoadOrder;
use std::io;
use std::io::{Read, Write};
use store::words::WordStore;

/// Runs call lines, as `run` does, over 48 pages of zeros, as words, which loads are kept in.
pub fn run_loads(input: &[u8], output: &mut [u8]) -> usize
    ensures { NewRun load_order (zeros 3072) input.now output.old output.new result }
{
    // `run_new` is all that it shares with `run_places`: the memory, fixed so that no run fails for want of it,
    // differs in type, and stays here while it is lent
    let mut words = [0; NEW_WORDS];
    let store = WordStore::new(&mut words);
    let (_, answered) = run_new::<WordStore, LoadOrder>(store, input, output);
    answered
}

/// Reads up to 800 call lines, runs them as `run_loads` does, and writes their answer lines. What there is to read
/// beyond them is ignored.
pub fn answer_load_calls<R: Read + Drop, W: Write>(reader: R, writer: &mut W) -> io::Result<()>
    ensures { OnOk result (AnsweredNew load_order (zeros 3072) (R.remaining reader)
        (W.contents writer.old) (W.contents writer.new)) }
{
    answer_calls(reader, writer, run_loads)
}

//! What a program that runs call lines does: it reads them, has them run, and writes what they are answered.
ghost use Rattle.std.specs.Prelude.{OnOk};
ghost use Rattle.runner.specs.Programs.{Answered};

use crate::runs::{ANSWER_LINE, CALL_LINE};
use arrayvec::ArrayVec;
use std::io;
use std::io::{Read, Write};

/// The most call lines that a program runs.
pub const MOST_LINES: usize = 800;

const MOST_INPUT: usize = MOST_LINES * CALL_LINE;

const MOST_OUTPUT: usize = MOST_LINES * ANSWER_LINE;

/// Reads up to 800 call lines, has them run, and writes their answer lines. What there is to read beyond them is ignored.
/// The run is given what was read and room for the answers, and says how many lines it answered. A run that says more
/// than there is room for is an error.
pub fn answer_calls<R: Read + Drop, W: Write, F: FnOnce(&[u8], &mut [u8]) -> usize>(
    reader: R,
    writer: &mut W,
    run: F,
) -> io::Result<()>
    requires { F.IsAlwaysCallable run }
    ensures { OnOk result (Answered (F.post run) (R.remaining reader)
        (W.contents writer.old) (W.contents writer.new)) }
{
    let mut input = ArrayVec::<u8, MOST_INPUT>::new();
    io::copy(&mut reader.take(MOST_INPUT as u64), &mut input)?;
    // an array and a count: what is run takes room for its answers, which an `ArrayVec` does not lend
    let mut output = [0; MOST_OUTPUT];
    let lines = run(input.as_slice(), &mut output);
    if lines > MOST_LINES {
        return Err(io::Error::other("more lines answered than there is room for"));
    }
    writer.write_all(&output[..ANSWER_LINE * lines])
}

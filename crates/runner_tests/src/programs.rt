//! What the programs read and write, over readers and writers that work and such that fail.
use runner::loads::answer_load_calls;
use runner::places::answer_place_calls;
use runner::program::answer_calls;
use std::io;
use std::io::Read;

// A format with fill 4.
const FORMAT: [u8; 73] =
    *b" 1    4 0                    0                    0                    0\n";

// The answer to it, as the first line and as the second.
const FORMATTED: [u8; 25] = *b" 20                   48\n";

const FORMATTED_TWICE: [u8; 25] = *b" 13                    2\n";

// Gives formats one line at a time, and fails where it is asked for more lines than it has.
#[derive(Drop)]
struct Formats {
    left: u64,
}

impl Read for Formats {
    fn read(&mut self, buf: &mut [u8]) -> io::Result<usize> {
        if self.left == 0 {
            return Err(io::Error::other("no line is left"));
        }
        self.left -= 1;
        let given = FORMAT.len().min(buf.len());
        buf[..given].copy_from_slice(&FORMAT[..given]);
        Ok(given)
    }
}

// What a reader gives is run, and the answers go behind what the writer has.
#[test]
fn read_and_written(rt: HostRuntime) -> io::Result<()> {
    let lines = [FORMAT; 2];
    let mut written = Vec::new(rt.alloc());
    answer_load_calls(lines.as_flattened(), &mut written)?;
    answer_place_calls(lines.as_flattened(), &mut written)?;
    answer_load_calls(b"".as_slice(), &mut written)?;
    assert_eq!(rt;
        written.as_slice().as_chunks().0,
        [FORMATTED, FORMATTED_TWICE, FORMATTED, FORMATTED_TWICE].as_slice()
    );
    Ok(())
}

// A last line that is cut off is not answered.
#[test]
fn partial_last_line(rt: HostRuntime) -> io::Result<()> {
    let lines = [FORMAT; 2];
    let mut written = Vec::new(rt.alloc());
    answer_load_calls(&lines.as_flattened()[..145], &mut written)?;
    assert_eq!(rt; written.as_slice(), FORMATTED.as_slice());
    Ok(())
}

// A writer into memory takes the answers for which it has room.
#[test]
fn written_into_memory(rt: HostRuntime) {
    let mut memory = [b'.'; 49];
    let mut room = memory.as_mut_slice();
    let done = answer_load_calls(FORMAT.as_slice(), &mut room);
    let full = answer_load_calls(FORMAT.as_slice(), &mut room);
    assert!(rt; done.is_ok());
    assert!(rt; full.is_err());
    assert_eq!(rt;
        memory,
        *b" 20                   48\n 20                   48"
    );
}

// How many answers were written, and the first and the last of them.
fn written_answers(written: &[u8]) -> (usize, Option<[u8; 25]>, Option<[u8; 25]>) {
    let (answers, _) = written.as_chunks();
    (
        answers.len(),
        answers.first().copied(),
        answers.last().copied(),
    )
}

// Of more than 800 lines the first 800 are run, and the others are left to be read.
#[test]
fn more_than_800_lines(rt: HostRuntime) -> io::Result<()> {
    let lines = [FORMAT; 801];
    let mut reader = lines.as_flattened();
    let mut written = Vec::new(rt.alloc());
    answer_load_calls(&mut reader, &mut written)?;
    assert_eq!(rt; reader, FORMAT.as_slice());
    assert_eq!(rt; written.len(), 20_000);
    assert_eq!(rt;
        written_answers(written.as_slice()),
        (800, Some(FORMATTED), Some(*b" 13                  800\n"))
    );
    Ok(())
}

// No more is read than 800 lines, also from a reader that would fail behind them.
#[test]
fn no_more_is_read(rt: HostRuntime) -> io::Result<()> {
    let mut reader = Formats { left: 1_601 };
    let mut written = Vec::new(rt.alloc());
    answer_load_calls(&mut reader, &mut written)?;
    assert_eq!(rt; reader.left, 801);
    answer_place_calls(&mut reader, &mut written)?;
    assert_eq!(rt; reader.left, 1);
    let mut just_enough = Formats { left: 800 };
    answer_place_calls(&mut just_enough, &mut written)?;
    assert_eq!(rt;
        written_answers(written.as_slice()),
        (2400, Some(FORMATTED), Some(*b" 13                  800\n"))
    );
    Ok(())
}

// Where reading fails before the 800th line, nothing is run.
#[test]
fn a_read_that_fails(rt: HostRuntime) {
    let mut written = Vec::new(rt.alloc());
    let failed = answer_load_calls(Formats { left: 799 }, &mut written);
    assert!(rt; failed.is_err());
    assert!(rt; written.is_empty());
}

// A run that says that it answered more lines than it had room for.
#[test]
fn too_many_lines_told(rt: HostRuntime) {
    let mut written = Vec::new(rt.alloc());
    let most = answer_calls(b"".as_slice(), &mut written, |_, _| 800);
    assert!(rt; most.is_ok());
    assert_eq!(rt; written.len(), 20_000);
    let beyond = answer_calls(b"".as_slice(), &mut written, |_, _| 801);
    assert!(rt; beyond.is_err());
    assert_eq!(rt; written.len(), 20_000);
}

// An enter and its turn, and a post on a page that is no inner one, as `load_runner` has them run.
#[test]
fn first_calls(rt: HostRuntime) -> io::Result<()> {
    let lines = [
        FORMAT,
        *b" 2    0 2                    7                   10                  100\n",
        *b" 3    0 0                    0                    0                    0\n",
        *b" 5    9 0                    0                    0                    0\n",
    ];
    let mut written = Vec::new(rt.alloc());
    answer_load_calls(lines.as_flattened(), &mut written)?;
    assert_eq!(rt;
        written.as_slice().as_chunks().0,
        [
            *b" 20                   48\n",
            *b" 20                    0\n",
            *b" 25                    0\n",
            *b" 10                    0\n",
        ]
        .as_slice()
    );
    Ok(())
}

//! Call lines and answer lines.
ghost use Rattle.std.specs.Prelude.{◌≡◌, [], ◌∷◌, ◌++◌, length, Some, decimal, codes, if◌then◌else◌};
ghost use Rattle.store.specs.Columns.{line_numbers, fits_line, OneLine};
ghost use Rattle.runner.specs.Lines.{call_widths, answer_widths, answer_line, named, AsksFor, request_of};

use order::Key;
use std::error::Error;
use std::fmt;
use store::columns::{read_column, read_line, write_line};

// The columns of a call line behind the two of the call's number.
const ARGUMENT_WIDTHS: [usize; 5] = [5, 2, 21, 21, 21];

// The columns of an answer line.
const ANSWER_WIDTHS: [usize; 2] = [3, 21];

/// The numbers of a call line.
#[derive(Clone, Copy, Debug, PartialEq, Eq)]
pub struct CallLine {
    /// Which call it is, from 1 to 8.
    pub call: u64,
    /// Its console, page or fill.
    pub argument: u64,
    /// The kind of the job.
    pub kind: u64,
    /// The first word of the key.
    pub hi: u64,
    /// The second word of the key.
    pub lo: u64,
    /// The value.
    pub value: u64,
}

/// What a call line asks for.
#[derive(Clone, Copy, Debug, PartialEq, Eq)]
pub enum Request {
    /// Make the index.
    Format {
        fill: u64,
    },
    /// Give a console a job.
    Begin {
        console: u64,
        kind: u64,
        key: Key,
        value: u64,
    },
    /// Take one turn of a console's job.
    Turn {
        console: u64,
    },
    /// Drop a console's job.
    Withdraw {
        console: u64,
    },
    /// Enter a child's right neighbour into an inner page.
    Post {
        page: u64,
    },
    /// Join two children of an inner page.
    Merge {
        page: u64,
    },
    /// Put a new root over the root.
    Raise,
    /// Free the gone pages.
    Sweep,
}

/// The numbers of a call line: six right-justified numbers in 2, 5, 2, 21, 21 and 21 bytes, and a newline.
#[tactic(auto, using(crate::proofs::CallLines::reading))]
pub fn read_call(line: &[u8]) -> Option<CallLine>
    ensures numbers { result ≡ named (line_numbers call_widths line.now) }
    ensures one_line { OneLine }
{
    let [tens, units, rest @ ..] = line else {
        return None;
    };
    let call = read_column(&[*tens, *units])?;
    let [argument, kind, hi, lo, value] = read_line(&ARGUMENT_WIDTHS, rest)?;
    Some(CallLine {
        call,
        argument,
        kind,
        hi,
        lo,
        value,
    })
}

/// A number that is not that of a call.
#[derive(Clone, Copy, Debug, PartialEq, Eq)]
pub struct UnknownCall(pub u64);

// Written by hand: the derive of `thiserror` says nothing of what is printed, and this does.
impl fmt::Display for UnknownCall {
    ghost output = { λ e. Some (codes "there is no call " ++ decimal e.0) };

    fn fmt<W: fmt::Write>(&self, f: &mut fmt::Formatter<W>) -> fmt::Result {
        write!(f, "there is no call {}", self.0)
    }
}

impl Error for UnknownCall {}

impl TryFrom<CallLine> for Request {
    type Error = UnknownCall;

    ghost try_from_gives = { AsksFor };

    /// What the line asks for, if there is a call of its number. Numbers that its call does not need are ignored.
    fn try_from(line: CallLine) -> Result<Request, UnknownCall> {
        let CallLine {
            call,
            argument,
            kind,
            hi,
            lo,
            value,
        } = line;
        match call {
            1 => Ok(Request::Format { fill: argument }),
            2 => Ok(Request::Begin {
                console: argument,
                kind,
                key: Key { hi, lo },
                value,
            }),
            3 => Ok(Request::Turn { console: argument }),
            4 => Ok(Request::Withdraw { console: argument }),
            5 => Ok(Request::Post { page: argument }),
            6 => Ok(Request::Merge { page: argument }),
            7 => Ok(Request::Raise),
            8 => Ok(Request::Sweep),
            _ => Err(UnknownCall(call)),
        }
    }
}

/// What the bytes of a line ask for, if they are a call line with the number of a call.
#[tactic(auto, unfolding(crate::specs::Lines::request_of))]
pub fn read_request(line: &[u8]) -> Option<Request>
    ensures { result ≡ request_of line.now }
{
    read_call(line)?.try_into().ok()
}

/// Writes an answer line: a code in 3 bytes, a figure in 21, and a newline. It says whether it could: the code has at
/// most 3 digits, and `out` has 25 bytes. Else `out` is left as it was.
#[tactic(auto, using(store::proofs::Lines::one_line), unfolding(crate::specs::Lines::answer_line))]
pub fn write_answer(out: &mut [u8], code: u64, figure: u64) -> bool
    ensures said { result ≡ fits_line answer_widths (code ∷ figure ∷ []) (length out.old) }
    ensures written { out.new ≡ (if result then answer_line code figure else out.old) }
    ensures one_line { OneLine }
{
    write_line(&ANSWER_WIDTHS, &[code, figure], out)
}

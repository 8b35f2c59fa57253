//! Lines: words as text, call lines and answer lines, and the run of call lines over a model.
use crate::calls::Call;
use crate::keys::Key;
use crate::model::{Answer, Model};
use std::alloc::{AllocError, Global};

// The bytes of a word's line, a call line and an answer line.
const WORD_LINE: usize = 21;

const CALL_LINE: usize = 73;

const ANSWER_LINE: usize = 25;

/// The line of a word.
pub fn words_line(alloc: Global, word: u64) -> Result<String, AllocError> {
    format!(in alloc; "{word:>20}\n")
}

/// The text form of words.
pub fn text_of(alloc: Global, words: &[u64]) -> Result<String, AllocError> {
    let mut text = String::new(alloc);
    for word in words {
        text.push_str(words_line(alloc, *word)?.as_str())?;
    }
    Ok(text)
}

/// The call line of six numbers. A number that is too wide for its columns makes the line too long.
pub fn call_line(alloc: Global, numbers: [u64; 6]) -> Result<String, AllocError> {
    let [call, argument, kind, hi, lo, value] = numbers;
    format!(in alloc; "{call:>2}{argument:>5}{kind:>2}{hi:>21}{lo:>21}{value:>21}\n")
}

/// The answer line of a code and a figure.
pub fn answer_line(alloc: Global, code: u64, figure: u64) -> Result<String, AllocError> {
    format!(in alloc; "{code:>3}{figure:>21}\n")
}

// The number in a column: spaces, then digits, of which the first is no zero unless it is the only one.
fn number_in(column: &[u8]) -> Option<u64> {
    let mut number: Option<u64> = None;
    for byte in column {
        number = match (*byte, number) {
            (b' ', None) => None,
            (b'0'..=b'9', Some(0)) => return None,
            (b'0'..=b'9', before) => {
                let digit = u64::from(*byte ^ b'0');
                Some(before.unwrap_or(0).checked_mul(10)?.checked_add(digit)?)
            }
            _ => return None,
        };
    }
    number
}

// The numbers in columns of these widths, with a newline and nothing behind them.
fn numbers_in(
    alloc: Global,
    line: &[u8],
    widths: &[usize],
) -> Result<Option<Vec<u64>>, AllocError> {
    let mut numbers = Vec::new(alloc);
    let mut rest = line;
    for width in widths {
        let Some((column, behind)) = rest.split_at_checked(*width) else {
            return Ok(None);
        };
        let Some(number) = number_in(column) else {
            return Ok(None);
        };
        numbers.push(number)?;
        rest = behind;
    }
    Ok(if rest == b"\n".as_slice() {
        Some(numbers)
    } else {
        None
    })
}

/// The text test: how many words a text holds, or the first line, from 1, that is none of a word.
pub fn test_text(alloc: Global, text: &[u8]) -> Result<Result<u64, u64>, AllocError> {
    let mut words = 0u64;
    for line in text.chunks(WORD_LINE) {
        let number = words.saturating_add(1);
        if numbers_in(alloc, line, &[20])?.is_none() {
            return Ok(Err(number));
        }
        words = number;
    }
    Ok(Ok(words))
}

// The call that six numbers ask for.
fn call_of(numbers: &[u64]) -> Option<Call> {
    let [call, argument, kind, hi, lo, value] = numbers else {
        return None;
    };
    let argument = *argument;
    match *call {
        1 => Some(Call::Format(argument)),
        2 => Some(Call::Begin {
            console: argument,
            kind: *kind,
            key: Key { hi: *hi, lo: *lo },
            value: *value,
        }),
        3 => Some(Call::Turn(argument)),
        4 => Some(Call::Withdraw(argument)),
        5 => Some(Call::Post(argument)),
        6 => Some(Call::Merge(argument)),
        7 => Some(Call::Raise),
        8 => Some(Call::Sweep),
        _ => None,
    }
}

// Answers a line of this number.
fn answer_to(
    alloc: Global,
    model: &mut Model,
    line: &[u8],
    number: u64,
) -> Result<Answer, AllocError> {
    let call = match numbers_in(alloc, line, &[2, 5, 2, 21, 21, 21])? {
        Some(numbers) => call_of(numbers.as_slice()),
        None => None,
    };
    let Some(call) = call else {
        return Ok((13, number));
    };
    let makes = matches!(call, Call::Format(_));
    if makes == model.is_made() {
        return Ok((13, number));
    }
    model.take(call)
}

/// Runs call lines over a model, as far as there are whole lines and room for their answers: the answer lines.
pub fn run_lines(
    alloc: Global,
    model: &mut Model,
    input: &[u8],
    room: usize,
) -> Result<Vec<Answer>, AllocError> {
    let mut answers = Vec::new(alloc);
    for line in input.chunks(CALL_LINE).take(room / ANSWER_LINE) {
        if line.len() < CALL_LINE {
            break;
        }
        let number = (answers.len() as u64).saturating_add(1);
        answers.push(answer_to(alloc, model, line, number)?)?;
    }
    Ok(answers)
}

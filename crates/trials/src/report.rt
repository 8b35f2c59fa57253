//! What is said of a difference: all that repeats it.
use crate::failures::Failure;
use crate::trial::Answer;
use std::alloc::{AllocError, Global};
use trials_model::{Call, text_of};

// A call as its name and numbers.
fn call_words(alloc: Global, call: Call) -> Result<String, AllocError> {
    match call {
        Call::Format(fill) => format!(in alloc; "format {fill}\n"),
        Call::Attach => format!(in alloc; "attach\n"),
        Call::Begin {
            console,
            kind,
            key,
            value,
        } => {
            let (hi, lo) = (key.hi, key.lo);
            format!(in alloc; "begin {console} {kind} {hi} {lo} {value}\n")
        }
        Call::Turn(console) => format!(in alloc; "turn {console}\n"),
        Call::Withdraw(console) => format!(in alloc; "withdraw {console}\n"),
        Call::Post(page) => format!(in alloc; "post {page}\n"),
        Call::Merge(page) => format!(in alloc; "merge {page}\n"),
        Call::Raise => format!(in alloc; "raise\n"),
        Call::Sweep => format!(in alloc; "sweep\n"),
    }
}

/// What led to a difference: the words before, and the calls or call lines since.
#[derive(Clone, Copy, Debug)]
pub(crate) struct History<'a> {
    pub(crate) before: &'a [u64],
    pub(crate) calls: &'a [Call],
    pub(crate) lines: &'a [u8],
    pub(crate) compared: u64,
}

// Bytes as text if they are, else as numbers.
fn push_bytes(alloc: Global, text: &mut String, bytes: &[u8]) -> Result<(), AllocError> {
    match str::from_utf8(bytes) {
        Ok(lines) => text.push_str(lines),
        Err(_) => text.push_str(format!(in alloc; "{bytes:?}")?.as_str()),
    }
}

/// What led to a difference, as text.
pub(crate) fn shown(alloc: Global, history: &History) -> Result<String, AllocError> {
    let mut text = String::from_str(alloc, "the store before, as text:\n")?;
    text.push_str(text_of(alloc, history.before)?.as_str())?;
    text.push_str("the calls:\n")?;
    for call in history.calls {
        text.push_str(call_words(alloc, *call)?.as_str())?;
    }
    for line in history.lines.chunks(73) {
        push_bytes(alloc, &mut text, line)?;
    }
    let count = history.calls.len();
    text.push_str(format!(in alloc; "\nafter {count} calls: ")?.as_str())?;
    Ok(text)
}

// What the index answered, and what is said instead, where answers differ.
pub(crate) type Answers = Option<(Answer, Answer)>;

fn shown_difference(
    alloc: Global,
    history: &History,
    how: &str,
    answers: Answers,
) -> Result<String, AllocError> {
    let mut text = shown(alloc, history)?;
    text.push_str(how)?;
    if let Some(((code, figure), (other, another))) = answers {
        let end = format!(in alloc;
            ": the index has {code} {figure}, and it is {other} {another}"
        )?;
        text.push_str(end.as_str())?;
    }
    text.push_str("\n")?;
    Ok(text)
}

fn shown_run(
    alloc: Global,
    history: &History,
    input: &[u8],
    output: &[u8],
    told: &[u8],
) -> Result<String, AllocError> {
    let mut text = shown(alloc, history)?;
    for (name, bytes) in [
        ("these lines", input),
        ("are answered", output),
        ("and not", told),
    ] {
        text.push_str(name)?;
        text.push_str("\n")?;
        push_bytes(alloc, &mut text, bytes)?;
        text.push_str("\n")?;
    }
    Ok(text)
}

fn failure(text: Result<String, AllocError>, history: &History) -> Failure {
    let calls = history.compared;
    match text {
        Ok(how) => Failure::Differs { how, calls },
        Err(_) => Failure::Memory,
    }
}

/// The failure of an index that differs in this way, and by these answers if they differ.
pub(crate) fn report(alloc: Global, history: &History, how: &str, answers: Answers) -> Failure {
    failure(shown_difference(alloc, history, how, answers), history)
}

/// The failure of a run that wrote one output where another one is told.
pub(crate) fn report_run(
    alloc: Global,
    history: &History,
    input: &[u8],
    output: &[u8],
    told: &[u8],
) -> Failure {
    failure(shown_run(alloc, history, input, output, told), history)
}

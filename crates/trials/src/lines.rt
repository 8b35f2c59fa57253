//! Runs of call lines: what the runner writes is held against the model's answers.
use crate::failures::Failure;
use crate::stores::Shown;
use crate::trial::{Answer, Trial};
use index::Index;
use order::Order;
use runner::runs::run;
use std::alloc::{AllocError, Global};
use trials_gen::{Dice, Setting, draw_call, draw_line};
use trials_model::{Call, Model, answer_line, run_lines};

// What the room for the answers holds before.
const MARK: u8 = 85;

// The bytes of an answer line.
const ANSWER_LINE: u64 = 25;

// The line of the next call, which the guide takes too.
fn next_line(
    alloc: Global,
    dice: &mut Dice,
    setting: &Setting,
    guide: &mut Model,
) -> Result<Vec<u8>, Failure> {
    let call = if guide.is_made() {
        draw_call(dice, setting, guide)
    } else if dice.one_in(3) {
        Call::Format(dice.pick(&[setting.fill, setting.fill, 3, 19]))
    } else {
        draw_call(dice, setting, guide)
    };
    let line = draw_line(alloc, dice, call)?;
    let _ = run_lines(alloc, guide, line.as_slice(), 25)?;
    Ok(line)
}

// Call lines, and at times a partial one at the end.
fn input_of(
    alloc: Global,
    dice: &mut Dice,
    setting: &Setting,
    guide: &mut Model,
    count: u64,
) -> Result<Vec<u8>, Failure> {
    let mut input = Vec::new(alloc);
    for _ in 0..count {
        input.extend_from_slice(next_line(alloc, dice, setting, guide)?.as_slice())?;
    }
    if dice.one_in(3) {
        let cut = dice.below(73) as usize;
        let kept = input.len().saturating_sub(cut);
        input.truncate(kept);
    }
    Ok(input)
}

// The answers as lines, and the mark from there on.
fn output_of(alloc: Global, answers: &[Answer], room: usize) -> Result<Vec<u8>, AllocError> {
    let mut output = Vec::new(alloc);
    for (code, figure) in answers {
        output.extend_from_slice(answer_line(alloc, *code, *figure)?.as_bytes())?;
    }
    for _ in output.len()..room {
        output.push(MARK)?;
    }
    Ok(output)
}

// Runs lines over both, and compares what they write and leave.
fn compare_run<S: Shown, O: Order>(
    trial: &mut Trial,
    index: &mut Index<S, O>,
    input: &[u8],
    room: usize,
) -> Result<(), Failure> {
    let alloc = trial.alloc;
    let mut output = vec![in alloc; MARK; room]?;
    let answered = run(index, input, output.as_mut_slice());
    let said = run_lines(alloc, &mut trial.model, input, room)?;
    let told = output_of(alloc, said.as_slice(), room)?;
    if answered != said.len() || output.as_slice() != told.as_slice() {
        return Err(trial.differs_in_run(input, output.as_slice(), told.as_slice()));
    }
    for (code, _) in said.as_slice() {
        trial.counts.add(*code);
    }
    trial.note_lines(input)?;
    trial.compare_words(index)?;
    if trial.model.is_made() {
        trial.test_soundness()?;
    }
    Ok(())
}

/// A few runs of call lines over an index that is not made.
pub(crate) fn runs<S: Shown, O: Order>(
    trial: &mut Trial,
    index: &mut Index<S, O>,
    dice: &mut Dice,
    setting: &Setting,
) -> Result<(), Failure> {
    let alloc = trial.alloc;
    let before = Vec::from_slice(alloc, trial.before())?;
    let mut guide = Model::new(alloc, setting.order, before);
    let times = dice.between(1, 4);
    for _ in 0..times {
        let count = dice.pick(&[0, 1, 7, 40, 120]);
        let input = input_of(alloc, dice, setting, &mut guide, count)?;
        let room = match dice.below(4) {
            0 => dice.below(count.saturating_mul(ANSWER_LINE).saturating_add(2)),
            _ => count.saturating_mul(ANSWER_LINE),
        };
        compare_run(trial, index, input.as_slice(), room as usize)?;
    }
    trial.finish(index)
}

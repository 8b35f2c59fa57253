//! Texts: the text test, and the store that a text makes.
use crate::counts::Counts;
use crate::failures::Failure;
use std::alloc::{AllocError, Global};
use store::Store;
use store::form::test_text;
use store::text::TextStore;
use trials_gen::{Dice, draw_text};

// What the text test answers, as code and figure, or the number of words under a code that there is not.
fn tested(text: &[u8]) -> (u64, u64) {
    match test_text(text) {
        Ok(words) => (0, words),
        Err(bad) => bad.answer(),
    }
}

fn said(alloc: Global, text: &[u8]) -> Result<(u64, u64), AllocError> {
    match trials_model::test_text(alloc, text)? {
        Ok(words) => Ok((0, words)),
        Err(line) => Ok((12, line)),
    }
}

fn compare_text(alloc: Global, text: &mut Vec<u8>, counts: &mut Counts) -> Result<(), Failure> {
    let given = tested(text.as_slice());
    let other = said(alloc, text.as_slice())?;
    let store = TextStore::open(text.as_mut_slice());
    let length = store.length();
    let opened = length == if given.0 == 0 { given.1 } else { 0 };
    let _ = store;
    match given.0 {
        0 => counts.add_plain(),
        code => counts.add(code),
    }
    if given == other && opened {
        return Ok(());
    }
    let bytes = text.as_slice();
    let ((code, figure), (model, line)) = (given, other);
    let how = format!(in alloc;
        "the text {bytes:?}\nthe test has {code} {figure}, the model {model} {line}, the store {length} words\n"
    )?;
    Err(Failure::Differs {
        how,
        calls: counts.calls(),
    })
}

/// Tests some texts.
pub(crate) fn texts(alloc: Global, dice: &mut Dice, count: u64) -> Result<Counts, Failure> {
    let mut counts = Counts::new();
    for _ in 0..count {
        let mut text = draw_text(alloc, dice)?;
        compare_text(alloc, &mut text, &mut counts)?;
    }
    Ok(counts)
}

//! Call lines, good and bad, and texts.
use crate::dice::Dice;
use std::alloc::{AllocError, Global};
use trials_model::{Call, call_line, words_line};

// The six numbers of a call's line.
fn numbers_of(call: Call) -> [u64; 6] {
    match call {
        Call::Format(fill) => [1, fill, 0, 0, 0, 0],
        Call::Attach => [9, 0, 0, 0, 0, 0],
        Call::Begin {
            console,
            kind,
            key,
            value,
        } => [2, console, kind, key.hi, key.lo, value],
        Call::Turn(console) => [3, console, 0, 0, 0, 0],
        Call::Withdraw(console) => [4, console, 0, 0, 0, 0],
        Call::Post(page) => [5, page, 0, 0, 0, 0],
        Call::Merge(page) => [6, page, 0, 0, 0, 0],
        Call::Raise => [7, 0, 0, 0, 0, 0],
        Call::Sweep => [8, 0, 0, 0, 0, 0],
    }
}

// Puts a byte at a place, if there is one.
fn put(bytes: &mut [u8], i: u64, byte: u8) {
    if let Some(place) = bytes.get_mut(i as usize) {
        *place = byte;
    }
}

// Spoils a line of columns.
fn spoil(dice: &mut Dice, line: &mut [u8]) {
    let length = line.len() as u64;
    let last = length.saturating_sub(1);
    match dice.below(10) {
        // a sign, a zero in front, or another byte that is no digit
        0 => put(line, last.saturating_sub(2), b'+'),
        1 => put(line, last.saturating_sub(2), b'-'),
        2 => put(line, last.saturating_sub(2), b'0'),
        3 => put(line, dice.below(length), b'9'),
        4 => put(line, dice.below(length), b' '),
        5 => put(line, dice.below(length), dice.byte()),
        // an end that is no newline, and a newline before the end
        6 => put(line, last, b' '),
        7 => put(line, last, 13),
        8 => put(line, dice.below(length), b'\n'),
        // a number above the highest word, or just that one
        _ => {
            let column = last.saturating_sub(20);
            let digits = dice.below(2);
            for (i, byte) in b"18446744073709551615".iter().enumerate() {
                put(line, column.saturating_add(i as u64), *byte);
            }
            put(
                line,
                last.saturating_sub(1),
                if digits == 0 { b'5' } else { b'6' },
            );
        }
    }
}

/// The line of a call, or one that is spoiled: 73 bytes in any case.
pub fn draw_line(alloc: Global, dice: &mut Dice, call: Call) -> Result<Vec<u8>, AllocError> {
    let mut numbers = numbers_of(call);
    if let Some(first) = numbers.first_mut()
        && dice.one_in(25)
    {
        *first = dice.pick(&[0, 9, 10, 42, 99]);
    }
    let mut line = Vec::from_slice(alloc, call_line(alloc, numbers)?.as_bytes())?;
    if dice.one_in(8) {
        spoil(dice, line.as_mut_slice());
    }
    line.truncate(73);
    Ok(line)
}

// A word of any number of digits.
fn draw_word(dice: &mut Dice) -> u64 {
    let shift = dice.byte() & 63;
    match dice.below(8) {
        0 => 0,
        1 => u64::MAX,
        2 => 10_000_000_000_000_000_000,
        3 => 9_999_999_999_999_999_999,
        _ => dice.word().wrapping_shr(u32::from(shift)),
    }
}

/// Draws a text of some lines, of which mostly none is spoiled, and which mostly ends with a whole line.
pub fn draw_text(alloc: Global, dice: &mut Dice) -> Result<Vec<u8>, AllocError> {
    let mut text = Vec::new(alloc);
    let lines = dice.below(12);
    let spoils = dice.one_in(2);
    for _ in 0..lines {
        let word = draw_word(dice);
        let mut line = Vec::from_slice(alloc, words_line(alloc, word)?.as_bytes())?;
        if spoils && dice.one_in(6) {
            spoil(dice, line.as_mut_slice());
        }
        text.extend_from_slice(line.as_slice())?;
    }
    if dice.one_in(4) {
        let cut = dice.below(22) as usize;
        let kept = text.len().saturating_sub(cut);
        text.truncate(kept);
    }
    Ok(text)
}

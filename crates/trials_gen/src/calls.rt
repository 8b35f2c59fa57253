//! Calls: what is likely, what is not, and what is wild.
use crate::dice::Dice;
use crate::keys::{draw_key, draw_no_key};
use crate::settings::{Mix, Setting};
use trials_model::{Call, Key, Model, Page};

/// What is to be done at a key, by whatever console.
#[derive(Clone, Copy, PartialEq, Eq, Debug)]
pub struct Wish {
    /// 1 look, 2 enter, 3 strike.
    pub kind: u64,
    /// At which key.
    pub key: Key,
    /// The value to enter.
    pub value: u64,
}

fn draw_value(dice: &mut Dice) -> u64 {
    match dice.below(6) {
        0 => 0,
        1 => u64::MAX,
        2 => dice.word(),
        _ => dice.between(1, 999),
    }
}

fn draw_kind(dice: &mut Dice, mix: Mix) -> u64 {
    match mix {
        Mix::Even => dice.pick(&[1, 2, 3]),
        Mix::Enters => dice.pick(&[1, 2, 2, 2, 2, 2, 2, 3]),
        Mix::Clear => 3,
        Mix::Strikes => dice.pick(&[1, 2, 3, 3, 3, 3, 3, 3]),
    }
}

/// Draws what is to be done next.
pub fn draw_wish(dice: &mut Dice, setting: &Setting) -> Wish {
    Wish {
        kind: draw_kind(dice, setting.mix),
        key: draw_key(dice, setting.order, setting.keys),
        value: draw_value(dice),
    }
}

// A key that a leaf holds, if a few draws meet one.
fn held_key(dice: &mut Dice, model: &Model) -> Option<Key> {
    for _ in 0..12 {
        let number = dice.below(model.page_count());
        if let Some(Page::Leaf { entries, .. }) = model.pages().get(number as usize) {
            let place = dice.below(entries.len() as u64);
            if let Some((key, _)) = entries.get(place as usize) {
                return Some(*key);
            }
        }
    }
    None
}

// What is to be done next, where the entries are to be cleared: a strike of one of them.
fn draw_due_wish(dice: &mut Dice, setting: &Setting, model: &Model) -> Wish {
    let wish = draw_wish(dice, setting);
    if setting.mix != Mix::Clear {
        return wish;
    }
    let key = held_key(dice, model).unwrap_or(wish.key);
    Wish { key, ..wish }
}

fn begin(dice: &mut Dice, setting: &Setting, model: &Model, console: u64) -> Call {
    let Wish { kind, key, value } = draw_due_wish(dice, setting, model);
    Call::Begin {
        console,
        kind,
        key,
        value,
    }
}

// The number of an inner page, if a few draws meet one; else any page, or a number beyond them.
fn draw_page(dice: &mut Dice, model: &Model) -> u64 {
    for _ in 0..24 {
        let number = dice.below(model.page_count());
        if let Some(Page::Inner { .. }) = model.pages().get(number as usize) {
            return number;
        }
    }
    dice.below(model.page_count().saturating_add(2))
}

// Whether the root has a right neighbour, so that a raise is due.
fn is_root_split(model: &Model) -> bool {
    match model.pages().get(model.root() as usize) {
        Some(Page::Leaf { next, .. } | Page::Inner { next, .. }) => *next != 0,
        _ => false,
    }
}

fn upkeep(dice: &mut Dice, model: &Model) -> Call {
    if is_root_split(model) && dice.one_in(3) {
        return Call::Raise;
    }
    match dice.below(8) {
        0..=2 => Call::Post(draw_page(dice, model)),
        3..=5 => Call::Merge(draw_page(dice, model)),
        6 => Call::Raise,
        _ => Call::Sweep,
    }
}

// A number that names nothing, or just about something.
fn wild_number(dice: &mut Dice, edge: u64) -> u64 {
    match dice.below(9) {
        0 => 0,
        1 => edge,
        2 => edge.saturating_sub(1),
        3 => edge.saturating_add(1),
        // 64 times this is 0 again, in 64 bits
        4 => 1 << 58,
        5 => (1 << 58) + 1,
        6 => 1 << 32,
        7 => u64::MAX,
        _ => dice.word(),
    }
}

// A call with an argument that is mostly out of range.
fn wild_call(dice: &mut Dice, setting: &Setting, model: &Model) -> Call {
    let pages = model.page_count();
    let console = dice.below(32);
    let Wish { kind, key, value } = draw_wish(dice, setting);
    match dice.below(10) {
        0 => Call::Turn(wild_number(dice, 32)),
        1 => Call::Withdraw(wild_number(dice, 32)),
        2 => Call::Post(wild_number(dice, pages)),
        3 => Call::Merge(wild_number(dice, pages)),
        4 => Call::Begin {
            console: wild_number(dice, 32),
            kind,
            key,
            value,
        },
        5 => Call::Begin {
            console,
            kind: wild_number(dice, 3),
            key,
            value,
        },
        6 | 7 => Call::Begin {
            console,
            kind,
            key: draw_no_key(dice, setting.order),
            value,
        },
        8 => Call::Format(dice.pick(&[0, 3, 19, 64, u64::MAX])),
        _ => again(dice, setting),
    }
}

// The index is made once more, which is seldom.
fn again(dice: &mut Dice, setting: &Setting) -> Call {
    match dice.below(12) {
        0 => Call::Format(setting.fill),
        1 | 2 => Call::Attach,
        _ => Call::Sweep,
    }
}

/// Draws the next call of a day, by the jobs that the consoles have.
pub fn draw_call(dice: &mut Dice, setting: &Setting, model: &Model) -> Call {
    let roll = dice.below(100);
    if roll < setting.upkeep {
        return upkeep(dice, model);
    }
    let console = dice.below(setting.consoles);
    match dice.below(60) {
        0 | 1 => wild_call(dice, setting, model),
        2 => Call::Withdraw(console),
        3 => Call::Turn(console),
        4 => begin(dice, setting, model, console),
        _ if model.job(console).is_some() => Call::Turn(console),
        _ => begin(dice, setting, model, console),
    }
}

/// Draws a call on an index that is not made. Seldom a format or an attach among them makes it.
pub fn draw_unmade_call(dice: &mut Dice, setting: &Setting, model: &Model) -> Call {
    match dice.below(4) {
        0 => wild_call_unmade(dice),
        1 => upkeep(dice, model),
        _ => draw_call(dice, setting, model),
    }
}

fn wild_call_unmade(dice: &mut Dice) -> Call {
    match dice.below(3) {
        0 => Call::Format(dice.pick(&[0, 3, 19, u64::MAX])),
        1 => Call::Attach,
        _ => Call::Post(wild_number(dice, 1)),
    }
}

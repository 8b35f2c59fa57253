//! Keys, and words that are none.
use crate::dice::Dice;
use trials_model::{Key, Order};

// The load of a number, among them the first and the last that there are.
fn load(number: u64) -> Key {
    let hi = match number % 5 {
        0 => 1,
        1 => 9_999,
        _ => 7,
    };
    let lo = match number / 5 {
        0 => 4_294_967_295,
        row => row.saturating_sub(1).saturating_mul(10),
    };
    Key { hi, lo }
}

// The letter of a number: some letters, and the signs on both sides of them.
fn letter(number: u64, small: bool) -> u8 {
    let capital = match number % 8 {
        0 => b'A',
        1 => b'B',
        2 => b'M',
        3 => b'Y',
        4 => b'Z',
        5 => return b'@',
        6 => return b'[',
        _ => return b'{',
    };
    if small { capital ^ 32 } else { capital }
}

// The name of a number, each letter of it small or great by chance. Every third name is long.
fn name(dice: &mut Dice, number: u64) -> Key {
    let mut text = [0u8; 16];
    let mut rest = number.saturating_add(1);
    let case = dice.word();
    let fixed = if number % 3 == 0 { 9 } else { 0 };
    for (i, byte) in text.iter_mut().enumerate() {
        let small = case.wrapping_shr(i as u32) % 2 == 0;
        if i < fixed {
            *byte = letter(i as u64 % 5, small);
        } else if rest > 0 {
            *byte = letter(rest, small);
            rest /= 8;
        }
    }
    let [a, b, c, d, e, f, g, h, i, j, k, l, m, n, o, p] = text;
    Key {
        hi: u64::from_be_bytes([a, b, c, d, e, f, g, h]),
        lo: u64::from_be_bytes([i, j, k, l, m, n, o, p]),
    }
}

/// Draws one of so many keys of an order. A name comes in all ways of writing it.
pub fn draw_key(dice: &mut Dice, order: Order, keys: u64) -> Key {
    let number = dice.below(keys);
    match order {
        Order::Loads => load(number),
        Order::Places => name(dice, number),
    }
}

/// Draws words that are mostly no key: at the edges of the ranges, with a byte that no name has, or any.
pub fn draw_no_key(dice: &mut Dice, order: Order) -> Key {
    let edges = match order {
        Order::Loads => [0, 10_000, 4_294_967_296, u64::MAX, 9_999],
        Order::Places => [
            0,
            0x2000_0000_0000_0000,
            0x4100_4100_0000_0000,
            0x417f_0000_0000_0000,
            0x00ff_ffff_ffff_ffff,
        ],
    };
    match dice.below(3) {
        0 => Key {
            hi: dice.pick(&edges),
            lo: dice.pick(&[0, 1, 5]),
        },
        1 => {
            let lo = dice.pick(&edges);
            // a truck that there is, where the second is none
            let hi = if order == Order::Loads && lo > 10_000 {
                7
            } else {
                0x4142_4344_4546_4748
            };
            Key { hi, lo }
        }
        _ => Key {
            hi: dice.word(),
            lo: dice.word(),
        },
    }
}

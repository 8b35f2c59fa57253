//! Damaged words: a store with some of its words turned, and pages of words that only look like pages.
use crate::dice::Dice;
use crate::keys::{draw_key, draw_no_key};
use trials_model::Order;

fn set(words: &mut [u64], page: u64, i: u64, word: u64) {
    let at = page.saturating_mul(64).saturating_add(i);
    if let Some(place) = words.get_mut(at as usize) {
        *place = word;
    }
}

fn get(words: &[u64], page: u64, i: u64) -> u64 {
    let at = page.saturating_mul(64).saturating_add(i);
    words.get(at as usize).copied().unwrap_or(0)
}

// A page number, right or wrong.
fn link(dice: &mut Dice, page: u64, pages: u64) -> u64 {
    match dice.below(8) {
        0 => page,
        1 => 0,
        2 => pages,
        3 => 1 << 58,
        4 => u64::MAX,
        _ => dice.below(pages),
    }
}

// Two words that are a key, or not.
fn put_key(dice: &mut Dice, words: &mut [u64], page: u64, i: u64, order: Order) {
    let key = if dice.one_in(3) {
        draw_no_key(dice, order)
    } else {
        draw_key(dice, order, 40)
    };
    set(words, page, i, key.hi);
    set(words, page, i.saturating_add(1), key.lo);
}

// Turns a word of page 0: the chain's head, the root, the words behind them, or those that an attach tests.
fn damage_description(dice: &mut Dice, words: &mut [u64], pages: u64) {
    match dice.below(14) {
        12 | 13 => odd_root(dice, words),
        0..=3 => {
            let head = link(dice, 1, pages);
            set(words, 0, 3, head);
        }
        4..=7 => {
            let root = link(dice, 2, pages);
            set(words, 0, 4, root);
        }
        8 => set(words, 0, 0, dice.pick(&[0, 1, 2, 4])),
        9 => set(words, 0, 1, dice.pick(&[0, 1, 2, pages, pages, u64::MAX])),
        10 => set(words, 0, 2, dice.pick(&[3, 4, 5, 18, 19])),
        _ => set(words, 0, dice.between(5, 63), dice.word()),
    }
}

// A root that is gone, or of the highest level that there is, or next to it, with a page beside it.
fn odd_root(dice: &mut Dice, words: &mut [u64]) {
    let root = get(words, 0, 4);
    if dice.one_in(2) {
        gone_root(dice, words, root);
        return;
    }
    set(words, root, 0, 1);
    set(words, root, 1, dice.pick(&[4_094, 4_095, 4_095, 4_096]));
    set(words, root, 2, 1);
    set(words, root, 3, 1);
}

// A gone root, on which jobs begin, with a level and a count that a page has or does not have.
fn gone_root(dice: &mut Dice, words: &mut [u64], root: u64) {
    set(words, root, 0, 2);
    set(words, root, 1, dice.pick(&[0, 1, 4_095, 4_096]));
    set(words, root, 2, dice.pick(&[0, 4, 18, 19]));
}

// Two entries of a page lead to one child, which is its own right neighbour.
fn one_child_twice(words: &mut [u64], page: u64) {
    let child = get(words, page, 12);
    set(words, page, 15, child);
    set(words, child, 3, child);
    set(words, child, 2, 1);
}

// Gone pages that point to each other.
fn circle(dice: &mut Dice, words: &mut [u64], page: u64, pages: u64) {
    let other = dice.below(pages);
    set(words, page, 0, 2);
    set(words, page, 3, other);
    if other != 0 {
        set(words, other, 0, 2);
        set(words, other, 3, page);
    }
}

// Turns words of one page.
fn damage_page(dice: &mut Dice, words: &mut [u64], page: u64, pages: u64, order: Order) {
    match dice.below(14) {
        0 => set(words, page, 0, dice.pick(&[0, 1, 2, 3, u64::MAX])),
        1 => set(
            words,
            page,
            1,
            dice.pick(&[0, 1, 2, 3, 4_094, 4_095, 4_096, u64::MAX]),
        ),
        2 => set(
            words,
            page,
            2,
            dice.pick(&[0, 1, 2, 4, 5, 18, 19, u64::MAX]),
        ),
        3 | 4 => {
            let next = link(dice, page, pages);
            set(words, page, 3, next);
        }
        5 => set(
            words,
            page,
            dice.pick(&[4, 7]),
            dice.pick(&[0, 1, 2, u64::MAX]),
        ),
        6 => {
            let i = dice.pick(&[5, 8]);
            put_key(dice, words, page, i, order);
        }
        // no start, and words where its key would be
        7 => {
            set(words, page, 4, 0);
            put_key(dice, words, page, 5, order);
        }
        8 => {
            let i = dice.below(6).saturating_mul(3).saturating_add(10);
            put_key(dice, words, page, i, order);
        }
        9 => {
            let i = dice.below(6).saturating_mul(3).saturating_add(12);
            let child = link(dice, page, pages);
            set(words, page, i, child);
        }
        10 => set(words, page, dice.between(10, 63), dice.word()),
        11 => circle(dice, words, page, pages),
        _ => one_child_twice(words, page),
    }
}

// A page with this flag and a level above this one, if a few draws meet one; else any.
fn find_page(dice: &mut Dice, words: &[u64], pages: u64, flag: u64, level: u64) -> u64 {
    for _ in 0..24 {
        let page = dice.below(pages);
        if get(words, page, 0) == flag && get(words, page, 1) >= level {
            return page;
        }
    }
    dice.below(pages)
}

/// Turns a few words of a store.
pub fn damage_words(dice: &mut Dice, words: &mut [u64], order: Order) {
    let pages = (words.len() / 64) as u64;
    let times = dice.between(1, 6);
    for _ in 0..times {
        let page = match dice.below(6) {
            0 | 1 => find_page(dice, words, pages, 1, 1),
            2 => find_page(dice, words, pages, 2, 0),
            3 => 0,
            _ => dice.below(pages),
        };
        if page == 0 {
            damage_description(dice, words, pages);
        } else {
            damage_page(dice, words, page, pages, order);
        }
    }
}

// Words that look like a page: small flags, levels and counts, and links to pages that are there.
fn cook_page(dice: &mut Dice, words: &mut [u64], page: u64, pages: u64, order: Order) {
    set(words, page, 0, dice.pick(&[0, 1, 1, 1, 1, 2, 2, 3]));
    set(words, page, 1, dice.pick(&[0, 0, 0, 1, 1, 2]));
    set(words, page, 2, dice.below(6));
    let next = link(dice, page, pages);
    set(words, page, 3, next);
    for i in [4, 7] {
        set(words, page, i, dice.pick(&[0, 0, 1, 2]));
        put_key(dice, words, page, i + 1, order);
    }
    for entry in 0..6u64 {
        let i = entry.saturating_mul(3).saturating_add(10);
        put_key(dice, words, page, i, order);
        let child = link(dice, page, pages);
        set(words, page, i.saturating_add(2), child);
    }
}

/// Fills a store with words that look like the pages of an index, and that nothing ties together.
pub fn soup(dice: &mut Dice, words: &mut [u64], fill: u64, order: Order) {
    let pages = (words.len() / 64) as u64;
    for page in 1..pages {
        cook_page(dice, words, page, pages, order);
    }
    let head = dice.below(pages);
    let root = dice.below(pages);
    for (i, word) in [3, pages, fill, head, root].into_iter().enumerate() {
        set(words, 0, i as u64, word);
    }
}

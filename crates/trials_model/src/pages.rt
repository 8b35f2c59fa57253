//! Pages as owned values, read from 64 words and written to them.
use crate::keys::Key;
use std::alloc::{AllocError, Global};

/// The words of a page.
pub(crate) const WORDS: usize = 64;

// The words before the entries, and those of an entry.
const HEAD: usize = 10;

const ENTRY: usize = 3;

// The highest level of a page that can be read.
pub(crate) const TOP_LEVEL: u64 = 4_095;

/// A page: what a job or upkeep can find at a page's number.
#[derive(Debug, Drop)]
pub enum Page {
    /// A live page of level 0.
    Leaf {
        /// The right neighbour, or 0.
        next: u64,
        /// The first key of its range, if it has one.
        start: Option<Key>,
        /// The first key behind its range, if there is one.
        end: Option<Key>,
        /// The entries: keys with their values.
        entries: Vec<(Key, u64)>,
    },
    /// A live page of a higher level.
    Inner {
        /// The level, from 1 on.
        level: u64,
        /// The right neighbour, or 0.
        next: u64,
        /// The first key of its range, if it has one.
        start: Option<Key>,
        /// The first key behind its range, if there is one.
        end: Option<Key>,
        /// The child of the first entry, whose key is the start.
        first: u64,
        /// The other entries: keys with their children.
        others: Vec<(Key, u64)>,
    },
    /// A page that was merged into another one.
    Gone {
        /// The level that it had.
        level: u64,
        /// The page that took its entries.
        next: u64,
        /// The start that it had.
        start: Option<Key>,
    },
    /// A page that is not in use.
    Free {
        /// The next free page, or 0.
        next: u64,
    },
    /// A gone page with a level or a count that no page has: it points on, but no job can stand on it.
    Wreck {
        /// The page that took its entries.
        next: u64,
    },
    /// Words that are none of these.
    Damaged,
}

// The word at a place; there is none behind the last.
fn at(words: &[u64], i: usize) -> u64 {
    words.get(i).copied().unwrap_or(0)
}

fn key_at(words: &[u64], i: usize) -> Key {
    Key {
        hi: at(words, i),
        lo: at(words, i.saturating_add(1)),
    }
}

// A start or an end: its flag and its key.
fn bound_at(words: &[u64], i: usize) -> Option<Key> {
    if at(words, i) == 0 {
        None
    } else {
        Some(key_at(words, i.saturating_add(1)))
    }
}

// The entries from number `from` up to number `to`.
fn entries_at(
    alloc: Global,
    words: &[u64],
    from: u64,
    to: u64,
) -> Result<Vec<(Key, u64)>, AllocError> {
    let mut entries = Vec::new(alloc);
    for n in from..to {
        let i = (n as usize).saturating_mul(ENTRY).saturating_add(HEAD);
        entries.push((key_at(words, i), at(words, i.saturating_add(2))))?;
    }
    Ok(entries)
}

fn live_page(alloc: Global, words: &[u64], level: u64, count: u64) -> Result<Page, AllocError> {
    let next = at(words, 3);
    let start = bound_at(words, 4);
    let end = bound_at(words, 7);
    if level == 0 {
        let entries = entries_at(alloc, words, 0, count)?;
        return Ok(Page::Leaf {
            next,
            start,
            end,
            entries,
        });
    }
    if count == 0 {
        return Ok(Page::Damaged);
    }
    Ok(Page::Inner {
        level,
        next,
        start,
        end,
        first: at(words, HEAD.saturating_add(2)),
        others: entries_at(alloc, words, 1, count)?,
    })
}

/// The page that 64 words hold, in an index of this fill.
pub fn page_of(alloc: Global, words: &[u64], fill: u64) -> Result<Page, AllocError> {
    let level = at(words, 1);
    let count = at(words, 2);
    let next = at(words, 3);
    let read = level <= TOP_LEVEL && count <= fill;
    match at(words, 0) {
        0 => Ok(Page::Free { next }),
        1 if read => live_page(alloc, words, level, count),
        2 if read => Ok(Page::Gone {
            level,
            next,
            start: bound_at(words, 4),
        }),
        2 => Ok(Page::Wreck { next }),
        _ => Ok(Page::Damaged),
    }
}

// Puts a word at a place; there is none behind the last.
fn put(words: &mut [u64; WORDS], i: usize, word: u64) {
    if let Some(place) = words.get_mut(i) {
        *place = word;
    }
}

fn put_key(words: &mut [u64; WORDS], i: usize, key: Key) {
    put(words, i, key.hi);
    put(words, i.saturating_add(1), key.lo);
}

fn put_bound(words: &mut [u64; WORDS], i: usize, bound: Option<Key>) {
    if let Some(key) = bound {
        put(words, i, 1);
        put_key(words, i.saturating_add(1), key);
    }
}

fn put_head(words: &mut [u64; WORDS], flag: u64, level: u64, count: usize, next: u64) {
    put(words, 0, flag);
    put(words, 1, level);
    put(words, 2, count as u64);
    put(words, 3, next);
}

fn put_entries(words: &mut [u64; WORDS], from: usize, entries: &[(Key, u64)]) {
    for (n, (key, word)) in entries.iter().enumerate() {
        let i = n
            .saturating_add(from)
            .saturating_mul(ENTRY)
            .saturating_add(HEAD);
        put_key(words, i, *key);
        put(words, i.saturating_add(2), *word);
    }
}

/// The 64 words of a page, as a step writes them. A page that no step writes has none but zeros.
pub fn words_of(page: &Page) -> [u64; WORDS] {
    let mut words = [0; WORDS];
    match page {
        Page::Leaf {
            next,
            start,
            end,
            entries,
        } => {
            put_head(&mut words, 1, 0, entries.len(), *next);
            put_bound(&mut words, 4, *start);
            put_bound(&mut words, 7, *end);
            put_entries(&mut words, 0, entries.as_slice());
        }
        Page::Inner {
            level,
            next,
            start,
            end,
            first,
            others,
        } => {
            put_head(&mut words, 1, *level, others.len().saturating_add(1), *next);
            put_bound(&mut words, 4, *start);
            put_bound(&mut words, 7, *end);
            put_key(&mut words, HEAD, start.unwrap_or(Key { hi: 0, lo: 0 }));
            put(&mut words, HEAD.saturating_add(2), *first);
            put_entries(&mut words, 1, others.as_slice());
        }
        Page::Gone { level, next, start } => {
            put_head(&mut words, 2, *level, 0, *next);
            put_bound(&mut words, 4, *start);
        }
        Page::Free { next } => put_head(&mut words, 0, 0, 0, *next),
        Page::Wreck { .. } | Page::Damaged => {}
    }
    words
}

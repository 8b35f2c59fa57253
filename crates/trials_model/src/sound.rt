//! The soundness test: whether words are a sound store, by the seven rules of docs/FORMAT.md; and their entries.
use crate::keys::{Key, Order, Rank};
use crate::pages::{Page, WORDS, page_of, words_of};
use std::alloc::{AllocError, Global};

// A store as the test sees it.
#[derive(Debug, Drop)]
struct Store {
    order: Order,
    pages: Vec<Page>,
    head: u64,
    root: u64,
}

// A live page as the test sees it.
#[derive(Clone, Copy, Debug)]
struct Live {
    level: u64,
    next: u64,
    start: Option<Key>,
    end: Option<Key>,
}

fn live_part(page: &Page) -> Option<Live> {
    match page {
        Page::Leaf {
            next,
            start,
            end,
            ..
        } => Some(Live {
            level: 0,
            next: *next,
            start: *start,
            end: *end,
        }),
        Page::Inner {
            level,
            next,
            start,
            end,
            ..
        } => Some(Live {
            level: *level,
            next: *next,
            start: *start,
            end: *end,
        }),
        Page::Gone { .. } | Page::Free { .. } | Page::Wreck { .. } | Page::Damaged => None,
    }
}

// A start as a height: having none is lowest.
fn start_height(order: Order, start: Option<Key>) -> (bool, Rank) {
    match start {
        Some(key) => (true, order.rank(key)),
        None => (false, Rank(0, 0)),
    }
}

// Page 0 as it has to be, and the store behind it.
fn read_store(alloc: Global, order: Order, words: &[u64]) -> Result<Option<Store>, AllocError> {
    let count = (words.len() / WORDS).min(4_096);
    let [mark, said, fill, head, root, ..] = words else {
        return Ok(None);
    };
    let described = *mark == 3 && *said == count as u64 && (4..=18).contains(fill);
    let rest = words.iter().take(WORDS).skip(5).all(|word| *word == 0);
    if count < 2 || !described || !rest {
        return Ok(None);
    }
    let mut pages = vec![in alloc; Page::Damaged]?;
    for page in words.chunks(WORDS).take(count).skip(1) {
        pages.push(page_of(alloc, page, *fill)?)?;
    }
    Ok(Some(Store {
        order,
        pages,
        head: *head,
        root: *root,
    }))
}

impl Store {
    fn page(&self, number: u64) -> Option<&Page> {
        self.pages.get(number as usize)
    }

    fn live_at(&self, number: u64) -> Option<Live> {
        live_part(self.page(number)?)
    }

    // Rule 1: the root is a live page without a start, and no live page is on a higher level.
    fn has_root(&self) -> bool {
        let Some(root) = self.live_at(self.root) else {
            return false;
        };
        let lives = self.pages.as_slice().iter().filter_map(live_part);
        root.start.is_none()
            && lives
                .map(|page| page.level)
                .all(|level| level <= root.level)
    }

    fn is_bound(&self, bound: Option<Key>) -> bool {
        bound.is_none_or(|key| self.order.is_key(key))
    }

    fn are_keys(&self, entries: &[(Key, u64)]) -> bool {
        entries.iter().all(|(key, _)| self.order.is_key(*key))
    }

    // Rule 2: a page has one of the three forms, its unused words are 0, and its keys are keys.
    fn is_formed(&self, page: &Page, words: &[u64]) -> bool {
        let keyed = match page {
            Page::Leaf {
                start,
                end,
                entries,
                ..
            } => self.is_bound(*start) && self.is_bound(*end) && self.are_keys(entries.as_slice()),
            Page::Inner {
                start,
                end,
                others,
                ..
            } => self.is_bound(*start) && self.is_bound(*end) && self.are_keys(others.as_slice()),
            Page::Gone { start, .. } => self.is_bound(*start),
            Page::Free { .. } => true,
            Page::Wreck { .. } | Page::Damaged => false,
        };
        keyed && words_of(page).as_slice() == words
    }

    fn is_all_formed(&self, words: &[u64]) -> bool {
        let pages = self.pages.as_slice().iter().zip(words.chunks(WORDS));
        pages
            .skip(1)
            .all(|(page, words)| self.is_formed(page, words))
    }

    // The live page of a level that has no start, if it is the only one.
    fn leftmost(&self, level: u64) -> Option<u64> {
        let mut found = None;
        for (number, page) in self.pages.as_slice().iter().enumerate() {
            let here = live_part(page).is_some_and(|page| page.level == level
                && page.start.is_none());
            if here && found.is_some() {
                return None;
            }
            if here {
                found = Some(number as u64);
            }
        }
        found
    }

    fn count_on(&self, level: u64) -> usize {
        let lives = self.pages.as_slice().iter().filter_map(live_part);
        lives.filter(|page| page.level == level).count()
    }

    // Whether a page and its right neighbour meet: the end of one is the start of the other, which is behind its own.
    fn meet(&self, left: Live, right: Live) -> bool {
        let rises = start_height(self.order, left.start) < start_height(self.order, right.start);
        left.level == right.level && left.end.is_some() && left.end == right.start && rises
    }

    // Rule 3, on one level: starts rise along the chain, so it meets no page twice.
    fn is_chained(&self, level: u64) -> bool {
        let Some(mut at) = self.leftmost(level).and_then(|first| self.live_at(first)) else {
            return false;
        };
        for _ in 1..self.count_on(level) {
            match self.live_at(at.next) {
                Some(right) if self.meet(at, right) => at = right,
                _ => return false,
            }
        }
        at.end.is_none() && at.next == 0
    }

    fn is_all_chained(&self) -> bool {
        let top = self.live_at(self.root).map_or(0, |root| root.level);
        for level in 0..=top {
            if !self.is_chained(level) {
                return false;
            }
        }
        true
    }

    // Whether keys rise strictly from a start (itself allowed or not) and stay before an end.
    fn rise(
        &self,
        start: Option<Key>,
        from: bool,
        entries: &[(Key, u64)],
        end: Option<Key>,
    ) -> bool {
        let mut last = start_height(self.order, start);
        let mut may_be_start = from;
        for (key, _) in entries {
            let here = start_height(self.order, Some(*key));
            let behind = last < here || (may_be_start && last == here);
            if !behind || !self.order.is_within(*key, end) {
                return false;
            }
            last = here;
            may_be_start = false;
        }
        true
    }

    // Rule 4: the keys of a page rise within its range.
    fn is_risen(&self, page: &Page) -> bool {
        match page {
            Page::Leaf {
                start,
                end,
                entries,
                ..
            } => self.rise(*start, true, entries.as_slice(), *end),
            Page::Inner {
                start,
                end,
                others,
                ..
            } => self.rise(*start, false, others.as_slice(), *end),
            _ => true,
        }
    }

    // Whether a child is live, one level lower, with this start.
    fn is_child(&self, number: u64, above: u64, start: Option<Key>) -> bool {
        self.live_at(number).is_some_and(|child| child.level.saturating_add(1) == above
            && child.start == start)
    }

    // Rule 5: the children of an inner page.
    fn is_parent(&self, page: &Page) -> bool {
        match page {
            Page::Inner {
                level,
                start,
                first,
                others,
                ..
            } => {
                let rest = others.as_slice().iter();
                self.is_child(*first, *level, *start)
                    && rest
                        .map(|(key, child)| (*child, Some(*key)))
                        .all(|(child, start)| self.is_child(child, *level, start))
            }
            _ => true,
        }
    }

    // Rule 6: a gone page points to the left.
    fn is_pointing_left(&self, page: &Page) -> bool {
        let Page::Gone { level, next, start } = page else {
            return true;
        };
        let target = match self.page(*next) {
            Some(Page::Gone { level, start, .. }) => Some((*level, *start)),
            Some(page) => live_part(page).map(|page| (page.level, page.start)),
            None => None,
        };
        target.is_some_and(|(at, from)| {
            at == *level && start_height(self.order, from) < start_height(self.order, *start)
        })
    }

    // Rule 7: the free chain has as many pages as are free, and then ends.
    fn is_free_chain(&self) -> bool {
        let pages = self.pages.as_slice().iter();
        let free = pages
            .filter(|page| matches!(page, Page::Free { .. }))
            .count();
        let mut at = self.head;
        for _ in 0..free {
            match self.page(at) {
                Some(Page::Free { next }) => at = *next,
                _ => return false,
            }
        }
        at == 0
    }

    // The first rule that is broken.
    fn broken_rule(&self, words: &[u64]) -> Option<u64> {
        let pages = self.pages.as_slice();
        let kept = [
            self.has_root(),
            self.is_all_formed(words),
            self.is_all_chained(),
            pages.iter().all(|page| self.is_risen(page)),
            pages.iter().all(|page| self.is_parent(page)),
            pages.iter().all(|page| self.is_pointing_left(page)),
            self.is_free_chain(),
        ];
        let broken = kept.iter().position(|kept| !*kept)?;
        Some((broken as u64).saturating_add(1))
    }
}

/// The first of the seven rules of a sound store, by its number, that these words break.
pub fn unsound(alloc: Global, order: Order, words: &[u64]) -> Result<Option<u64>, AllocError> {
    match read_store(alloc, order, words)? {
        Some(store) => Ok(store.broken_rule(words)),
        None => Ok(Some(1)),
    }
}

/// The entries of a sound store: those of its leaves, from left to right.
pub fn entries_of(
    alloc: Global,
    order: Order,
    words: &[u64],
) -> Result<Vec<(Key, u64)>, AllocError> {
    let mut all = Vec::new(alloc);
    let Some(store) = read_store(alloc, order, words)? else {
        return Ok(all);
    };
    let mut at = store.leftmost(0).unwrap_or(0);
    for _ in 0..store.count_on(0) {
        if let Some(Page::Leaf { next, entries, .. }) = store.page(at) {
            for entry in entries.as_slice() {
                all.push(*entry)?;
            }
            at = *next;
        }
    }
    Ok(all)
}

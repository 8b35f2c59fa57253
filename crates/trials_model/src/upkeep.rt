//! Upkeep: post, merge, raise and sweep.
use crate::keys::{Key, Order, Rank};
use crate::model::{Answer, Model};
use crate::pages::{Page, TOP_LEVEL};
use crate::turns::{insert_at, remove_at};
use std::alloc::{AllocError, Global};

// What upkeep wants to know of a child.
#[derive(Clone, Copy, Debug)]
struct Child {
    number: u64,
    next: u64,
    end: Option<Key>,
    count: u64,
}

// What upkeep knows of an inner page: its end, the keys of the entries behind the first, and all its children.
#[derive(Debug, Drop)]
struct Family {
    end: Option<Key>,
    keys: Vec<Key>,
    children: Vec<Child>,
}

// Where a bound stands: no bound is behind every key.
fn height(order: Order, bound: Option<Key>) -> (bool, Rank) {
    match bound {
        Some(key) => (false, order.rank(key)),
        None => (true, Rank(0, 0)),
    }
}

// How many entries a page has.
fn count_of(page: &Page) -> u64 {
    match page {
        Page::Leaf { entries, .. } => entries.len() as u64,
        Page::Inner { others, .. } => (others.len() as u64).saturating_add(1),
        Page::Gone { .. } | Page::Free { .. } | Page::Wreck { .. } | Page::Damaged => 0,
    }
}

// The child of this number, if it is live and one lower than a level.
fn child_below(page: Option<&Page>, number: u64, above: u64) -> Option<Child> {
    let page = page?;
    let (level, next, end) = match page {
        Page::Leaf { next, end, .. } => (0, *next, *end),
        Page::Inner {
            level,
            next,
            end,
            ..
        } => (*level, *next, *end),
        Page::Gone { .. } | Page::Free { .. } | Page::Wreck { .. } | Page::Damaged => return None,
    };
    let count = count_of(page);
    (level.saturating_add(1) == above).then_some(Child {
        number,
        next,
        end,
        count,
    })
}

// The numbers of the children of an inner page.
fn numbers_of(alloc: Global, first: u64, others: &[(Key, u64)]) -> Result<Vec<u64>, AllocError> {
    let mut numbers = vec![in alloc; first]?;
    for (_, child) in others {
        numbers.push(*child)?;
    }
    Ok(numbers)
}

impl Family {
    // The place of the first child that ends short of what follows it, with its end and its neighbour.
    fn short_child(&self, order: Order) -> Option<(usize, Key, u64)> {
        for (i, child) in self.children.as_slice().iter().enumerate() {
            let following = self.keys.get(i).copied();
            let limit = if following.is_some() {
                following
            } else {
                self.end
            };
            if let Some(end) = child.end
                && height(order, child.end) < height(order, limit)
            {
                return Some((i, end, child.next));
            }
        }
        None
    }

    // The place of the first child that can take its neighbour in, with both.
    fn small_pair(&self, fill: u64) -> Option<(usize, Child, Child)> {
        let children = self.children.as_slice();
        for (i, (left, right)) in children.iter().zip(children.iter().skip(1)).enumerate() {
            let together = left.count.saturating_add(right.count);
            let small = together <= fill / 2 || left.count == 0 || right.count == 0;
            if left.next == right.number && small {
                return Some((i, *left, *right));
            }
        }
        None
    }
}

// Adds one page's entries, neighbour and end to another one of its kind.
fn join(left: &mut Page, right: &Page) -> Result<(), AllocError> {
    match (left, right) {
        (
            Page::Leaf {
                next,
                end,
                entries,
                ..
            },
            Page::Leaf {
                next: right_next,
                end: right_end,
                entries: right_entries,
                ..
            },
        ) => {
            for entry in right_entries.as_slice() {
                entries.push(*entry)?;
            }
            *next = *right_next;
            *end = *right_end;
        }
        (
            Page::Inner {
                next,
                end,
                others,
                ..
            },
            Page::Inner {
                next: right_next,
                end: right_end,
                start,
                first,
                others: right_others,
                ..
            },
        ) => {
            others.push((start.unwrap_or(Key { hi: 0, lo: 0 }), *first))?;
            for entry in right_others.as_slice() {
                others.push(*entry)?;
            }
            *next = *right_next;
            *end = *right_end;
        }
        _ => {}
    }
    Ok(())
}

// What a page is once another one has its entries.
fn gone(page: &Page, taker: u64) -> Page {
    match page {
        Page::Leaf { start, .. } => Page::Gone {
            level: 0,
            next: taker,
            start: *start,
        },
        Page::Inner { level, start, .. } => Page::Gone {
            level: *level,
            next: taker,
            start: *start,
        },
        Page::Gone { .. } | Page::Free { .. } | Page::Wreck { .. } | Page::Damaged => Page::Damaged,
    }
}

impl Model {
    // The inner page of a number with its children, or the refusal: 10, or 8 with the first bad child.
    fn family(&self, number: u64) -> Result<Result<Family, Answer>, AllocError> {
        let Some(
            Page::Inner {
                level,
                end,
                first,
                others,
                ..
            },
        ) = self.page(number)
        else {
            return Ok(Err((10, 0)));
        };
        let mut keys = Vec::new(self.alloc());
        for (key, _) in others.as_slice() {
            keys.push(*key)?;
        }
        let mut children = Vec::new(self.alloc());
        let numbers = numbers_of(self.alloc(), *first, others.as_slice())?;
        for child in numbers.as_slice() {
            match child_below(self.page(*child), *child, *level) {
                Some(child) => children.push(child)?,
                None => return Ok(Err((8, *child))),
            }
        }
        Ok(Ok(Family {
            end: *end,
            keys,
            children,
        }))
    }

    pub(crate) fn post(&mut self, number: u64) -> Result<Answer, AllocError> {
        let family = match self.family(number)? {
            Ok(family) => family,
            Err(refusal) => return Ok(refusal),
        };
        let Some((i, key, neighbour)) = family.short_child(self.order) else {
            return Ok((11, 0));
        };
        if family.children.len() as u64 >= self.fill {
            return self.split(number);
        }
        if let Some(Page::Inner { others, .. }) = self.pages.get_mut(number as usize) {
            insert_at(others, i, (key, neighbour))?;
        }
        self.write_again(number);
        Ok((29, neighbour))
    }

    pub(crate) fn merge(&mut self, number: u64) -> Result<Answer, AllocError> {
        let family = match self.family(number)? {
            Ok(family) => family,
            Err(refusal) => return Ok(refusal),
        };
        let Some((i, left, right)) = family.small_pair(self.fill) else {
            return Ok((11, 0));
        };
        let behind = match self.page(right.number) {
            Some(page) => gone(page, left.number),
            None => Page::Damaged,
        };
        self.take_in(left.number, right.number)?;
        self.set_page(right.number, behind);
        if let Some(Page::Inner { others, .. }) = self.pages.get_mut(number as usize) {
            remove_at(others, i);
        }
        self.write_again(number);
        Ok((30, right.number))
    }

    // The left page takes the right one's entries, neighbour and end. Both may be one page.
    fn take_in(&mut self, left: u64, right: u64) -> Result<(), AllocError> {
        let mut taken = Page::Damaged;
        if let Some(page) = self.pages.get_mut(left as usize) {
            std::mem::swap(&mut taken, page);
        }
        if let Some(page) = self.page(right) {
            join(&mut taken, page)?;
        }
        self.set_page(left, taken);
        Ok(())
    }

    pub(crate) fn raise(&mut self) -> Result<Answer, AllocError> {
        let (level, next) = match self.page(self.root) {
            Some(Page::Leaf { next, .. }) => (0, *next),
            Some(Page::Inner { level, next, .. }) if *level < TOP_LEVEL => (*level, *next),
            _ => return Ok((8, self.root)),
        };
        if next == 0 {
            return Ok((11, 0));
        }
        let (number, chain) = match self.free_page() {
            Ok(found) => found,
            Err(refusal) => return Ok(refusal),
        };
        let page = Page::Inner {
            level: level.saturating_add(1),
            next: 0,
            start: None,
            end: None,
            first: self.root,
            others: Vec::new(self.alloc()),
        };
        self.root = number;
        self.use_free_page(chain, page);
        Ok((31, number))
    }

    // Whether a gone page points to this one.
    fn is_pointed_to(&self, number: u64) -> bool {
        self.pages.as_slice().iter().any(|page| match page {
            Page::Gone { next, .. } | Page::Wreck { next } => *next == number,
            _ => false,
        })
    }

    fn is_stood_on(&self, number: u64) -> bool {
        self.jobs
            .iter()
            .any(|job| job.is_some_and(|job| job.page == number))
    }

    fn is_left(&self, number: u64) -> bool {
        let gone = matches!(
            self.page(number),
            Some(Page::Gone { .. } | Page::Wreck { .. })
        );
        gone && !self.is_stood_on(number) && !self.is_pointed_to(number)
    }

    // The gone pages that nothing leads to, in rising order.
    fn left_pages(&self) -> Result<Vec<u64>, AllocError> {
        let mut left = Vec::new(self.alloc());
        for number in 0..self.page_count() {
            if self.is_left(number) {
                left.push(number)?;
            }
        }
        Ok(left)
    }

    pub(crate) fn sweep(&mut self) -> Result<Answer, AllocError> {
        let left = self.left_pages()?;
        if left.is_empty() {
            return Ok((11, 0));
        }
        for number in left.as_slice() {
            let next = self.head;
            self.set_page(*number, Page::Free { next });
            self.head = *number;
        }
        self.describe();
        Ok((32, left.len() as u64))
    }
}

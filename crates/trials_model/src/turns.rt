//! Jobs: how they begin, take their turns and are withdrawn; and how a full page is split.
use crate::keys::{Key, Order, Rank};
use crate::model::{Answer, CONSOLES, Job, Kind, Model};
use crate::pages::Page;
use std::alloc::{AllocError, Global};

// What a turn comes to at its page.
enum Step {
    // The job goes to a page.
    Go(u64),
    // The job is finished with a code and a figure.
    Finish(u64, u64),
    // The page is full.
    Split,
    // There is no such page to read.
    Unreadable,
}

impl Order {
    // Whether a key is before a bound, which is there only sometimes.
    pub(crate) fn is_within(self, key: Key, end: Option<Key>) -> bool {
        match end {
            Some(end) => self.rank(key) < self.rank(end),
            None => true,
        }
    }

    // The child to which a key leads.
    fn child(self, key: Key, first: u64, others: &[(Key, u64)]) -> u64 {
        let rank = self.rank(key);
        let mut child = first;
        for (other, page) in others {
            if self.rank(*other) <= rank {
                child = *page;
            }
        }
        child
    }

    // Where the first entry of a rank stands, with its value.
    fn find(self, rank: Rank, entries: &[(Key, u64)]) -> Option<(usize, u64)> {
        for (i, (key, value)) in entries.iter().enumerate() {
            if self.rank(*key) == rank {
                return Some((i, *value));
            }
        }
        None
    }

    // Where a new entry of a rank goes.
    fn place(self, rank: Rank, entries: &[(Key, u64)]) -> usize {
        for (i, (key, _)) in entries.iter().enumerate() {
            if self.rank(*key) > rank {
                return i;
            }
        }
        entries.len()
    }
}

// Puts one more entry at a place, or last.
pub(crate) fn insert_at(
    entries: &mut Vec<(Key, u64)>,
    i: usize,
    entry: (Key, u64),
) -> Result<(), AllocError> {
    if i < entries.len() {
        entries.insert(i, entry)?;
    } else {
        entries.push(entry)?;
    }
    Ok(())
}

// Takes the entry at a place out, if there is one.
pub(crate) fn remove_at(entries: &mut Vec<(Key, u64)>, i: usize) {
    if i < entries.len() {
        let _ = entries.remove(i);
    }
}

// Does a job at the entries of a leaf, which has room for this many; whether they changed comes with it.
fn at_leaf(
    order: Order,
    job: Job,
    entries: &mut Vec<(Key, u64)>,
    fill: u64,
) -> Result<(Step, bool), AllocError> {
    let rank = order.rank(job.key);
    let step = match (job.kind, order.find(rank, entries.as_slice())) {
        (Kind::Look, Some((_, value))) => (Step::Finish(23, value), false),
        (Kind::Look | Kind::Strike, None) => (Step::Finish(24, 0), false),
        (Kind::Strike, Some((i, value))) => {
            remove_at(entries, i);
            (Step::Finish(27, value), true)
        }
        (Kind::Enter, Some((_, value))) => (Step::Finish(26, value), false),
        (Kind::Enter, None) if (entries.len() as u64) < fill => {
            let i = order.place(rank, entries.as_slice());
            insert_at(entries, i, (job.key, job.value))?;
            (Step::Finish(25, 0), true)
        }
        (Kind::Enter, None) => (Step::Split, false),
    };
    Ok(step)
}

// Takes the job's step at its page, and says whether the page changed.
fn step_at(order: Order, job: Job, page: &mut Page, fill: u64) -> Result<(Step, bool), AllocError> {
    match page {
        Page::Gone { next, .. } => Ok((Step::Go(*next), false)),
        Page::Leaf {
            next,
            end,
            entries,
            ..
        } => {
            if order.is_within(job.key, *end) {
                at_leaf(order, job, entries, fill)
            } else {
                Ok((Step::Go(*next), false))
            }
        }
        Page::Inner {
            next,
            end,
            first,
            others,
            ..
        } => {
            let to = if order.is_within(job.key, *end) {
                order.child(job.key, *first, others.as_slice())
            } else {
                *next
            };
            Ok((Step::Go(to), false))
        }
        Page::Free { .. } | Page::Wreck { .. } | Page::Damaged => Ok((Step::Unreadable, false)),
    }
}

// The last `count` of some entries, which they lose.
fn cut_off(
    alloc: Global,
    entries: &mut Vec<(Key, u64)>,
    count: u64,
) -> Result<Vec<(Key, u64)>, AllocError> {
    let kept = entries.len().saturating_sub(count as usize);
    let mut last = Vec::new(alloc);
    for entry in entries.as_slice().iter().skip(kept) {
        last.push(*entry)?;
    }
    entries.truncate(kept);
    Ok(last)
}

// Cuts a full page in two: its upper half is given back as a page, and it gets that one's number as its neighbour.
fn halve(alloc: Global, page: &mut Page, fill: u64, number: u64) -> Result<Page, AllocError> {
    match page {
        Page::Leaf {
            next,
            end,
            entries,
            ..
        } => {
            let entries = cut_off(alloc, entries, fill / 2)?;
            let start = entries.first().map(|(key, _)| *key);
            let upper = Page::Leaf {
                next: *next,
                start,
                end: *end,
                entries,
            };
            *next = number;
            *end = start;
            Ok(upper)
        }
        Page::Inner {
            level,
            next,
            end,
            others,
            ..
        } => {
            let mut cut = cut_off(alloc, others, fill / 2)?;
            let start = cut.first().map(|(key, _)| *key);
            let first = cut.first().map_or(0, |(_, child)| *child);
            remove_at(&mut cut, 0);
            let upper = Page::Inner {
                level: *level,
                next: *next,
                start,
                end: *end,
                first,
                others: cut,
            };
            *next = number;
            *end = start;
            Ok(upper)
        }
        Page::Gone { .. } | Page::Free { .. } | Page::Wreck { .. } | Page::Damaged => {
            Ok(Page::Damaged)
        }
    }
}

impl Model {
    pub(crate) fn set_job(&mut self, console: u64, job: Option<Job>) {
        if let Some(place) = self.jobs.get_mut(console as usize) {
            *place = job;
        }
    }

    pub(crate) fn begin(&mut self, console: u64, kind: u64, key: Key, value: u64) -> Answer {
        if console >= CONSOLES {
            return (4, 0);
        }
        if self.job(console).is_some() {
            return (5, 0);
        }
        match Kind::of(kind) {
            Some(kind) if self.order.is_key(key) => {
                let page = self.root;
                let job = Job {
                    kind,
                    key,
                    value,
                    page,
                };
                self.set_job(console, Some(job));
                (20, 0)
            }
            _ => (7, 0),
        }
    }

    pub(crate) fn withdraw(&mut self, console: u64) -> Answer {
        if console >= CONSOLES {
            return (4, 0);
        }
        match self.job(console) {
            Some(job) => {
                self.set_job(console, None);
                (28, job.page)
            }
            None => (6, 0),
        }
    }

    // Writes the words of a page that was changed where it lies.
    pub(crate) fn write_again(&mut self, number: u64) {
        let mut taken = Page::Damaged;
        if let Some(page) = self.pages.get_mut(number as usize) {
            std::mem::swap(&mut taken, page);
        }
        self.set_page(number, taken);
    }

    pub(crate) fn turn(&mut self, console: u64) -> Result<Answer, AllocError> {
        if console >= CONSOLES {
            return Ok((4, 0));
        }
        let Some(job) = self.job(console) else {
            return Ok((6, 0));
        };
        let (order, fill) = (self.order, self.fill);
        let (step, changed) = match self.pages.get_mut(job.page as usize) {
            Some(page) => step_at(order, job, page, fill)?,
            None => (Step::Unreadable, false),
        };
        if changed {
            self.write_again(job.page);
        }
        match step {
            Step::Go(page) => {
                self.set_job(console, Some(Job { page, ..job }));
                Ok((21, page))
            }
            Step::Finish(code, figure) => {
                self.set_job(console, None);
                Ok((code, figure))
            }
            Step::Split => self.split(job.page),
            Step::Unreadable => Ok((8, job.page)),
        }
    }

    // Takes the first page off the free chain: its number and what becomes the head, or the refusal.
    pub(crate) fn free_page(&self) -> Result<(u64, u64), Answer> {
        if self.head == 0 {
            return Err((9, 0));
        }
        match self.page(self.head) {
            Some(Page::Free { next }) => Ok((self.head, *next)),
            _ => Err((8, self.head)),
        }
    }

    // Puts a page where the free chain begins, and takes that one off the chain.
    pub(crate) fn use_free_page(&mut self, next: u64, page: Page) {
        let number = self.head;
        self.set_page(number, page);
        self.head = next;
        self.describe();
    }

    // Splits a full page: 22 with the new one, or why there is none.
    pub(crate) fn split(&mut self, number: u64) -> Result<Answer, AllocError> {
        let (taken, next) = match self.free_page() {
            Ok(found) => found,
            Err(refusal) => return Ok(refusal),
        };
        let (alloc, fill) = (self.alloc(), self.fill);
        let upper = match self.pages.get_mut(number as usize) {
            Some(page) => halve(alloc, page, fill, taken)?,
            None => Page::Damaged,
        };
        self.write_again(number);
        self.use_free_page(next, upper);
        Ok((22, taken))
    }
}

//! The model: the words of a store, the pages that they hold, and the jobs of the consoles.
use crate::calls::Call;
use crate::keys::{Key, Order};
use crate::pages::{Page, WORDS, page_of, words_of};
use std::alloc::{AllocError, Global};

/// A code and a figure.
pub type Answer = (u64, u64);

// How many consoles there are.
pub(crate) const CONSOLES: u64 = 32;

// The most pages that an index has.
const MOST_PAGES: usize = 4_096;

// What page 0 begins with.
const MARK: u64 = 3;

/// What a job does.
#[derive(Clone, Copy, PartialEq, Eq, Debug)]
pub enum Kind {
    /// Tells the value of a key.
    Look,
    /// Enters a key with a value.
    Enter,
    /// Takes a key out.
    Strike,
}

impl Kind {
    /// The kind of a number, 1 to 3.
    pub fn of(number: u64) -> Option<Kind> {
        match number {
            1 => Some(Kind::Look),
            2 => Some(Kind::Enter),
            3 => Some(Kind::Strike),
            _ => None,
        }
    }
}

/// A console's job.
#[derive(Clone, Copy, PartialEq, Eq, Debug)]
pub struct Job {
    /// What it does.
    pub kind: Kind,
    /// At which key.
    pub key: Key,
    /// The value that it enters.
    pub value: u64,
    /// The page on which it stands.
    pub page: u64,
}

/// An index over words.
#[derive(Debug, Drop)]
pub struct Model {
    alloc: Global,
    pub(crate) order: Order,
    words: Vec<u64>,
    // page 0 among them, as a damaged one; none before the index is made
    pub(crate) pages: Vec<Page>,
    pub(crate) fill: u64,
    pub(crate) head: u64,
    pub(crate) root: u64,
    pub(crate) jobs: [Option<Job>; 32],
}

impl Model {
    /// An index over these words that is not made yet.
    pub fn new(alloc: Global, order: Order, words: Vec<u64>) -> Model {
        Model {
            alloc,
            order,
            words,
            pages: Vec::new(alloc),
            fill: 0,
            head: 0,
            root: 0,
            jobs: [None; 32],
        }
    }

    /// The words as they are now.
    pub fn words(&self) -> &[u64] {
        self.words.as_slice()
    }

    /// Whether the index is made.
    pub fn is_made(&self) -> bool {
        !self.pages.is_empty()
    }

    /// How many pages the index has, page 0 among them.
    pub fn page_count(&self) -> u64 {
        self.pages.len() as u64
    }

    /// The fill of a made index.
    pub fn fill(&self) -> u64 {
        self.fill
    }

    /// The pages, page 0 among them, whose own words are not shown.
    pub fn pages(&self) -> &[Page] {
        self.pages.as_slice()
    }

    /// The page with which jobs begin.
    pub fn root(&self) -> u64 {
        self.root
    }

    /// The job of a console.
    pub fn job(&self, console: u64) -> Option<Job> {
        self.jobs.get(console as usize).copied().flatten()
    }

    pub(crate) fn alloc(&self) -> Global {
        self.alloc
    }

    pub(crate) fn page(&self, number: u64) -> Option<&Page> {
        self.pages.get(number as usize)
    }

    // Puts a page at its number, and its words into the store.
    pub(crate) fn set_page(&mut self, number: u64, page: Page) {
        let words = words_of(&page);
        self.put_words(number, words);
        if let Some(place) = self.pages.get_mut(number as usize) {
            *place = page;
        }
    }

    fn put_words(&mut self, number: u64, words: [u64; WORDS]) {
        let first = (number as usize).saturating_mul(WORDS);
        if let Some(behind) = self.words.as_mut_slice().get_mut(first..) {
            for (place, word) in behind.iter_mut().zip(words) {
                *place = word;
            }
        }
    }

    // Writes page 0 anew, after its head or its root changed.
    pub(crate) fn describe(&mut self) {
        let mut words = [0; WORDS];
        let said = [MARK, self.page_count(), self.fill, self.head, self.root];
        for (place, word) in words.iter_mut().zip(said) {
            *place = word;
        }
        self.put_words(0, words);
    }

    // The pages that the store has room for.
    fn room(&self) -> usize {
        (self.words.len() / WORDS).min(MOST_PAGES)
    }

    fn word(&self, i: usize) -> u64 {
        self.words.get(i).copied().unwrap_or(0)
    }

    // Reads the words as this many pages.
    fn read_pages(&mut self, count: usize, fill: u64) -> Result<(), AllocError> {
        let mut pages = Vec::new(self.alloc);
        for (number, words) in self.words.as_slice().chunks(WORDS).take(count).enumerate() {
            if number == 0 {
                pages.push(Page::Damaged)?;
            } else {
                pages.push(page_of(self.alloc, words, fill)?)?;
            }
        }
        self.pages = pages;
        self.fill = fill;
        self.jobs = [None; 32];
        Ok(())
    }

    fn format(&mut self, fill: u64) -> Result<Answer, AllocError> {
        let room = self.room();
        if room < 2 {
            return Ok((1, 0));
        }
        if !(4..=18).contains(&fill) {
            return Ok((2, 0));
        }
        self.read_pages(room, fill)?;
        let count = room as u64;
        for number in 2..count {
            let behind = number.saturating_add(1);
            let next = if behind < count { behind } else { 0 };
            self.set_page(number, Page::Free { next });
        }
        let entries = Vec::new(self.alloc);
        self.set_page(
            1,
            Page::Leaf {
                next: 0,
                start: None,
                end: None,
                entries,
            },
        );
        self.head = if count > 2 { 2 } else { 0 };
        self.root = 1;
        self.describe();
        Ok((20, count))
    }

    fn attach(&mut self) -> Result<Answer, AllocError> {
        let room = self.room();
        if room < 2 {
            return Ok((1, 0));
        }
        let count = self.word(1);
        let fill = self.word(2);
        let fits = 2 <= count && count <= room as u64;
        if self.word(0) != MARK || !fits || !(4..=18).contains(&fill) {
            return Ok((3, 0));
        }
        self.read_pages(count as usize, fill)?;
        self.head = self.word(3);
        self.root = self.word(4);
        Ok((20, count))
    }

    /// Takes a call, and answers it.
    pub fn take(&mut self, call: Call) -> Result<Answer, AllocError> {
        match call {
            Call::Format(fill) => self.format(fill),
            Call::Attach => self.attach(),
            Call::Begin {
                console,
                kind,
                key,
                value,
            } => Ok(self.begin(console, kind, key, value)),
            Call::Turn(console) => self.turn(console),
            Call::Withdraw(console) => Ok(self.withdraw(console)),
            Call::Post(page) => self.post(page),
            Call::Merge(page) => self.merge(page),
            Call::Raise => self.raise(),
            Call::Sweep => self.sweep(),
        }
    }
}

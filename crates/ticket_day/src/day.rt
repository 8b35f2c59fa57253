//! The day's plan, and its work.
use crate::desks::{Ending, Job, Task, alone, in_turns};
use crate::tally::Tally;
use index::Index;
use order::Order;
use store::Store;

/// The pages of the index.
pub const PAGES: u64 = 12;

/// The most loads in a page.
pub const FILL: u64 = 4;

/// The words of the index.
pub const WORDS: usize = 64 * PAGES as usize;

// A quarter of an hour, in seconds.
const QUARTER: u64 = 900;

/// A job, and how it ended.
pub type Done = (Job, Ending);

/// How many calls of upkeep did something.
#[derive(Clone, Copy, Debug, PartialEq, Eq)]
pub struct Upkeep {
    pub raised: u64,
    pub posted: u64,
    pub merged: u64,
    pub freed: u64,
}

/// What was done in the day, in order.
#[derive(Clone, Copy, Debug, PartialEq, Eq)]
pub struct Work {
    pub rounds: [[Done; 3]; 3],
    pub upkeep: [Upkeep; 3],
    pub looks: [Done; 3],
    pub strike: Done,
    pub withdrawn: Done,
    pub last_upkeep: Upkeep,
}

impl Work {
    /// The loads that were entered, less the one that was struck, by the answers alone.
    pub fn tally(&self) -> Tally {
        let entered = self
            .rounds
            .iter()
            .flatten()
            .fold(Tally::default(), |tally, done| tally.after(*done));
        entered.after(self.strike).after(self.withdrawn)
    }
}

// Posts and merges once at each page, and tells how often either did so.
fn post_and_merge<S: Store, O: Order>(index: &mut Index<S, O>) -> (u64, u64) {
    let mut posted: u64 = 0;
    let mut merged: u64 = 0;
    for page in 1..PAGES {
        posted = posted.saturating_add(u64::from(index.post(page).0 == 29));
        merged = merged.saturating_add(u64::from(index.merge(page).0 == 30));
    }
    (posted, merged)
}

// Raises the root if it has a neighbour, posts and merges once at each inner page, and sweeps.
fn keep_up<S: Store, O: Order>(index: &mut Index<S, O>) -> Upkeep {
    let raised = u64::from(index.raise().0 == 31);
    let (posted, merged) = post_and_merge(index);
    let freed = match index.sweep() {
        (32, pages) => pages,
        _ => 0,
    };
    Upkeep {
        raised,
        posted,
        merged,
        freed,
    }
}

// Three consoles do their jobs in turns, within as many turns as there are pages.
fn round<S: Store, O: Order>(index: &mut Index<S, O>, jobs: [Job; 3]) -> [Done; 3] {
    let [left, middle, right] = in_turns(index, jobs, PAGES);
    let [first, second, third] = jobs;
    [(first, left), (second, middle), (third, right)]
}

// A job at a console, at a quarter of an hour from 6 o'clock on.
fn job(console: u64, quarter: u32, task: Task) -> Job {
    Job {
        console,
        second: 6 * 3600 + u64::from(quarter) * QUARTER,
        task,
    }
}

/// The whole day, over a new index.
pub fn run<S: Store, O: Order>(index: &mut Index<S, O>) -> Work {
    let early = round(
        index,
        [
            job(0, 0, Task::Enter(92)),
            job(1, 1, Task::Enter(88)),
            job(2, 2, Task::Enter(95)),
        ],
    );
    let early_upkeep = keep_up(index);
    let noon = round(
        index,
        [
            job(0, 3, Task::Enter(90)),
            job(1, 4, Task::Enter(97)),
            job(2, 5, Task::Enter(86)),
        ],
    );
    let noon_upkeep = keep_up(index);
    let late = round(
        index,
        [
            job(0, 6, Task::Enter(93)),
            job(1, 4, Task::Enter(97)),
            job(2, 7, Task::Enter(91)),
        ],
    );
    let late_upkeep = keep_up(index);
    let looks = round(
        index,
        [
            job(0, 1, Task::Look),
            job(1, 7, Task::Look),
            job(2, 9, Task::Look),
        ],
    );
    let struck = job(0, 2, Task::Strike);
    let strike = (struck, alone(index, struck, PAGES));
    let given_up = job(1, 8, Task::Enter(94));
    let withdrawn = (given_up, alone(index, given_up, 0));
    let last_upkeep = keep_up(index);
    Work {
        rounds: [early, noon, late],
        upkeep: [early_upkeep, noon_upkeep, late_upkeep],
        looks,
        strike,
        withdrawn,
        last_upkeep,
    }
}

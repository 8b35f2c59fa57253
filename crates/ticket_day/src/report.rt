//! What was done, in a dispatcher's words.
use crate::day::{Done, Upkeep};
use crate::desks::{Ending, Task};
use crate::tally::Tally;
use std::fmt;

/// A second of the day, as hours and minutes.
#[derive(Clone, Copy)]
struct Clock(u64);

impl fmt::Display for Clock {
    fn fmt<W: fmt::Write>(&self, f: &mut fmt::Formatter<W>) -> fmt::Result {
        write!(f, "{:02}:{:02}", self.0 / 3600, self.0 / 60 % 60)
    }
}

/// A job and how it ended, on one line.
#[derive(Clone, Copy)]
pub struct Line(pub Done);

impl fmt::Display for Line {
    fn fmt<W: fmt::Write>(&self, f: &mut fmt::Formatter<W>) -> fmt::Result {
        let (job, ending) = self.0;
        write!(f, "console {}, {} load: ", job.console, Clock(job.second))?;
        match (ending, job.task) {
            (
                Ending::Answered {
                    code: 23,
                    figure,
                    turns,
                },
                _,
            ) => write!(f, "{figure} t, found in {}", Turns(turns)),
            (
                Ending::Answered {
                    code: 24,
                    turns,
                    ..
                },
                _,
            ) => write!(f, "no such load, after {}", Turns(turns)),
            (
                Ending::Answered {
                    code: 25,
                    turns,
                    ..
                },
                Task::Enter(tonnes),
            ) => write!(f, "{tonnes} t entered in {}", Turns(turns)),
            (
                Ending::Answered {
                    code: 26,
                    figure,
                    ..
                },
                _,
            ) => write!(f, "entered before, with {figure} t"),
            (
                Ending::Answered {
                    code: 27,
                    figure,
                    turns,
                },
                _,
            ) => write!(f, "{figure} t struck in {}", Turns(turns)),
            (Ending::Answered { code, .. }, _) => write!(f, "answered {code}"),
            (
                Ending::Withdrawn {
                    code: 28,
                    page,
                    turns,
                },
                _,
            ) => write!(
                f,
                "not done after {}, withdrawn at page {page}",
                Turns(turns)
            ),
            (Ending::Withdrawn { code, .. }, _) => write!(f, "not withdrawn, refused with {code}"),
            (Ending::NotBegun { code }, _) => write!(f, "not begun, refused with {code}"),
        }
    }
}

// A number of turns.
#[derive(Clone, Copy)]
struct Turns(u64);

impl fmt::Display for Turns {
    fn fmt<W: fmt::Write>(&self, f: &mut fmt::Formatter<W>) -> fmt::Result {
        match self.0 {
            1 => f.write_str("1 turn"),
            turns => write!(f, "{turns} turns"),
        }
    }
}

impl fmt::Display for Upkeep {
    fn fmt<W: fmt::Write>(&self, f: &mut fmt::Formatter<W>) -> fmt::Result {
        match *self {
            Upkeep {
                raised: 0,
                posted: 0,
                merged: 0,
                freed: 0,
            } => f.write_str("nothing to do"),
            Upkeep {
                raised,
                posted,
                merged,
                freed,
            } => write!(
                f,
                "{raised} raised, {posted} posted, {merged} merged, {freed} freed"
            ),
        }
    }
}

/// A tally in words.
#[derive(Clone, Copy)]
pub struct Sum(pub Tally);

impl fmt::Display for Sum {
    fn fmt<W: fmt::Write>(&self, f: &mut fmt::Formatter<W>) -> fmt::Result {
        write!(f, "{} loads, {} t", self.0.loads, self.0.tonnes)
    }
}

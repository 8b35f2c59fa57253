//! The jobs of three consoles, by ticket. A ticket is turned until its answer comes, or withdrawn: nothing else compiles.
use index::{Index, Ticket};
use order::{Key, Order};
use store::Store;

/// What a console is to do with a load.
#[derive(Clone, Copy, Debug, PartialEq, Eq)]
pub enum Task {
    /// Put the load in, with so many tonnes.
    Enter(u64),
    /// Tell its tonnes.
    Look,
    /// Take it out.
    Strike,
}

impl Task {
    // The kind of the job and its value.
    fn numbers(self) -> (u64, u64) {
        match self {
            Task::Look => (1, 0),
            Task::Enter(tonnes) => (2, tonnes),
            Task::Strike => (3, 0),
        }
    }
}

/// A task at a console, for the load of truck 7 that began at a second of the day.
#[derive(Clone, Copy, Debug, PartialEq, Eq)]
pub struct Job {
    pub console: u64,
    pub second: u64,
    pub task: Task,
}

/// How a job ended.
#[derive(Clone, Copy, Debug, PartialEq, Eq)]
pub enum Ending {
    /// With its answer, after so many turns.
    Answered { code: u64, figure: u64, turns: u64 },
    /// It was still open after so many turns, and was withdrawn, with this answer: 28 and the page where it stood.
    Withdrawn { code: u64, page: u64, turns: u64 },
    /// It was never begun: begin gave this code.
    NotBegun { code: u64 },
}

// A console's desk: a job whose ticket lies on it, or how the job ended.
// It is not `Drop`, since an open one holds a ticket.
enum Desk {
    Open(Ticket),
    Closed(Ending),
}

// Gives the index a job.
fn open<S: Store, O: Order>(index: &mut Index<S, O>, job: Job) -> Desk {
    let key = Key {
        hi: 7,
        lo: job.second,
    };
    let (kind, value) = job.task.numbers();
    match index.begin_by_ticket(job.console, kind, key, value) {
        (_, Some(begun)) => Desk::Open(begun),
        ((code, _), None) => Desk::Closed(Ending::NotBegun { code }),
    }
}

// Takes one turn, the one of this number from 1, if the job is still open.
fn turn<S: Store, O: Order>(index: &mut Index<S, O>, desk: Desk, number: u64) -> Desk {
    let Desk::Open(ticket) = desk else {
        return desk;
    };
    let ((code, figure), left) = index.turn_by_ticket(ticket);
    match left {
        Some(ticket) => Desk::Open(ticket),
        None => Desk::Closed(Ending::Answered {
            code,
            figure,
            turns: number,
        }),
    }
}

// Withdraws the job if it is still open after so many turns.
fn close<S: Store, O: Order>(index: &mut Index<S, O>, desk: Desk, turns: u64) -> Ending {
    match desk {
        Desk::Open(ticket) => {
            let (code, page) = index.withdraw_by_ticket(ticket);
            Ending::Withdrawn { code, page, turns }
        }
        Desk::Closed(ending) => ending,
    }
}

/// Begins three jobs, turns them one after another, so many turns each at most, and withdraws what is open then.
pub fn in_turns<S: Store, O: Order>(
    index: &mut Index<S, O>,
    [first, second, third]: [Job; 3],
    turns: u64,
) -> [Ending; 3] {
    let mut left = open(index, first);
    let mut middle = open(index, second);
    let mut right = open(index, third);
    for number in 1..=turns {
        left = turn(index, left, number);
        middle = turn(index, middle, number);
        right = turn(index, right, number);
    }
    [
        close(index, left, turns),
        close(index, middle, turns),
        close(index, right, turns),
    ]
}

/// Begins one job and turns it, so many turns at most; with none it is withdrawn at once.
pub fn alone<S: Store, O: Order>(index: &mut Index<S, O>, job: Job, turns: u64) -> Ending {
    let mut desk = open(index, job);
    for number in 1..=turns {
        desk = turn(index, desk, number);
    }
    close(index, desk, turns)
}

//! What the calls of an index answer. The codes 12 and 13 are not theirs: the text test answers 12, the runner 13.
ghost use Rattle.std.specs.Prelude.{◌≡◌};
ghost use Rattle.model.specs.declared.answers.Refusal.TheVariants.{BadTask};
ghost use Rattle.model.specs.Answers.{code, figure};
ghost use Rattle.model.specs.Jobs.{finishes};

use crate::jobs::NoKind;

/// What a call answers: what it did, or why it was refused.
pub type Answer = Result<Done, Refusal>;

/// Why a call was refused: each case has a code, and where it says so a figure.
// No `Display`: a refusal is told by its code and figure, and is never printed.
#[derive(Clone, Copy, Debug, PartialEq, Eq)]
pub enum Refusal {
    /// 1: the store has fewer than 128 words, which are two pages
    StoreTooSmall,
    /// 2: the fill is below 4 or above 18
    NoFill,
    /// 3: page 0 does not describe an index that fits this store
    NoIndex,
    /// 4: no such console: its number is above 31
    NoConsole,
    /// 5: the console is busy with a job
    Busy,
    /// 6: the console is idle
    Idle,
    /// 7: no such kind, or the two words are no key
    BadTask,
    /// 8: this page (the job's, a child, the root, or the first free one) is not what the call needs
    Unreadable(u64),
    /// 9: a page has to be taken, and there is no free one
    NoFreePage,
    /// 10: the argument is not a readable, live inner page
    NoInner,
    /// 11: there was nothing to do
    Nothing,
}

/// What a call did: each case has a code, and where it says so a figure.
#[derive(Clone, Copy, Debug, PartialEq, Eq)]
pub enum Done {
    /// 20: the index is made, with so many pages, and all consoles are idle
    Made(u64),
    /// 20: the console has its job
    Begun,
    /// 21: the job has gone on to this page
    Moved(u64),
    /// 22: a full page was split, and this one is new
    Split(u64),
    /// 23: a look is finished: the key has this value
    Found(u64),
    /// 24: a look or a strike is finished: no entry has the key
    Absent,
    /// 25: an enter is finished: the entry is in
    Entered,
    /// 26: an enter is finished: the key has this value already, and keeps it
    Held(u64),
    /// 27: a strike is finished: the entry is out, and had this value
    Struck(u64),
    /// 28: the job is dropped, and it stood on this page
    Withdrawn(u64),
    /// 29: this page has an entry in its parent now
    Posted(u64),
    /// 30: this page is gone: its left neighbour has its entries
    Merged(u64),
    /// 31: this page is the new root
    Raised(u64),
    /// 32: so many pages are free again
    Swept(u64),
}

impl From<NoKind> for Refusal {
    ghost from_gives = { λ _ refusal. refusal ≡ BadTask };

    fn from(_none: NoKind) -> Self {
        Self::BadTask
    }
}

impl Refusal {
    fn pair(self) -> (u64, u64)
        ensures code { result.0 ≡ code (Err self) }
        ensures figure { result.1 ≡ figure (Err self) }
    {
        match self {
            Refusal::StoreTooSmall => (1, 0),
            Refusal::NoFill => (2, 0),
            Refusal::NoIndex => (3, 0),
            Refusal::NoConsole => (4, 0),
            Refusal::Busy => (5, 0),
            Refusal::Idle => (6, 0),
            Refusal::BadTask => (7, 0),
            Refusal::Unreadable(page) => (8, page),
            Refusal::NoFreePage => (9, 0),
            Refusal::NoInner => (10, 0),
            Refusal::Nothing => (11, 0),
        }
    }
}

impl Done {
    /// Whether this ends the job of a turn: 23 to 27.
    pub fn ends_job(self) -> bool
        ensures { result ≡ finishes (Ok self) }
    {
        matches!(
            self,
            Done::Found(_) | Done::Absent | Done::Entered | Done::Held(_) | Done::Struck(_)
        )
    }

    fn pair(self) -> (u64, u64)
        ensures code { result.0 ≡ code (Ok self) }
        ensures figure { result.1 ≡ figure (Ok self) }
    {
        match self {
            Done::Made(pages) => (20, pages),
            Done::Begun => (20, 0),
            Done::Moved(page) => (21, page),
            Done::Split(page) => (22, page),
            Done::Found(value) => (23, value),
            Done::Absent => (24, 0),
            Done::Entered => (25, 0),
            Done::Held(value) => (26, value),
            Done::Struck(value) => (27, value),
            Done::Withdrawn(page) => (28, page),
            Done::Posted(page) => (29, page),
            Done::Merged(page) => (30, page),
            Done::Raised(page) => (31, page),
            Done::Swept(pages) => (32, pages),
        }
    }
}

/// The code of an answer and its figure, which is 0 where the answer names none.
// Two numbers, since a console and an answer line show just these; a function and no `From`, which would not say what
// they are.
pub fn pair(answer: Answer) -> (u64, u64)
    ensures code { result.0 ≡ code answer }
    ensures figure { result.1 ≡ figure answer }
{
    answer.map_or_else(Refusal::pair, Done::pair)
}

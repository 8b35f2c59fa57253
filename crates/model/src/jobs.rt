//! What a console asks for, and how far it has come.
ghost use Rattle.model.specs.Turns.{Names};

use order::Key;

/// What a job does at the leaf that covers its key.
#[derive(Clone, Copy, Debug, PartialEq, Eq)]
pub enum Kind {
    /// 1: tell the value that is held
    Look,
    /// 2: put in a value, unless one is held
    Enter,
    /// 3: take out the entry
    Strike,
}

/// A number that names no kind.
// No `Display`: it becomes a refusal, and is never printed.
#[derive(Clone, Copy, Debug, PartialEq, Eq)]
pub struct NoKind(pub u64);

impl TryFrom<u64> for Kind {
    type Error = NoKind;

    ghost try_from_gives = { Names };

    fn try_from(number: u64) -> Result<Kind, NoKind> {
        match number {
            1 => Ok(Kind::Look),
            2 => Ok(Kind::Enter),
            3 => Ok(Kind::Strike),
            _ => Err(NoKind(number)),
        }
    }
}

/// A job without the page on which it stands.
#[derive(Clone, Copy, Debug, PartialEq, Eq)]
pub struct Task {
    pub kind: Kind,
    pub key: Key,
    pub value: u64,
}

/// A job that is not finished, and the page on which it stands.
#[derive(Clone, Copy, Debug, PartialEq, Eq)]
pub struct Job {
    pub task: Task,
    pub page: u64,
}

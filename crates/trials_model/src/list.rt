//! The plain list: entries in order, and each console's task.
use crate::keys::{Key, Order, Rank};
use crate::model::{Answer, CONSOLES, Kind};
use std::alloc::{AllocError, Global};
use std::collections::BTreeMap;

// What a console wants done.
#[derive(Clone, Copy, Debug)]
struct Task {
    kind: Kind,
    key: Key,
    value: u64,
}

/// The list that an index is held against.
#[derive(Debug, Drop)]
pub struct PlainList {
    order: Order,
    entries: BTreeMap<Rank, (Key, u64)>,
    tasks: [Option<Task>; 32],
}

impl PlainList {
    /// A list with no entries and no tasks.
    pub fn new(alloc: Global, order: Order) -> PlainList {
        PlainList {
            order,
            entries: BTreeMap::new(alloc),
            tasks: [None; 32],
        }
    }

    /// Drops all tasks, as a format and an attach do.
    pub fn clear_tasks(&mut self) {
        self.tasks = [None; 32];
    }

    fn task(&self, console: u64) -> Option<Task> {
        self.tasks.get(console as usize).copied().flatten()
    }

    fn set_task(&mut self, console: u64, task: Option<Task>) {
        if let Some(place) = self.tasks.get_mut(console as usize) {
            *place = task;
        }
    }

    /// Notes a task: the code, whose figure is 0.
    pub fn begin(&mut self, console: u64, kind: u64, key: Key, value: u64) -> u64 {
        if console >= CONSOLES {
            return 4;
        }
        if self.task(console).is_some() {
            return 5;
        }
        match Kind::of(kind) {
            Some(kind) if self.order.is_key(key) => {
                self.set_task(console, Some(Task { kind, key, value }));
                20
            }
            _ => 7,
        }
    }

    /// Drops a task: the code.
    pub fn withdraw(&mut self, console: u64) -> u64 {
        if console >= CONSOLES {
            return 4;
        }
        if self.task(console).is_none() {
            return 6;
        }
        self.set_task(console, None);
        28
    }

    /// Does a console's task whole, if the index's code says that the job came to its end; else it answers nothing.
    pub fn turn(&mut self, console: u64, code: u64) -> Result<Option<Answer>, AllocError> {
        if console >= CONSOLES {
            return Ok(Some((4, 0)));
        }
        let Some(task) = self.task(console) else {
            return Ok(Some((6, 0)));
        };
        if matches!(code, 9 | 21 | 22) {
            return Ok(None);
        }
        let answer = self.done(task)?;
        self.set_task(console, None);
        Ok(Some(answer))
    }

    fn done(&mut self, task: Task) -> Result<Answer, AllocError> {
        let rank = self.order.rank(task.key);
        let held = self.entries.get(&rank).map(|(_, value)| *value);
        let answer = match (task.kind, held) {
            (Kind::Look, Some(value)) => (23, value),
            (Kind::Look | Kind::Strike, None) => (24, 0),
            (Kind::Enter, Some(value)) => (26, value),
            (Kind::Enter, None) => {
                self.entries.insert(rank, (task.key, task.value))?;
                (25, 0)
            }
            (Kind::Strike, Some(value)) => {
                let _ = self.entries.remove(&rank);
                (27, value)
            }
        };
        Ok(answer)
    }

    /// The entries in order.
    pub fn entries(&self, alloc: Global) -> Result<Vec<(Key, u64)>, AllocError> {
        let mut entries = Vec::new(alloc);
        for entry in self.entries.values() {
            entries.push(*entry)?;
        }
        Ok(entries)
    }
}

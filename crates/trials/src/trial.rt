//! One index with all that it is held against, call by call.
use crate::counts::Counts;
use crate::failures::Failure;
use crate::report::{Answers, History, report, report_run, shown};
use crate::stores::{Mirror, Shown};
use index::Index;
use order::{Key, Order};
use std::alloc::{AllocError, Global};
use trials_model::{Call, Model, PlainList, entries_of, unsound};

/// A code and a figure.
pub(crate) type Answer = (u64, u64);

// On stores up to this many words all words are compared after each call, on others after this many calls.
const SMALL: usize = 1_100;

const INTERVAL: u64 = 16;

/// The model, the plain list, what they were begun with, and the calls since then.
#[derive(Debug, Drop)]
pub(crate) struct Trial {
    pub(crate) alloc: Global,
    order: trials_model::Order,
    pub(crate) model: Model,
    // none before the index is made, and over words that no index wrote
    list: Option<PlainList>,
    before: Vec<u64>,
    calls: Vec<Call>,
    // the call lines that were run, instead of calls
    lines: Vec<u8>,
    mirror: Mirror,
    pub(crate) counts: Counts,
    uncompared: u64,
}

/// Has an index take a call.
pub(crate) fn perform<S: Shown, O: Order>(index: &mut Index<S, O>, call: Call) -> Answer {
    match call {
        Call::Format(fill) => index.format(fill),
        Call::Attach => index.attach(),
        Call::Begin {
            console,
            kind,
            key,
            value,
        } => {
            let key = Key {
                hi: key.hi,
                lo: key.lo,
            };
            index.begin(console, kind, key, value)
        }
        Call::Turn(console) => index.turn(console),
        Call::Withdraw(console) => index.withdraw(console),
        Call::Post(page) => index.post(page),
        Call::Merge(page) => index.merge(page),
        Call::Raise => index.raise(),
        Call::Sweep => index.sweep(),
    }
}

impl Trial {
    /// The trial of an index on these words that is not made yet.
    pub(crate) fn new(
        alloc: Global,
        order: trials_model::Order,
        words: &[u64],
        is_text: bool,
    ) -> Result<Trial, Failure> {
        Ok(Trial {
            alloc,
            order,
            model: Model::new(alloc, order, Vec::from_slice(alloc, words)?),
            list: None,
            before: Vec::from_slice(alloc, words)?,
            calls: Vec::new(alloc),
            lines: Vec::new(alloc),
            mirror: Mirror::new(alloc, words, is_text)?,
            counts: Counts::new(),
            uncompared: 0,
        })
    }

    /// The words with which it began.
    pub(crate) fn before(&self) -> &[u64] {
        self.before.as_slice()
    }

    /// Has both take a call, and compares what they answer and leave.
    pub(crate) fn take<S: Shown, O: Order>(
        &mut self,
        index: &mut Index<S, O>,
        call: Call,
    ) -> Result<Answer, Failure> {
        let given = perform(index, call);
        self.judge(index, call, given)?;
        Ok(given)
    }

    /// Compares what an index answered to a call with what the model and the list answer.
    pub(crate) fn judge<S: Shown, O: Order>(
        &mut self,
        index: &Index<S, O>,
        call: Call,
        given: Answer,
    ) -> Result<(), Failure> {
        self.calls.push(call)?;
        let said = self.model.take(call)?;
        let (code, _) = given;
        self.counts.add(code);
        if given != said {
            return Err(self.differs("the model answers otherwise", Some((given, said))));
        }
        self.judge_by_list(call, given)?;
        self.uncompared = self.uncompared.saturating_add(1);
        if self.before.len() <= SMALL || self.uncompared >= INTERVAL {
            self.compare_words(index)?;
        }
        Ok(())
    }

    // Feeds the list with the call, and compares its answer.
    fn judge_by_list(&mut self, call: Call, given: Answer) -> Result<(), Failure> {
        let (code, figure) = given;
        if matches!(call, Call::Format(_)) && code == 20 {
            self.list = Some(PlainList::new(self.alloc, self.order));
            return Ok(());
        }
        let Some(list) = &mut self.list else {
            return Ok(());
        };
        let said = match call {
            Call::Attach => {
                if code == 20 {
                    list.clear_tasks();
                }
                given
            }
            Call::Begin {
                console,
                kind,
                key,
                value,
            } => (list.begin(console, kind, key, value), 0),
            Call::Turn(console) => list.turn(console, code)?.unwrap_or(given),
            Call::Withdraw(console) => (list.withdraw(console), figure),
            Call::Format(_) | Call::Post(_) | Call::Merge(_) | Call::Raise | Call::Sweep => given,
        };
        if said != given {
            return Err(self.differs("the plain list answers otherwise", Some((given, said))));
        }
        if code == 8 {
            return Err(self.differs("8, a damaged page, in a sound store", None));
        }
        Ok(())
    }

    /// Compares all words of the store.
    pub(crate) fn compare_words<S: Shown, O: Order>(
        &mut self,
        index: &Index<S, O>,
    ) -> Result<(), Failure> {
        self.uncompared = 0;
        self.mirror.follow(self.model.words())?;
        if index.store().shows(self.model.words(), &self.mirror) {
            return Ok(());
        }
        Err(self.differs("the words are not the model's", None))
    }

    /// Tests that the store is sound, and that its entries are those of the list.
    pub(crate) fn compare_entries<S: Shown, O: Order>(
        &mut self,
        index: &Index<S, O>,
    ) -> Result<(), Failure> {
        self.compare_words(index)?;
        let listed = match &self.list {
            Some(list) => list.entries(self.alloc)?,
            None => return Ok(()),
        };
        self.test_soundness()?;
        let held = entries_of(self.alloc, self.order, self.model.words())?;
        if held.as_slice() != listed.as_slice() {
            return Err(self.differs("the entries are not those of the plain list", None));
        }
        Ok(())
    }

    /// Tests that the words are a sound store.
    pub(crate) fn test_soundness(&self) -> Result<(), Failure> {
        match unsound(self.alloc, self.order, self.model.words())? {
            Some(rule) => {
                let how = format!(in self.alloc; "rule {rule} of a sound store is broken")?;
                Err(self.differs(how.as_str(), None))
            }
            None => Ok(()),
        }
    }

    /// Withdraws every console, and compares all that is left.
    pub(crate) fn finish<S: Shown, O: Order>(
        &mut self,
        index: &mut Index<S, O>,
    ) -> Result<(), Failure> {
        for console in 0..32 {
            self.take(index, Call::Withdraw(console))?;
        }
        self.compare_entries(index)
    }

    /// Notes call lines that were run over both.
    pub(crate) fn note_lines(&mut self, lines: &[u8]) -> Result<(), Failure> {
        self.lines.extend_from_slice(lines)?;
        Ok(())
    }

    fn history(&self) -> History<'_> {
        History {
            before: self.before.as_slice(),
            calls: self.calls.as_slice(),
            lines: self.lines.as_slice(),
            compared: self.counts.calls(),
        }
    }

    /// The failure in which the index differs in this way, and by these answers if they differ.
    pub(crate) fn differs(&self, how: &str, answers: Answers) -> Failure {
        report(self.alloc, &self.history(), how, answers)
    }

    /// The store before and the calls since, as text.
    pub(crate) fn shown(&self) -> Result<String, AllocError> {
        shown(self.alloc, &self.history())
    }

    /// The failure of a run of these lines that wrote one output, where another one is told.
    pub(crate) fn differs_in_run(&self, input: &[u8], output: &[u8], told: &[u8]) -> Failure {
        report_run(self.alloc, &self.history(), input, output, told)
    }
}

//! How a console gets a job, and how it drops one.
ghost use Rattle.std.specs.Prelude.{◌≡◌, ◌<◌, ◌≤◌, MatchResult};
ghost use Rattle.model.specs.declared.answers.Refusal.TheVariants.{NoConsole};
ghost use Rattle.model.specs.Turns.{begin, withdraw, job_at};
ghost use Rattle.index.specs.Indexes.{state_of, rule_of};

use crate::consoles::CONSOLES;
use crate::index::Index;
use model::{Answer, Done, Job, Kind, Refusal, Task};
use order::{Key, Order};
use store::Store;

impl<S: Store, O: Order> Index<S, O> {
    // The job of a console, if it has one.
    pub(crate) fn job_of(&self, console: u64) -> Result<Option<Job>, Refusal>
        ensures { MatchResult result
            (λ job. (console < 32) × (job ≡ job_at (state_of S.words self.now) console))
            (λ refusal. (32 ≤ console) × (refusal ≡ NoConsole)) }
    {
        if console < CONSOLES as u64 {
            Ok(self.consoles.job(console))
        } else {
            Err(Refusal::NoConsole)
        }
    }

    // Gives an idle console a job, which stands on the root.
    pub(crate) fn begin_step(&mut self, console: u64, kind: u64, key: Key, value: u64) -> Answer
        ensures answer { result
            ≡ (begin (rule_of O.keyed O.compared) console kind key value (state_of S.words self.old)).answer }
        ensures state { state_of S.words self.new
            ≡ (begin (rule_of O.keyed O.compared) console kind key value (state_of S.words self.old)).after }
        ensures kept { self.new.store ≡ self.old.store }
    {
        if self.job_of(console)?.is_some() {
            return Err(Refusal::Busy);
        }
        let kind = Kind::try_from(kind)?;
        if !O::is_key(key) {
            return Err(Refusal::BadTask);
        }
        let job = Job {
            task: Task { kind, key, value },
            page: self.root(),
        };
        self.consoles.assign(console, Some(job));
        Ok(Done::Begun)
    }

    // Drops a console's job.
    pub(crate) fn withdraw_step(&mut self, console: u64) -> Answer
        ensures answer { result ≡ (withdraw console (state_of S.words self.old)).answer }
        ensures state { state_of S.words self.new
            ≡ (withdraw console (state_of S.words self.old)).after }
        ensures kept { self.new.store ≡ self.old.store }
    {
        let job = self.job_of(console)?.ok_or(Refusal::Idle)?;
        self.consoles.assign(console, None);
        Ok(Done::Withdrawn(job.page))
    }
}

//! Pairs: two indexes finish the same jobs, key by key in the same order, and have to answer alike.
use crate::days::take_drawn;
use crate::failures::Failure;
use crate::stores::Shown;
use crate::trial::{Answer, Trial};
use index::Index;
use order::Order;
use trials_gen::{Dice, Setting, Wish};
use trials_model::Call;

/// What the jobs came to, one answer for each, and which console does which.
#[derive(Debug, Drop)]
pub(crate) struct Work {
    pub(crate) answers: Vec<Answer>,
    doing: [Option<usize>; 32],
    next: usize,
}

impl Work {
    /// Nothing is begun yet.
    pub(crate) fn new(answers: Vec<Answer>) -> Work {
        Work {
            answers,
            doing: [None; 32],
            next: 0,
        }
    }

    fn is_idle(&self) -> bool {
        self.doing.iter().all(|job| job.is_none())
    }

    // Whether a job at the same key is not finished yet.
    fn is_taken(&self, order: trials_model::Order, wishes: &[Wish], wish: &Wish) -> bool {
        for job in &self.doing {
            let other = job.and_then(|job| wishes.get(job));
            if let Some(other) = other
                && order.rank(other.key) == order.rank(wish.key)
            {
                return true;
            }
        }
        false
    }

    fn note(&mut self, console: u64, answer: Answer) {
        if let Some(place) = self.doing.get_mut(console as usize)
            && let Some(job) = place.take()
            && let Some(slot) = self.answers.get_mut(job)
        {
            *slot = answer;
        }
    }
}

// Gives a console the next job, if it is idle and no job at the same key is under way.
fn begin_next<S: Shown, O: Order>(
    trial: &mut Trial,
    index: &mut Index<S, O>,
    setting: &Setting,
    wishes: &[Wish],
    work: &mut Work,
    console: u64,
) -> Result<(), Failure> {
    let Some(wish) = wishes.get(work.next) else {
        return Ok(());
    };
    if work.is_taken(setting.order, wishes, wish) || trial.model.job(console).is_some() {
        return Ok(());
    }
    trial.take(
        index,
        Call::Begin {
            console,
            kind: wish.kind,
            key: wish.key,
            value: wish.value,
        },
    )?;
    if let Some(place) = work.doing.get_mut(console as usize) {
        *place = Some(work.next);
    }
    work.next = work.next.saturating_add(1);
    Ok(())
}

// Takes a turn of a console's job, and notes what it comes to.
fn turn<S: Shown, O: Order>(
    trial: &mut Trial,
    index: &mut Index<S, O>,
    work: &mut Work,
    console: u64,
) -> Result<(), Failure> {
    let answer = trial.take(index, Call::Turn(console))?;
    if (23..=27).contains(&answer.0) {
        work.note(console, answer);
    }
    if answer.0 == 9 {
        trial.take(index, Call::Sweep)?;
    }
    Ok(())
}

// A call of upkeep, or one that is refused. It ends no job and makes no index anew.
fn idle_call<S: Shown, O: Order>(
    trial: &mut Trial,
    index: &mut Index<S, O>,
    dice: &mut Dice,
    setting: &Setting,
) -> Result<(), Failure> {
    let only_upkeep = Setting {
        upkeep: 100,
        ..*setting
    };
    if dice.one_in(8) {
        trial.take(index, Call::Turn(dice.between(32, 99)))?;
    }
    take_drawn(trial, index, dice, &only_upkeep)
}

/// Finishes all wishes, in the order of each key, with upkeep between them.
pub(crate) fn finish_wishes<S: Shown, O: Order>(
    trial: &mut Trial,
    index: &mut Index<S, O>,
    dice: &mut Dice,
    setting: &Setting,
    wishes: &[Wish],
    work: &mut Work,
) -> Result<(), Failure> {
    trial.take(index, Call::Format(setting.fill))?;
    let enough = wishes.len().saturating_mul(400);
    for _ in 0..enough {
        if work.next >= wishes.len() && work.is_idle() {
            return trial.finish(index);
        }
        let console = dice.below(setting.consoles);
        if dice.below(100) < setting.upkeep {
            idle_call(trial, index, dice, setting)?;
        } else if trial.model.job(console).is_some() {
            turn(trial, index, work, console)?;
        } else {
            begin_next(trial, index, setting, wishes, work, console)?;
        }
    }
    Err(trial.differs("the jobs of a pair were not finished", None))
}

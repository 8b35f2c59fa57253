//! Days: an index is made, and takes drawn calls until evening.
use crate::failures::Failure;
use crate::stores::Shown;
use crate::trial::Trial;
use index::{Index, Ticket};
use order::{Key, Order};
use trials_gen::{Dice, Mix, Setting, Wish, draw_call, draw_unmade_call, draw_wish};
use trials_model::Call;

// After about so many calls a job is done by ticket, a job is turned alone, and the store is tested for soundness.
const TICKETS: u64 = 24;

const ALONE: u64 = 60;

const SOUND: u64 = 48;

// The drawn calls while a tree grows, and while it is cleared.
const FLOOD: u64 = 600;

const EBB: u64 = 900;

/// Takes one drawn call.
pub(crate) fn take_drawn<S: Shown, O: Order>(
    trial: &mut Trial,
    index: &mut Index<S, O>,
    dice: &mut Dice,
    setting: &Setting,
) -> Result<(), Failure> {
    let call = draw_call(dice, setting, &trial.model);
    trial.take(index, call)?;
    Ok(())
}

/// Takes calls on an index that is not made.
pub(crate) fn unmade_calls<S: Shown, O: Order>(
    trial: &mut Trial,
    index: &mut Index<S, O>,
    dice: &mut Dice,
    setting: &Setting,
    count: u64,
) -> Result<(), Failure> {
    for _ in 0..count {
        let call = draw_unmade_call(dice, setting, &trial.model);
        trial.take(index, call)?;
    }
    Ok(())
}

// Turns a ticket until the job ends, with a drawn call before each turn; at times it is withdrawn before.
fn turn_ticket<S: Shown, O: Order>(
    trial: &mut Trial,
    index: &mut Index<S, O>,
    dice: &mut Dice,
    setting: &Setting,
    begun: Ticket,
) -> Result<(), Failure> {
    let mut ticket = begun;
    let mut outcome = Ok(());
    for _ in 0..30 {
        if dice.one_in(2) {
            outcome = take_drawn(trial, index, dice, setting);
        }
        // a ticket is spent before a failure is handed on
        if outcome.is_err() || dice.one_in(20) {
            break;
        }
        let console = ticket.console();
        let (given, left) = index.turn_by_ticket(ticket);
        outcome = trial.judge(index, Call::Turn(console), given);
        match left {
            Some(left) => ticket = left,
            None => return outcome,
        }
    }
    let console = ticket.console();
    let given = index.withdraw_by_ticket(ticket);
    outcome?;
    trial.judge(index, Call::Withdraw(console), given)
}

// Does a job by ticket.
fn ticket_job<S: Shown, O: Order>(
    trial: &mut Trial,
    index: &mut Index<S, O>,
    dice: &mut Dice,
    setting: &Setting,
) -> Result<(), Failure> {
    let Wish { kind, key, value } = draw_wish(dice, setting);
    let console = dice.below(setting.consoles);
    let call = Call::Begin {
        console,
        kind,
        key,
        value,
    };
    let key = Key {
        hi: key.hi,
        lo: key.lo,
    };
    let (given, begun) = index.begin_by_ticket(console, kind, key, value);
    let judged = trial.judge(index, call, given);
    match begun {
        Some(ticket) => {
            let turned = turn_ticket(trial, index, dice, setting, ticket);
            judged?;
            turned
        }
        None => judged,
    }
}

// Turns one console's job alone: it has to end within as many turns as there are pages, if a page can be had.
fn turn_alone<S: Shown, O: Order>(
    trial: &mut Trial,
    index: &mut Index<S, O>,
    console: u64,
) -> Result<(), Failure> {
    if trial.model.job(console).is_none() {
        return Ok(());
    }
    for _ in 0..trial.model.page_count() {
        let (code, _) = trial.take(index, Call::Turn(console))?;
        if !matches!(code, 21 | 22) {
            return Ok(());
        }
    }
    Err(trial.differs(
        "a job alone was not finished in as many turns as there are pages",
        None,
    ))
}

// Takes the calls of a day.
fn day_calls<S: Shown, O: Order>(
    trial: &mut Trial,
    index: &mut Index<S, O>,
    dice: &mut Dice,
    setting: &Setting,
    count: u64,
) -> Result<(), Failure> {
    for _ in 0..count {
        take_drawn(trial, index, dice, setting)?;
        if dice.one_in(TICKETS) {
            ticket_job(trial, index, dice, setting)?;
        }
        if dice.one_in(ALONE) {
            let console = dice.below(setting.consoles);
            turn_alone(trial, index, console)?;
        }
        if dice.one_in(SOUND) {
            trial.compare_entries(index)?;
        }
    }
    Ok(())
}

// What the jobs are for by turns: what is to be struck has to be entered before.
fn waves(mix: Mix) -> [Mix; 2] {
    match mix {
        Mix::Strikes => [Mix::Enters, Mix::Strikes],
        Mix::Even | Mix::Enters | Mix::Clear => [mix, mix],
    }
}

/// A day on a store that a format makes an index.
pub(crate) fn day<S: Shown, O: Order>(
    trial: &mut Trial,
    index: &mut Index<S, O>,
    dice: &mut Dice,
    setting: &Setting,
) -> Result<(), Failure> {
    let unmade = dice.below(4);
    unmade_calls(trial, index, dice, setting, unmade)?;
    trial.take(index, Call::Format(setting.fill))?;
    let longest = setting.words.saturating_add(300);
    let count = dice.between(60, longest.min(4_000));
    let [morning, noon] = waves(setting.mix);
    for mix in [morning, noon, morning, noon] {
        day_calls(trial, index, dice, &setting.with_mix(mix), count / 4)?;
    }
    trial.finish(index)
}

/// A day on which the tree grows high and is cleared, twice.
pub(crate) fn tides<S: Shown, O: Order>(
    trial: &mut Trial,
    index: &mut Index<S, O>,
    dice: &mut Dice,
    setting: &Setting,
) -> Result<(), Failure> {
    let clearing = Setting {
        mix: Mix::Clear,
        upkeep: 45,
        ..*setting
    };
    trial.take(index, Call::Format(setting.fill))?;
    for _ in 0..2 {
        day_calls(trial, index, dice, setting, FLOOD)?;
        day_calls(trial, index, dice, &clearing, EBB)?;
    }
    trial.finish(index)
}

/// A day on a store of any length and any words that nothing makes an index, or a format late.
pub(crate) fn unmade<S: Shown, O: Order>(
    trial: &mut Trial,
    index: &mut Index<S, O>,
    dice: &mut Dice,
    setting: &Setting,
) -> Result<(), Failure> {
    let count = dice.between(5, 30);
    unmade_calls(trial, index, dice, setting, count)?;
    trial.take(index, Call::Attach)?;
    trial.take(index, Call::Format(setting.fill))?;
    let count = dice.below(20);
    unmade_calls(trial, index, dice, setting, count)?;
    trial.finish(index)
}

/// A day on words that no index wrote.
pub(crate) fn damaged<S: Shown, O: Order>(
    trial: &mut Trial,
    index: &mut Index<S, O>,
    dice: &mut Dice,
    setting: &Setting,
) -> Result<(), Failure> {
    trial.take(index, Call::Attach)?;
    let count = dice.between(20, 120);
    for _ in 0..count {
        take_drawn(trial, index, dice, setting)?;
        if dice.one_in(TICKETS) {
            ticket_job(trial, index, dice, setting)?;
        }
    }
    trial.finish(index)
}

//! Rounds: each kind of trial on each kind of store and order.
use crate::counts::Counts;
use crate::days::{damaged, day, tides, unmade};
use crate::failures::Failure;
use crate::lines::runs;
use crate::pairs::{Work, finish_wishes};
use crate::stores::Shown;
use crate::texts::texts;
use crate::trial::{Answer, Trial};
use index::Index;
use order::{FoldedPlaceOrder, LoadOrder};
use std::alloc::Global;
use store::text::TextStore;
use store::words::WordStore;
use trials_gen::{
    Dice, Mix, Setting, Wish, damage_words, draw_call, draw_high_setting, draw_setting, draw_wish,
    soup,
};
use trials_model::{Call, Key, Model, Order, entries_of, text_of};

// The words of as many pages as an index has.
const MOST_WORDS: u64 = 4_096 * 64;

/// What is tried.
#[derive(Clone, Copy, PartialEq, Eq, Debug)]
pub(crate) enum Plan {
    // A day on a made index.
    Day(Mix),
    // A day on a store with more pages than an index has.
    Large,
    // Days on which a tree grows and is cleared.
    Tides,
    // An index that is not made, on stores of all lengths.
    Unmade,
    // An index attached to damaged words.
    Damaged,
    // Runs of call lines.
    Lines,
    // Two indexes that finish the same jobs.
    Pairs,
    // The text test.
    Texts,
}

/// Which store the words are in.
#[derive(Clone, Copy, PartialEq, Eq, Debug)]
pub(crate) enum Kind {
    // Words as they are.
    Words,
    // Words as text.
    Text,
}

/// A kind of trial, on a kind of store, in an order of keys.
#[derive(Clone, Copy, PartialEq, Eq, Debug)]
pub(crate) struct Case {
    pub(crate) name: &'static str,
    pub(crate) plan: Plan,
    pub(crate) kind: Kind,
    pub(crate) order: Order,
}

// What one trial is given, beside the index.
#[derive(Clone, Copy, Debug)]
struct Draft<'a> {
    plan: Plan,
    setting: Setting,
    wishes: &'a [Wish],
}

// Drives an index by the plan.
fn drive<S: Shown, O: order::Order>(
    index: &mut Index<S, O>,
    trial: &mut Trial,
    dice: &mut Dice,
    draft: &Draft,
    work: &mut Work,
) -> Result<(), Failure> {
    let setting = &draft.setting;
    match draft.plan {
        Plan::Day(_) | Plan::Large => day(trial, index, dice, setting),
        Plan::Tides => tides(trial, index, dice, setting),
        Plan::Unmade => unmade(trial, index, dice, setting),
        Plan::Damaged => damaged(trial, index, dice, setting),
        Plan::Lines => runs(trial, index, dice, setting),
        Plan::Pairs => finish_wishes(trial, index, dice, setting, draft.wishes, work),
        Plan::Texts => Ok(()),
    }
}

// Over a word store.
fn on_words<O: order::Order>(
    trial: &mut Trial,
    dice: &mut Dice,
    draft: &Draft,
    work: &mut Work,
) -> Result<(), Failure> {
    let mut words = Vec::from_slice(trial.alloc, trial.before())?;
    let mut index: Index<WordStore, O> = Index::new(WordStore::new(words.as_mut_slice()));
    let outcome = drive(&mut index, trial, dice, draft, work);
    let _ = index.into_store();
    outcome
}

// Over a text store.
fn on_text<O: order::Order>(
    trial: &mut Trial,
    dice: &mut Dice,
    draft: &Draft,
    work: &mut Work,
) -> Result<(), Failure> {
    let shown = text_of(trial.alloc, trial.before())?;
    let mut text = Vec::from_slice(trial.alloc, shown.as_bytes())?;
    let mut index: Index<TextStore, O> = Index::new(TextStore::open(text.as_mut_slice()));
    let outcome = drive(&mut index, trial, dice, draft, work);
    let _ = index.into_store();
    outcome
}

// One trial on the words that it begins with.
fn run_trial(
    alloc: Global,
    dice: &mut Dice,
    kind: Kind,
    draft: &Draft,
    words: &[u64],
    work: &mut Work,
) -> Result<Trial, Failure> {
    let order = draft.setting.order;
    let mut trial = Trial::new(alloc, order, words, kind == Kind::Text)?;
    match (kind, order) {
        (Kind::Words, Order::Loads) => on_words::<LoadOrder>(&mut trial, dice, draft, work)?,
        (Kind::Words, Order::Places) => {
            on_words::<FoldedPlaceOrder>(&mut trial, dice, draft, work)?
        }
        (Kind::Text, Order::Loads) => on_text::<LoadOrder>(&mut trial, dice, draft, work)?,
        (Kind::Text, Order::Places) => {
            on_text::<FoldedPlaceOrder>(&mut trial, dice, draft, work)?
        }
    }
    Ok(trial)
}

// Words of a store before it is formatted: zeros, or any.
fn blank_words(alloc: Global, dice: &mut Dice, count: u64) -> Result<Vec<u64>, Failure> {
    let any = dice.one_in(3);
    let mut words = Vec::new(alloc);
    for _ in 0..count {
        words.push(if any { dice.word() } else { 0 })?;
    }
    Ok(words)
}

// Words that were an index's, or look so, and are damaged.
fn damaged_words(alloc: Global, dice: &mut Dice, setting: &Setting) -> Result<Vec<u64>, Failure> {
    let mut words = blank_words(alloc, dice, setting.words)?;
    if dice.one_in(3) {
        soup(dice, words.as_mut_slice(), setting.fill, setting.order);
        return Ok(words);
    }
    let mut model = Model::new(alloc, setting.order, words);
    let _ = model.take(Call::Format(setting.fill))?;
    let count = dice.between(10, 900);
    for _ in 0..count {
        let call = draw_call(dice, setting, &model);
        let _ = model.take(call)?;
    }
    let mut words = Vec::from_slice(alloc, model.words())?;
    damage_words(dice, words.as_mut_slice(), setting.order);
    Ok(words)
}

// A store whose length is small, or that of any setting.
fn odd_length(dice: &mut Dice, setting: &Setting) -> u64 {
    match dice.below(3) {
        0 => dice.pick(&[0, 1, 63, 64, 65, 127]),
        1 => dice.pick(&[128, 129, 191, 192]),
        _ => setting.words,
    }
}

fn draw_wishes(alloc: Global, dice: &mut Dice, setting: &Setting) -> Result<Vec<Wish>, Failure> {
    let mut wishes = Vec::new(alloc);
    let count = dice.between(20, 200);
    for _ in 0..count {
        wishes.push(draw_wish(dice, setting))?;
    }
    Ok(wishes)
}

// The setting of one of a pair: pages enough for all keys, and the rest as it is drawn.
fn pair_setting(dice: &mut Dice, order: Order) -> Setting {
    let drawn = draw_setting(dice, order, Mix::Even);
    Setting {
        words: drawn.words.saturating_add(45 * 64),
        keys: 40,
        ..drawn
    }
}

// What one of a pair comes to.
#[derive(Debug, Drop)]
struct Done {
    trial: Trial,
    answers: Vec<Answer>,
    entries: Vec<(Key, u64)>,
}

// One of a pair does the jobs.
fn one_of_pair(
    alloc: Global,
    dice: &mut Dice,
    kind: Kind,
    order: Order,
    wishes: &[Wish],
) -> Result<Done, Failure> {
    let setting = pair_setting(dice, order);
    let words = blank_words(alloc, dice, setting.words)?;
    let mut work = Work::new(vec![in alloc; (0, 0); wishes.len()]?);
    let draft = Draft {
        plan: Plan::Pairs,
        setting,
        wishes,
    };
    let trial = run_trial(alloc, dice, kind, &draft, words.as_slice(), &mut work)?;
    let entries = entries_of(alloc, order, trial.model.words())?;
    Ok(Done {
        trial,
        answers: work.answers,
        entries,
    })
}

// Two indexes do the same jobs: their answers and their entries have to be equal.
fn pair(alloc: Global, dice: &mut Dice, case: Case) -> Result<Counts, Failure> {
    let setting = pair_setting(dice, case.order);
    let wishes = draw_wishes(alloc, dice, &setting)?;
    let first = one_of_pair(alloc, dice, case.kind, case.order, wishes.as_slice())?;
    let second = one_of_pair(alloc, dice, Kind::Words, case.order, wishes.as_slice())?;
    let alike = first.answers.as_slice() == second.answers.as_slice();
    if alike && first.entries.as_slice() == second.entries.as_slice() {
        let mut counts = first.trial.counts;
        counts.add_all(&second.trial.counts);
        return Ok(counts);
    }
    Err(pair_differs(alloc, wishes.as_slice(), &first, &second)?)
}

// The failure of a pair: what led to each, the jobs, and what they came to.
fn pair_differs(
    alloc: Global,
    jobs: &[Wish],
    first: &Done,
    second: &Done,
) -> Result<Failure, Failure> {
    let (one, other) = (first.trial.shown()?, second.trial.shown()?);
    let (here, there) = (first.answers.as_slice(), second.answers.as_slice());
    let (held, kept) = (first.entries.as_slice(), second.entries.as_slice());
    let how = format!(in alloc;
        "{one}\n{other}\nthe same jobs {jobs:?}\nwere answered {here:?}\nand {there:?}\nand left {held:?}\nand {kept:?}\n"
    )?;
    Ok(Failure::Differs {
        how,
        calls: first
            .trial
            .counts
            .calls()
            .saturating_add(second.trial.counts.calls()),
    })
}

// One trial of a case.
fn single(alloc: Global, dice: &mut Dice, case: Case) -> Result<Counts, Failure> {
    let mix = match case.plan {
        Plan::Day(mix) => mix,
        _ => Mix::Even,
    };
    let mut setting = match case.plan {
        Plan::Tides => draw_high_setting(dice, case.order),
        _ => draw_setting(dice, case.order, mix),
    };
    if case.plan == Plan::Damaged {
        setting = setting.with_growth();
    }
    if case.plan == Plan::Large {
        setting.words = dice.pick(&[MOST_WORDS, MOST_WORDS + 64, MOST_WORDS + 127]);
    }
    let words = match case.plan {
        Plan::Damaged => damaged_words(alloc, dice, &setting)?,
        Plan::Unmade => {
            let length = odd_length(dice, &setting);
            blank_words(alloc, dice, length)?
        }
        _ => blank_words(alloc, dice, setting.words)?,
    };
    let draft = Draft {
        plan: case.plan,
        setting,
        wishes: &[],
    };
    let mut work = Work::new(Vec::new(alloc));
    Ok(run_trial(alloc, dice, case.kind, &draft, words.as_slice(), &mut work)?.counts)
}

/// The trials of one round of a case.
pub(crate) fn round(alloc: Global, dice: &mut Dice, case: Case) -> Result<Counts, Failure> {
    match case.plan {
        Plan::Pairs => pair(alloc, dice, case),
        Plan::Texts => texts(alloc, dice, 60),
        Plan::Day(_) | Plan::Large | Plan::Tides | Plan::Unmade | Plan::Damaged | Plan::Lines =>
            single(alloc, dice, case),
    }
}

/// The cases of a round.
pub(crate) const CASES: [Case; 30] = [
    Case {
        name: "days, words, loads, even",
        plan: Plan::Day(Mix::Even),
        kind: Kind::Words,
        order: Order::Loads,
    },
    Case {
        name: "days, words, loads, mostly enters",
        plan: Plan::Day(Mix::Enters),
        kind: Kind::Words,
        order: Order::Loads,
    },
    Case {
        name: "days, words, loads, mostly strikes",
        plan: Plan::Day(Mix::Strikes),
        kind: Kind::Words,
        order: Order::Loads,
    },
    Case {
        name: "days, words, places, even",
        plan: Plan::Day(Mix::Even),
        kind: Kind::Words,
        order: Order::Places,
    },
    Case {
        name: "days, words, places, mostly enters",
        plan: Plan::Day(Mix::Enters),
        kind: Kind::Words,
        order: Order::Places,
    },
    Case {
        name: "days, words, places, mostly strikes",
        plan: Plan::Day(Mix::Strikes),
        kind: Kind::Words,
        order: Order::Places,
    },
    Case {
        name: "days, text, loads, even",
        plan: Plan::Day(Mix::Even),
        kind: Kind::Text,
        order: Order::Loads,
    },
    Case {
        name: "days, text, loads, mostly enters",
        plan: Plan::Day(Mix::Enters),
        kind: Kind::Text,
        order: Order::Loads,
    },
    Case {
        name: "days, text, loads, mostly strikes",
        plan: Plan::Day(Mix::Strikes),
        kind: Kind::Text,
        order: Order::Loads,
    },
    Case {
        name: "days, text, places, even",
        plan: Plan::Day(Mix::Even),
        kind: Kind::Text,
        order: Order::Places,
    },
    Case {
        name: "days, text, places, mostly enters",
        plan: Plan::Day(Mix::Enters),
        kind: Kind::Text,
        order: Order::Places,
    },
    Case {
        name: "days, text, places, mostly strikes",
        plan: Plan::Day(Mix::Strikes),
        kind: Kind::Text,
        order: Order::Places,
    },
    Case {
        name: "unmade, words, loads",
        plan: Plan::Unmade,
        kind: Kind::Words,
        order: Order::Loads,
    },
    Case {
        name: "unmade, words, places",
        plan: Plan::Unmade,
        kind: Kind::Words,
        order: Order::Places,
    },
    Case {
        name: "unmade, text, loads",
        plan: Plan::Unmade,
        kind: Kind::Text,
        order: Order::Loads,
    },
    Case {
        name: "unmade, text, places",
        plan: Plan::Unmade,
        kind: Kind::Text,
        order: Order::Places,
    },
    Case {
        name: "damaged, words, loads",
        plan: Plan::Damaged,
        kind: Kind::Words,
        order: Order::Loads,
    },
    Case {
        name: "damaged, words, places",
        plan: Plan::Damaged,
        kind: Kind::Words,
        order: Order::Places,
    },
    Case {
        name: "damaged, text, loads",
        plan: Plan::Damaged,
        kind: Kind::Text,
        order: Order::Loads,
    },
    Case {
        name: "damaged, text, places",
        plan: Plan::Damaged,
        kind: Kind::Text,
        order: Order::Places,
    },
    Case {
        name: "call lines, words, loads",
        plan: Plan::Lines,
        kind: Kind::Words,
        order: Order::Loads,
    },
    Case {
        name: "call lines, words, places",
        plan: Plan::Lines,
        kind: Kind::Words,
        order: Order::Places,
    },
    Case {
        name: "call lines, text, loads",
        plan: Plan::Lines,
        kind: Kind::Text,
        order: Order::Loads,
    },
    Case {
        name: "call lines, text, places",
        plan: Plan::Lines,
        kind: Kind::Text,
        order: Order::Places,
    },
    Case {
        name: "pairs, words, loads",
        plan: Plan::Pairs,
        kind: Kind::Words,
        order: Order::Loads,
    },
    Case {
        name: "pairs, text, places",
        plan: Plan::Pairs,
        kind: Kind::Text,
        order: Order::Places,
    },
    Case {
        name: "4096 pages, words, loads",
        plan: Plan::Large,
        kind: Kind::Words,
        order: Order::Loads,
    },
    Case {
        name: "texts",
        plan: Plan::Texts,
        kind: Kind::Text,
        order: Order::Loads,
    },
    Case {
        name: "tides, words, loads",
        plan: Plan::Tides,
        kind: Kind::Words,
        order: Order::Loads,
    },
    Case {
        name: "tides, text, places",
        plan: Plan::Tides,
        kind: Kind::Text,
        order: Order::Places,
    },
];

impl Case {
    /// Whether it is tried in this round: stores of many pages are seldom.
    pub(crate) fn is_due(self, round: u64) -> bool {
        self.plan != Plan::Large || round % 20 == 19
    }

    /// A number of its own, by which its draws are others than those of other cases.
    pub(crate) fn salt(self) -> u64 {
        let mut salt = 0u64;
        for byte in self.name.bytes() {
            salt = salt.wrapping_mul(1_000_003).wrapping_add(u64::from(byte));
        }
        salt
    }
}

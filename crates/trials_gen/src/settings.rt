//! Settings: how large a store is, which fill, how many consoles, and what the jobs are mostly for.
use crate::dice::Dice;
use trials_model::Order;

/// What the jobs of a day are mostly for.
#[derive(Clone, Copy, PartialEq, Eq, Debug)]
pub enum Mix {
    /// As much of each.
    Even,
    /// Enters, so that pages are split.
    Enters,
    /// Strikes, so that pages are merged.
    Strikes,
    /// Strikes of keys that are held, until none is.
    Clear,
}

/// The size of a store, and who does what with it.
#[derive(Clone, Copy, PartialEq, Eq, Debug)]
pub struct Setting {
    /// The order of the keys.
    pub order: Order,
    /// What the jobs are mostly for.
    pub mix: Mix,
    /// The words of the store.
    pub words: u64,
    /// The fill.
    pub fill: u64,
    /// The consoles at work, from 0 on.
    pub consoles: u64,
    /// How many keys are used.
    pub keys: u64,
    /// How many calls of a hundred are upkeep.
    pub upkeep: u64,
}

impl Setting {
    /// The same with jobs that are mostly for something else.
    pub fn with_mix(self, mix: Mix) -> Setting {
        Setting { mix, ..self }
    }

    /// The same with so many keys and so much upkeep that there are inner pages and gone ones.
    pub fn with_growth(self) -> Setting {
        Setting {
            keys: self.keys.max(60),
            upkeep: self.upkeep.max(15),
            ..self
        }
    }
}

/// Draws a setting in which a tree can grow high: many pages, and few entries in each.
pub fn draw_high_setting(dice: &mut Dice, order: Order) -> Setting {
    let pages = dice.between(20, 48);
    Setting {
        order,
        mix: Mix::Enters,
        words: pages.saturating_mul(64),
        fill: dice.pick(&[4, 4, 4, 5, 6, 7]),
        consoles: dice.pick(&[1, 4, 9, 32]),
        keys: dice.pick(&[60, 120, 200]),
        upkeep: dice.pick(&[20, 30]),
    }
}

/// Draws a setting of 2 to 48 pages, and mostly of some words more.
pub fn draw_setting(dice: &mut Dice, order: Order, mix: Mix) -> Setting {
    let pages = match dice.below(4) {
        0 => dice.between(2, 6),
        1 => dice.between(5, 16),
        _ => dice.between(12, 48),
    };
    let beyond = dice.pick(&[0, 0, 1, 17, 63]);
    let keys = dice.pick(&[6, 24, 60, 120, 120, 400]);
    Setting {
        order,
        mix,
        words: pages.saturating_mul(64).saturating_add(beyond),
        fill: dice.pick(&[4, 4, 4, 5, 6, 7, 18]),
        consoles: dice.pick(&[1, 2, 4, 9, 32]),
        keys,
        upkeep: dice.pick(&[0, 6, 15, 25, 40]),
    }
}

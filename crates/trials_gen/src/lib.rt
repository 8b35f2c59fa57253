//! What the trials try: settings, calls, damaged words, call lines and texts, drawn by a seeded generator.
#![tactic(auto)]

mod calls;
mod damage;
mod dice;
mod keys;
mod lines;
mod settings;

pub use calls::{Wish, draw_call, draw_unmade_call, draw_wish};
pub use damage::{damage_words, soup};
pub use dice::Dice;
pub use keys::{draw_key, draw_no_key};
pub use lines::{draw_line, draw_text};
pub use settings::{Mix, Setting, draw_high_setting, draw_setting};

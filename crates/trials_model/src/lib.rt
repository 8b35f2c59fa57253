//! A second model of the index, written from docs/CALLS.md and docs/FORMAT.md alone: pages as owned lists, a plain
//! sorted list of entries, the soundness test, and the lines of calls, answers and words.
//!
//! It shares no code and no definition with the index, so that what both say alike is said twice.
#![tactic(auto)]

mod calls;
mod keys;
mod lines;
mod list;
mod model;
mod pages;
mod sound;
mod turns;
mod upkeep;

pub use calls::Call;
pub use keys::{Key, Order};
pub use lines::{answer_line, call_line, run_lines, test_text, text_of, words_line};
pub use list::PlainList;
pub use model::{Job, Kind, Model};
pub use pages::{Page, page_of, words_of};
pub use sound::{entries_of, unsound};

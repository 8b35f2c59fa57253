//! Pages of 64 words: their parts, their layout, and how they are read off a store and written to it.
#![tactic(auto)]

pub mod access;
pub mod entries;
pub mod layout;
pub mod pages;

pub use access::{read_free, read_page, read_root, read_word, write_head, write_page};
pub use entries::{Entries, Entry, MOST_ENTRIES};
pub use layout::{HEAD_MARK, PAGE_WORDS, TooManyEntries};
pub use pages::{HeadBuf, PageBuf, PageState};

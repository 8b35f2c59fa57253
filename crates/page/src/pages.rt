//! Pages as they are copied out of a store, in memory of their own.
ghost use Rattle.std.specs.Prelude.{◌≡◌};
ghost use Rattle.page.specs.Pages.{state_of, state_word};

use crate::entries::Entries;
use order::Key;

/// What word 0 of a page says.
#[derive(Clone, Copy, PartialEq, Eq, Debug, Default)]
pub enum PageState {
    /// 0: not in use, linked to the next free page
    #[default]
    Free,
    /// 1: part of the tree
    Live,
    /// 2: merged into another page
    Gone,
    /// any other word
    Damaged,
}

impl From<u64> for PageState {
    ghost from_gives = { λ word state. state ≡ state_of word };

    fn from(word: u64) -> PageState {
        match word {
            0 => PageState::Free,
            1 => PageState::Live,
            2 => PageState::Gone,
            _ => PageState::Damaged,
        }
    }
}

impl From<PageState> for u64 {
    ghost from_gives = { λ state word. word ≡ state_word state };

    fn from(state: PageState) -> u64 {
        match state {
            PageState::Free => 0,
            PageState::Live => 1,
            PageState::Gone => 2,
            PageState::Damaged => 3,
        }
    }
}

/// A page's parts.
#[derive(Clone, Copy, PartialEq, Eq, Debug, Default)]
pub struct PageBuf {
    /// What the page is used for.
    pub state: PageState,
    /// 0 for a leaf, and one more than its children's for an inner page.
    pub level: u64,
    /// The page that it is linked to.
    pub link: u64,
    /// The first key that the page may hold, or `None` if there is no lower bound.
    pub start: Option<Key>,
    /// The first key that is too large for the page, or `None` if there is no upper bound.
    pub end: Option<Key>,
    /// Its entries, in their order.
    pub entries: Entries,
}

/// What page 0 says.
#[derive(Clone, Copy, PartialEq, Eq, Debug, Default)]
pub struct HeadBuf {
    /// The number of pages.
    pub pages: u64,
    /// The most entries that a page is filled with.
    pub fill: u64,
    /// The first free page, or 0.
    pub free: u64,
    /// The root page.
    pub root: u64,
}

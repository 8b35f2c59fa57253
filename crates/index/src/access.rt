//! How the calls reach the pages of an index.
ghost use Rattle.std.specs.Prelude.{◌≡◌, ◌+◌, ◌*◌, ◌<◌, true, length, slice_index};
ghost use Rattle.order.specs.Refusals.{JustWhere};
ghost use Rattle.page.specs.Buffers.{page_of};
ghost use Rattle.page.specs.Pages.{is_there};
ghost use Rattle.model.specs.States.{view, write, write_head, readable};
ghost use Rattle.model.specs.States.{root as root_of};
ghost use Rattle.index.specs.Indexes.{state_of, is_page};

use crate::index::Index;
use order::Order;
use page::{HeadBuf, PAGE_WORDS, PageBuf, PageState, read_page, read_root, write_head, write_page};
use store::Store;

pub(crate) const TOP_LEVEL: u64 = 4095;

// Whether a page can be worked on: live or gone, with a level and a number of entries that may be, and, where it is
// live and inner, with an entry.
fn is_readable(page: &PageBuf, fill: u64) -> bool
    ensures { result ≡ readable fill (page_of page.now) }
{
    let entries = page.entries.len() as u64;
    match page.state {
        PageState::Live => page.level <= TOP_LEVEL
            && entries <= fill
            && (page.level == 0 || entries > 0),
        PageState::Gone => page.level <= TOP_LEVEL && entries <= fill,
        PageState::Free | PageState::Damaged => false,
    }
}

impl<S: Store, O: Order> Index<S, O> {
    // The root, which is 0 before the index is made.
    pub(crate) fn root(&self) -> u64
        ensures { result ≡ root_of (state_of S.words self.now) }
    {
        if self.pages > 0 && self.store.length() >= PAGE_WORDS as u64 {
            read_root(&self.store)
        } else {
            0
        }
    }

    // Whether a number is that of a page of the index, page 0 aside, that the store has.
    pub(crate) fn has(&self, page: u64) -> bool
        ensures { result ≡ is_page (state_of S.words self.now) page }
    {
        page > 0 && page < self.pages && page < self.store.length() / PAGE_WORDS as u64
    }

    // A page that can be worked on.
    pub(crate) fn page(&self, page: u64) -> Option<PageBuf>
        ensures { JustWhere (readable self.now.fill (view (state_of S.words self.now) page))
            (λ b. page_of b ≡ view (state_of S.words self.now) page) result }
    {
        if page == 0 || page >= self.pages {
            return None;
        }
        let found = read_page(&self.store, page)?;
        is_readable(&found, self.fill).then_some(found)
    }

    // One word of a page, which alone is read.
    fn word(&self, page: u64, at: u64) -> Option<u64>
        requires { at < 64 }
        ensures { JustWhere (is_page (state_of S.words self.now) page)
            (λ w. w ≡ slice_index (S.words self.now.store) (64 * page + at)) result }
    {
        if !self.has(page) {
            return None;
        }
        self.store.read(PAGE_WORDS as u64 * page + at)
    }

    // What a page is used for: its word 0.
    pub(crate) fn state_at(&self, page: u64) -> PageState
        ensures { result ≡ (view (state_of S.words self.now) page).state }
    {
        self.word(page, 0)
            .map_or(PageState::Damaged, PageState::from)
    }

    // The page that a page is linked to: its word 3. 0, which is linked to none, where there is no such page.
    pub(crate) fn link_at(&self, page: u64) -> u64
        ensures { result ≡ (view (state_of S.words self.now) page).link }
    {
        self.word(page, 3).unwrap_or(0)
    }

    // Writes a page that is there. That it is, each caller shows: no type can hold it, since the store is written to.
    pub(crate) fn save(&mut self, page: u64, buf: &PageBuf)
        requires { is_there (S.words self.old.store) page ≡ true }
        ensures state { state_of S.words self.new
            ≡ write page (page_of buf.now) (state_of S.words self.old) }
        ensures long { length (S.words self.new.store) ≡ length (S.words self.old.store) }
        ensures tied { S.lenders self.new.store ≡ S.lenders self.old.store }
    {
        write_page(&mut self.store, page, buf);
    }

    // Writes page 0, which is there.
    pub(crate) fn save_head(&mut self, free: u64, root: u64)
        requires { is_there (S.words self.old.store) 0 ≡ true }
        ensures state { state_of S.words self.new ≡ write_head free root (state_of S.words self.old) }
        ensures tied { S.lenders self.new.store ≡ S.lenders self.old.store }
    {
        let head = HeadBuf {
            pages: self.pages,
            fill: self.fill,
            free,
            root,
        };
        write_head(&mut self.store, head);
    }
}

//! Taking a free page, and the split of a full one.
ghost use Rattle.std.specs.Prelude.{◌≡◌, true, Ok, Err, MatchResult};
ghost use Rattle.page.specs.Buffers.{page_of};
ghost use Rattle.page.specs.Entries.{list_of};
ghost use Rattle.page.specs.Pages.{is_there};
ghost use Rattle.model.specs.States.{view, free_page};
ghost use Rattle.model.specs.Splits.{first_key, upper_page, relinked, shortened, split_full};
ghost use Rattle.index.specs.Indexes.{state_of, KeptIfRefused};

use crate::index::Index;
use model::{Answer, Done, Refusal};
use order::{Key, Order};
use page::{Entries, PageBuf, PageState, read_free};
use store::Store;

// The first key of some entries, zeros where there are none.
fn first_key(entries: &Entries) -> Key
    ensures { result ≡ first_key (list_of entries.now) }
{
    match entries.as_slice() {
        [first, ..] => first.key,
        [] => Key::default(),
    }
}

// Cuts a page in two: the upper part is given back, the lower one stays, with the new page as its neighbour.
fn split_off(page: &mut PageBuf, fill: u64, new: u64) -> PageBuf
    ensures upper { page_of result ≡ upper_page fill (page_of page.old) }
    ensures lower { page_of page.new ≡ shortened fill (relinked new (page_of page.old)) }
{
    let staying = page.entries.len().saturating_sub((fill / 2) as usize);
    let entries = page.entries.cut(staying);
    let key = first_key(&entries);
    let upper = PageBuf {
        state: PageState::Live,
        level: page.level,
        link: page.link,
        start: Some(key),
        end: page.end,
        entries,
    };
    page.link = new;
    page.end = Some(key);
    upper
}

impl<S: Store, O: Order> Index<S, O> {
    // The first free page and the one behind it, or why there is none. A pair: each caller takes it apart at once.
    pub(crate) fn free_page(&self) -> Result<(u64, u64), Refusal>
        ensures { MatchResult result
            (λ taken. (free_page (state_of S.words self.now) ≡ Ok taken.0)
            × (is_there (S.words self.now.store) taken.0 ≡ true)
            × (taken.1 ≡ (view (state_of S.words self.now) taken.0).link))
            (λ refusal. free_page (state_of S.words self.now) ≡ Err refusal) }
    {
        let head = read_free(&self.store);
        if head == 0 {
            return Err(Refusal::NoFreePage);
        }
        if self.state_at(head) != PageState::Free {
            return Err(Refusal::Unreadable(head));
        }
        Ok((head, self.link_at(head)))
    }

    // Splits a full page, if there is a free page for it.
    pub(crate) fn split_full(&mut self, page: u64, buf: PageBuf) -> Answer
        requires { is_there (S.words self.old.store) page ≡ true }
        ensures answer { result
            ≡ (split_full page (page_of buf) (state_of S.words self.old)).answer }
        ensures state { state_of S.words self.new
            ≡ (split_full page (page_of buf) (state_of S.words self.old)).after }
        ensures kept { KeptIfRefused result self.old.store self.new.store }
        ensures tied { S.lenders self.new.store ≡ S.lenders self.old.store }
    {
        let (new, next) = self.free_page()?;
        let root = self.root();
        let mut lower = buf;
        let upper = split_off(&mut lower, self.fill, new);
        self.save(new, &upper);
        self.save(page, &lower);
        self.save_head(next, root);
        Ok(Done::Split(new))
    }
}

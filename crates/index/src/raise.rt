//! Raise: a root that has a neighbour gets a new root above it.
ghost use Rattle.std.specs.Prelude.{◌≡◌, ◌<◌, true};
ghost use Rattle.order.specs.Refusals.{JustWhere};
ghost use Rattle.page.specs.Buffers.{page_of};
ghost use Rattle.page.specs.Pages.{is_there};
ghost use Rattle.model.specs.States.{view, write, write_head};
ghost use Rattle.model.specs.Upkeep.{can_rise, raise, root_over};
ghost use Rattle.index.specs.Indexes.{state_of, KeptIfRefused};

use crate::access::TOP_LEVEL;
use crate::index::Index;
use model::{Answer, Done, Refusal};
use order::{Key, Order};
use page::{Entries, Entry, PageBuf, PageState};
use store::Store;

// A root whose only child is the old one.
fn root_over(root: u64, old: &PageBuf) -> PageBuf
    requires { old.now.level < 4095 }
    ensures { page_of result ≡ root_over root (page_of old.now) }
{
    let mut entries = Entries::new();
    entries.push(Entry {
        key: Key::default(),
        value: root,
    });
    PageBuf {
        state: PageState::Live,
        level: old.level + 1,
        entries,
        ..PageBuf::default()
    }
}

impl<S: Store, O: Order> Index<S, O> {
    // A live page over which there may be another level: a test of its own, beside `inner_page`.
    fn page_below_top(&self, page: u64) -> Option<PageBuf>
        ensures { JustWhere (can_rise self.now.fill (view (state_of S.words self.now) page))
            (λ b. page_of b ≡ view (state_of S.words self.now) page) result }
    {
        self.page(page).filter(|found| found.state == PageState::Live && found.level < TOP_LEVEL)
    }

    // Makes a page that was taken off the free chain the root over the old one; `next` is the page behind it.
    fn put_root_over(&mut self, root: u64, old: &PageBuf, new: u64, next: u64)
        requires level { old.now.level < 4095 }
        requires there { is_there (S.words self.old.store) new ≡ true }
        ensures state { state_of S.words self.new
            ≡ write_head next new
            (write new (root_over root (page_of old.now)) (state_of S.words self.old)) }
        ensures tied { S.lenders self.new.store ≡ S.lenders self.old.store }
    {
        self.save(new, &root_over(root, old));
        self.save_head(next, new);
    }

    // The call `raise`.
    pub(crate) fn raise_step(&mut self) -> Answer
        ensures answer { result ≡ (raise (state_of S.words self.old)).answer }
        ensures state { state_of S.words self.new ≡ (raise (state_of S.words self.old)).after }
        ensures kept { KeptIfRefused result self.old.store self.new.store }
        ensures tied { S.lenders self.new.store ≡ S.lenders self.old.store }
    {
        let root = self.root();
        let old = self.page_below_top(root).ok_or(Refusal::Unreadable(root))?;
        if old.link == 0 {
            return Err(Refusal::Nothing);
        }
        let (new, next) = self.free_page()?;
        self.put_root_over(root, &old, new, next);
        Ok(Done::Raised(new))
    }
}

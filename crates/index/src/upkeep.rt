//! The upkeep of inner pages: two small children become one, and a child that ends short gets its neighbour's entry.
ghost use Rattle.std.specs.Prelude.{◌≡◌, ◌+◌, ◌<◌, ◌≤◌, true, length, drop, Some, None};
ghost use Rattle.order.specs.Refusals.{JustWhere};
ghost use Rattle.page.specs.Buffers.{page_of};
ghost use Rattle.page.specs.Entries.{list_of};
ghost use Rattle.model.specs.States.{view, readable};
ghost use Rattle.model.specs.Upkeep.{is_inner, is_child, wrong_child};
ghost use Rattle.model.specs.Upkeep.{is_small, merge_pair, joined as joined_page, gone_into, child_at, entry_out};
ghost use Rattle.model.specs.Upkeep.{merge_at, merge};
ghost use Rattle.model.specs.Upkeep.{entry_in, following, ends_short, short_child, post_at, post};
ghost use Rattle.model.specs.Turns.{with_entries};
ghost use Rattle.index.specs.Indexes.{state_of, rule_of, KeptIfRefused};
ghost use Rattle.index.specs.Parents.{ReadParent, IsParent};
ghost use Rattle.index.specs.Pairs.{takes_next, children_merged, neighbour_entry};

use crate::index::Index;
use model::{Answer, Done, Refusal};
use order::{Key, Order};
use page::{Entry, PageBuf, PageState};
use store::Store;

// Whether two pages may become one: half of a full page's entries at most, or one of them without any.
fn is_small(fill: u64, left: &PageBuf, right: &PageBuf) -> bool
    ensures { result ≡ is_small fill (page_of left.now) (page_of right.now) }
{
    let (lefts, rights) = (left.entries.len() as u64, right.entries.len() as u64);
    lefts + rights <= fill / 2 || lefts == 0 || rights == 0
}

// Whether a page takes its right neighbour, which is page `next`.
fn takes_next(fill: u64, left: &PageBuf, next: u64, right: &PageBuf) -> bool
    ensures { result ≡ takes_next fill (page_of left.now) next (page_of right.now) }
{
    left.link == next && is_small(fill, left, right)
}

// The left page with the right one's entries, neighbour and end. That there is room its caller knows: the pages are small.
fn joined(left: &PageBuf, right: &PageBuf) -> PageBuf
    requires { length (list_of left.now.entries) + length (list_of right.now.entries) ≤ 18 }
    ensures { page_of result ≡ joined_page (page_of left.now) (page_of right.now) }
{
    let mut joined = PageBuf {
        link: right.link,
        end: right.end,
        ..*left
    };
    joined.entries.append(&right.entries);
    joined
}

// The child of the entry at a place, 0 behind the last. No `Option`: its callers ask for places that have an entry.
fn child_at(page: &PageBuf, at: usize) -> u64
    ensures { result ≡ child_at (list_of page.now.entries) at }
{
    page.entries.get(at).map_or(0, |entry| entry.value)
}

// A page without the entry at a place.
fn without_entry(page: &PageBuf, at: usize) -> PageBuf
    requires { at < length (list_of page.now.entries) }
    ensures { page_of result
        ≡ with_entries (entry_out at (list_of page.now.entries)) (page_of page.now) }
{
    let mut without = *page;
    without.entries.remove(at);
    without
}

// The key of the entry at a place, and behind the last the page's end.
fn key_from(page: &PageBuf, at: usize) -> Option<Key>
    ensures { result ≡ following page.now.end (drop at (list_of page.now.entries)) }
{
    page.entries
        .get(at)
        .map_or(page.end, |entry| Some(entry.key))
}

// A page with an entry more, of a child's end and right neighbour, behind the child's own. That there is room its caller
// tested, by the fill.
fn posted(page: &PageBuf, at: usize, child: &PageBuf) -> PageBuf
    requires place { at < length (list_of page.now.entries) }
    requires room { length (list_of page.now.entries) < 18 }
    ensures { page_of result ≡ with_entries
        (entry_in (at + 1) (neighbour_entry (page_of child.now)) (list_of page.now.entries))
        (page_of page.now) }
{
    let mut posted = *page;
    let entry = Entry {
        key: child.end.unwrap_or_default(),
        value: child.link,
    };
    posted.entries.insert(at + 1, entry);
    posted
}

// What is left of a page that was merged into another.
fn gone_into(page: u64, merged: &PageBuf) -> PageBuf
    ensures { page_of result ≡ gone_into page (page_of merged.now) }
{
    PageBuf {
        state: PageState::Gone,
        level: merged.level,
        link: page,
        start: merged.start,
        ..PageBuf::default()
    }
}

impl<S: Store, O: Order> Index<S, O> {
    // A live inner page. Its test and that of `page_below_top` are two, each of one call.
    fn inner_page(&self, page: u64) -> Option<PageBuf>
        ensures { JustWhere (is_inner self.now.fill (view (state_of S.words self.now) page))
            (λ b. page_of b ≡ view (state_of S.words self.now) page) result }
    {
        self.page(page)
            .filter(|found| found.state == PageState::Live && found.level > 0)
    }

    // Whether a page is live, and one level below a parent of this level.
    fn is_child(&self, page: u64, level: u64) -> bool
        ensures { result
            ≡ is_child self.now.fill level (view (state_of S.words self.now) page) }
    {
        matches!(self.page(page), Some(found)
            if found.state == PageState::Live && level > 0 && found.level == level - 1)
    }

    // The first entry of an inner page that leads to no child of it.
    fn wrong_child(&self, page: &PageBuf) -> Option<u64>
        ensures { result ≡ wrong_child (state_of S.words self.now) page.now.level
            (list_of page.now.entries) }
    {
        page.entries
            .as_slice()
            .iter()
            .find(|entry| !self.is_child(entry.value, page.level))
            .map(|entry| entry.value)
    }

    // The first place whose child may take the next one's entries. That every child is right is asked here and below: it is
    // a fact of the store too, which is written to, so the parent cannot hold it. Each child is read once, so no `windows`.
    fn merge_pair(&self, page: &PageBuf) -> Option<usize>
        requires { wrong_child (state_of S.words self.now) page.now.level (list_of page.now.entries) ≡ None }
        ensures { result ≡ merge_pair (state_of S.words self.now) (list_of page.now.entries) }
    {
        let (first, rest) = page.entries.as_slice().split_first()?;
        let mut left = self.page(first.value)?;
        for (at, entry) in rest.iter().enumerate() {
            let right = self.page(entry.value)?;
            if takes_next(self.fill, &left, entry.value, &right) {
                return Some(at);
            }
            left = right;
        }
        None
    }

    // Makes one page of two neighbours: first the left one is written, then the right one.
    fn merge_children(&mut self, left: u64, right: u64)
        requires left { readable self.old.fill (view (state_of S.words self.old) left) ≡ true }
        requires right { readable self.old.fill (view (state_of S.words self.old) right) ≡ true }
        requires small { is_small self.old.fill (view (state_of S.words self.old) left)
            (view (state_of S.words self.old) right) ≡ true }
        ensures state { state_of S.words self.new
            ≡ children_merged left right (state_of S.words self.old) }
        ensures long { length (S.words self.new.store) ≡ length (S.words self.old.store) }
        ensures tied { S.lenders self.new.store ≡ S.lenders self.old.store }
    {
        let first = self.page(left).unwrap();
        let second = self.page(right).unwrap();
        self.save(left, &joined(&first, &second));
        self.save(right, &gone_into(left, &second));
    }

    // An inner page whose children can all be worked on, or why there is none.
    fn parent(&self, page: u64) -> Result<PageBuf, Refusal>
        ensures { ReadParent (state_of S.words self.now) page result }
    {
        let found = self.inner_page(page).ok_or(Refusal::NoInner)?;
        match self.wrong_child(&found) {
            Some(child) => Err(Refusal::Unreadable(child)),
            None => Ok(found),
        }
    }

    // Merges the child at a place with the next one, and then takes that one's entry out of their parent. A page's number,
    // its parts and a place are three arguments: each is used by itself.
    #[tactic(auto, using(crate::proofs::Merging::parent_there))]
    fn merge_at(&mut self, page: u64, parent: &PageBuf, at: usize) -> Done
        requires parent { IsParent (state_of S.words self.old) page (page_of parent.now) }
        requires pair { merge_pair (state_of S.words self.old) (list_of parent.now.entries) ≡ Some at }
        ensures done { Ok result
            ≡ (merge_at page (page_of parent.now) (Some at) (state_of S.words self.old)).answer }
        ensures state { state_of S.words self.new
            ≡ (merge_at page (page_of parent.now) (Some at) (state_of S.words self.old)).after }
        ensures tied { S.lenders self.new.store ≡ S.lenders self.old.store }
    {
        let next = at + 1;
        let (left, right) = (child_at(parent, at), child_at(parent, next));
        self.merge_children(left, right);
        self.save(page, &without_entry(parent, next));
        Done::Merged(right)
    }

    // Makes one page of the first two neighbouring children that have room in one.
    pub(crate) fn merge_step(&mut self, page: u64) -> Answer
        ensures answer { result ≡ (merge page (state_of S.words self.old)).answer }
        ensures state { state_of S.words self.new
            ≡ (merge page (state_of S.words self.old)).after }
        ensures kept { KeptIfRefused result self.old.store self.new.store }
        ensures tied { S.lenders self.new.store ≡ S.lenders self.old.store }
    {
        let parent = self.parent(page)?;
        let at = self.merge_pair(&parent).ok_or(Refusal::Nothing)?;
        Ok(self.merge_at(page, &parent, at))
    }

    // Whether a child's end lies before what follows its entry. No end is after every key.
    fn ends_short(end: Option<Key>, next: Option<Key>) -> bool
        ensures { result ≡ ends_short (rule_of O.keyed O.compared) end next }
    {
        match (end, next) {
            (None, _) => false,
            (Some(_), None) => true,
            (Some(end), Some(next)) => O::compare(end, next).is_lt(),
        }
    }

    // The first place whose child ends before what follows. A loop, since `position` does not tell its closure the place, by
    // which what follows is found.
    fn short_child(&self, page: &PageBuf) -> Option<usize>
        requires { wrong_child (state_of S.words self.now) page.now.level (list_of page.now.entries) ≡ None }
        ensures { result ≡ short_child (rule_of O.keyed O.compared) (state_of S.words self.now)
            page.now.end (list_of page.now.entries) }
    {
        for (at, entry) in page.entries.as_slice().iter().enumerate() {
            let child = self.page(entry.value)?;
            if Self::ends_short(child.end, key_from(page, at + 1)) {
                return Some(at);
            }
        }
        None
    }

    // Puts an entry of a child's end and right neighbour behind the child's own. A full page is split instead.
    #[tactic(auto, using(crate::proofs::Merging::parent_there, crate::proofs::Posting::short_within))]
    fn post_at(&mut self, page: u64, parent: &PageBuf, at: usize) -> Answer
        requires parent { IsParent (state_of S.words self.old) page (page_of parent.now) }
        requires short { short_child (rule_of O.keyed O.compared) (state_of S.words self.old) parent.now.end
            (list_of parent.now.entries) ≡ Some at }
        ensures answer { result ≡ (post_at (rule_of O.keyed O.compared) page (page_of parent.now) (Some at)
            (state_of S.words self.old)).answer }
        ensures state { state_of S.words self.new
            ≡ (post_at (rule_of O.keyed O.compared) page (page_of parent.now) (Some at)
            (state_of S.words self.old)).after }
        ensures kept { KeptIfRefused result self.old.store self.new.store }
        ensures tied { S.lenders self.new.store ≡ S.lenders self.old.store }
    {
        if parent.entries.len() as u64 >= self.fill {
            return self.split_full(page, *parent);
        }
        let child = self.page(child_at(parent, at)).unwrap();
        self.save(page, &posted(parent, at, &child));
        Ok(Done::Posted(child.link))
    }

    // Gives the right neighbour of the first child that ends short an entry of its own.
    pub(crate) fn post_step(&mut self, page: u64) -> Answer
        ensures answer { result ≡ (post (rule_of O.keyed O.compared) page (state_of S.words self.old)).answer }
        ensures state { state_of S.words self.new
            ≡ (post (rule_of O.keyed O.compared) page (state_of S.words self.old)).after }
        ensures kept { KeptIfRefused result self.old.store self.new.store }
        ensures tied { S.lenders self.new.store ≡ S.lenders self.old.store }
    {
        let parent = self.parent(page)?;
        let at = self.short_child(&parent).ok_or(Refusal::Nothing)?;
        self.post_at(page, &parent, at)
    }
}

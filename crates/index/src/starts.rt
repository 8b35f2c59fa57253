//! How an index is made: on a store that has none, and on one that has.
ghost use Rattle.std.specs.Prelude.{◌≡◌, ◌-◌, ◌*◌, ◌<◌, ◌≤◌, length, MatchResult};
ghost use Rattle.std.specs.List.{range_with_len};
ghost use Rattle.page.specs.Buffers.{page_of};
ghost use Rattle.model.specs.Starts.{format, attach, made, format_words, free_chain, empty_leaf, next_of, is_fill, pages_in};
ghost use Rattle.model.specs.Upkeep.{free_page_to};
ghost use Rattle.model.specs.declared.answers.Refusal.TheVariants.{StoreTooSmall};
ghost use Rattle.index.specs.Indexes.{state_of, KeptIfRefused};

use crate::index::{Index, MOST_PAGES};
use model::{Answer, Done, Refusal};
use order::Order;
use page::{
    HEAD_MARK, HeadBuf, MOST_ENTRIES, PAGE_WORDS, PageBuf, PageState, read_word, write_head,
    write_page,
};
use store::Store;

// Page 0 and the root.
const LEAST_PAGES: u64 = 2;

const LEAST_WORDS: u64 = LEAST_PAGES * PAGE_WORDS as u64;

const LEAST_FILL: u64 = 4;

const MOST_FILL: u64 = MOST_ENTRIES as u64;

const FIRST_ROOT: u64 = 1;

const FIRST_FREE: u64 = 2;

fn is_fill(fill: u64) -> bool
    ensures { result ≡ is_fill fill }
{
    (LEAST_FILL..=MOST_FILL).contains(&fill)
}

// The pages of a store that is large enough, of which an index takes no more than it may have.
fn pages_in<S: Store>(store: &S) -> Result<u64, Refusal>
    ensures { MatchResult result
        (λ pages. (128 ≤ length (S.words store.now)) × (pages ≡ pages_in (S.words store.now)))
        (λ refusal. (length (S.words store.now) < 128) × (refusal ≡ StoreTooSmall)) }
{
    if store.length() < LEAST_WORDS {
        return Err(Refusal::StoreTooSmall);
    }
    Ok((store.length() / PAGE_WORDS as u64).min(MOST_PAGES as u64))
}

// The page after one, or 0 after the last.
fn next_of(pages: u64, page: u64) -> u64
    requires { page ≤ 4096 }
    ensures { result ≡ next_of pages page }
{
    if page + 1 < pages { page + 1 } else { 0 }
}

// The root of a new index.
fn empty_leaf() -> PageBuf
    ensures { page_of result ≡ empty_leaf }
{
    PageBuf {
        state: PageState::Live,
        ..PageBuf::default()
    }
}

// A free page that points to the next.
pub(crate) fn free_page_to(next: u64) -> PageBuf
    ensures { page_of result ≡ free_page_to next }
{
    PageBuf {
        state: PageState::Free,
        link: next,
        ..PageBuf::default()
    }
}

// Lays the free chain through the pages behind the root, in rising order. The loop counts pages, which are no slice.
fn lay_free_chain<S: Store>(store: &mut S, pages: u64)
    requires { (2 ≤ pages) × (pages ≤ 4096) × (64 * pages ≤ length (S.words store.old)) }
    ensures laid { S.words store.new
        ≡ free_chain pages (range_with_len 2 (pages - 2)) (S.words store.old) }
    ensures tied { S.lenders store.new ≡ S.lenders store.old }
{
    for page in FIRST_FREE..pages {
        write_page(store, page, &free_page_to(next_of(pages, page)));
    }
}

// Writes all pages of a new index.
fn lay_pages<S: Store>(store: &mut S, pages: u64, fill: u64)
    requires { (2 ≤ pages) × (pages ≤ 4096) × (64 * pages ≤ length (S.words store.old)) }
    ensures laid { S.words store.new ≡ format_words pages fill (S.words store.old) }
    ensures tied { S.lenders store.new ≡ S.lenders store.old }
{
    let head = HeadBuf {
        pages,
        fill,
        free: next_of(pages, FIRST_ROOT),
        root: FIRST_ROOT,
    };
    write_head(store, head);
    write_page(store, FIRST_ROOT, &empty_leaf());
    lay_free_chain(store, pages);
}

impl<S: Store, O: Order> Index<S, O> {
    // Takes the copies of a head, and leaves every console idle. That they are in range its caller tested. Two numbers and
    // no struct: the index itself is what holds them, with these facts.
    fn start(&mut self, pages: u64, fill: u64)
        requires few { fill ≤ 18 }
        requires bounded { pages ≤ 4096 }
        ensures state { state_of S.words self.new ≡ made pages fill (S.words self.old.store) }
        ensures kept { self.new.store ≡ self.old.store }
    {
        self.pages = pages;
        self.fill = fill;
        self.consoles.clear();
    }

    // Makes an empty index on the store.
    pub(crate) fn format_step(&mut self, fill: u64) -> Answer
        ensures answer { result ≡ (format fill (state_of S.words self.old)).answer }
        ensures state { state_of S.words self.new
            ≡ (format fill (state_of S.words self.old)).after }
        ensures kept { KeptIfRefused result self.old.store self.new.store }
        ensures tied { S.lenders self.new.store ≡ S.lenders self.old.store }
    {
        let pages = pages_in(&self.store)?;
        if !is_fill(fill) {
            return Err(Refusal::NoFill);
        }
        lay_pages(&mut self.store, pages, fill);
        self.start(pages, fill);
        Ok(Done::Made(pages))
    }

    // Takes up the index that stands on the store.
    pub(crate) fn attach_step(&mut self) -> Answer
        ensures answer { result ≡ (attach (state_of S.words self.old)).answer }
        ensures state { state_of S.words self.new ≡ (attach (state_of S.words self.old)).after }
        ensures kept { self.new.store ≡ self.old.store }
    {
        let most = pages_in(&self.store)?;
        let mark = read_word(&self.store, 0);
        let pages = read_word(&self.store, 1);
        let fill = read_word(&self.store, 2);
        if mark == HEAD_MARK && (LEAST_PAGES..=most).contains(&pages) && is_fill(fill) {
            self.start(pages, fill);
            Ok(Done::Made(pages))
        } else {
            Err(Refusal::NoIndex)
        }
    }
}

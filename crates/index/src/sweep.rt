//! Sweep: the gone pages that nothing leads to any more are free again.
ghost use Rattle.std.specs.Prelude.{◌≡◌, true, length};
ghost use Rattle.page.specs.Pages.{is_there};
ghost use Rattle.model.specs.States.{view, is_gone};
ghost use Rattle.model.specs.Upkeep.{free_page_to, give_back, give_back_all, points_to, sweep};
ghost use Rattle.index.specs.Indexes.{state_of, KeptIfRefused};
ghost use Rattle.index.specs.Sweeps.{MarkedBelow, all_unreached};

use crate::consoles::is_on;
use crate::index::{Index, MOST_PAGES};
use crate::starts::free_page_to;
use model::{Answer, Done, Refusal};
use order::Order;
use page::{PageState, read_free};
use store::Store;

impl<S: Store, O: Order> Index<S, O> {
    // Whether a page was merged into another.
    fn is_gone(&self, page: u64) -> bool
        ensures { result ≡ is_gone (view (state_of S.words self.now) page).state }
    {
        self.state_at(page) == PageState::Gone
    }

    // Whether one page is gone and points to another.
    fn points_to(&self, from: u64, page: u64) -> bool
        ensures { result ≡ points_to page (view (state_of S.words self.now) from) }
    {
        self.is_gone(from) && self.link_at(from) == page
    }

    // Marks the gone pages on which no job stands and to which no gone page points.
    // A loop with inner scans, and no chain: either scan may settle that a page stays, and its first hit leaves both by
    // the label. The marks are in fixed memory: no call may fail for want of it.
    fn unreached(&self) -> [bool; MOST_PAGES]
        ensures { MarkedBelow (state_of S.words self.now) self.now.pages result }
    {
        let mut marked = [false; MOST_PAGES];
        'pages: for page in 1..self.pages {
            if !self.is_gone(page) {
                continue 'pages;
            }
            for (_console, job) in self.consoles.jobs().iter().enumerate() {
                if is_on(*job, page) {
                    continue 'pages;
                }
            }
            for other in 1..self.pages {
                if self.points_to(other, page) {
                    continue 'pages;
                }
            }
            marked[page as usize] = true;
        }
        marked
    }

    // Puts a page that is there at the head of the free chain.
    fn give_back(&mut self, page: u64)
        requires { is_there (S.words self.old.store) page ≡ true }
        ensures state { state_of S.words self.new ≡ give_back page (state_of S.words self.old) }
        ensures tied { S.lenders self.new.store ≡ S.lenders self.old.store }
    {
        let root = self.root();
        let next = read_free(&self.store);
        self.save(page, &free_page_to(next));
        self.save_head(page, root);
    }

    // Frees the marked pages, and says how many.
    fn free_marked(&mut self, marked: &[bool; MOST_PAGES]) -> u64
        requires { MarkedBelow (state_of S.words self.old) self.old.pages marked.now }
        ensures count { result ≡ length (all_unreached (state_of S.words self.old)) }
        ensures state { state_of S.words self.new
            ≡ give_back_all (all_unreached (state_of S.words self.old)) (state_of S.words self.old) }
        ensures kept { result ≡ 0 → self.new.store ≡ self.old.store }
        ensures tied { S.lenders self.new.store ≡ S.lenders self.old.store }
    {
        let mut freed = 0;
        for (page, is_marked) in marked[..self.pages as usize].iter().enumerate() {
            if *is_marked {
                self.give_back(page as u64);
                freed += 1;
            }
        }
        freed
    }

    // The call `sweep`. All pages are found before any is freed, since a freed page no longer points to another.
    pub(crate) fn sweep_step(&mut self) -> Answer
        ensures answer { result ≡ (sweep (state_of S.words self.old)).answer }
        ensures state { state_of S.words self.new ≡ (sweep (state_of S.words self.old)).after }
        ensures kept { KeptIfRefused result self.old.store self.new.store }
        ensures tied { S.lenders self.new.store ≡ S.lenders self.old.store }
    {
        let marked = self.unreached();
        match self.free_marked(&marked) {
            0 => Err(Refusal::Nothing),
            freed => Ok(Done::Swept(freed)),
        }
    }
}

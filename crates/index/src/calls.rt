//! The calls of an index. Each answers a code and a figure, and a refusal, a code below 20, changes nothing.
//!
//! They take and give numbers, as a console sends and shows them: what is out of range is refused here, and not before.
//! Behind them an answer is a `Result`.
ghost use Rattle.std.specs.Prelude.{◌≡◌, ◌<◌, ◌≢◌};
ghost use Rattle.model.specs.CallPromises.{AttachCalled, Called, EndsAlone, FormatCalled};
ghost use Rattle.model.specs.Calls.{begin as begin_call, turn as turn_call, withdraw as withdraw_call};
ghost use Rattle.model.specs.Calls.{post as post_call, merge as merge_call, raise as raise_call, sweep as sweep_call};
ghost use Rattle.index.specs.Indexes.{state_of, rule_of};

use crate::index::Index;
use model::pair;
use order::{Key, Order};
use store::Store;

impl<S: Store, O: Order> Index<S, O> {
    /// Makes an index of the store, with a fill of 4 to 18: one empty leaf, the other pages free, every console idle.
    /// 20 with the number of pages. Refused: 1 fewer than 128 words, 2 no such fill.
    pub fn format(&mut self, fill: u64) -> (u64, u64)
        ensures called { FormatCalled fill (state_of S.words self.old)
            result.0 result.1 (state_of S.words self.new) }
        ensures kept { result.0 < 20 → self.new.store ≡ self.old.store }
        ensures tied { S.lenders self.new.store ≡ S.lenders self.old.store }
    {
        pair(self.format_step(fill))
    }

    /// Takes a store that holds an index, by its page 0 alone, and leaves every console idle.
    /// 20 with the number of pages. Refused: 1 fewer than 128 words, 3 page 0 is not that of an index.
    pub fn attach(&mut self) -> (u64, u64)
        ensures called { AttachCalled (state_of S.words self.old)
            result.0 result.1 (state_of S.words self.new) }
        ensures kept { self.new.store ≡ self.old.store }
        ensures tied { S.lenders self.new.store ≡ S.lenders self.old.store }
    {
        pair(self.attach_step())
    }

    /// Gives a console a job of a kind (1 look, 2 enter, 3 strike) for a key and a value; it stands on the root. 20.
    /// Refused: 4 no such console, 5 it has a job, 7 no such kind or no key.
    pub fn begin(&mut self, console: u64, kind: u64, key: Key, value: u64) -> (u64, u64)
        ensures called { Called (rule_of O.keyed O.compared) (begin_call console kind key value)
            (state_of S.words self.old) result.0 result.1 (state_of S.words self.new) }
        ensures kept { self.new.store ≡ self.old.store }
        ensures tied { S.lenders self.new.store ≡ S.lenders self.old.store }
    {
        pair(self.begin_step(console, kind, key, value))
    }

    /// Takes one turn of a console's job: it handles the one page on which the job stands.
    /// 21 the job goes to this page, 22 the page was split and this is the new one; 23 found this value, 24 there is
    /// none, 25 entered, 26 this value is held already, 27 struck this value.
    /// Refused: 4 no such console, 6 it has no job, 8 this page is not what it should be, 9 no page is free.
    pub fn turn(&mut self, console: u64) -> (u64, u64)
        ensures called { Called (rule_of O.keyed O.compared) (turn_call console) (state_of S.words self.old)
            result.0 result.1 (state_of S.words self.new) }
        ensures alone { EndsAlone (rule_of O.keyed O.compared) console (state_of S.words self.old) }
        ensures kept { result.0 ≢ 22 → result.0 ≢ 25 → result.0 ≢ 27 → self.new.store ≡ self.old.store }
        ensures tied { S.lenders self.new.store ≡ S.lenders self.old.store }
    {
        pair(self.turn_step(console))
    }

    /// Drops a console's job. 28 with the page on which it stood.
    /// Refused: 4 no such console, 6 it has no job.
    pub fn withdraw(&mut self, console: u64) -> (u64, u64)
        ensures called { Called (rule_of O.keyed O.compared) (withdraw_call console) (state_of S.words self.old)
            result.0 result.1 (state_of S.words self.new) }
        ensures kept { self.new.store ≡ self.old.store }
        ensures tied { S.lenders self.new.store ≡ S.lenders self.old.store }
    {
        pair(self.withdraw_step(console))
    }

    /// Enters into an inner page the right neighbour of the first child that ends short of what follows it. 29 with
    /// it; 22 with the new page where the page is full and is split instead.
    /// Refused: 10 no such inner page, 8 this child is wrong, 11 nothing to do, 9 no page is free.
    pub fn post(&mut self, page: u64) -> (u64, u64)
        ensures called { Called (rule_of O.keyed O.compared) (post_call page) (state_of S.words self.old)
            result.0 result.1 (state_of S.words self.new) }
        ensures kept { result.0 < 20 → self.new.store ≡ self.old.store }
        ensures tied { S.lenders self.new.store ≡ S.lenders self.old.store }
    {
        pair(self.post_step(page))
    }

    /// Joins the first two small neighbours under an inner page. 30 with the page that is gone now.
    /// Refused: 10 no such inner page, 8 this child is wrong, 11 nothing to do.
    pub fn merge(&mut self, page: u64) -> (u64, u64)
        ensures called { Called (rule_of O.keyed O.compared) (merge_call page) (state_of S.words self.old)
            result.0 result.1 (state_of S.words self.new) }
        ensures kept { result.0 < 20 → self.new.store ≡ self.old.store }
        ensures tied { S.lenders self.new.store ≡ S.lenders self.old.store }
    {
        pair(self.merge_step(page))
    }

    /// Puts a new root over a root that has a right neighbour. 31 with it.
    /// Refused: 8 the root is wrong, 11 it has no neighbour, 9 no page is free.
    pub fn raise(&mut self) -> (u64, u64)
        ensures called { Called (rule_of O.keyed O.compared) raise_call (state_of S.words self.old)
            result.0 result.1 (state_of S.words self.new) }
        ensures kept { result.0 < 20 → self.new.store ≡ self.old.store }
        ensures tied { S.lenders self.new.store ≡ S.lenders self.old.store }
    {
        pair(self.raise_step())
    }

    /// Frees every gone page on which no job stands and to which no gone page points. 32 with their number.
    /// Refused: 11 there is none.
    pub fn sweep(&mut self) -> (u64, u64)
        ensures called { Called (rule_of O.keyed O.compared) sweep_call (state_of S.words self.old)
            result.0 result.1 (state_of S.words self.new) }
        ensures kept { result.0 < 20 → self.new.store ≡ self.old.store }
        ensures tied { S.lenders self.new.store ≡ S.lenders self.old.store }
    {
        pair(self.sweep_step())
    }
}

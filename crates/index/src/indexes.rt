//! How an index is made over a store, and taken apart.
ghost use Rattle.std.specs.Prelude.{◌≡◌, nat_lt};
ghost use Rattle.model.specs.Starts.{unmade};
ghost use Rattle.index.specs.Indexes.{state_of};

use crate::consoles::Consoles;
use crate::index::Index;
use order::Order;
use std::marker::PhantomData;
use store::Store;

impl<S: Store, O: Order> Index<S, O> {
    /// An index over a store that is not made yet: it has no pages and no root, and its consoles are idle.
    pub fn new(store: S) -> Index<S, O>
        ensures state { state_of S.words result ≡ unmade (S.words store) }
        ensures kept { result.store ≡ store }
    {
        Index {
            store,
            consoles: Consoles::new(),
            pages: 0,
            fill: 0,
            order: PhantomData,
        }
    }

    /// Whether the index is made: format or attach gave it pages.
    pub fn is_made(&self) -> bool
        ensures { result ≡ nat_lt 0 (state_of S.words self.now).pages }
    {
        self.pages > 0
    }

    /// The store, lent to be read.
    pub fn store(&self) -> &S
        ensures { result.now ≡ self.now.store }
    {
        &self.store
    }

    /// Takes the index apart, and gives back its store.
    pub fn into_store(self) -> S
        ensures { result ≡ self.store }
    {
        let Index {
            store,
            consoles: _,
            pages: _,
            fill: _,
            order: _,
        } = self;
        store
    }
}

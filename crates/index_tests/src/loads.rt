//! What the tests share: an index of loads over words, the kinds of its jobs, and the keys of truck 7.
use index::Index;
use order::{Key, LoadOrder};
use store::words::WordStore;

pub(crate) const LOOK: u64 = 1;

pub(crate) const ENTER: u64 = 2;

pub(crate) const STRIKE: u64 = 3;

pub(crate) type Loads<'a> = Index<WordStore<'a>, LoadOrder>;

// Truck 7 at a second.
pub(crate) fn at(second: u64) -> Key {
    Key { hi: 7, lo: second }
}

// Runs calls over an index on these words.
pub(crate) fn on<A, F: FnOnce(&mut Loads) -> A>(words: &mut [u64], calls: F) -> A
    requires { F.IsAlwaysCallable calls }
{
    let mut index: Loads = Index::new(WordStore::new(words));
    calls(&mut index)
}

// Enters a load by console 0 in one turn, which is all that a leaf with room takes.
pub(crate) fn enter(index: &mut Loads, second: u64, value: u64) {
    index.begin(0, ENTER, at(second), value);
    index.turn(0);
}

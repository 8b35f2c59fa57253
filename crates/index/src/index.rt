//! The index itself, in a file of its own, since its definitions speak of it.
ghost use Rattle.std.specs.Prelude.{◌≤◌};

use crate::consoles::Consoles;
use std::marker::PhantomData;

// The most pages that an index has.
pub(crate) const MOST_PAGES: usize = 4096;

/// An index over a store, under an order of keys.
#[derive(Debug, Drop)]
pub struct Index<S, O> {
    pub(crate) store: S,
    pub(crate) consoles: Consoles,
    pub(crate) pages: u64,
    pub(crate) fill: u64,
    pub(crate) order: PhantomData<O>,
    ghost few: { fill ≤ 18 },
    ghost bounded: { pages ≤ 4096 },
}

//! Load keys, a truck and a second, and their order.
ghost use Rattle.std.specs.Prelude.{◌≡◌, true, Some, codes};
ghost use Rattle.order.specs.Loads.{is_load, is_load_key, key_of_load, loads, load_laws};
ghost use Rattle.order.specs.Refusals.{JustWhere, OkWhere};

use crate::keys::Key;
use crate::orders::Order;
use std::cmp::Ordering;
use std::error::Error;
use std::fmt;

const FIRST_TRUCK: u64 = 1;

const LAST_TRUCK: u64 = 9_999;

const LAST_SECOND: u64 = 4_294_967_295;

/// A truck and a second, both within their ranges.
#[derive(Clone, Copy, PartialEq, Eq, Debug, Hash)]
pub struct LoadKey {
    truck: u64,
    second: u64,
    ghost within: { is_load truck second ≡ true },
}

/// A key that stands for no load.
#[derive(Clone, Copy, PartialEq, Eq, Debug, Hash)]
pub struct NoLoad;

// The one place in the code that knows the ranges.
fn is_load(truck: u64, second: u64) -> bool
    ensures { result ≡ is_load truck second }
{
    (FIRST_TRUCK..=LAST_TRUCK).contains(&truck) && second <= LAST_SECOND
}

impl LoadKey {
    /// The load of a truck at a second, or `None` where one of the two is out of its range.
    pub fn new(truck: u64, second: u64) -> Option<LoadKey>
        ensures { JustWhere (is_load truck second) (λ l. (l.truck ≡ truck) × (l.second ≡ second)) result }
    {
        if is_load(truck, second) {
            Some(LoadKey { truck, second })
        } else {
            None
        }
    }

    /// The load's truck.
    pub fn truck(&self) -> u64
        ensures { result ≡ self.now.truck }
    {
        self.truck
    }

    /// The load's second.
    pub fn second(&self) -> u64
        ensures { result ≡ self.now.second }
    {
        self.second
    }
}

impl TryFrom<Key> for LoadKey {
    type Error = NoLoad;

    ghost try_from_gives = { λ k. OkWhere (is_load_key k) (λ l. (l.truck ≡ k.hi) × (l.second ≡ k.lo)) };

    fn try_from(k: Key) -> Result<Self, NoLoad> {
        LoadKey::new(k.hi, k.lo).ok_or(NoLoad)
    }
}

impl From<LoadKey> for Key {
    ghost from_gives = { λ load k. (k ≡ key_of_load load.truck load.second) × (is_load_key k ≡ true) };

    fn from(load: LoadKey) -> Key {
        Key {
            hi: load.truck,
            lo: load.second,
        }
    }
}

// Written by hand: the derive of `thiserror` says nothing of what is printed, and this does.
impl fmt::Display for NoLoad {
    ghost output = { λ _. Some (codes "the key stands for no load") };

    fn fmt<W: fmt::Write>(&self, f: &mut fmt::Formatter<W>) -> fmt::Result {
        f.write_str("the key stands for no load")
    }
}

impl Error for NoLoad {}

/// The order of loads: by truck, then by second.
#[derive(Clone, Copy, PartialEq, Eq, Debug, Default)]
pub struct LoadOrder;

impl Order for LoadOrder {
    ghost keyed = { is_load_key };

    ghost compared = { loads };

    ghost lawful = { load_laws };

    fn is_key(k: Key) -> bool {
        is_load(k.hi, k.lo)
    }

    fn compare(a: Key, b: Key) -> Ordering {
        a.hi.cmp(&b.hi).then(a.lo.cmp(&b.lo))
    }
}

//! What an index asks of an order of keys.
ghost use Rattle.std.specs.Prelude.{◌≡◌, Bool};
ghost use Rattle.order.specs.declared.keys.Key.{Key};
ghost use Rattle.std.specs.declared.cmp.Ordering.{Ordering};
ghost use Rattle.order.specs.Laws.{Lawful};

use crate::keys::Key;
use std::cmp::Ordering;

/// An order of keys: which pairs of words are keys, and how two keys stand to each other.
///
/// Both answers hang on the words alone, so they repeat themselves, also on words that are no keys.
pub trait Order {
    // Which pairs of words are keys.
    ghost keyed: { Key → Bool };

    // How the first key stands to the second.
    ghost compared: { Key → Key → Ordering };

    /// Whether the two words are a key.
    fn is_key(k: Key) -> bool
        ensures { result ≡ keyed k };

    /// How `a` stands to `b`.
    fn compare(a: Key, b: Key) -> Ordering
        ensures { result ≡ compared a b };

    // What every comparison of keys keeps.
    ghost lawful: { Lawful keyed compared };
}

//! The entries of a page, and how they are read, put in and taken out.
ghost use Rattle.std.specs.Prelude.{◌≤◌};

use order::Key;
use std::marker::Model;

/// The most entries that a page has room for.
pub const MOST_ENTRIES: usize = 18;

/// A key, and a word with it: a value in a leaf, a page number in an inner page.
#[derive(Clone, Copy, PartialEq, Eq, Debug, Default)]
pub struct Entry {
    pub key: Key,
    pub value: u64,
}

/// The entries of one page in their order, in memory for as many as a page has room for.
// An array and a count in fixed memory, and not the kit's `ArrayVec`, which is not copied; no call may fail for want of
// memory. Behind the last stand zeros, so that equal entries are equal in memory, and a contract sees the list and its bound
// alone.
#[derive(Clone, Copy, PartialEq, Eq, Debug)]
pub struct Entries {
    items: [Entry; MOST_ENTRIES],
    count: usize,
    // the view shows this, and is not given the invariant
    ghost few: { count ≤ 18 },
}

impl Model for Entries {
    ghost use Rattle.std.specs.Prelude.{length};
    ghost use Rattle.std.proofs.Common.{sym};
    ghost use Rattle.page.specs.Memory.{FittingEntries, same_few, in_memory, counted_few, counted_entries, IsPadded, counted};

    ghost Value = { FittingEntries };

    ghost view = { λ e. counted_entries e.items e.count e.few };

    ghost invariant = { λ e. IsPadded e.items e.count };

    ghost inverse = { λ e. record { items = in_memory e.list; count = length e.list; few = e.few } };

    ghost inverse_ok = { λ e held i. let long = counted e.items e.count held in record {
      items = sym held.whole i;
      count = long i;
      few = same_few long (counted_few e.items e.count e.few) e.few i;
    } };
}

// By hand: none can be derived beside a ghost field.
impl Default for Entries {
    ghost use Rattle.std.specs.Prelude.{◌≡◌, []};
    ghost use Rattle.page.specs.Entries.{list_of};

    ghost is_default = { λ entries. list_of entries ≡ [] };

    fn default() -> Entries {
        Entries::new()
    }
}

impl Entries {
    ghost use Rattle.std.specs.Prelude.{◌≡◌, ◌+◌, ◌≤◌, [], ◌∷◌, ◌++◌, length, take, drop, if◌then◌else◌, false, None};
    ghost use Rattle.page.specs.Entries.{list_of, entry_at, has_room, takes_at, insert_at, remove_at};
    ghost use Rattle.page.specs.Pages.{start_first};

    /// No entries.
    pub fn new() -> Entries
        ensures { list_of result ≡ [] }
    {
        Entries {
            items: [Entry::default(); MOST_ENTRIES],
            count: 0,
        }
    }

    /// How many entries there are.
    pub fn len(&self) -> usize
        ensures long { result ≡ length (list_of self.now) }
        ensures few { result ≤ 18 }
    {
        self.as_slice().len()
    }

    /// The entries as a slice.
    pub fn as_slice(&self) -> &[Entry]
        ensures entries { result.now ≡ list_of self.now }
        ensures few { length result.now ≤ 18 }
    {
        &self.items[0..self.count]
    }

    /// The entry at a place, or `None` behind the last.
    pub fn get(&self, at: usize) -> Option<Entry>
        ensures { result ≡ entry_at (list_of self.now) at }
    {
        self.as_slice().get(at).copied()
    }

    // Puts entries, for which there is room, behind the last. The room is required and not tested: each caller has
    // tested it, or puts a part of a page's entries where there are none.
    fn put_behind(&mut self, more: &[Entry])
        requires { length (list_of self.old) + length more.now ≤ 18 }
        ensures { list_of self.new ≡ list_of self.old ++ more.now }
    {
        let count = self.count + more.len();
        self.items[self.count..count].copy_from_slice(more);
        self.count = count;
    }

    /// Puts an entry behind the last, and says whether there was room. Without room nothing changes.
    pub fn push(&mut self, entry: Entry) -> bool
        ensures said { result ≡ has_room (list_of self.old) 1 }
        ensures pushed { list_of self.new
            ≡ (if result then list_of self.old ++ entry ∷ [] else list_of self.old) }
        ensures unchanged { result ≡ false → self.new ≡ self.old }
    {
        if self.count >= MOST_ENTRIES {
            return false;
        }
        self.put_behind(&[entry]);
        true
    }

    /// Puts an entry before the one at a place, or behind the last, and says whether it did.
    /// With no room, or with a place behind the end, nothing changes.
    pub fn insert(&mut self, at: usize, entry: Entry) -> bool
        ensures said { result ≡ takes_at (list_of self.old) at }
        ensures inserted { list_of self.new
            ≡ (if result then insert_at (list_of self.old) at entry else list_of self.old) }
        ensures unchanged { result ≡ false → self.new ≡ self.old }
    {
        if at > self.count || self.count >= MOST_ENTRIES {
            return false;
        }
        self.put_behind(&[entry]);
        self.items[at..self.count].rotate_right(1);
        true
    }

    /// Takes the entry at a place out and gives it back. Where there is none, nothing changes.
    pub fn remove(&mut self, at: usize) -> Option<Entry>
        ensures taken { result ≡ entry_at (list_of self.old) at }
        ensures removed { list_of self.new ≡ remove_at (list_of self.old) at }
        ensures unchanged { result ≡ None → self.new ≡ self.old }
    {
        let taken = self.get(at)?;
        self.items[at..self.count].rotate_left(1);
        self.count -= 1;
        self.items[self.count] = Entry::default();
        Some(taken)
    }

    /// Keeps the entries before a place, and gives back the others.
    pub fn cut(&mut self, at: usize) -> Entries
        ensures kept { list_of self.new ≡ take at (list_of self.old) }
        ensures cut { list_of result ≡ drop at (list_of self.old) }
    {
        let kept = at.min(self.count);
        let mut rest = Entries::new();
        rest.put_behind(&self.as_slice()[kept..]);
        self.items[kept..self.count].fill(Entry::default());
        self.count = kept;
        rest
    }

    /// Puts the other entries behind these, and says whether there was room. Without room nothing changes.
    pub fn append(&mut self, other: &Entries) -> bool
        ensures said { result ≡ has_room (list_of self.old) (length (list_of other.now)) }
        ensures appended { list_of self.new
            ≡ (if result then list_of self.old ++ list_of other.now else list_of self.old) }
        ensures unchanged { result ≡ false → self.new ≡ self.old }
    {
        if self.count + other.count > MOST_ENTRIES {
            return false;
        }
        self.put_behind(other.as_slice());
        true
    }

    /// Gives the first entry, if there is one, another key.
    pub fn set_first_key(&mut self, key: Key)
        ensures { list_of self.new ≡ start_first key (list_of self.old) }
    {
        // not by `first_mut`, which leaves both arms to a proof over names of the toolchain's own
        if self.count > 0 {
            self.items[0].key = key;
        }
    }
}

//! How the parts of a page stand in its 64 words.
//!
//! Word 0 is the state, word 1 the level, word 2 the number of entries and word 3 the link. Words 4 to 6 are the start
//! and words 7 to 9 the end, each as a word that is 0 for none and the two words of its key. From word 10 on stand the
//! entries, each as the two words of its key and its value. The words behind the last entry are 0.
ghost use Rattle.std.specs.Prelude.{◌≡◌, ◌≤◌, true, false, length, MatchResult, nat_le};
ghost use Rattle.store.specs.Overlay.{overlay};
ghost use Rattle.page.specs.Buffers.{page_of, head_of, count_fits};
ghost use Rattle.page.specs.Entries.{list_of};
ghost use Rattle.page.specs.Pages.{bound_from, bound_words, entries_from, entry_words};
ghost use Rattle.page.specs.Pages.{page_from, words_of, head_words, most_entries};

use crate::entries::{Entries, Entry, MOST_ENTRIES};
use crate::pages::{HeadBuf, PageBuf, PageState};
use order::Key;

/// The words of a page.
pub const PAGE_WORDS: usize = 64;

/// Word 0 of page 0, by which it is told from the other pages.
pub const HEAD_MARK: u64 = 3;

// The level of a leaf, whose first entry has a key of its own.
const LEAF: u64 = 0;

const START: usize = 4;

const END: usize = 7;

const FIRST_ENTRY: usize = 10;

const ENTRY_WORDS: usize = 3;

/// Why 64 words are no page: they say more entries than a page has room for.
// No `Display`: a call tells it by the page's number, and it is never printed.
#[derive(Clone, Copy, PartialEq, Eq, Debug)]
pub struct TooManyEntries;

// The start or end that three words say, which is there if the first of them is not 0.
// A function and no `From`, as with `bound_words`: neither an option nor an array of words is a type of ours.
// A slice that is required to be of three words, as a caller cuts it out of a page: to make an array of it may fail.
fn bound_from(words: &[u64]) -> Option<Key>
    requires { length words.now ≡ 3 }
    ensures { result ≡ bound_from words.now 0 }
{
    match words {
        &[mark, hi, lo] if mark != 0 => Some(Key { hi, lo }),
        _ => None,
    }
}

// As many entries as are asked for, if a page has room for so many. No `TryFrom`: it takes the count beside the words.
// The words are required to be 54, the room for the most entries, as those above are to be three.
fn entries_from(count: u64, words: &[u64]) -> Result<Entries, TooManyEntries>
    requires { length words.now ≡ 54 }
    ensures { MatchResult result
        (λ e. (nat_le count most_entries ≡ true) × (list_of e ≡ entries_from count words.now))
        (λ _. nat_le count most_entries ≡ false) }
{
    if count > MOST_ENTRIES as u64 {
        return Err(TooManyEntries);
    }
    let (triples, _) = words.as_chunks::<ENTRY_WORDS>();
    let mut entries = Entries::new();
    for &[hi, lo, value] in &triples[..count as usize] {
        let key = Key { hi, lo };
        entries.push(Entry { key, value });
    }
    Ok(entries)
}

impl TryFrom<&[u64; PAGE_WORDS]> for PageBuf {
    type Error = TooManyEntries;

    ghost try_from_gives = { λ words r. MatchResult r
        (λ b. (count_fits words.now ≡ true) × (page_of b ≡ page_from words.now))
        (λ _. count_fits words.now ≡ false) };

    fn try_from(words: &[u64; PAGE_WORDS]) -> Result<PageBuf, TooManyEntries> {
        let start = bound_from(&words[START..END]);
        let end = bound_from(&words[END..FIRST_ENTRY]);
        let level = words[1];
        let mut entries = entries_from(words[2], &words[FIRST_ENTRY..])?;
        if level > LEAF {
            entries.set_first_key(start.unwrap_or_default());
        }
        Ok(PageBuf {
            state: PageState::from(words[0]),
            level,
            link: words[3],
            start,
            end,
            entries,
        })
    }
}

// The three words of a start or end.
fn bound_words(bound: Option<Key>) -> [u64; 3]
    ensures { result ≡ bound_words bound }
{
    match bound {
        None => [0, 0, 0],
        Some(key) => [1, key.hi, key.lo],
    }
}

// Lays the entries down from word 10 on. They are required to be at most 18, as `Entries` has, and a slice may not.
fn put_entries(words: &mut [u64; PAGE_WORDS], entries: &[Entry])
    requires { length entries.now ≤ 18 }
    ensures { words.new ≡ overlay words.old 10 (entry_words entries.now) }
{
    for (i, entry) in entries.iter().enumerate() {
        // not by `chunks_exact_mut`, after which a proof knows no word of the page
        let at = FIRST_ENTRY + ENTRY_WORDS * i;
        words[at..at + ENTRY_WORDS].copy_from_slice(&[entry.key.hi, entry.key.lo, entry.value]);
    }
}

impl From<&PageBuf> for [u64; PAGE_WORDS] {
    ghost from_gives = { λ page words. words ≡ words_of (page_of page.now) };

    fn from(page: &PageBuf) -> [u64; PAGE_WORDS] {
        let mut words = [0; PAGE_WORDS];
        let count = page.entries.len() as u64;
        words[..START].copy_from_slice(&[page.state.into(), page.level, count, page.link]);
        words[START..END].copy_from_slice(&bound_words(page.start));
        words[END..FIRST_ENTRY].copy_from_slice(&bound_words(page.end));
        put_entries(&mut words, page.entries.as_slice());
        words
    }
}

impl From<HeadBuf> for [u64; PAGE_WORDS] {
    ghost from_gives = { λ head words. words ≡ head_words (head_of head) };

    fn from(head: HeadBuf) -> [u64; PAGE_WORDS] {
        let mut page = [0; PAGE_WORDS];
        page[..5].copy_from_slice(&[HEAD_MARK, head.pages, head.fill, head.free, head.root]);
        page
    }
}

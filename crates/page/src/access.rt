//! Pages read off a store and written to it. Page p is the words from 64 p on, and is there if the store has all 64.
ghost use Rattle.std.specs.Prelude.{◌≡◌, false, ◌+◌, ◌*◌, ◌^◌, ◌<◌, length, slice_index};
ghost use Rattle.order.specs.Refusals.{JustWhere};
ghost use Rattle.page.specs.Buffers.{page_of, head_of, can_read, put_if_there};
ghost use Rattle.page.specs.Pages.{words_of, head_words, is_there, page_at, page_run};

use crate::layout::PAGE_WORDS;
use crate::pages::{HeadBuf, PageBuf};
use store::Store;

/// The word at a place, and 0 at and beyond the length.
pub fn read_word<S: Store>(store: &S, at: u64) -> u64
    ensures { result ≡ slice_index (S.words store.now) at }
{
    store.read(at).unwrap_or(0)
}

/// The first free page, or 0: word 3 of page 0.
// Beside `read_root`, since one function for both would take the place of the word, and that is `read_word`.
pub fn read_free<S: Store>(store: &S) -> u64
    ensures { result ≡ slice_index (S.words store.now) 3 }
{
    read_word(store, 3)
}

/// The root page: word 4 of page 0.
pub fn read_root<S: Store>(store: &S) -> u64
    ensures { result ≡ slice_index (S.words store.now) 4 }
{
    read_word(store, 4)
}

// The place of a page's first word, or `None` where the page is not there.
fn place_of<S: Store>(store: &S, page: u64) -> Option<u64>
    ensures { JustWhere (is_there (S.words store.now) page)
        (λ at. (at ≡ 64 * page) × (at + 64 < 2 ^ 64)) result }
{
    // by division, since 64 times the number of a page that is not there may be no word
    (page < store.length() / PAGE_WORDS as u64).then(|| PAGE_WORDS as u64 * page)
}

// The words of a page, or `None` where it is not there.
fn load<S: Store>(store: &S, page: u64) -> Option<[u64; PAGE_WORDS]>
    ensures { JustWhere (is_there (S.words store.now) page)
        (λ ws. ws ≡ page_run (S.words store.now) page) result }
{
    let place = place_of(store, page)?;
    let mut loaded = [0; PAGE_WORDS];
    // a store is read and written by the places of its words, so both loops need them
    for (i, word) in loaded.iter_mut().enumerate() {
        *word = store.read(place + i as u64)?;
    }
    Some(loaded)
}

// Puts 64 words in the place of a page's, and says whether it is there. If it is not, nothing changes, the store itself included.
fn save<S: Store>(store: &mut S, page: u64, from: &[u64; PAGE_WORDS]) -> bool
    ensures said { result ≡ is_there (S.words store.old) page }
    ensures saved { S.words store.new
        ≡ put_if_there (S.words store.old) page from.now }
    ensures long { length (S.words store.new) ≡ length (S.words store.old) }
    ensures kept { result ≡ false → store.new ≡ store.old }
    ensures tied { S.lenders store.new ≡ S.lenders store.old }
{
    let Some(place) = place_of(store, page) else {
        return false;
    };
    for (i, word) in from.iter().enumerate() {
        store.write(place + i as u64, *word);
    }
    true
}

/// The page, or `None` where it is not there or has more entries than there is room for.
pub fn read_page<S: Store>(store: &S, page: u64) -> Option<PageBuf>
    ensures { JustWhere (can_read (S.words store.now) page)
        (λ b. page_of b ≡ page_at (S.words store.now) page) result }
{
    let loaded = load(store, page)?;
    PageBuf::try_from(&loaded).ok()
}

/// Writes a page, and says whether it is there. If it is not, nothing changes, the store itself included.
pub fn write_page<S: Store>(store: &mut S, page: u64, buf: &PageBuf) -> bool
    ensures said { result ≡ is_there (S.words store.old) page }
    ensures written { S.words store.new
        ≡ put_if_there (S.words store.old) page (words_of (page_of buf.now)) }
    ensures long { length (S.words store.new) ≡ length (S.words store.old) }
    ensures kept { result ≡ false → store.new ≡ store.old }
    ensures tied { S.lenders store.new ≡ S.lenders store.old }
{
    save(store, page, &buf.into())
}

/// Writes page 0, and says whether it is there. If it is not, nothing changes, the store itself included.
pub fn write_head<S: Store>(store: &mut S, head: HeadBuf) -> bool
    ensures said { result ≡ is_there (S.words store.old) 0 }
    ensures written { S.words store.new
        ≡ put_if_there (S.words store.old) 0 (head_words (head_of head)) }
    ensures long { length (S.words store.new) ≡ length (S.words store.old) }
    ensures kept { result ≡ false → store.new ≡ store.old }
    ensures tied { S.lenders store.new ≡ S.lenders store.old }
{
    save(store, 0, &head.into())
}

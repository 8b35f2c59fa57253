//! Pages as words, and back.
use order::Key;
use page::{Entries, Entry, HeadBuf, PAGE_WORDS, PageBuf, PageState};
use std::test::Fail;

fn page(level: u64) -> PageBuf {
    let mut entries = Entries::new();
    entries.push(Entry {
        key: Key { hi: 5, lo: 6 },
        value: 7,
    });
    entries.push(Entry {
        key: Key { hi: 8, lo: 9 },
        value: 10,
    });
    PageBuf {
        state: PageState::Live,
        level,
        link: 4,
        start: Some(Key { hi: 5, lo: 5 }),
        end: None,
        entries,
    }
}

fn words_of(page: &PageBuf) -> [u64; PAGE_WORDS] {
    page.into()
}

#[test]
fn words_of_a_leaf(rt: HostRuntime) {
    let words = words_of(&page(0));
    assert_eq!(rt; &words[0..10], [1, 0, 2, 4, 1, 5, 5, 0, 0, 0].as_slice());
    assert_eq!(rt; &words[10..16], [5, 6, 7, 8, 9, 10].as_slice());
    assert_eq!(rt; &words[16..64], [0; 48].as_slice());
}

#[test]
fn a_leaf_is_read_back(rt: HostRuntime) -> Result<(), Fail> {
    let back = PageBuf::try_from(&words_of(&page(0)))?;
    assert_eq!(rt; back, page(0));
    Ok(())
}

#[test]
fn the_first_key_of_an_inner_page_is_its_start(rt: HostRuntime) -> Result<(), Fail> {
    let inner = PageBuf::try_from(&words_of(&page(1)))?;
    let first = inner.entries.get(0).ok_or("an entry is lost")?;
    assert_eq!(rt; first.key.lo, 5);
    assert_eq!(rt; first.value, 7);
    Ok(())
}

#[test]
fn more_entries_than_there_is_room_for(rt: HostRuntime) {
    let mut words = words_of(&page(0));
    words[2] = 18;
    assert!(rt; PageBuf::try_from(&words).is_ok());
    words[2] = 19;
    assert!(rt; PageBuf::try_from(&words).is_err());
}

#[test]
fn words_of_page_0(rt: HostRuntime) {
    let words = <[u64; PAGE_WORDS]>::from(HeadBuf {
        pages: 9,
        fill: 18,
        free: 2,
        root: 1,
    });
    assert_eq!(rt; &words[0..6], [3, 9, 18, 2, 1, 0].as_slice());
}

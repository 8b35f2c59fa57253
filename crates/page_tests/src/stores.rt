//! Pages in a store of words, which has two and a half of them.
use page::{HeadBuf, PageBuf, read_free, read_page, read_root, read_word, write_head, write_page};
use store::Store;
use store::words::WordStore;

fn empty(link: u64) -> PageBuf {
    PageBuf {
        link,
        ..PageBuf::default()
    }
}

#[test]
fn pages_that_are_there(rt: HostRuntime) {
    let mut words = [0; 160];
    let mut store = WordStore::new(&mut words);
    assert!(rt; write_page(&mut store, 1, &empty(8)));
    assert_eq!(rt; read_word(&store, 67), 8);
    assert!(rt; !write_page(&mut store, 2, &empty(9)));
    assert_eq!(rt; read_word(&store, 131), 0);
    assert!(rt; read_page(&store, 1).is_some());
    assert!(rt; read_page(&store, 2).is_none());
    assert!(rt; read_page(&store, u64::MAX).is_none());
}

#[test]
fn page_0_is_read_back(rt: HostRuntime) {
    let mut words = [0; 160];
    let mut store = WordStore::new(&mut words);
    let head = HeadBuf {
        pages: 2,
        fill: 18,
        free: 1,
        root: 0,
    };
    assert!(rt; write_head(&mut store, head));
    assert_eq!(rt; read_free(&store), 1);
    assert_eq!(rt; read_root(&store), 0);
    assert_eq!(rt; store.length(), 160);
}

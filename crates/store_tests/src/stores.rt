//! The two stores at their edges.
use store::Store;
use store::text::TextStore;
use store::words::WordStore;

#[test]
fn words_at_the_length(rt: HostRuntime) {
    let mut words = [5, 6, 7];
    let mut store = WordStore::new(&mut words);
    assert_eq!(rt; store.length(), 3);
    assert_eq!(rt; store.read(2), Some(7));
    assert_eq!(rt; store.read(3), None);
    assert!(rt; store.write(2, 8));
    assert!(rt; !store.write(3, 9));
    assert_eq!(rt; store.words(), &[5, 6, 8][..]);
    assert_eq!(rt; words[2], 8);
}

#[test]
fn a_text_in_form(rt: HostRuntime) {
    let mut text = *b"                   1\n18446744073709551615\n";
    let mut store = TextStore::open(&mut text);
    assert_eq!(rt; store.length(), 2);
    assert_eq!(rt; store.read(1), Some(u64::MAX));
    assert_eq!(rt; store.read(2), None);
    assert!(rt; store.write(1, 10));
    assert!(rt; !store.write(2, 10));
    assert_eq!(rt;
        store.bytes(),
        &b"                   1\n                  10\n"[..]
    );
}

#[test]
fn a_text_out_of_form(rt: HostRuntime) {
    let mut text = *b"                   1\n                  02\n";
    let mut store = TextStore::open(&mut text);
    assert_eq!(rt; store.length(), 0);
    assert_eq!(rt; store.read(0), None);
    assert!(rt; !store.write(0, 7));
    assert_eq!(rt;
        store.bytes(),
        &b"                   1\n                  02\n"[..]
    );
}

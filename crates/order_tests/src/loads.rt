//! Load keys and their order.
use order::{Key, LoadKey, LoadOrder, Order};
use std::cmp::Ordering;
use std::test::Fail;

#[test]
fn ranges_of_trucks_and_seconds(rt: HostRuntime) {
    assert!(rt; LoadKey::new(0, 5).is_none());
    assert!(rt; LoadKey::new(1, 0).is_some());
    assert!(rt; LoadKey::new(9_999, 4_294_967_295).is_some());
    assert!(rt; LoadKey::new(10_000, 5).is_none());
    assert!(rt; LoadKey::new(1, 4_294_967_296).is_none());
}

#[test]
fn words_that_are_load_keys(rt: HostRuntime) {
    assert!(rt;
        LoadOrder::is_key(Key {
            hi: 9_999,
            lo: 4_294_967_295,
        })
    );
    assert!(rt; !LoadOrder::is_key(Key { hi: 0, lo: 5 }));
    assert!(rt;
        LoadKey::try_from(Key {
            hi: 5,
            lo: 4_294_967_296,
        })
        .is_err()
    );
}

#[test]
fn a_load_comes_back_from_its_key(rt: HostRuntime) -> Result<(), Fail> {
    let load = LoadKey::new(7, 9).ok_or("truck 7 at second 9 is no load")?;
    let again = LoadKey::try_from(Key::from(load))?;
    assert_eq!(rt; again.truck(), 7);
    assert_eq!(rt; again.second(), 9);
    Ok(())
}

#[test]
fn trucks_first_then_seconds(rt: HostRuntime) {
    let early = Key { hi: 2, lo: 9 };
    assert_eq!(rt;
        LoadOrder::compare(early, Key { hi: 3, lo: 1 }),
        Ordering::Less
    );
    assert_eq!(rt;
        LoadOrder::compare(early, Key { hi: 2, lo: 8 }),
        Ordering::Greater
    );
    assert_eq!(rt; LoadOrder::compare(early, early), Ordering::Equal);
}

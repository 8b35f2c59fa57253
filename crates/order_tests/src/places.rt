//! Place keys, their names and their order.
use order::{FoldedPlaceOrder, Key, NoName, Order, PlaceName};
use std::cmp::Ordering;
use std::test::Fail;

// The key of the place that has a name.
fn place_key(name: &[u8]) -> Result<Key, NoName> {
    PlaceName::try_from(name).map(Key::from)
}

#[test]
fn lengths_of_names(rt: HostRuntime) {
    assert!(rt; place_key(b"").is_err());
    assert!(rt; place_key(b"A").is_ok());
    assert!(rt; place_key(b"ABCDEFGHIJKLMNOP").is_ok());
    assert!(rt; place_key(b"ABCDEFGHIJKLMNOPQ").is_err());
}

#[test]
fn bytes_of_names(rt: HostRuntime) {
    assert!(rt; place_key(&[65, 32]).is_err());
    assert!(rt; place_key(&[65, 33]).is_ok());
    assert!(rt; place_key(&[65, 126]).is_ok());
    assert!(rt; place_key(&[65, 127]).is_err());
    assert!(rt; place_key(&[65, 255]).is_err());
    assert!(rt; place_key(&[65, 0, 65]).is_err());
}

#[test]
fn words_that_are_places(rt: HostRuntime) {
    assert!(rt;
        FoldedPlaceOrder::is_key(Key {
            hi: 0x4100_0000_0000_0000,
            lo: 0,
        })
    );
    assert!(rt;
        !FoldedPlaceOrder::is_key(Key {
            hi: 0x4100_4100_0000_0000,
            lo: 0,
        })
    );
    assert!(rt; !FoldedPlaceOrder::is_key(Key { hi: 0, lo: 0 }));
}

#[test]
fn a_name_comes_back_from_its_key(rt: HostRuntime) -> Result<(), Fail> {
    let key = place_key(b"ABCDEFGHI")?;
    assert_eq!(rt; key.hi, 0x4142_4344_4546_4748);
    assert_eq!(rt; key.lo, 0x4900_0000_0000_0000);
    let name = PlaceName::try_from(key)?;
    assert_eq!(rt; name.bytes(), b"ABCDEFGHI".as_slice());
    Ok(())
}

#[test]
fn case_does_not_count(rt: HostRuntime) -> Result<(), Fail> {
    let lower = place_key(b"pit7")?;
    let upper = place_key(b"PIT7")?;
    assert_eq!(rt; FoldedPlaceOrder::compare(lower, upper), Ordering::Equal);
    Ok(())
}

#[test]
fn letters_in_order(rt: HostRuntime) -> Result<(), Fail> {
    let small_a = place_key(b"a")?;
    let great_a = place_key(b"A")?;
    let small_b = place_key(b"b")?;
    assert_eq!(rt; FoldedPlaceOrder::compare(small_a, small_b), Ordering::Less);
    assert_eq!(rt; FoldedPlaceOrder::compare(great_a, small_b), Ordering::Less);
    Ok(())
}

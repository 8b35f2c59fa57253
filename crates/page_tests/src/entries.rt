//! Entries put in and taken out.
use order::Key;
use page::{Entries, Entry};

fn entry(value: u64) -> Entry {
    Entry {
        key: Key { hi: value, lo: 0 },
        value,
    }
}

// Entries with the values from 1 on.
fn rising(n: u64) -> Entries {
    let mut entries = Entries::new();
    for value in 1..=n {
        entries.push(entry(value));
    }
    entries
}

fn value_at(entries: &Entries, at: usize) -> u64 {
    entries.get(at).map_or(0, |entry| entry.value)
}

#[test]
fn inserts_at_both_ends_until_full(rt: HostRuntime) {
    let mut entries = rising(16);
    assert!(rt; entries.insert(0, entry(100)));
    assert!(rt; entries.insert(17, entry(200)));
    assert_eq!(rt; entries.len(), 18);
    assert_eq!(rt; value_at(&entries, 0), 100);
    assert_eq!(rt; value_at(&entries, 1), 1);
    assert_eq!(rt; value_at(&entries, 17), 200);
    assert!(rt; !entries.insert(0, entry(300)));
    assert_eq!(rt; value_at(&entries, 0), 100);
    assert!(rt; entries.get(18).is_none());
}

#[test]
fn inserts_behind_the_end_are_refused(rt: HostRuntime) {
    let mut entries = Entries::new();
    assert!(rt; !entries.insert(1, entry(1)));
    assert_eq!(rt; entries.len(), 0);
    assert!(rt; entries.insert(0, entry(1)));
    assert!(rt; entries.insert(0, entry(2)));
    assert_eq!(rt; value_at(&entries, 0), 2);
    assert_eq!(rt; value_at(&entries, 1), 1);
}

#[test]
fn removes_at_both_ends(rt: HostRuntime) {
    let mut entries = rising(18);
    assert_eq!(rt; entries.remove(18), None);
    assert_eq!(rt; entries.remove(17), Some(entry(18)));
    assert_eq!(rt; entries.remove(0), Some(entry(1)));
    assert_eq!(rt; entries.len(), 16);
    assert_eq!(rt; value_at(&entries, 0), 2);
    assert_eq!(rt; value_at(&entries, 15), 17);
    assert_eq!(rt; Entries::new().remove(0), None);
}

#[test]
fn cuts_and_appends(rt: HostRuntime) {
    let mut left = rising(18);
    let right = left.cut(9);
    assert_eq!(rt; left.len(), 9);
    assert_eq!(rt; value_at(&right, 0), 10);
    assert!(rt; left.append(&right));
    assert_eq!(rt; value_at(&left, 17), 18);
    assert!(rt; !left.append(&right));
    assert_eq!(rt; left.cut(20).len(), 0);
    assert_eq!(rt; left.cut(0).len(), 18);
    assert_eq!(rt; left.len(), 0);
}

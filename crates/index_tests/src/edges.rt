//! What is refused, and what is just accepted.
use crate::loads::{ENTER, LOOK, Loads, at, enter, on};
use order::Key;

#[test]
fn smallest_store(rt: HostRuntime) {
    assert_eq!(rt; on(&mut [0; 127], |index| index.format(4)), (1, 0));
    assert_eq!(rt; on(&mut [0; 128], |index| index.format(4)), (20, 2));
}

#[test]
fn fills(rt: HostRuntime) {
    let made = on(&mut [0; 128], |index| {
        [
            index.format(3),
            index.format(4),
            index.format(18),
            index.format(19),
        ]
    });
    assert_eq!(rt; made, [(2, 0), (20, 2), (20, 2), (2, 0)]);
}

fn begin_at_edges(index: &mut Loads) -> [(u64, u64); 6] {
    [
        index.begin(32, LOOK, at(1), 0),
        index.begin(31, LOOK, at(1), 0),
        index.begin(31, LOOK, at(1), 0),
        index.begin(0, 0, at(1), 0),
        index.begin(0, 4, at(1), 0),
        index.begin(0, LOOK, Key { hi: 0, lo: 1 }, 0),
    ]
}

fn without_job(index: &mut Loads) -> [(u64, u64); 5] {
    [
        index.turn(0),
        index.turn(32),
        index.withdraw(0),
        index.withdraw(32),
        index.withdraw(31),
    ]
}

#[test]
fn jobs(rt: HostRuntime) {
    let (begun, ended) = on(&mut [0; 128], |index| {
        index.format(4);
        (begin_at_edges(index), without_job(index))
    });
    assert_eq!(rt; begun, [(4, 0), (20, 0), (5, 0), (7, 0), (7, 0), (7, 0)]);
    assert_eq!(rt; ended, [(6, 0), (4, 0), (6, 0), (4, 0), (28, 1)]);
}

// The fifth enter has no page to split into; its job waits and loses nothing.
#[test]
fn full_store(rt: HostRuntime) {
    let fifth = on(&mut [0; 128], |index| {
        index.format(4);
        for second in 1..5 {
            enter(index, second, second);
        }
        index.begin(0, ENTER, at(5), 5);
        index.begin(1, LOOK, at(4), 0);
        [index.turn(0), index.turn(0), index.turn(1)]
    });
    assert_eq!(rt; fifth, [(9, 0), (9, 0), (23, 4)]);
}

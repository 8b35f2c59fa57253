//! Truck 7 on eight pages with fill 4: a split and a merge under jobs that stand on the page.
use crate::loads::{ENTER, LOOK, Loads, STRIKE, at, enter, on};

// Seconds 10 to 40 in tens hold 100 to 400.
fn enter_four(index: &mut Loads) {
    for n in 1..5u64 {
        enter(index, 10 * n, 100 * n);
    }
}

// A fifth entry splits the leaf on which console 1 stands.
fn split_under_look(index: &mut Loads) -> [(u64, u64); 7] {
    [
        index.begin(1, LOOK, at(40), 0),
        index.begin(0, ENTER, at(50), 500),
        index.turn(0),
        index.turn(1),
        index.turn(1),
        index.turn(0),
        index.turn(0),
    ]
}

fn raise_and_post(index: &mut Loads) -> [(u64, u64); 3] {
    [index.raise(), index.post(3), index.post(3)]
}

fn strike(index: &mut Loads, second: u64) -> [(u64, u64); 3] {
    [
        index.begin(0, STRIKE, at(second), 0),
        index.turn(0),
        index.turn(0),
    ]
}

// A merge makes the leaf gone on which console 1 stands; it is not swept until the job has moved on.
fn merge_under_look(index: &mut Loads) -> [(u64, u64); 7] {
    [
        index.begin(1, LOOK, at(50), 0),
        index.turn(1),
        index.merge(3),
        index.sweep(),
        index.turn(1),
        index.sweep(),
        index.turn(1),
    ]
}

#[test]
fn worked_example(rt: HostRuntime) {
    let (made, split, raised, first, second, merged) = on(&mut [0; 512], |index| {
        let made = index.format(4);
        enter_four(index);
        (
            made,
            split_under_look(index),
            raise_and_post(index),
            strike(index, 10),
            strike(index, 20),
            merge_under_look(index),
        )
    });
    assert_eq!(rt; made, (20, 8));
    assert_eq!(rt;
        split,
        [
            (20, 0),
            (20, 0),
            (22, 2),
            (21, 2),
            (23, 400),
            (21, 2),
            (25, 0),
        ]
    );
    assert_eq!(rt; raised, [(31, 3), (29, 2), (11, 0)]);
    assert_eq!(rt; first, [(20, 0), (21, 1), (27, 100)]);
    assert_eq!(rt; second, [(20, 0), (21, 1), (27, 200)]);
    assert_eq!(rt;
        merged,
        [
            (20, 0),
            (21, 2),
            (30, 2),
            (11, 0),
            (21, 1),
            (32, 1),
            (23, 500),
        ]
    );
}

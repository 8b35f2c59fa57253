//! An index attached to words that no index wrote: page 0 is tested, and a damaged page is told when a call meets it.
use crate::loads::{ENTER, LOOK, at, on};

// Two pages: page 0 describes them in its first five words, page 1 is given by its first four.
fn two_pages(head: [u64; 5], page: [u64; 4]) -> [u64; 128] {
    let mut words = [0u64; 128];
    words[..5].copy_from_slice(&head);
    words[64..68].copy_from_slice(&page);
    words
}

fn attach_to(head: [u64; 5]) -> (u64, u64) {
    on(&mut two_pages(head, [0; 4]), |index| index.attach())
}

#[test]
fn page_zero(rt: HostRuntime) {
    assert_eq!(rt; attach_to([3, 2, 4, 0, 1]), (20, 2));
    assert_eq!(rt; attach_to([2, 2, 4, 0, 1]), (3, 0));
    assert_eq!(rt; attach_to([3, 1, 4, 0, 1]), (3, 0));
    assert_eq!(rt; attach_to([3, 3, 4, 0, 1]), (3, 0));
    assert_eq!(rt; attach_to([3, 2, 3, 0, 1]), (3, 0));
    assert_eq!(rt; attach_to([3, 2, 19, 0, 1]), (3, 0));
    assert_eq!(rt;
        attach_to([
            6_364_136_223_846_793_005,
            14_029_467_366_897_019_727,
            48_271,
            2_862_933_555_777_941_757,
            69_069,
        ]),
        (3, 0)
    );
}

// Random words where the root should be. Nothing is lost by a call that meets them: the job waits.
#[test]
fn root_of_random_words(rt: HostRuntime) {
    let random = [
        11_400_714_819_323_198_485,
        16_045_690_984_503_098_046,
        6_364_136_223_846_793_005,
        1_442_695_040_888_963_407,
    ];
    let mut words = two_pages([3, 2, 4, 0, 1], random);
    let met = on(&mut words, |index| {
        [
            index.attach(),
            index.begin(0, ENTER, at(1), 5),
            index.turn(0),
            index.raise(),
            index.post(1),
            index.merge(1),
            index.sweep(),
            index.withdraw(0),
        ]
    });
    assert_eq!(rt;
        met,
        [
            (20, 2),
            (20, 0),
            (8, 1),
            (8, 1),
            (10, 0),
            (10, 0),
            (11, 0),
            (28, 1),
        ]
    );
    assert_eq!(rt; &words[64..68], random.as_slice());
}

#[test]
fn root_out_of_range(rt: HostRuntime) {
    let met = on(&mut two_pages([3, 2, 4, 0, 2], [1, 0, 0, 0]), |index| {
        [
            index.attach(),
            index.begin(0, LOOK, at(1), 0),
            index.turn(0),
            index.raise(),
            index.post(2),
        ]
    });
    assert_eq!(rt; met, [(20, 2), (20, 0), (8, 2), (8, 2), (10, 0)]);
}

#[test]
fn gone_page_that_points_to_itself(rt: HostRuntime) {
    let met = on(&mut two_pages([3, 2, 4, 0, 1], [2, 0, 0, 1]), |index| {
        [
            index.attach(),
            index.sweep(),
            index.begin(0, LOOK, at(1), 0),
            index.turn(0),
            index.turn(0),
            index.merge(1),
        ]
    });
    assert_eq!(rt; met, [(20, 2), (11, 0), (20, 0), (21, 1), (21, 1), (10, 0)]);
}

// A full leaf, and the free chain starts with that very leaf.
#[test]
fn chain_head_that_is_live(rt: HostRuntime) {
    let met = on(&mut two_pages([3, 2, 4, 1, 1], [1, 0, 4, 0]), |index| {
        [
            index.attach(),
            index.begin(0, ENTER, at(1), 5),
            index.turn(0),
            index.withdraw(0),
        ]
    });
    assert_eq!(rt; met, [(20, 2), (20, 0), (8, 1), (28, 1)]);
}

// Two inner pages under one, the right of them with words 5 and 6 but no start, as its word 4 is 0. So its first entry's
// key is two zeros, and stands so in the page that takes it: neither words 5 and 6 nor 10 and 11 count.
#[test]
fn inner_page_with_words_but_no_start(rt: HostRuntime) {
    let mut words = [0; 256];
    words[..5].copy_from_slice(&[3, 4, 4, 0, 1]);
    words[64..80].copy_from_slice(&[1, 2, 2, 0, 0, 0, 0, 0, 0, 0, 0, 0, 2, 7, 10, 3]);
    words[128..141].copy_from_slice(&[1, 1, 1, 3, 0, 0, 0, 1, 7, 10, 0, 0, 21]);
    words[192..205].copy_from_slice(&[1, 1, 1, 0, 0, 77, 88, 0, 0, 0, 5, 6, 22]);
    let met = on(&mut words, |index| [index.attach(), index.merge(1)]);
    assert_eq!(rt; met, [(20, 4), (30, 3)]);
    let mut left = [0; 256];
    left[..5].copy_from_slice(&[3, 4, 4, 0, 1]);
    left[64..77].copy_from_slice(&[1, 2, 1, 0, 0, 0, 0, 0, 0, 0, 0, 0, 2]);
    left[128..144].copy_from_slice(&[1, 1, 2, 0, 0, 0, 0, 0, 0, 0, 0, 0, 21, 0, 0, 22]);
    left[192..196].copy_from_slice(&[2, 1, 0, 2]);
    assert_eq!(rt; words, left);
}

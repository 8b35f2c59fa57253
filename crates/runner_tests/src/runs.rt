//! Lines that are not run, and input and output that end early.
use runner::loads::run_loads;

const NOT_RUN: [u8; 25] = *b" 13                    1\n";

// A format with fill 4.
const FORMAT: [u8; 73] =
    *b" 1    4 0                    0                    0                    0\n";

fn answer(line: &[u8]) -> [u8; 25] {
    let mut output = [0; 25];
    run_loads(line, &mut output);
    output
}

// A format with fill 4 in a form that is off by a byte, other calls' numbers, and a call that comes too early.
#[test]
fn lines_that_are_not_run(rt: HostRuntime) {
    assert_eq!(rt;
        answer(b" 3    0 0                    0                    0                    0\n"),
        NOT_RUN,
        "a call before the index is made"
    );
    assert_eq!(rt;
        answer(b" 0    4 0                    0                    0                    0\n"),
        NOT_RUN,
        "call 0"
    );
    assert_eq!(rt;
        answer(b" 9    4 0                    0                    0                    0\n"),
        NOT_RUN,
        "call 9"
    );
    assert_eq!(rt;
        answer(b" 1   04 0                    0                    0                    0\n"),
        NOT_RUN,
        "a leading zero"
    );
    assert_eq!(rt;
        answer(b" 1\t   4 0                    0                    0                    0\n"),
        NOT_RUN,
        "a tab"
    );
    assert_eq!(rt;
        answer(b" 1      0                    0                    0                    0\n"),
        NOT_RUN,
        "an empty column"
    );
    assert_eq!(rt;
        answer(b" 1    4 0                    0                    0 18446744073709551616\n"),
        NOT_RUN,
        "a number that is too large"
    );
    assert_eq!(rt;
        answer(b" 1    4 0                    0                    0                    0 "),
        NOT_RUN,
        "another last byte"
    );
    assert_eq!(rt;
        answer(b"1     4 0                    0                    0                    0\n"),
        NOT_RUN,
        "a number at the left of its columns"
    );
    assert_eq!(rt;
        answer(b" 1   +4 0                    0                    0                    0\n"),
        NOT_RUN,
        "a sign"
    );
    assert_eq!(rt;
        answer(b" 1    4\n0                    0                    0                    0\n"),
        NOT_RUN,
        "byte 10 too early"
    );
}

// Two lines, and room for one answer less a byte, for two less a byte, and for two.
#[test]
fn too_little_room(rt: HostRuntime) {
    let lines = [FORMAT; 2];
    let input = lines.as_flattened();
    let mut none = [b'.'; 24];
    let mut one = [b'.'; 49];
    let mut both = [b'.'; 50];
    assert_eq!(rt; run_loads(input, &mut none), 0);
    assert_eq!(rt; none, [b'.'; 24]);
    assert_eq!(rt; run_loads(input, &mut one), 1);
    assert_eq!(rt; one, *b" 20                   48\n........................");
    assert_eq!(rt; run_loads(input, &mut both), 2);
    assert_eq!(rt;
        both,
        *b" 20                   48\n 13                    2\n"
    );
}

#[test]
fn partial_last_line(rt: HostRuntime) {
    let lines = [FORMAT; 2];
    let input = lines.as_flattened();
    let mut output = [b'.'; 50];
    assert_eq!(rt; run_loads(&input[..72], &mut output), 0);
    assert_eq!(rt; run_loads(&input[..145], &mut output), 1);
    assert_eq!(rt;
        output,
        *b" 20                   48\n........................."
    );
}

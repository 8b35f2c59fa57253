//! Columns and lines of columns.
use store::columns::{read_column, read_line, write_column, write_line};

#[test]
fn numbers_are_read(rt: HostRuntime) {
    assert_eq!(rt; read_column(b"0"), Some(0));
    assert_eq!(rt; read_column(b"  1"), Some(1));
    assert_eq!(rt; read_column(b" 9"), Some(9));
    assert_eq!(rt; read_column(b"10"), Some(10));
    assert_eq!(rt;
        read_column(b" 9999999999999999999"),
        Some(9_999_999_999_999_999_999)
    );
    assert_eq!(rt;
        read_column(b"10000000000000000000"),
        Some(10_000_000_000_000_000_000)
    );
    assert_eq!(rt; read_column(b"18446744073709551615"), Some(u64::MAX));
}

#[test]
fn other_bytes_are_refused(rt: HostRuntime) {
    assert_eq!(rt; read_column(b""), None);
    assert_eq!(rt; read_column(b"   "), None);
    assert_eq!(rt;
        read_column(b"18446744073709551616"),
        None,
        "one above the largest word"
    );
    assert_eq!(rt; read_column(b"00"), None);
    assert_eq!(rt; read_column(b" 01"), None);
    assert_eq!(rt; read_column(b"\t1"), None);
    assert_eq!(rt; read_column(b"1\r"), None);
    assert_eq!(rt; read_column(b"1 "), None);
    assert_eq!(rt; read_column(b"+1"), None);
}

#[test]
fn columns_are_written(rt: HostRuntime) {
    let mut one = [b'x'; 1];
    assert!(rt; write_column(&mut one, 9));
    assert_eq!(rt; &one[..], &b"9"[..]);
    assert!(rt; !write_column(&mut one, 10));
    assert_eq!(rt; &one[..], &b"9"[..], "left as it was");
    let mut four = [b'x'; 4];
    assert!(rt; write_column(&mut four, 0));
    assert_eq!(rt; &four[..], &b"   0"[..]);
    assert!(rt; write_column(&mut four, 305));
    assert_eq!(rt; &four[..], &b" 305"[..]);
}

#[test]
fn the_largest_word_is_written(rt: HostRuntime) {
    let mut short = [b'x'; 19];
    assert!(rt; !write_column(&mut short, u64::MAX));
    assert!(rt; write_column(&mut short, 9_999_999_999_999_999_999));
    assert_eq!(rt; &short[..], &b"9999999999999999999"[..]);
    let mut long = [b'x'; 20];
    assert!(rt; write_column(&mut long, u64::MAX));
    assert_eq!(rt; &long[..], &b"18446744073709551615"[..]);
}

#[test]
fn lines_are_read(rt: HostRuntime) {
    assert_eq!(rt; read_line(&[2, 3], b" 1 10\n"), Some([1, 10]));
    assert_eq!(rt; read_line(&[2, 3], b" 1 10"), None, "no newline");
    assert_eq!(rt; read_line(&[2, 3], b" 1 10\r"), None);
    assert_eq!(rt; read_line(&[2, 3], b" 1 10\n\n"), None);
    assert_eq!(rt;
        read_line(&[2, 3], b" 1 1\n"),
        None,
        "the newline stands in a column"
    );
    assert_eq!(rt; read_line(&[2, 3], b"1  10\n"), None);
    assert_eq!(rt; read_line(&[2], b""), None);
}

#[test]
fn lines_are_written(rt: HostRuntime) {
    let mut out = [b'x'; 6];
    assert!(rt; write_line(&[2, 3], &[1, 10], &mut out));
    assert_eq!(rt; &out[..], &b" 1 10\n"[..]);
    assert!(rt;
        !write_line(&[2, 3], &[1, 1000], &mut out),
        "a number that does not fit"
    );
    assert!(rt; !write_line(&[2, 3], &[1], &mut out), "a number too few");
    assert!(rt; !write_line(&[2, 2], &[3, 4], &mut out), "a byte too many");
    assert_eq!(rt; &out[..], &b" 1 10\n"[..], "left as it was");
}

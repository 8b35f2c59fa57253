//! Texts in form and out of it.
use std::test::Fail;
use store::check::{MOST_BYTES, TextError, Words, check_text};
use store::form::{BadLine, test_text};

#[test]
fn texts_in_form(rt: HostRuntime) {
    assert_eq!(rt; test_text(b""), Ok(0));
    assert_eq!(rt; test_text(b"                   0\n"), Ok(1));
    assert_eq!(rt;
        test_text(b"                   9\n18446744073709551615\n"),
        Ok(2)
    );
    assert_eq!(rt; test_text(b"").err().map(BadLine::answer), None);
}

#[test]
fn the_first_fault(rt: HostRuntime) {
    assert_eq!(rt; test_text(b"18446744073709551616\n"), Err(BadLine(1)));
    assert_eq!(rt; test_text(b"                  01\n"), Err(BadLine(1)));
    assert_eq!(rt; test_text(b"                  \t1\n"), Err(BadLine(1)));
    assert_eq!(rt; test_text(b"                   1\r"), Err(BadLine(1)));
    assert_eq!(rt;
        test_text(b"                   1"),
        Err(BadLine(1)),
        "no newline at the end"
    );
    assert_eq!(rt;
        test_text(b"                   1\n                    \n"),
        Err(BadLine(2))
    );
    assert_eq!(rt;
        test_text(b"                   1\n    "),
        Err(BadLine(2)),
        "a last line that is cut off"
    );
    assert_eq!(rt; test_text(b"\n").err().map(BadLine::answer), Some((12, 1)));
}

#[test]
fn what_a_program_says(rt: HostRuntime) -> Result<(), Fail> {
    assert_eq!(rt; check_text(b"x"), Err(TextError::BadLine(BadLine(1))));
    let Err(error) = check_text(b"x") else {
        return Err(Fail::new("the byte is no text in form"));
    };
    let fault = error.to_string(rt.alloc())?;
    assert_eq!(rt; fault.as_str(), "12 1");
    let empty = check_text(b"")?.to_string(rt.alloc())?;
    assert_eq!(rt; empty.as_str(), "words 0");
    Ok(())
}

// A text of as many lines as are taken, and the same with a byte more and with a line more.
#[test]
fn a_text_over_the_limit(rt: HostRuntime) -> Result<(), Fail> {
    let lines = vec![in rt.alloc(); *b"                   0\n"; 262_145]?;
    let text = lines.as_slice().as_flattened();
    assert_eq!(rt;
        text.get(..MOST_BYTES).map(check_text),
        Some(Ok(Words(262_144)))
    );
    assert_eq!(rt;
        text.get(..=MOST_BYTES).map(check_text),
        Some(Err(TextError::TooLong))
    );
    let Err(error) = check_text(text) else {
        return Err(Fail::new("there is a line too many"));
    };
    let said = error.to_string(rt.alloc())?;
    assert_eq!(rt; said.as_str(), "the input has more than 262144 lines");
    Ok(())
}

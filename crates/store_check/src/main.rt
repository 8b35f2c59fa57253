//! Reads a text from standard input and says in one line what it holds:
//! `words 128` for a text of 128 words, or `12 3` where line 3 is the first that is not in form.
//! A text of more than 262,144 lines is refused, and no more of it is read than shows that it is too long.
#![tactic(auto)]

use std::io;
use std::io::Read;
use store::check::{MOST_BYTES, check_text};

fn main(rt: HostRuntime) -> io::Result<()> {
    let mut input = Vec::new(rt.alloc());
    rt.stdin()
        .take(MOST_BYTES as u64 + 1)
        .read_to_end(&mut input)?;
    match check_text(input.as_slice()) {
        Ok(words) => println!(rt; "{words}"),
        Err(error) => println!(rt; "{error}"),
    }
}

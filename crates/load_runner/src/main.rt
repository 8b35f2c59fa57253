//! Reads up to 800 call lines from standard input, runs them over 48 pages of zeros, as words in load order, and
//! prints their answer lines. What is read beyond them is ignored.
#![tactic(auto)]

use runner::loads::answer_load_calls;
use std::io;

fn main(rt: HostRuntime) -> io::Result<()> {
    answer_load_calls(rt.stdin(), &mut rt.stdout())
}

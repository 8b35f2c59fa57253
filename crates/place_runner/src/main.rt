//! Reads up to 800 call lines from standard input, runs them over 48 pages of zeros, as text in the order of place names, and
//! prints their answer lines. What is read beyond them is ignored.
#![tactic(auto)]

use runner::places::answer_place_calls;
use std::io;

fn main(rt: HostRuntime) -> io::Result<()> {
    answer_place_calls(rt.stdin(), &mut rt.stdout())
}

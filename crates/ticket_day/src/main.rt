//! A day of truck 7: three consoles enter its loads by ticket, look them up, strike one and withdraw a job, with upkeep
//! between. It prints what was done, and at its end its own tally against the loads that remain in the pages.
#![tactic(auto)]

mod day;
mod desks;
mod report;
mod tally;

use anyhow::bail;
use day::{FILL, PAGES, WORDS, Work};
use index::Index;
use order::LoadOrder;
use report::{Line, Sum};
use store::words::WordStore;
use tally::{Tally, remaining};

/// Prints the day, which is over: every ticket is spent by now, so a print that fails lets none go.
fn print_day(rt: &impl Print, work: &Work, left: Tally) -> anyhow::Result<()> {
    println!(rt; "Truck 7: {PAGES} pages of 64 words, at most {FILL} loads in a page.")?;
    println!(rt; "Three consoles enter its loads, each with a ticket, in turns:")?;
    for (round, kept_up) in work.rounds.iter().zip(&work.upkeep) {
        for line in round {
            println!(rt; "  {}", Line(*line))?;
        }
        println!(rt; "  upkeep: {kept_up}")?;
    }
    println!(rt; "They look loads up:")?;
    for line in &work.looks {
        println!(rt; "  {}", Line(*line))?;
    }
    println!(rt; "A load is struck, and a job is withdrawn before its first turn:")?;
    println!(rt; "  {}", Line(work.strike))?;
    println!(rt; "  {}", Line(work.withdrawn))?;
    println!(rt; "  upkeep: {}", work.last_upkeep)?;
    println!(rt;
        "Tally: {}. In the index: {}.",
        Sum(work.tally()),
        Sum(left)
    )?;
    Ok(())
}

fn main(rt: HostRuntime) -> anyhow::Result<()> {
    let mut words = [0; WORDS];
    let mut index: Index<WordStore, LoadOrder> = Index::new(WordStore::new(&mut words));
    let (made, _) = index.format(FILL);
    if made != 20 {
        bail!("the index could not be made: format answered {made}");
    }
    let work = day::run(&mut index);
    let left = remaining(index.store());
    print_day(&rt, &work, left)?;
    if work.tally() != left {
        bail!("the tally and the loads in the index differ");
    }
    Ok(())
}

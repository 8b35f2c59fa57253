//! The load index: a B-link tree over the pages of any store, under any order of keys.
#![tactic(auto)]

mod access;
mod calls;
mod consoles;
mod index;
mod indexes;
mod jobs;
mod raise;
mod splits;
mod starts;
mod sweep;
mod tickets;
mod turns;
mod upkeep;

pub use index::Index;
pub use tickets::Ticket;

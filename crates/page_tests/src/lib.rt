//! Examples of pages and their entries, at the edges of what a page has room for, and what callers can prove of pages: one
//! that writes them (`writes`), and one that only holds one (`holders`).
//!
//! They stand in a crate of their own, so that a check of `page` need not wait for them.
#![tactic(auto)]

#[cfg(test)]
mod entries;
pub mod holders;
#[cfg(test)]
mod layout;
#[cfg(test)]
mod stores;
pub mod writes;

//! Keys of two words, and the orders in which an index keeps them.
#![tactic(auto)]

mod keys;
mod loads;
mod orders;
mod places;

pub use keys::Key;
pub use loads::{LoadKey, LoadOrder, NoLoad};
pub use orders::Order;
pub use places::{FoldedPlaceOrder, NoName, PlaceName};

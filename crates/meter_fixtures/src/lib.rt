//! What tests of meters share: a kind of meter that the driver does not know, counts, and the sum of several meters.
#![tactic(auto)]

mod card;
mod sums;

pub use card::Card;
pub use sums::{counts, settled};

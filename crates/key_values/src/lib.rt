//! Texts of the form `key=value`, and decimal numbers within bounds. The words of a command line and the lines of a
//! printer profile consist of such texts. No call allocates memory. `specs/Lists.antt` defines the meaning of a list of
//! numbers with commas between. The crates above read such lists.
#![tactic(auto)]

mod laws;
mod numbers;
mod pairs;

pub use laws::written_number_is_read;
pub use numbers::number_within;
pub use pairs::{cut_at, cut_word, key_of, value_of};

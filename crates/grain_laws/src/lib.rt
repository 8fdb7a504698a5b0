//! Laws of the grain, each the contract of a function that does nothing. White and full ink stay. No amount moves by
//! more than the grain, and without grain no amount moves. The mean of a colour is kept. Worked places compare the
//! definition with numbers worked by hand.
#![tactic(auto)]

mod examples;
mod laws;

pub use examples::amounts_at_places;
pub use laws::{
    amounts_stay_near, ends_stay, mean_is_kept, no_grain_changes_no_dot, no_grain_moves_no_amount,
};

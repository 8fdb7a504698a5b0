//! Shingled passes: each row of a window is fired twice, its even columns in one pass and its odd columns in another,
//! so that no row depends on a single nozzle.
//!
//! `shingle_fits` tests exactly whether a head can shingle. `ShinglePlan::make` needs such a head. `passes` returns
//! exactly the number of passes, `first_row` exactly where a pass begins, and `row` exactly the row that a nozzle fires
//! in a pass, or `None` if it fires nothing. `fires_even` tells which columns the nozzle fires.
//! `each_row_is_fired_twice` is the law: if half the nozzles, at least one, and the pitch are coprime, each row of a
//! window is fired once at its even columns and once at its odd ones, and no other row is fired. `specs/Shingles.antt`
//! has the definitions. No call allocates memory.
#![tactic(auto)]

mod fits;
mod laws;
mod plan;

pub use fits::shingle_fits;
pub use laws::{
    each_row_is_fired_twice, five_nozzles_are_worked, three_nozzles_are_worked,
    two_nozzles_are_worked,
};
pub use plan::ShinglePlan;

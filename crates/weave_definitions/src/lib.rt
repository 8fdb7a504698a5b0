//! Interleaved passes: which nozzle of a head fires which row of a window in which pass (`specs/Weave.antt`). Their
//! law: if the number of nozzles and the pitch are coprime, the passes fire each row of a window exactly once, and no
//! other row.
//!
//! `Plan` computes the passes both ways. `Plan::make` needs a number of nozzles and a pitch without a common divisor.
//! `passes` returns exactly the number of passes. `row` returns exactly the row under a nozzle in a pass, or `None`
//! outside of the window. `place_of` returns a pass and a nozzle that fire the row, and no other pass and nozzle fire
//! it. No call allocates memory.
#![tactic(auto)]

mod inverse;
mod laws;
mod weaving;

pub use laws::each_row_is_fired_once;
pub use weaving::{PassPlace, Plan};

//! Compensation of dead nozzles. `check_dead` checks a list of dead nozzles, and `specs/Strokes.antt` defines the
//! strokes of a head with such a list. The regular strokes are the passes of the weave, in which only live nozzles
//! fire. Make-up strokes fire the rows that the regular strokes leave. `StrokePlan` has exactly these strokes, for the
//! writer of pages: where each stroke starts, and the row that each nozzle fires in it. `StrokePlan::make` allocates
//! the plan's memory. No other call here allocates memory.
//!
//! `laws` has the following if the number of nozzles and the pitch are coprime and a nozzle is live. The strokes fire
//! each row of a window exactly once (`each_row_is_fired_once`), each by a live nozzle that is over the row
//! (`live_nozzles_fire`). Their starts rise, so no two starts are equal (`starts_rise`). A row is made up exactly if
//! its nozzle in the weave is dead (`rows_of_dead_nozzles_are_missing`, `missing_rows_are_made_up`).
#![tactic(auto)]

mod checking;
mod finding;
pub mod laws;
mod nozzles;
mod owners;
mod plan;
mod worn;

pub use checking::{DeadFault, check_dead};
pub use nozzles::DeadNozzles;
pub use plan::StrokePlan;

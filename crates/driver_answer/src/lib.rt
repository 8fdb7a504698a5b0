//! How a run of the driver can end: its answers, and the exit status and the error line of each. `driver_core`
//! re-exports the types.
//!
//! `status` returns 0 to 8 (`status_of`). `text` writes exactly the line of the answer (`line_of`), of at most 160
//! bytes. Neither allocates memory.
#![tactic(auto)]

mod answer;
mod names;
mod stops;

pub use answer::{Answer, ErrorLine, push_number, push_usage};
pub use escp2_definitions::{EmulatorFault, JobCause, JobStop};
pub use job_profile::{DeadFault, ProfileCause};
pub use job_words::{UsageCause, UsageFault};
pub use printer_profile::{ProfileFault, TextCause};

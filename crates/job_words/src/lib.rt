//! What the words of a command line ask for: a command, and a value for each of its keys.
//!
//! `read_words` returns exactly the meaning of a command line: its job, or its first refused word and the cause.
//! `profile_name` returns the value of the word `profile=..`, or the name of the built-in profile. Neither allocates
//! memory. The table in `specs/Table.antt` has the commands, their keys, and the values that the keys take.
//!
//! `laws` has the following. The numbers of a job lie within the bounds of their keys (`a_job_is_within_bounds`). Dead
//! nozzles are numbers below 255 in rising order (`dead_nozzles_rise`), and a written list of them is read back
//! (`a_written_list_is_read`). No job has both shingled passes and dead nozzles (`shingled_heads_have_no_dead_nozzle`),
//! and the jobs of commands that print nothing have neither (`other_commands_have_whole_heads`).
#![tactic(auto)]

mod dead_lists;
mod earlier;
pub mod examples;
mod keys;
pub mod laws;
mod reading;
mod table;
mod usage;
mod values;

pub use dead_nozzles::DeadNozzles;
pub use diffusion_kernel::Kernel;
pub use pwg_definitions::Kind;
pub use reading::{DEFAULT_PROFILE, Job, profile_name, read_words};
pub use table::Verb;
pub use usage::{UsageCause, UsageFault};
pub use values::{MOST_NAME, grain_value, kernel_named, worker_count};
pub use weave_base::Words;

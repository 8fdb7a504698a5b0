//! What the words of the spool ask for: a profile, a kernel, grain, workers, and for each sender the names of its
//! files.
//!
//! `read_spool_words` returns exactly the meaning of the words: their request, or the first refused word and the cause.
//! `profile_name` returns the value of the word `profile=..`, or the name of the built-in profile. `name_count` and
//! `name` return the names of each sender. These calls allocate no memory. The table of `specs/Keys.antt` has the keys
//! and the values that they take; the keys that the spool shares with a command line are those of `job_words`.
//!
//! By `laws` a request has a grain of 32 at most, 1 to 64 workers and 1 to 8 senders, and its words list as many
//! senders, each of 1 to 64 names of 1 to 255 bytes. The name of the profile has 1 to 255 bytes too
//! (`a_request_is_within_bounds`).
#![tactic(auto)]

pub mod examples;
mod faults;
mod given;
mod keys;
pub mod laws;
mod names;
mod reading;
mod values;

pub use diffusion_kernel::Kernel;
pub use faults::{SpoolCause, SpoolFault};
pub use names::{name, name_count};
pub use reading::{SpoolRequest, profile_name, read_spool_words};
pub use weave_base::Words;

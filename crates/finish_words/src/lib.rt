//! What the words of `jinthbao-finish` ask for: lines about pages, lines about progress, and the name of a text that
//! stops the run.
//!
//! `read_finish_words` returns exactly the meaning of the words: their request, or the first refused word and the
//! cause. `stop_name` returns the value of the word `stop=..`. Neither allocates memory. The keys and the values that
//! they take are the table of `specs/Keys.antt`; why a word is refused is defined in `job_words`.
//!
//! `laws`: the name of a request has 1 to 255 bytes, and its word is one of the words (`a_request_keeps_its_name`); a
//! fault is at one of the words, and has one of four causes (`a_fault_is_at_a_word`).
#![tactic(auto)]

pub mod examples;
mod given;
mod keys;
pub mod laws;
mod reading;
mod values;

pub use job_words::{UsageCause, UsageFault};
pub use reading::{FinishRequest, read_finish_words, stop_name};
pub use weave_base::Words;

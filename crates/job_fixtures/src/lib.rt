//! What tests of print jobs share: the jobs of one page on the printer `tiny` and that printer's text, worked out by
//! hand; and slow programs that list and play print jobs, byte by byte and dot by dot. The slow programs share no code
//! with the driver, and tests compare the driver's runs with them.
#![tactic(auto)]

mod machine;
mod outcomes;
mod reader;
mod tiny;

pub use outcomes::{PlainOutcome, listed, played};
pub use tiny::{
    TINY_COMMANDS, TINY_HEALED_JOB, TINY_IMAGES, TINY_JOB, TINY_SHINGLED_JOB, TINY_TEXT, tiny_rows,
};

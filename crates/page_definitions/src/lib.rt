//! A page on paper: the dots that it asks for, the bytes of the job that prints it, and what it means that bytes print
//! pages. Definitions only: `page_laws` proves that the bytes print the dots.
#![tactic(auto)]

mod way;

pub use way::Way;

//! Tests of whole runs of the finisher: jobs in, finished jobs, lines and a status out. `makers` has its other calls.
//!
//! The expected values were worked out by hand, or by a plain rule over the commands that the slow lister of
//! `job_fixtures` finds. Its slow player shows what a finished job puts on its sheets.
#![tactic(auto)]

#[cfg(test)]
mod changed;
#[cfg(test)]
mod failures;
#[cfg(test)]
mod lines;
#[cfg(test)]
mod makers;
#[cfg(test)]
mod plain;
#[cfg(test)]
mod prefixes;
#[cfg(test)]
mod runs;
#[cfg(test)]
mod stops;
#[cfg(test)]
mod words;

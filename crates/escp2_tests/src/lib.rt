//! Tests of the crates of print jobs, by their public items alone: which commands are in the table, rows and commands
//! written and read back, the commands of a job from a source, its listing, and the job that was worked out by hand.
#![tactic(auto)]

#[cfg(test)]
mod checks;
#[cfg(test)]
mod feed;
#[cfg(test)]
mod lines;
#[cfg(test)]
mod lister;
#[cfg(test)]
mod reader;
#[cfg(test)]
mod rows;
#[cfg(test)]
mod table;
#[cfg(test)]
mod writer;

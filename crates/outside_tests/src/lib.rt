//! Tests of sources, sinks, shelves and words, and of bytes that are read ahead or gathered. They show that each call
//! can succeed, and reach std's readers and writers and the disk.
#![tactic(auto)]

#[cfg(test)]
mod buffers;
#[cfg(test)]
mod checks;
#[cfg(test)]
mod shelves;
#[cfg(test)]
mod sinks;
#[cfg(test)]
mod sources;
#[cfg(test)]
mod words;

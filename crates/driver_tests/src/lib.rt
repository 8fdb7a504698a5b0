//! Tests of whole runs of the driver: pages and profiles in, jobs and error lines out.
//!
//! The expected values were worked out independently of the driver: by hand, or by a slow program that follows the
//! definitions.
#![tactic(auto)]

#[cfg(test)]
mod any_printer;
#[cfg(test)]
mod calls;
#[cfg(test)]
mod colours;
#[cfg(test)]
mod faults;
#[cfg(test)]
mod fixture;
#[cfg(test)]
mod gates;
#[cfg(test)]
mod grid;
#[cfg(test)]
mod heads;
#[cfg(test)]
mod job_bytes;
#[cfg(test)]
mod jobs;
#[cfg(test)]
mod kernels;
#[cfg(test)]
mod machine;
#[cfg(test)]
mod meters;
#[cfg(test)]
mod outside;
#[cfg(test)]
mod pages;
#[cfg(test)]
mod pictures;
#[cfg(test)]
mod plain;
#[cfg(test)]
mod played;
#[cfg(test)]
mod printed;
#[cfg(test)]
mod printers;
#[cfg(test)]
mod profiles;
#[cfg(test)]
mod rows;
#[cfg(test)]
mod runs;
#[cfg(test)]
mod small_heads;
#[cfg(test)]
mod ways;
#[cfg(test)]
mod weave;

//! Tests of whole runs by shingled passes, around dead nozzles, and of trials.
//!
//! The expected values were worked out independently of the driver, by hand or by another program.
mod trials;
mod ways;

//! Tests of whole runs of the commands for print jobs.
mod dots;
mod lists;
mod random;
mod random_jobs;

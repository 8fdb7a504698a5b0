//! Tests of whole runs that count their pages on meters.
//!
//! The pages are few and plain, so that their dots are counted by hand.
mod caps;
mod fixture;
mod many_meters;

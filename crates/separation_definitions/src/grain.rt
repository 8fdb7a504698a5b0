//! The greatest grain.

/// The greatest grain, in amounts. Grain moves no amount by more than this.
pub const MOST_GRAIN: u8 = 32;

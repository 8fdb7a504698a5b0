//! The error of a read or a write.

/// A read or a write failed. The source or the sink counts its faults.
#[derive(Clone, Copy, Debug, PartialEq, Eq)]
pub struct Failed;
